// A lamp that key 1 switches, as its first moves stand in a memory.
use crate::answers::add_entry;
use crate::cells::{seen, set_cell};
use crate::counters;
use crate::letters::{add_letters, log_letter};
use crate::numbers::{Edge, Key, Row, edge_behind};
use crate::opening::read_shape;
use crate::phase::{Phase, enter, phase_of};
use crate::rows::{access_letter, access_size, add_row};
use crate::suffixes::{add_suffix, suffix};
use areas::memory::Memory;
use areas::records::Record;
use areas::spans::Span;
use std::test::Fail;
use store::begin;

#[test]
fn lamp(rt: HostRuntime) -> Result<(), Fail> {
    let mut words = [0; 8000];
    assert!(rt; read_shape(&words).is_none());
    begin(2, 3, 10, &mut words);
    let Some(shape) = read_shape(&words) else {
        return Err(Fail::new("no store"));
    };
    let mut memory = Memory {
        words: &mut words,
        shape,
    };
    assert_eq!(rt; counters::rows(&memory), 1);
    let pressed = edge_behind(shape, Row(0), Key(1));
    let answer = Record {
        row: 0,
        key: 2,
        start: 0,
        size: 0,
        shown: 9,
    };
    add_entry(&mut memory, answer);
    set_cell(&mut memory, pressed, 0, 0);
    assert_eq!(rt; seen(&memory, pressed, 0), Some(9));
    assert_eq!(rt; seen(&memory, Edge(0), 0), None);
    add_row(&mut memory, pressed);
    assert_eq!(rt; counters::rows(&memory), 2);
    assert_eq!(rt; access_size(&memory, Row(1)), 1);
    assert_eq!(rt; access_letter(&memory, Row(1), 0), 1);
    Ok(())
}

#[test]
fn refuting_word(rt: HostRuntime) -> Result<(), Fail> {
    let mut words = [0; 8000];
    begin(2, 3, 10, &mut words);
    let Some(shape) = read_shape(&words) else {
        return Err(Fail::new("no store"));
    };
    let mut memory = Memory {
        words: &mut words,
        shape,
    };
    add_letters(&mut memory, &[1, 0, 1]);
    assert_eq!(rt; counters::letters(&memory), 3);
    assert_eq!(rt; log_letter(&memory, 2), 1);
    add_suffix(&mut memory, Span { start: 1, size: 2 });
    assert_eq!(rt; counters::suffixes(&memory), 2);
    assert_eq!(rt; suffix(&memory, 1).size, 2);
    enter(&mut memory, Phase::AsksCell(Edge(2), 1));
    match phase_of(&memory) {
        Phase::AsksCell(edge, column) => {
            assert_eq!(rt; (edge.0, column), (2, 1));
            Ok(())
        },
        _ => Err(Fail::new("another phase")),
    }
}
