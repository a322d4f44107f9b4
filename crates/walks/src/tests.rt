// A counter of three by one key, and a refuted table.
use crate::{first_wrong, lead, mixed};
use areas::memory::Memory;
use areas::records::Record;
use moves::answers::add_entry;
use moves::cells::set_cell;
use moves::letters::add_letters;
use moves::numbers::{Edge, Row};
use moves::opening::read_shape;
use moves::successors::set_successor;
use spelling::Spelling;
use std::test::Fail;
use store::begin;

#[test]
fn counter(rt: HostRuntime) -> Result<(), Fail> {
    let mut words = [0; 8000];
    begin(1, 3, 10, &mut words);
    let Some(shape) = read_shape(&words) else {
        return Err(Fail::new("no store"));
    };
    let mut memory = Memory {
        words: &mut words,
        shape,
    };
    set_successor(&mut memory, Edge(1), Row(1));
    set_successor(&mut memory, Edge(2), Row(2));
    set_successor(&mut memory, Edge(3), Row(0));
    let word = Spelling {
        front: &[0, 0],
        key: Some(0),
        rest: &[0],
    };
    assert_eq!(rt; lead(&memory, Row(0), word, 9).0, 1);
    assert_eq!(rt; lead(&memory, Row(0), word, 2).0, 2);
    assert_eq!(rt; lead(&memory, Row(2), word, 0).0, 2);
    Ok(())
}

// A table of one row that shows 0, and a word of three letters after which 9 was shown.
#[test]
fn refuted(rt: HostRuntime) -> Result<(), Fail> {
    let mut words = [0; 8000];
    begin(1, 3, 10, &mut words);
    let Some(shape) = read_shape(&words) else {
        return Err(Fail::new("no store"));
    };
    let mut memory = Memory {
        words: &mut words,
        shape,
    };
    let mut answer = Record {
        row: 0,
        key: 0,
        start: 0,
        size: 0,
        shown: 0,
    };
    add_entry(&mut memory, answer);
    set_cell(&mut memory, Edge(0), 0, 0);
    assert_eq!(rt; first_wrong(&memory), None);
    add_letters(&mut memory, &[0, 0, 0]);
    answer.size = 3;
    answer.shown = 9;
    add_entry(&mut memory, answer);
    assert_eq!(rt; first_wrong(&memory), Some(1));
    let middle = mixed(&memory, 1, 1, 5);
    assert_eq!(rt; (middle.start, middle.size, middle.shown), (1, 2, 5));
    Ok(())
}
