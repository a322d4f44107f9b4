// A box of one key that shows 9 after three presses and more.
use crate::{bisect, half, hear_middle, narrow, start};
use areas::memory::Memory;
use areas::records::Record;
use moves::answers::add_entry;
use moves::cells::set_cell;
use moves::counters;
use moves::letters::add_letters;
use moves::numbers::{Edge, Row};
use moves::opening::read_shape;
use moves::phase::{Phase, phase_of};
use moves::successors::set_successor;
use std::test::Fail;
use store::begin;

// The next answer, to a row's word with a key, if there is one, and letters of the log.
fn tell(memory: &mut Memory<'_>, key: u32, size: usize, shown: u32) {
    let answer = Record {
        row: 0,
        key,
        start: 0,
        size,
        shown,
    };
    add_entry(memory, answer);
}

// A table of one row that shows 0, refuted by three presses, after which 9 was shown.
fn refute(memory: &mut Memory<'_>) {
    tell(memory, 0, 0, 0);
    set_cell(memory, Edge(0), 0, 0);
    tell(memory, 1, 0, 0);
    set_cell(memory, Edge(1), 0, 1);
    set_successor(memory, Edge(1), Row(0));
    add_letters(memory, &[0, 0, 0]);
    tell(memory, 0, 3, 9);
}

#[test]
fn ends(rt: HostRuntime) -> Result<(), Fail> {
    let mut words = [0; 8000];
    begin(1, 4, 10, &mut words);
    let Some(shape) = read_shape(&words) else {
        return Err(Fail::new("no store"));
    };
    let mut memory = Memory {
        words: &mut words,
        shape,
    };
    refute(&mut memory);
    let search = start(&memory, 2);
    assert_eq!(rt; (search.low, search.high, search.right), (0, 3, 0));
    let upper = half(&memory, search, 2);
    assert_eq!(rt; (upper.low, upper.high, upper.left), (1, 3, 2));
    let lower = half(&memory, search, 1);
    assert_eq!(rt; (lower.low, lower.high, lower.right), (0, 1, 1));
    match narrow(&memory, lower) {
        Ok(place) => {
            assert_eq!(rt; place.high, 1);
            Ok(())
        },
        Err(_) => Err(Fail::new("unknown")),
    }
}

#[test]
fn one_row_more(rt: HostRuntime) -> Result<(), Fail> {
    let mut words = [0; 8000];
    begin(1, 4, 10, &mut words);
    let Some(shape) = read_shape(&words) else {
        return Err(Fail::new("no store"));
    };
    let mut memory = Memory {
        words: &mut words,
        shape,
    };
    refute(&mut memory);
    let search = start(&memory, 2);
    assert!(rt; !bisect(&mut memory, search));
    let Phase::AsksMiddle(asked) = phase_of(&memory) else {
        return Err(Fail::new("no question"));
    };
    // Two presses, after which the box shows 0.
    hear_middle(&mut memory, asked, 0);
    let Phase::Bisecting(rest) = phase_of(&memory) else {
        return Err(Fail::new("no search"));
    };
    assert_eq!(rt; (rest.low, rest.high), (0, 1));
    assert!(rt; bisect(&mut memory, rest));
    assert_eq!(rt; counters::rows(&memory), 2);
    assert_eq!(rt; counters::suffixes(&memory), 2);
    Ok(())
}
