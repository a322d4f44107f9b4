// Answers found by words that are given by other parts.
use crate::parts::spell;
use crate::search::find;
use areas::area::Area;
use areas::memory::{Memory, View};
use areas::records::Record;
use areas::shape::Shape;
use spelling::Spelling;
use std::test::Fail;
use store::{begin, header};

#[test]
fn found(rt: HostRuntime) -> Result<(), Fail> {
    let mut words = [0; 8000];
    begin(2, 3, 10, &mut words);
    let Some(shape) = Shape::new(2, 3, words.len()) else {
        return Err(Fail::new("no shape"));
    };
    let mut memory = Memory {
        words: &mut words,
        shape,
    };
    let empty = Spelling {
        front: &[],
        key: None,
        rest: &[],
    };
    let pressed = Spelling {
        front: &[1],
        key: None,
        rest: &[],
    };
    assert_eq!(rt; find(&memory, empty), None);
    let mut answer = Record {
        row: 0,
        key: 0,
        start: 0,
        size: 0,
        shown: 0,
    };
    memory.save_record(0, answer);
    answer.key = 2;
    memory.save_record(1, answer);
    memory.save(Area::Header, header::ANSWERS, 2);
    assert_eq!(rt; find(&memory, empty), Some(0));
    assert_eq!(rt; find(&memory, pressed), Some(1));
    Ok(())
}

// The parts of a word are lent for as long as the memory is.
fn pressed(words: &[u32], shape: Shape) -> Spelling<'_> {
    let word = Record {
        row: 0,
        key: 2,
        start: 0,
        size: 0,
        shown: 0,
    };
    spell(View { words, shape }, word)
}

#[test]
fn read_only(rt: HostRuntime) -> Result<(), Fail> {
    let mut words = [0; 8000];
    begin(2, 3, 10, &mut words);
    let Some(shape) = Shape::new(2, 3, words.len()) else {
        return Err(Fail::new("no shape"));
    };
    let word = pressed(&words, shape);
    assert_eq!(rt; word.count(), 1);
    assert_eq!(rt; word.letter(0), 1);
    let view = View {
        words: &words,
        shape,
    };
    assert_eq!(rt; find(&view, word), None);
    Ok(())
}
