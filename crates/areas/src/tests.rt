// Shapes at their limits, and reads and writes at the ends of areas.
use crate::area::Area;
use crate::memory::{Memory, View};
use crate::reading::Readable;
use crate::records::Record;
use crate::shape::Shape;
use std::test::Fail;

#[test]
fn limits(rt: HostRuntime) -> Result<(), Fail> {
    assert!(rt; Shape::new(1, 1, 610).is_none());
    assert!(rt; Shape::new(0, 1, 9999).is_none());
    assert!(rt; Shape::new(65, 1, 9999).is_none());
    assert!(rt; Shape::new(64, 1024, 605641792).is_none());
    let Some(shape) = Shape::new(64, 1024, 605641793) else {
        return Err(Fail::new("large"));
    };
    assert_eq!(rt; shape.base(Area::Letters), 605641793);
    assert_eq!(rt; shape.size(Area::Letters), 0);
    Ok(())
}

#[test]
fn area_ends(rt: HostRuntime) -> Result<(), Fail> {
    let mut words = [5; 620];
    let Some(shape) = Shape::new(1, 1, 620) else {
        return Err(Fail::new("small"));
    };
    let mut memory = Memory {
        words: &mut words,
        shape,
    };
    assert_eq!(rt; shape.size(Area::Letters), 9);
    memory.save(Area::Header, 63, 1);
    memory.save(Area::Header, 64, 2);
    assert_eq!(rt; memory.load(Area::Header, 63), 1);
    assert_eq!(rt; memory.load(Area::Header, 64), 0);
    assert_eq!(rt; memory.load(Area::Edges, 0), 5);
    memory.copy_in(Area::Letters, 8, &[3, 4]);
    assert_eq!(rt; memory.load(Area::Letters, 8), 3);
    memory.clear_before(Area::Answers);
    assert_eq!(rt; memory.load(Area::Successors, 1), 0);
    assert_eq!(rt; memory.load(Area::Answers, 0), 5);
    Ok(())
}

#[test]
fn wide_records(rt: HostRuntime) -> Result<(), Fail> {
    let mut words = [0; 620];
    let Some(shape) = Shape::new(1, 1, 620) else {
        return Err(Fail::new("small"));
    };
    let mut memory = Memory {
        words: &mut words,
        shape,
    };
    let last = 66;
    assert_eq!(rt; shape.answers(), last + 1);
    let answer = Record {
        row: 1,
        key: 2,
        start: 5000000000,
        size: 7,
        shown: 4294967295,
    };
    memory.save_record(last, answer);
    let read = memory.record_at(last);
    assert_eq!(rt; read.start, 5000000000);
    assert_eq!(rt; read.shown, 4294967295);
    assert_eq!(rt; memory.record_at(last + 1).start, 0);
    Ok(())
}

// Two views of one memory are read side by side.
#[test]
fn read_only(rt: HostRuntime) -> Result<(), Fail> {
    let words = [5; 620];
    let Some(shape) = Shape::new(1, 1, 620) else {
        return Err(Fail::new("small"));
    };
    let view = View {
        words: &words,
        shape,
    };
    let other = view;
    assert_eq!(rt; view.load(Area::Letters, 8), 5);
    assert_eq!(rt; other.load(Area::Letters, 9), 0);
    assert_eq!(rt; view.load_wide(Area::Letters, 0), 21474836485);
    assert_eq!(rt; other.reach(Area::Letters), 9);
    assert_eq!(rt; view.record_at(0).shown, 5);
    assert_eq!(rt; other.span_at(1).size, 0);
    assert_eq!(rt; view.keys(), other.most());
    Ok(())
}
