// A lamp that key 1 switches: what is missing, and which edge is like which row.
use crate::{first_gap, lead_edges, row_like};
use areas::memory::Memory;
use areas::records::Record;
use moves::answers::add_entry;
use moves::cells::set_cell;
use moves::numbers::Edge;
use moves::opening::read_shape;
use std::test::Fail;
use store::begin;

// The next answer: what key x of row 0 showed, or the empty word (no key).
fn tell(memory: &mut Memory<'_>, edge: Edge, number: u32, shown: u32) {
    let answer = Record {
        row: 0,
        key: edge.0,
        start: 0,
        size: 0,
        shown,
    };
    add_entry(memory, answer);
    set_cell(memory, edge, 0, number);
}

#[test]
fn lamp(rt: HostRuntime) -> Result<(), Fail> {
    let mut words = [0; 8000];
    begin(2, 3, 10, &mut words);
    let Some(shape) = read_shape(&words) else {
        return Err(Fail::new("no store"));
    };
    let mut memory = Memory {
        words: &mut words,
        shape,
    };
    tell(&mut memory, Edge(0), 0, 0);
    let Some(gap) = first_gap(&memory) else {
        return Err(Fail::new("full"));
    };
    assert_eq!(rt; (gap.edge.0, gap.suffix), (1, 0));
    tell(&mut memory, Edge(1), 1, 0);
    tell(&mut memory, Edge(2), 2, 9);
    assert!(rt; first_gap(&memory).is_none());
    assert!(rt; row_like(&memory, Edge(1)).is_some());
    assert!(rt; row_like(&memory, Edge(2)).is_none());
    Ok(())
}

// The edge of key 1 is like no row.
#[test]
fn edge_like_none(rt: HostRuntime) -> Result<(), Fail> {
    let mut words = [0; 8000];
    begin(2, 3, 10, &mut words);
    let Some(shape) = read_shape(&words) else {
        return Err(Fail::new("no store"));
    };
    let mut memory = Memory {
        words: &mut words,
        shape,
    };
    tell(&mut memory, Edge(0), 0, 0);
    tell(&mut memory, Edge(1), 1, 0);
    tell(&mut memory, Edge(2), 2, 9);
    match lead_edges(&mut memory) {
        Some(edge) => {
            assert_eq!(rt; edge.0, 2);
            Ok(())
        },
        None => Err(Fail::new("closed")),
    }
}
