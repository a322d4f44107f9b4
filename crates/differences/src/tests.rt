// The lamp and counters against each other.
use super::first::*;
use answers::table::Table;
use std::alloc::Global;
use std::test::Fail;

fn table(heap: Global, rows: &[Vec<u32>]) -> Result<Table, Fail> {
    Table::from_rows(heap, rows).map_err(|_| Fail::new("no table"))
}

// Key 1 changes what is shown.
fn lamp(heap: Global) -> Result<Table, Fail> {
    let rows = vec![in heap; vec![in heap; 0, 0, 1]?, vec![in heap; 9, 1, 0]?]?;
    table(heap, rows.as_slice())
}

// No key changes what is shown.
fn dark(heap: Global) -> Result<Table, Fail> {
    let rows = vec![in heap; vec![in heap; 0, 0, 0]?]?;
    table(heap, rows.as_slice())
}

// The only key counts round, and the last of so many rows shows 1.
fn counter(heap: Global, count: u32) -> Result<Table, Fail> {
    let mut rows = Vec::new(heap);
    for i in 1..count {
        rows.push(vec![in heap; 0, i]?)?;
    }
    rows.push(vec![in heap; 1, 0]?)?;
    table(heap, rows.as_slice())
}

fn said(heap: Global, one: &Table, other: &Table) -> Result<String, Fail> {
    match first_difference(heap, one, other) {
        Ok(word) => Ok(format!(in heap; "{word:?}")?),
        Err(fault) => Ok(format!(in heap; "{fault}")?),
    }
}

#[test]
fn lamps(rt: HostRuntime) -> Result<(), Fail> {
    let heap = rt.alloc();
    let lamp = lamp(heap)?;
    assert_eq!(rt; said(heap, &lamp, &lamp)?.as_str(), "None");
    assert_eq!(rt; said(heap, &dark(heap)?, &lamp)?.as_str(), "Some([1])");
    Ok(())
}

#[test]
fn counters(rt: HostRuntime) -> Result<(), Fail> {
    let heap = rt.alloc();
    let three = counter(heap, 3)?;
    let four = counter(heap, 4)?;
    assert_eq!(rt; said(heap, &four, &four)?.as_str(), "None");
    assert_eq!(rt; said(heap, &three, &four)?.as_str(), "Some([0, 0])");
    assert_eq!(rt; said(heap, &counter(heap, 1)?, &four)?.as_str(), "Some([])");
    assert_eq!(rt;
        said(heap, &three, &dark(heap)?)?.as_str(),
        "the tables are for different numbers of keys"
    );
    Ok(())
}
