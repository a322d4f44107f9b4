// Games that are won, and each way in which one is not.
use crate::{GameFault, play};
use answers::table::Table;
use std::alloc::Global;
use std::test::Fail;

// The lamp is on after every seventh press.
const COUNTER: [u32; 14] = [9, 1, 0, 2, 0, 3, 0, 4, 0, 5, 0, 6, 0, 0];

fn counter(heap: Global) -> Result<Table, Fail> {
    Table::from_numbers(heap, 1, &COUNTER).map_err(|_| Fail::new("no table"))
}

// How a game against the counter ends, with so many states allowed and so many words lent.
fn outcome(rt: &HostRuntime, most: u32, store: usize, out: usize) -> Result<&'static str, Fail> {
    let heap = rt.alloc();
    let mut store = vec![in heap; 7u32; store]?;
    let mut out = vec![in heap; 7u32; out]?;
    let game = play(
        heap,
        &counter(heap)?,
        most,
        0,
        store.as_mut_slice(),
        out.as_mut_slice(),
    );
    match game {
        Ok(_) => Ok("learnt"),
        Err(GameFault::Few) => Ok("few"),
        Err(GameFault::Short(_)) => Ok("short"),
        Err(GameFault::Full(_, _)) => Ok("full"),
        Err(GameFault::Larger(_)) => Ok("larger"),
        Err(GameFault::Memory) => Err(Fail::new("no memory")),
    }
}

#[test]
fn outcomes(rt: HostRuntime) -> Result<(), Fail> {
    assert_eq!(rt; outcome(&rt, 10, 20000, 100)?, "learnt");
    assert_eq!(rt; outcome(&rt, 6, 20000, 100)?, "larger");
    assert_eq!(rt; outcome(&rt, 10, 19455, 100)?, "few");
    assert_eq!(rt; outcome(&rt, 10, 19456, 100)?, "full");
    assert_eq!(rt; outcome(&rt, 10, 19567, 100)?, "full");
    assert_eq!(rt; outcome(&rt, 10, 19568, 100)?, "learnt");
    assert_eq!(rt; outcome(&rt, 10, 20000, 31)?, "short");
    assert_eq!(rt; outcome(&rt, 10, 20000, 38)?, "short");
    assert_eq!(rt; outcome(&rt, 10, 20000, 39)?, "learnt");
    Ok(())
}
