// Beginning at the limits.
use crate::{begin, most_states, room_in};
use promises::Began;
use std::test::Fail;

// Whether a store of so many words can be begun.
fn ready(rt: &HostRuntime, keys: u32, most: u32, room: u32, words: usize) -> Result<bool, Fail> {
    let mut store = vec![in rt.alloc(); 7u32; words]?;
    Ok(begin(keys, most, room, store.as_mut_slice()) == Began::Ready)
}

#[test]
fn limits(rt: HostRuntime) -> Result<(), Fail> {
    assert!(rt; !ready(&rt, 0, 1, 0, 8192)?);
    assert!(rt; ready(&rt, 1, 1, 0, 4480)?);
    assert!(rt; !ready(&rt, 1, 1, 0, 4479)?);
    assert!(rt; ready(&rt, 1, 1, 3, 4528)?);
    assert!(rt; !ready(&rt, 1, 1, 3, 4527)?);
    assert!(rt; ready(&rt, 64, 1, 0, 16576)?);
    assert!(rt; !ready(&rt, 65, 1, 0, 20000)?);
    assert!(rt; !ready(&rt, 1, 0, 0, 8192)?);
    assert!(rt; !ready(&rt, 1, 1025, 0, 8192)?);
    assert!(rt; !ready(&rt, 1, 1024, 4294967295, 8192)?);
    assert!(rt; ready(&rt, 1, 1024, 0, 134483968)?);
    assert!(rt; !ready(&rt, 1, 1024, 0, 134483967)?);
    Ok(())
}

#[test]
fn rooms(rt: HostRuntime) {
    assert_eq!(rt; room_in(1, 1, 4480), Some(0));
    assert_eq!(rt; room_in(1, 1, 4479), None);
    assert_eq!(rt; room_in(1, 1, 4528), Some(3));
    assert_eq!(rt; most_states(2, 1000000), 71);
}
