// A lamp that key 1 switches, learnt call by call; and calls that are refused.
use crate::{refuted, step, told};
use promises::{Given, Wanted};
use std::test::Fail;
use store::begin;

// What the lamp shows after a word.
fn lamp(word: &[u32]) -> u32 {
    let mut shown = 0;
    for x in word {
        if *x == 1 {
            shown = 9 - shown.min(9);
        }
    }
    shown
}

// Answers one question; what is wanted, where it is no question.
fn answer_one(store: &mut [u32], out: &mut [u32]) -> Option<Wanted> {
    let wanted = step(store, out);
    if let Wanted::Ask(count) = wanted {
        told(store, lamp(&out[0..count.min(out.len())]));
        return None;
    }
    Some(wanted)
}

// Answers questions until something else is wanted, and counts them.
fn answer_all(store: &mut [u32], out: &mut [u32]) -> (u32, Wanted) {
    for asked in 0..100 {
        if let Some(wanted) = answer_one(store, out) {
            return (asked, wanted);
        }
    }
    (100, Wanted::Broken)
}

#[test]
fn learnt(rt: HostRuntime) -> Result<(), Fail> {
    let mut store = [0; 8000];
    let mut out = [7; 40];
    begin(2, 2, 10, &mut store);
    let (asked, wanted) = answer_all(&mut store, &mut out);
    assert_eq!(rt; asked, 5);
    assert_eq!(rt; wanted, Wanted::Table(2));
    assert_eq!(rt; (out[0], out[1], out[2]), (0, 0, 1));
    assert_eq!(rt; (out[3], out[4], out[5], out[6]), (9, 1, 0, 7));
    assert_eq!(rt; refuted(&mut store, &[1, 0], 9), Given::NoRefute);
    assert_eq!(rt; refuted(&mut store, &[0, 1, 1, 0], 5), Given::Taken);
    Ok(())
}

#[test]
fn larger(rt: HostRuntime) -> Result<(), Fail> {
    let mut store = [0; 8000];
    let mut out = [7; 40];
    begin(2, 1, 10, &mut store);
    let (asked, wanted) = answer_all(&mut store, &mut out);
    assert!(rt; asked <= 3);
    assert_eq!(rt; wanted, Wanted::Larger);
    Ok(())
}

#[test]
fn refusals(rt: HostRuntime) -> Result<(), Fail> {
    let mut store = [0; 8000];
    let mut out = [7; 40];
    assert_eq!(rt; step(&mut store, &mut out), Wanted::NoStore);
    assert_eq!(rt; told(&mut store, 1), Given::Unstored);
    begin(2, 2, 10, &mut store);
    assert_eq!(rt; told(&mut store, 1), Given::NotAsked);
    assert_eq!(rt; refuted(&mut store, &[0], 1), Given::NotAsked);
    assert_eq!(rt; step(&mut store, &mut out[0..10]), Wanted::Short);
    Ok(())
}
