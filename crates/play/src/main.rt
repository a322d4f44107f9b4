// Plays some boxes against the learner, and prints each table that it shows and how it was refuted.
#![tactic(auto)]

mod boxes;
mod problem;
mod show;

use crate::boxes::{EXAMPLES, Example};
use crate::problem::Problem;
use crate::show::Printer;
use answers::table::Table;
use std::io;
use std::process::ExitCode;

// The words of the store: 3.5 MiB.
const STORE: usize = 917504;

// The words of the area where questions and tables are written: a quarter of a MiB.
const OUT: usize = 65536;

// The letters of refuting words that there is to be room for.
const ROOM: u32 = 1000;

fn play(
    rt: &HostRuntime,
    example: &Example,
    store: &mut [u32],
    out: &mut [u32],
) -> Result<(), Problem> {
    let machine = Table::from_numbers(rt.alloc(), example.keys, example.numbers).map_err(
        |_| Problem::NoTable,
    )?;
    let printer = Printer {
        rt,
        machine: &machine,
    };
    printer.heading(example)?;
    let game = game::play(rt.alloc(), &machine, example.most, ROOM, store, out);
    printer.game(game, out)
}

fn run(rt: &HostRuntime) -> Result<(), Problem> {
    let mut store = vec![in rt.alloc(); 0u32; STORE]?;
    let mut out = vec![in rt.alloc(); 0u32; OUT]?;
    for example in &EXAMPLES {
        play(rt, example, store.as_mut_slice(), out.as_mut_slice())?;
    }
    Ok(())
}

fn main(rt: HostRuntime) -> Result<ExitCode, Problem> {
    Ok(console::status(&rt, "play", run(&rt))?)
}
