// Makes a store for a box with so many keys and at most so many states, and says what it has room for.
#![tactic(auto)]

mod arguments;

use crate::arguments::{Wrong, number};
use promises::Began;
use std::io;
use std::process::ExitCode;

// The words of the store: 3.5 MiB, which leaves half a MiB for all else.
const WORDS: usize = 917504;

const HELP: &str = "restore KEYS STATES

Makes a store for a box with so many keys, 1 to 64, and at most so many
states, 1 to 1024, and says how many letters of refuting words it has room
for. The store takes 3.5 MiB.";

// What would fit, where the store does not.
fn too_large(keys: u32, states: u32) -> Wrong {
    match store::most_states(keys, WORDS) {
        0 => Wrong::OtherKeys(keys),
        most => Wrong::TooLarge { keys, states, most },
    }
}

fn make(rt: &HostRuntime, keys: u32, states: u32) -> Result<(), Wrong> {
    let Some(room) = store::room_in(keys, states, WORDS) else {
        return Err(too_large(keys, states));
    };
    let mut memory = vec![in rt.alloc(); 0u32; WORDS]?;
    match store::begin(keys, states, room, memory.as_mut_slice()) {
        Began::Ready => {
            println!(rt;
                "a store for {keys} keys and at most {states} states, with room for {room} letters of refuting words"
            )?;
            Ok(())
        }
        Began::Few => Err(too_large(keys, states)),
    }
}

fn help(rt: &HostRuntime) -> io::Result<()> {
    println!(rt; "{HELP}")
}

fn run(rt: &HostRuntime) -> Result<(), Wrong> {
    let words = console::arguments(rt)?;
    match words.as_slice() {
        [] => Ok(help(rt)?),
        [word] if word.as_str() == "--help" => Ok(help(rt)?),
        [keys, states] => make(rt, number(keys.as_str())?, number(states.as_str())?),
        _ => Err(Wrong::Usage),
    }
}

fn main(rt: HostRuntime) -> Result<ExitCode, Wrong> {
    Ok(console::status(&rt, "restore", run(&rt))?)
}
