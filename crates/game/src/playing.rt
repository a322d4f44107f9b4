// A game against a machine, from the beginning of a store to the end.
ghost use Rattle.std.specs.Prelude.{◌≡◌, MatchResult};
ghost use Rattle.game.specs.Games.{finished, Learnt, Failed};

use crate::referee::{Loss, Referee};
use crate::transcript::{Counterexample, Transcript};
use answers::table::Table;
use promises::Began;
use std::alloc::Global;

// A game that was won: so many rows has the table that shows what the machine shows.
#[derive(Drop)]
pub struct Game {
    pub rows: usize,
    pub transcript: Transcript,
}

// Why no table was learnt.
#[derive(Drop)]
pub enum GameFault {
    Few,
    Short(Transcript),
    Full(Transcript, Counterexample),
    Larger(Transcript),
    Memory,
}

// The game that ended so.
fn finish(ended: Result<usize, Loss>, transcript: Transcript) -> Result<Game, GameFault>
    ensures { result ≡ finished ended transcript }
{
    match ended {
        Ok(rows) => Ok(Game { rows, transcript }),
        Err(Loss::Larger) => Err(GameFault::Larger(transcript)),
        Err(Loss::Short) => Err(GameFault::Short(transcript)),
        Err(Loss::Full(found)) => Err(GameFault::Full(transcript, found)),
        Err(Loss::Memory) => Err(GameFault::Memory),
    }
}

// Plays the machine against a learner of at most so many states: answers each question by what the machine shows, and refutes each wrong table by the first word after which the machine shows something else.
pub fn play(
    heap: Global,
    machine: &Table,
    most: u32,
    room: u32,
    store: &mut [u32],
    out: &mut [u32],
) -> Result<Game, GameFault>
    ensures { MatchResult result (Learnt machine.now most room store.old store.new out.new) (Failed machine.now most room store.old store.new out.old out.new) }
{
    let Began::Ready = store::begin(machine.keys() as u32, most, room, store) else {
        return Err(GameFault::Few);
    };
    let mut referee = Referee::new(heap, machine);
    let ended = referee.play_on(store, out);
    finish(ended, referee.transcript)
}
