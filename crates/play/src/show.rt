// Prints a game: each table that the learner showed, how it was refuted, and how the game ended.
use crate::boxes::Example;
use crate::problem::Problem;
use answers::table::Table;
use formats::{Numbers, Word};
use game::{Game, GameFault, Transcript};
use std::alloc::AllocError;
use std::io;

// Prints what happens in games of one machine.
#[derive(Clone, Copy)]
pub struct Printer<'a> {
    pub rt: &'a HostRuntime,
    pub machine: &'a Table,
}

impl Printer<'_> {
    // The table of so many rows that stands first in these numbers.
    fn table(self, rows: usize, numbers: &[u32]) -> io::Result<()> {
        println!(self.rt; "table {rows}")?;
        for row in numbers.chunks(self.machine.keys() + 1).take(rows) {
            let line = Numbers(row);
            println!(self.rt; "{line}")?;
        }
        Ok(())
    }

    // The tables that were refuted.
    fn refuted(self, transcript: &Transcript) -> io::Result<()> {
        for found in &transcript.counterexamples {
            let rows = found.hypothesis.len() / (self.machine.keys() + 1);
            self.table(rows, found.hypothesis.as_slice())?;
            let word = Word(found.word.as_slice());
            let shown = found.shown;
            println!(self.rt; "refuted by {word} : {shown}")?;
        }
        Ok(())
    }

    // The box and the most states that the learner allows.
    pub fn heading(self, example: &Example) -> io::Result<()> {
        let name = example.name;
        let keys = example.keys;
        let most = example.most;
        println!(self.rt; "{name} (keys {keys}, states at most {most})")
    }

    // A game in which the table was learnt, which stands first in out.
    fn learnt(self, game: &Game, out: &[u32]) -> io::Result<()> {
        self.refuted(&game.transcript)?;
        self.table(game.rows, out)?;
        let rows = game.rows;
        let asked = game.transcript.asked;
        let tables = game.transcript.counterexamples.len();
        println!(self.rt; "learnt {rows} rows, {asked} words asked, {tables} tables refuted")
    }

    // A game in which the machine was found larger.
    fn larger(self, transcript: &Transcript) -> io::Result<()> {
        self.refuted(transcript)?;
        let asked = transcript.asked;
        println!(self.rt; "larger after {asked} words")
    }

    // How a game went, or why it did not come to its end.
    pub fn game(self, game: Result<Game, GameFault>, out: &[u32]) -> Result<(), Problem> {
        match game {
            Ok(game) => Ok(self.learnt(&game, out)?),
            Err(GameFault::Larger(transcript)) => Ok(self.larger(&transcript)?),
            Err(GameFault::Few) => Err(Problem::NoStore),
            Err(GameFault::Short(_)) => Err(Problem::Short),
            Err(GameFault::Full(_, _)) => Err(Problem::Full),
            Err(GameFault::Memory) => Err(Problem::Memory(AllocError)),
        }
    }
}
