// The referee of a game, round by round: a question with its answer, or a table with a look at it.
ghost use Rattle.std.specs.Prelude.{◌≡◌, ◌+◌, ◌*◌, take};
ghost use Rattle.answers.specs.Values.{keys_of};
ghost use Rattle.game.specs.declared.referee.Loss.TheVariants.{Memory};
ghost use Rattle.game.specs.Counterexamples.{Empty};
ghost use Rattle.game.specs.Courses.{most_in};
ghost use Rattle.game.specs.Endings.{Going, Asked, Showing, Onward, Ended, Turned};

use crate::hypotheses;
use crate::transcript::{Counterexample, Transcript};
use answers::table::Table;
use promises::{Given, Wanted};
use std::alloc::{AllocError, Global};

// Why a game ends with no table learnt.
#[derive(Drop)]
pub(crate) enum Loss {
    Larger,
    Short,
    Full(Counterexample),
    Memory,
}

// By hand, since contracts name the loss that `?` gives.
impl From<AllocError> for Loss {
    ghost from_gives = { λ _ r. r ≡ Memory };

    fn from(_e: AllocError) -> Loss {
        Loss::Memory
    }
}

// It answers by what the machine shows, looks at each table, and keeps the transcript.
// Store and out are no fields: each contract would have to say that they are still the lent ones.
#[derive(Drop)]
pub(crate) struct Referee<'a> {
    heap: Global,
    machine: &'a Table,
    pub(crate) transcript: Transcript,
}

impl<'a> Referee<'a> {
    // Before the first round.
    pub(crate) fn new(heap: Global, machine: &'a Table) -> Referee<'a>
        ensures machine { result.machine.now ≡ machine.now }
        ensures transcript { Empty result.transcript }
    {
        Referee {
            heap,
            machine,
            transcript: Transcript::new(heap),
        }
    }

    // Answers the question for this word by what the machine shows.
    fn answer(&mut self, store: &mut [u32], word: &[u32])
        requires { Asked self.old store.old word.now }
        ensures { Onward self.old self.new store.old store.new }
    {
        let shown = self.machine.shows(word).unwrap();
        // The learner waits for the answer, so it is taken.
        let _ = calls::told(store, shown);
        self.transcript.asked += 1;
    }

    // Looks at the table of so many rows that stands first in out; so many rows are learnt, unless a counterexample refutes it.
    fn judge(&mut self, store: &mut [u32], out: &[u32], rows: usize) -> Result<Option<usize>, Loss>
        requires { Showing self.old store.old rows (take (rows * (keys_of self.old.machine.now + 1)) out.now) }
        ensures { Turned self.old self.new store.old store.new out.now result }
    {
        let numbers = &out[..rows * (self.machine.keys() + 1)];
        let Some(found) = hypotheses::counterexample(self.heap, self.machine, numbers)? else {
            return Ok(Some(rows));
        };
        let Given::Taken = calls::refuted(store, found.word.as_slice(), found.shown) else {
            return Err(Loss::Full(found));
        };
        self.transcript.add(found)?;
        Ok(None)
    }

    // One round: what the learner wants next, and how many rows were learnt, if that ends the game.
    fn round(&mut self, store: &mut [u32], out: &mut [u32]) -> Result<Option<usize>, Loss>
        requires { Going self.old store.old }
        ensures { Turned self.old self.new store.old store.new out.new result }
    {
        match calls::step(store, out) {
            Wanted::Ask(size) => {
                self.answer(store, &out[..size]);
                Ok(None)
            }
            Wanted::Table(rows) => self.judge(store, out, rows),
            Wanted::Larger => Err(Loss::Larger),
            Wanted::Short => Err(Loss::Short),
            Wanted::Broken | Wanted::NoStore => unreachable(),
        }
    }

    // Plays on until the game ends: so many rows were learnt.
    pub(crate) fn play_on(&mut self, store: &mut [u32], out: &mut [u32]) -> Result<usize, Loss>
        requires { Going self.old store.old }
        ensures { Ended self.old.machine.now (most_in store.old) store.new out.new self.new.transcript result }
    {
        loop {
            if let Some(rows) = self.round(store, out)? {
                return Ok(rows);
            }
        }
    }
}
