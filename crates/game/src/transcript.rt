// What a game leaves on paper: how many words were asked about, and how each wrong table was refuted.
ghost use Rattle.std.specs.Prelude.{◌≡◌, ◌+◌, ◌^◌, ◌<◌, [], ◌∷◌, ◌++◌, length, OnOk};
ghost use Rattle.game.specs.Counterexamples.{Empty, Adds};

use std::alloc::{AllocError, Global};

// A table that was shown, the first word after which the machine shows something else, and what it shows then.
#[derive(Drop)]
pub struct Counterexample {
    pub hypothesis: Vec<u32>,
    pub word: Vec<u32>,
    pub shown: u32,
}

// The words asked about, the letters of all refuting words, and the tables refuted, the oldest first.
#[derive(Drop)]
pub struct Transcript {
    pub asked: usize,
    pub letters: usize,
    pub counterexamples: Vec<Counterexample>,
}

impl Transcript {
    // Nothing was asked yet.
    pub(crate) fn new(heap: Global) -> Transcript
        ensures { Empty result }
    {
        Transcript {
            asked: 0,
            letters: 0,
            counterexamples: Vec::new(heap),
        }
    }

    // One table more was refuted.
    pub(crate) fn add(&mut self, found: Counterexample) -> Result<(), AllocError>
        requires { self.old.letters + length found.word.items < 2 ^ 64 }
        ensures { OnOk result (Adds found self.old self.new) }
    {
        self.letters += found.word.len();
        self.counterexamples.push(found)?;
        Ok(())
    }
}
