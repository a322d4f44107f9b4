// A log: the answers of a box, in the order in which they were told.
ghost use Rattle.std.specs.Prelude.{◌≡◌, [], is_ok};
ghost use Rattle.machines.specs.Answers.{Said};
ghost use Rattle.answers.specs.Logs.{told, told_in, added};

use machines::Saying;
use std::alloc::{AllocError, Global};

// After this word of keys the box showed that.
#[derive(Drop)]
pub struct Answer {
    pub word: Vec<u32>,
    pub shown: u32,
}

#[derive(Drop)]
pub struct Log {
    answers: Vec<Answer>,
}

// A log says what its answers say.
impl Saying for Log {
    ghost says = { λ log. Said (told_in log) };
}

impl Log {
    // A log with no answers.
    pub fn new(heap: Global) -> Log
        ensures { told_in result ≡ [] }
    {
        Log {
            answers: Vec::new(heap),
        }
    }

    // One answer more, behind the others; without memory for it the log stays as it was.
    pub fn add(&mut self, word: Vec<u32>, shown: u32) -> Result<(), AllocError>
        ensures { told_in self.new ≡ added (is_ok result) (told_in self.old) word.items shown }
    {
        self.answers.push(Answer { word, shown })?;
        Ok(())
    }

    // The answers, the oldest first.
    pub fn answers(&self) -> &[Answer]
        ensures { told result.now ≡ told_in self.now }
    {
        self.answers.as_slice()
    }
}
