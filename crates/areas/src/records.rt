// The records of the answers, eight words each: row, key, start, size, what was shown, and a spare word.
ghost use Rattle.areas.specs.Memories.{Writes};
ghost use Rattle.areas.specs.Records.{SavedRecord};

use crate::area::Area;
use crate::memory::Memory;

// The key is a word of the memory: 0 for none, else 1 and the key's number.
#[derive(Clone, Copy)]
pub struct Record {
    pub row: u32,
    pub key: u32,
    pub start: usize,
    pub size: usize,
    pub shown: u32,
}

impl Memory<'_> {
    // Writes record i of the answers, but for its spare word.
    pub fn save_record(&mut self, i: usize, answer: Record)
        ensures { Writes self.old self.new (λ w w' d. SavedRecord w w' d i answer) }
    {
        if i < self.shape.answers() {
            self.save(Area::Answers, 8 * i, answer.row);
            self.save(Area::Answers, 8 * i + 1, answer.key);
            self.save_wide(Area::Answers, 8 * i + 2, answer.start);
            self.save_wide(Area::Answers, 8 * i + 4, answer.size);
            self.save(Area::Answers, 8 * i + 6, answer.shown);
        }
    }
}
