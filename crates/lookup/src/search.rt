// Looks through all answers for a word.
ghost use Rattle.areas.specs.Memories.{Reads};
ghost use Rattle.model.specs.Pages.{observations_of};
ghost use Rattle.store.specs.Decoding.{page_of};
ghost use Rattle.spelling.specs.Spelt.{spelt};
ghost use Rattle.lookup.specs.Named.{AnswerTo, AllNamed};

use crate::parts;
use areas::reading::Readable;
use moves::counters;
use spelling::Spelling;

// The number of the answer to the word.
pub fn find<M: Readable>(memory: &M, word: Spelling<'_>) -> Option<u32>
    ensures { Reads (M.held memory.now) (M.laid_for memory.now) (λ w d. AllNamed w d → AnswerTo (observations_of (page_of w d)) (spelt word.entry) result) }
{
    for c in 0..counters::answers(memory) {
        let answer = memory.record_at(c as usize);
        if parts::spell(memory.view(), answer).same(&word) {
            return Some(c);
        }
    }
    None
}
