// Whether there is room for more letters.
ghost use Rattle.std.specs.Prelude.{◌+◌, ◌<◌, ◌≤◌, length, MatchBool};
ghost use Rattle.areas.specs.Memories.{Reads};
ghost use Rattle.model.specs.States.{store_words};
ghost use Rattle.moves.specs.Holding.{Holds};
ghost use Rattle.moves.specs.Observed.{page_at};

use areas::reading::Readable;
use moves::counters;

// Whether the memory has as many words as a caller is asked for with so many letters more.
pub fn has_room<M: Readable>(memory: &M, more: usize) -> bool
    ensures { Reads (M.held memory.now) (M.laid_for memory.now) (λ w d. Holds w d → MatchBool result (store_words d.keys d.most (length (page_at w d).log + more) ≤ length w) (length w < store_words d.keys d.most (length (page_at w d).log + more))) }
{
    let view = memory.view();
    let least = view.shape.counts().words_needed(0);
    let Some(spare) = view.words.len().checked_sub(least) else {
        return false;
    };
    let room = spare / 16;
    let letters = counters::letters(memory);
    letters <= room && more <= room - letters
}
