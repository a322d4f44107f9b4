// The log of letters: more of them, and each by its place.
ghost use Rattle.std.specs.Prelude.{◌≡◌, ◌<◌, length, slice_index};
ghost use Rattle.areas.specs.Memories.{Reads, Writes};
ghost use Rattle.moves.specs.Additions.{LettersAdded};
ghost use Rattle.moves.specs.Observed.{page_at};

use crate::counters;
use areas::area::Area;
use areas::memory::Memory;
use areas::reading::Readable;
use store::header;

// Letter i of the log, where there are so many.
pub fn log_letter<M: Readable>(memory: &M, i: usize) -> u32
    ensures { Reads (M.held memory.now) (M.laid_for memory.now) (λ w d. i < length (page_at w d).log → result ≡ slice_index (page_at w d).log i) }
{
    memory.load(Area::Letters, i)
}

// The word's letters behind the log, where there is room for all of them.
pub fn add_letters(memory: &mut Memory<'_>, word: &[u32])
    ensures { Writes memory.old memory.new (λ w w' d. LettersAdded w w' d word.now) }
{
    let count = counters::letters(memory);
    let room = memory.shape.size(Area::Letters);
    if count <= room && word.len() <= room - count {
        memory.copy_in(Area::Letters, count, word);
        memory.save_wide(Area::Header, header::LETTERS, count + word.len());
    }
}
