// The answers: one more, and each by its number.
ghost use Rattle.std.specs.Prelude.{◌≡◌, ◌<◌, length};
ghost use Rattle.areas.specs.Memories.{Reads, Writes};
ghost use Rattle.model.specs.Pages.{entry_at};
ghost use Rattle.store.specs.Decoding.{entry_of};
ghost use Rattle.moves.specs.Additions.{EntryAdded};
ghost use Rattle.moves.specs.Observed.{page_at};

use crate::counters;
use areas::area::Area;
use areas::memory::Memory;
use areas::reading::Readable;
use areas::records::Record;
use store::header;

// Answer c, where there are so many.
#[inline(always)]
pub fn entry<M: Readable>(memory: &M, c: u32) -> Record
    ensures { Reads (M.held memory.now) (M.laid_for memory.now) (λ w d. c < length (page_at w d).entries → entry_of result ≡ entry_at (page_at w d) c) }
{
    memory.record_at(c as usize)
}

// One answer more, where there is room.
pub fn add_entry(memory: &mut Memory<'_>, answer: Record)
    ensures { Writes memory.old memory.new (λ w w' d. EntryAdded w w' d answer) }
{
    let count = counters::answers(memory);
    if (count as usize) < memory.shape.answers() {
        memory.save_record(count as usize, answer);
        memory.save(Area::Header, header::ANSWERS, count + 1);
    }
}
