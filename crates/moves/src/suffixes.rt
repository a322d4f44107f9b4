// The suffixes: one more, and each by its number.
ghost use Rattle.std.specs.Prelude.{◌≡◌, ◌<◌, length};
ghost use Rattle.areas.specs.Memories.{Reads, Writes};
ghost use Rattle.model.specs.Pages.{suffix_span};
ghost use Rattle.moves.specs.Additions.{span_value, SuffixAdded};
ghost use Rattle.moves.specs.Observed.{page_at};

use crate::counters;
use areas::area::Area;
use areas::memory::Memory;
use areas::reading::Readable;
use areas::spans::Span;
use store::header;

// Suffix e, where there are so many.
pub fn suffix<M: Readable>(memory: &M, e: u32) -> Span
    ensures { Reads (M.held memory.now) (M.laid_for memory.now) (λ w d. e < length (page_at w d).suffixes → span_value result ≡ suffix_span (page_at w d) e) }
{
    memory.span_at(e as usize)
}

// One suffix more, where there is room.
pub fn add_suffix(memory: &mut Memory<'_>, span: Span)
    ensures { Writes memory.old memory.new (λ w w' d. SuffixAdded w w' d span) }
{
    let count = counters::suffixes(memory);
    if count < memory.shape.most() {
        memory.save_span(count as usize, span);
        memory.save(Area::Header, header::SUFFIXES, count + 1);
    }
}
