// The spans of the suffixes, four words each: start and size.
ghost use Rattle.areas.specs.Memories.{Writes};
ghost use Rattle.areas.specs.Spans.{SavedSpan};

use crate::area::Area;
use crate::memory::Memory;

#[derive(Clone, Copy)]
pub struct Span {
    pub start: usize,
    pub size: usize,
}

impl Memory<'_> {
    // Writes the span of suffix i.
    pub fn save_span(&mut self, i: usize, span: Span)
        ensures { Writes self.old self.new (λ w w' d. SavedSpan w w' d i span) }
    {
        if i < self.shape.most() as usize {
            self.save_wide(Area::Suffixes, 4 * i, span.start);
            self.save_wide(Area::Suffixes, 4 * i + 2, span.size);
        }
    }
}
