// One word of an area, or a number of two words, written; past the area's end nothing is.
ghost use Rattle.areas.specs.Frames.{Saved, SavedWide};
ghost use Rattle.areas.specs.Memories.{Writes};

use crate::area::Area;
use crate::memory::Memory;
use crate::words::{high, low, put};

// One word and two are written by functions of their own, as they are read: each word has a bound of its own, and a generic form would only forward to both.
impl Memory<'_> {
    pub fn save(&mut self, area: Area, i: usize, v: u32)
        ensures { Writes self.old self.new (λ w w' d. Saved w w' d area i v) }
    {
        if i < self.shape.size(area) {
            put(self.words, self.shape.base(area) + i, v);
        }
    }

    pub fn save_wide(&mut self, area: Area, i: usize, v: usize)
        ensures { Writes self.old self.new (λ w w' d. SavedWide w w' d area i v) }
    {
        if i < self.shape.size(area) {
            self.save(area, i, low(v));
            self.save(area, i + 1, high(v));
        }
    }
}
