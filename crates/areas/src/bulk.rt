// Many words of an area at once: a word's letters written from a place on, and areas that are cleared.
ghost use Rattle.std.specs.Prelude.{◌≡◌, replicate};
ghost use Rattle.areas.specs.Bulk.{laid, Copied, Cleared, ClearedBefore};
ghost use Rattle.areas.specs.Memories.{Writes};

use crate::area::Area;
use crate::memory::Memory;
use crate::reading::Readable;

// Writes the letters from the start on, as far as both go.
fn copy_front(part: &mut [u32], word: &[u32])
    ensures { part.new ≡ laid part.old 0 word.now }
{
    let count = part.len().min(word.len());
    part[..count].copy_from_slice(&word[..count]);
}

impl Memory<'_> {
    // Writes the word's letters from a place of the area on, as far as the area goes.
    pub fn copy_in(&mut self, area: Area, at: usize, word: &[u32])
        ensures { Writes self.old self.new (λ w w' d. Copied w w' d area at word.now) }
    {
        let base = self.shape.base(area);
        let reach = self.reach(area);
        if at < reach {
            copy_front(&mut self.words[base + at..base + reach], word);
        }
    }

    // Makes each word of the area 0.
    pub fn clear(&mut self, area: Area)
        ensures { Writes self.old self.new (λ w w' d. Cleared w w' d area) }
    {
        let base = self.shape.base(area);
        let reach = self.reach(area);
        if reach > 0 {
            self.words[base..base + reach].fill(0);
        }
    }

    // Makes each word of the areas before this one 0.
    pub fn clear_before(&mut self, area: Area)
        ensures { Writes self.old self.new (λ w w' d. ClearedBefore w w' d area) }
    {
        let end = self.words.len().min(self.shape.base(area));
        self.words[0..end].fill(0);
    }
}
