// How many keys and states a memory is laid out for, and how many edges, cells and answers that makes.
ghost use Rattle.std.specs.Prelude.{◌≡◌, ◌≤◌};
ghost use Rattle.areas.specs.Layout.{edge_count, cell_count, answer_count};
ghost use Rattle.areas.specs.Room.{store_words};
ghost use Rattle.areas.specs.Shapes.{dims, Counted};

use super::{Counts, Shape};

impl Counts {
    // These counts, unless one is 0 or too large.
    pub fn new(keys: u32, most: u32) -> Option<Counts>
        ensures { Counted keys most result }
    {
        if keys == 0 || keys > 64 || most == 0 || most > 1024 {
            return None;
        }
        Some(Counts { keys, most })
    }

    // How many words a caller is asked for, with room for so many letters of refuting words.
    pub fn words_needed(self, room: u32) -> usize
        ensures { result ≡ store_words self.keys self.most room }
    {
        let k = self.keys as usize;
        let n = self.most as usize;
        4096 + (16 * room as usize + 64 * ((k + 1) * (n * (n + 2))))
    }

    // How many edges there can be: the empty word, and each row's word with each key.
    pub(super) fn edge_count(self) -> usize
        ensures exact { result ≡ edge_count self.keys self.most }
        ensures few { result ≤ 65537 }
    {
        1 + self.most as usize * self.keys as usize
    }

    // A cell for each edge and suffix.
    pub(super) fn cell_count(self) -> usize
        ensures exact { result ≡ cell_count self.keys self.most }
        ensures few { result ≤ 67109888 }
    {
        self.edge_count() * self.most as usize
    }

    // One answer for each cell, and 65 for each state: a refutation, and at most 64 halvings of its word.
    pub(super) fn answer_count(self) -> usize
        ensures exact { result ≡ answer_count self.keys self.most }
        ensures few { result ≤ 67176448 }
    {
        self.cell_count() + 65 * self.most as usize
    }
}

impl Shape {
    pub fn counts(self) -> Counts
        ensures keys { result.keys ≡ (dims self).keys }
        ensures most { result.most ≡ (dims self).most }
    {
        self.counts
    }
}
