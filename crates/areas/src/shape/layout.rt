// Where each area of a shape begins, and how long it is.
ghost use Rattle.std.specs.Prelude.{◌≡◌, ◌+◌, ◌^◌, ◌<◌, ◌≤◌};
ghost use Rattle.areas.specs.Layout.{sized, answer_count, base_of, size_of};
ghost use Rattle.areas.specs.Room.{LayoutFits};
ghost use Rattle.areas.specs.Shapes.{dims, Shaped};

use super::{Counts, Shape};
use crate::area::Area;

const HEADER: usize = 64;

// Where an area begins.
fn start(counts: Counts, area: Area) -> usize
    ensures { result ≡ base_of (sized counts.keys counts.most 0) area }
{
    let n = counts.most as usize;
    let access = HEADER + n;
    let sizes = access + n * n;
    let suffixes = sizes + n;
    let cells = suffixes + 4 * n;
    let successors = cells + counts.cell_count();
    let answers = successors + counts.edge_count();
    match area {
        Area::Header => 0,
        Area::Edges => HEADER,
        Area::Access => access,
        Area::Sizes => sizes,
        Area::Suffixes => suffixes,
        Area::Cells => cells,
        Area::Successors => successors,
        Area::Answers => answers,
        Area::Letters => answers + 8 * counts.answer_count(),
    }
}

// The areas fit the memory that a caller is asked for.
pub fn layout_fits()
    ensures { LayoutFits }
{}

impl Shape {
    // The shape of a memory of this length, unless a number is 0 or too large or the memory too short.
    pub fn new(keys: u32, most: u32, length: usize) -> Option<Shape>
        ensures { Shaped (sized keys most length) result }
    {
        let counts = Counts::new(keys, most)?;
        if start(counts, Area::Letters) > length {
            return None;
        }
        Some(Shape { counts, length })
    }

    // Where the area begins.
    pub fn base(self, area: Area) -> usize
        ensures exact { result ≡ base_of (dims self) area }
        ensures within { base_of (dims self) area + size_of (dims self) area < 2 ^ 64 }
    {
        start(self.counts, area)
    }

    // How many words the area has.
    pub fn size(self, area: Area) -> usize
        ensures { result ≡ size_of (dims self) area }
    {
        let n = self.counts.most as usize;
        match area {
            Area::Header => HEADER,
            Area::Edges | Area::Sizes => n,
            Area::Access => n * n,
            Area::Suffixes => 4 * n,
            Area::Cells => self.counts.cell_count(),
            Area::Successors => self.counts.edge_count(),
            Area::Answers => 8 * self.counts.answer_count(),
            Area::Letters => self.length - self.base(Area::Letters),
        }
    }

    // How many answers there is room for.
    pub fn answers(self) -> usize
        ensures exact { result ≡ answer_count (dims self).keys (dims self).most }
        ensures few { result ≤ 67176448 }
    {
        self.counts.answer_count()
    }
}
