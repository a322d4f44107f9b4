// What is read of a memory, whether it may be written too or not: 0 past an area's end.
ghost use Rattle.std.specs.Prelude.{◌≡◌, ℕ, List, length, slice_index};
ghost use Rattle.areas.specs.declared.area.Area.TheVariants.{Answers, Suffixes};
ghost use Rattle.areas.specs.declared.shape.Shape.{Shape as ShapeType};
ghost use Rattle.areas.specs.Layout.{area_of};
ghost use Rattle.areas.specs.Memories.{Reads};
ghost use Rattle.areas.specs.Records.{record_in};
ghost use Rattle.areas.specs.Shapes.{dims};
ghost use Rattle.areas.specs.Spans.{span_in};
ghost use Rattle.areas.specs.Words.{wide};

use crate::area::Area;
use crate::memory::{Memory, View};
use crate::records::Record;
use crate::shape::Shape;
use crate::spans::Span;
use crate::words::{get, joined};

// A memory that can be read.
pub trait Readable {
    // The words that it holds.
    ghost held: { Self → List ℕ };

    // What they are laid out for.
    ghost laid_for: { Self → ShapeType };

    fn view(&self) -> View<'_>
        ensures words { result.words.now ≡ held self.now }
        ensures shape { result.shape ≡ laid_for self.now };

    final fn keys(&self) -> u32
        ensures { result ≡ (dims (laid_for self.now)).keys }
    {
        self.view().shape.keys()
    }

    // How many states there can be.
    final fn most(&self) -> u32
        ensures { result ≡ (dims (laid_for self.now)).most }
    {
        self.view().shape.most()
    }

    // How many words of the area the memory has.
    final fn reach(&self, area: Area) -> usize
        ensures { Reads (held self.now) (laid_for self.now) (λ w d. result ≡ length (area_of w d area)) }
    {
        let view = self.view();
        let base = view.shape.base(area);
        if base < view.words.len() {
            view.shape.size(area).min(view.words.len() - base)
        } else {
            0
        }
    }

    // One word and two are read by functions of their own: each word has a bound of its own, and a generic form would only forward to both.
    final fn load(&self, area: Area, i: usize) -> u32
        ensures { Reads (held self.now) (laid_for self.now) (λ w d. result ≡ slice_index (area_of w d area) i) }
    {
        let view = self.view();
        if i < view.shape.size(area) {
            get(view.words, view.shape.base(area) + i)
        } else {
            0
        }
    }

    final fn load_wide(&self, area: Area, i: usize) -> usize
        ensures { Reads (held self.now) (laid_for self.now) (λ w d. result ≡ wide (area_of w d area) i) }
    {
        let view = self.view();
        if i < view.shape.size(area) {
            joined(view.load(area, i), view.load(area, i + 1))
        } else {
            0
        }
    }

    // Record i of the answers; past the last, one of zeros. Callers that need a part of it read no more where it is inlined.
    #[inline(always)]
    final fn record_at(&self, i: usize) -> Record
        ensures { Reads (held self.now) (laid_for self.now) (λ w d. result ≡ record_in (area_of w d Answers) i) }
    {
        let view = self.view();
        if i >= view.shape.answers() {
            return Record {
                row: 0,
                key: 0,
                start: 0,
                size: 0,
                shown: 0,
            };
        }
        Record {
            row: view.load(Area::Answers, 8 * i),
            key: view.load(Area::Answers, 8 * i + 1),
            start: view.load_wide(Area::Answers, 8 * i + 2),
            size: view.load_wide(Area::Answers, 8 * i + 4),
            shown: view.load(Area::Answers, 8 * i + 6),
        }
    }

    // The span of suffix i; past the last, one of zeros.
    final fn span_at(&self, i: usize) -> Span
        ensures { Reads (held self.now) (laid_for self.now) (λ w d. result ≡ span_in (area_of w d Suffixes) i) }
    {
        let view = self.view();
        if i >= view.most() as usize {
            return Span { start: 0, size: 0 };
        }
        Span {
            start: view.load_wide(Area::Suffixes, 4 * i),
            size: view.load_wide(Area::Suffixes, 4 * i + 2),
        }
    }
}

impl Readable for Memory<'_> {
    ghost held = { λ m. m.words.now };

    ghost laid_for = { λ m. m.shape };

    fn view(&self) -> View<'_> {
        View {
            words: self.words,
            shape: self.shape,
        }
    }
}

impl Readable for View<'_> {
    ghost held = { λ v. v.words.now };

    ghost laid_for = { λ v. v.shape };

    fn view(&self) -> View<'_> {
        *self
    }
}
