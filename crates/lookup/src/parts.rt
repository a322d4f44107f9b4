// Words of a store, as parts of its memory; the parts are lent for as long as it is.
ghost use Rattle.std.specs.Prelude.{◌≡◌, length};
ghost use Rattle.areas.specs.Layout.{area_of};
ghost use Rattle.areas.specs.Memories.{Reads};
ghost use Rattle.store.specs.Decoding.{page_of};
ghost use Rattle.spelling.specs.Spelt.{spelt};
ghost use Rattle.lookup.specs.Named.{part_of, Named, named_rest, named_word};

use areas::area::Area;
use areas::memory::View;
use areas::reading::Readable;
use areas::records::Record;
use spelling::Spelling;

// A part of an area, as far as the area goes.
fn part<'a>(memory: View<'a>, area: Area, from: usize, size: usize) -> &'a [u32]
    ensures { Reads memory.entry.words.now memory.entry.shape (λ w d. result.now ≡ part_of w d area from size) }
{
    let reach = memory.reach(area);
    if from >= reach {
        return &[];
    }
    let base = memory.shape.base(area);
    let end = size.min(reach - from);
    &memory.words[base + from..base + from + end]
}

// The word of a row, perhaps with a key behind it, and behind these a part of the log.
pub fn spell<'a>(memory: View<'a>, word: Record) -> Spelling<'a>
    ensures { Reads memory.entry.words.now memory.entry.shape (λ w d. Named (page_of w d) word → spelt result ≡ named_word (page_of w d) word) }
{
    let size = memory.load(Area::Sizes, word.row as usize);
    let from = word.row as usize * memory.shape.most() as usize;
    Spelling {
        front: part(memory, Area::Access, from, size as usize),
        key: word.key.checked_sub(1),
        rest: part(memory, Area::Letters, word.start, word.size),
    }
}

// The key of a word, if there is one, and its part of the log, without the row's letters.
pub fn rest<'a>(memory: View<'a>, word: Record) -> Spelling<'a>
    ensures { Reads memory.entry.words.now memory.entry.shape (λ w d. Named (page_of w d) word → spelt result ≡ named_rest (page_of w d) word) }
{
    let letters = part(memory, Area::Letters, word.start, word.size);
    Spelling {
        front: &[],
        key: word.key.checked_sub(1),
        rest: letters,
    }
}
