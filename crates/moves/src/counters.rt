// The counters of the header: how many rows, suffixes, answers and letters there are, and three more numbers of the model.
ghost use Rattle.std.specs.Prelude.{◌≡◌, length, slice_index};
ghost use Rattle.areas.specs.declared.area.Area.TheVariants.{Header};
ghost use Rattle.areas.specs.Words.{wide};
ghost use Rattle.areas.specs.Layout.{area_of};
ghost use Rattle.areas.specs.Memories.{Reads, Writes};
ghost use Rattle.store.specs.Decoding.{rows_word, suffixes_word, answers_word, letters_word, model_of};
ghost use Rattle.moves.specs.Changes.{bisected_by, refuted_times, last_shown};
ghost use Rattle.moves.specs.Making.{LogFits, ChangesBy};
ghost use Rattle.moves.specs.Observed.{page_at};

use areas::area::Area;
use areas::memory::Memory;
use areas::reading::Readable;
use store::header;

pub fn rows<M: Readable>(memory: &M) -> u32
    ensures word { Reads (M.held memory.now) (M.laid_for memory.now) (λ w d. result ≡ slice_index (area_of w d Header) rows_word) }
    ensures count { Reads (M.held memory.now) (M.laid_for memory.now) (λ w d. result ≡ length (page_at w d).access) }
{
    memory.load(Area::Header, header::ROWS)
}

pub fn suffixes<M: Readable>(memory: &M) -> u32
    ensures word { Reads (M.held memory.now) (M.laid_for memory.now) (λ w d. result ≡ slice_index (area_of w d Header) suffixes_word) }
    ensures count { Reads (M.held memory.now) (M.laid_for memory.now) (λ w d. result ≡ length (page_at w d).suffixes) }
{
    memory.load(Area::Header, header::SUFFIXES)
}

pub fn answers<M: Readable>(memory: &M) -> u32
    ensures word { Reads (M.held memory.now) (M.laid_for memory.now) (λ w d. result ≡ slice_index (area_of w d Header) answers_word) }
    ensures count { Reads (M.held memory.now) (M.laid_for memory.now) (λ w d. result ≡ length (page_at w d).entries) }
{
    memory.load(Area::Header, header::ANSWERS)
}

pub fn letters<M: Readable>(memory: &M) -> usize
    ensures word { Reads (M.held memory.now) (M.laid_for memory.now) (λ w d. result ≡ wide (area_of w d Header) letters_word) }
    ensures count { Reads (M.held memory.now) (M.laid_for memory.now) (λ w d. length w ≡ d.length → LogFits w d → result ≡ length (page_at w d).log) }
{
    memory.load_wide(Area::Header, header::LETTERS)
}

// How many answers were got in searches.
pub fn bisected<M: Readable>(memory: &M) -> u32
    ensures { Reads (M.held memory.now) (M.laid_for memory.now) (λ w d. result ≡ (model_of w d).bisected) }
{
    memory.load(Area::Header, header::BISECTED)
}

// How many refutations there were.
pub fn refutes<M: Readable>(memory: &M) -> u32
    ensures { Reads (M.held memory.now) (M.laid_for memory.now) (λ w d. result ≡ (model_of w d).refutes) }
{
    memory.load(Area::Header, header::REFUTES)
}

// How many rows the last table shown had.
pub fn last<M: Readable>(memory: &M) -> u32
    ensures { Reads (M.held memory.now) (M.laid_for memory.now) (λ w d. result ≡ (model_of w d).last) }
{
    memory.load(Area::Header, header::LAST)
}

pub fn set_bisected(memory: &mut Memory<'_>, times: u32)
    ensures { Writes memory.old memory.new (λ w w' d. ChangesBy w w' d (λ m. bisected_by m times)) }
{
    memory.save(Area::Header, header::BISECTED, times);
}

pub fn set_refutes(memory: &mut Memory<'_>, times: u32)
    ensures { Writes memory.old memory.new (λ w w' d. ChangesBy w w' d (λ m. refuted_times m times)) }
{
    memory.save(Area::Header, header::REFUTES, times);
}

pub fn set_last(memory: &mut Memory<'_>, rows: u32)
    ensures { Writes memory.old memory.new (λ w w' d. ChangesBy w w' d (λ m. last_shown m rows)) }
{
    memory.save(Area::Header, header::LAST, rows);
}
