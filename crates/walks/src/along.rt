// Places along an answer's rest: the row to which the letters before lead, and the letters behind.
ghost use Rattle.std.specs.Prelude.{◌≡◌, ◌^◌, ◌<◌};
ghost use Rattle.areas.specs.Memories.{Reads};
ghost use Rattle.model.specs.Observations.{count, row_along};
ghost use Rattle.model.specs.Pages.{behind};
ghost use Rattle.store.specs.Decoding.{entry_of, model_of};
ghost use Rattle.moves.specs.Additions.{span_value};
ghost use Rattle.moves.specs.Holding.{Holds};
ghost use Rattle.moves.specs.Observed.{observed_at};
ghost use Rattle.walks.specs.Along.{Behind, Mixed};

use crate::leads::lead;
use areas::reading::Readable;
use areas::records::Record;
use areas::spans::Span;
use lookup::rest;
use moves::answers::entry;
use moves::numbers::Row;

// The row to which the first letters of an answer's rest lead.
pub fn row_along<M: Readable>(memory: &M, along: u32, place: usize) -> Row
    ensures { Reads (M.held memory.now) (M.laid_for memory.now) (λ w d. Holds w d → along < count (observed_at w d) → result.0 ≡ row_along d.keys (observed_at w d) (model_of w d).successors along place) }
{
    let answer = entry(memory, along);
    let word = rest(memory.view(), answer);
    lead(memory, Row(answer.row), word, place)
}

// The part of the log behind a place in an answer's rest, in which the key comes first, if there is one.
fn cut(answer: Record, place: usize) -> Span
    ensures { (behind answer.key (entry_of answer).span place).start < 2 ^ 64 → span_value result ≡ behind answer.key (entry_of answer).span place }
{
    let letters = if answer.key == 0 {
        place
    } else {
        place.saturating_sub(1)
    };
    Span {
        start: answer.start.saturating_add(letters),
        size: answer.size.saturating_sub(letters),
    }
}

// The part of the log behind a place in the rest of an answer.
pub fn span_behind<M: Readable>(memory: &M, along: u32, place: usize) -> Span
    ensures { Reads (M.held memory.now) (M.laid_for memory.now) (λ w d. Behind w d along place result) }
{
    // How long the words are is known of a view alone.
    let _view = memory.view();
    cut(entry(memory, along), place)
}

// The word along an answer at a place: the row's word to which the letters before lead, and the letters behind.
pub fn mixed<M: Readable>(memory: &M, along: u32, place: usize, shown: u32) -> Record
    ensures { Reads (M.held memory.now) (M.laid_for memory.now) (λ w d. Mixed w d along place shown result) }
{
    let row = row_along(memory, along, place);
    let span = span_behind(memory, along, place);
    Record {
        row: row.0,
        key: 0,
        start: span.start,
        size: span.size,
        shown,
    }
}
