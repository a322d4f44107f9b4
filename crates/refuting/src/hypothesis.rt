// Where a word leads in the table that was shown, and what the table shows after it.
ghost use Rattle.std.specs.Prelude.{◌≡◌};
ghost use Rattle.areas.specs.Memories.{Reads};
ghost use Rattle.machines.specs.Tables.{shows};
ghost use Rattle.model.specs.Observations.{leads_to};
ghost use Rattle.model.specs.Models.{view_model};
ghost use Rattle.store.specs.Decoding.{model_of};
ghost use Rattle.refuting.specs.Showing.{ShowsWord};

use areas::reading::Readable;
use moves::cells::seen;
use moves::numbers::Row;
use moves::rows::edge_of;
use spelling::Spelling;
use walks::lead;

// The row to which a word leads from the first.
pub fn row_after<M: Readable>(memory: &M, word: &[u32]) -> Row
    ensures { Reads (M.held memory.now) (M.laid_for memory.now) (λ w d. result.0 ≡ leads_to d.keys (model_of w d).successors 0 word.now) }
{
    lead(memory, Row(0), Spelling::from(word), word.len())
}

// What the table shows after a word of keys.
pub fn shown_after<M: Readable>(memory: &M, word: &[u32]) -> u32
    ensures { Reads (M.held memory.now) (M.laid_for memory.now) (λ w d. ShowsWord w d word.now → result ≡ shows d.keys (view_model (model_of w d)).hypothesis word.now) }
{
    let row = row_after(memory, word);
    seen(memory, edge_of(memory, row), 0).unwrap_or(0)
}
