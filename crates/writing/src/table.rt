// The table that is shown.
ghost use Rattle.std.specs.Prelude.{◌≡◌, ◌<◌, ◌≤◌, length};
ghost use Rattle.areas.specs.Memories.{Reads};
ghost use Rattle.model.specs.Observations.{rows, table_entry};
ghost use Rattle.store.specs.Decoding.{model_of};
ghost use Rattle.moves.specs.Holding.{Holds};
ghost use Rattle.moves.specs.Observed.{observed_at};
ghost use Rattle.writing.specs.Wants.{WrittenTable};

use areas::reading::Readable;
use moves::cells::seen;
use moves::counters;
use moves::numbers::{Key, Row};
use moves::rows::edge_of;
use walks::next_row;

// What stands at a place of a row: first what the row shows, then where each key leads.
fn entry<M: Readable>(memory: &M, row: Row, place: u32) -> u32
    ensures { Reads (M.held memory.now) (M.laid_for memory.now) (λ w d. Holds w d → row.0 < rows (observed_at w d) → result ≡ table_entry d.keys d.most (observed_at w d) (model_of w d).successors row.0 place) }
{
    if place > 0 {
        return next_row(memory, row, Key(place - 1)).0;
    }
    seen(memory, edge_of(memory, row), 0).unwrap_or(0)
}

// Writes the table to the front of out, row by row, as far as out goes, and answers how many rows it has.
pub fn write_table<M: Readable>(memory: &M, out: &mut [u32]) -> usize
    ensures { Reads (M.held memory.now) (M.laid_for memory.now) (λ w d. Holds w d → WrittenTable w d out.old out.new result) }
{
    let rows = counters::rows(memory).min(memory.most());
    let width = memory.keys() + 1;
    let end = out.len().min((rows * width) as usize);
    for (p, number) in out[..end].iter_mut().enumerate() {
        let place = p as u32;
        *number = entry(memory, Row(place / width), place % width);
    }
    rows as usize
}
