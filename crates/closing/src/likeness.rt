// Which row an edge is like.
ghost use Rattle.std.specs.Prelude.{◌≡◌, Decides};
ghost use Rattle.areas.specs.Memories.{Reads};
ghost use Rattle.moves.specs.Observed.{seen_value};
ghost use Rattle.closing.specs.Missing.{Difference, Likeness};

use areas::reading::Readable;
use moves::cells::seen;
use moves::counters;
use moves::numbers::{Edge, Row};
use moves::rows::edge_of;

// The first suffix before which two edges show different things.
pub fn differ<M: Readable>(memory: &M, left: Edge, right: Edge) -> Option<u32>
    ensures { Reads (M.held memory.now) (M.laid_for memory.now) (λ w d. Difference w d left.0 right.0 result) }
{
    for suffix in 0..counters::suffixes(memory) {
        if seen(memory, left, suffix) != seen(memory, right, suffix) {
            return Some(suffix);
        }
    }
    None
}

// The first row that an edge is like; none where it differs from all rows.
pub fn row_like<M: Readable>(memory: &M, edge: Edge) -> Option<Row>
    ensures { Reads (M.held memory.now) (M.laid_for memory.now) (λ w d. Likeness w d edge.0 result) }
{
    for j in 0..counters::rows(memory) {
        let row = Row(j);
        if differ(memory, edge, edge_of(memory, row)).is_none() {
            return Some(row);
        }
    }
    None
}
