// The row that each edge leads to.
ghost use Rattle.std.specs.Prelude.{◌≡◌, slice_index, slice_set};
ghost use Rattle.areas.specs.Memories.{Reads, Writes};
ghost use Rattle.store.specs.Decoding.{model_of};
ghost use Rattle.moves.specs.Changes.{leading_by};
ghost use Rattle.moves.specs.Making.{MakesBy};

use crate::numbers::{Edge, Row};
use areas::area::Area;
use areas::memory::Memory;
use areas::reading::Readable;

pub fn successor<M: Readable>(memory: &M, edge: Edge) -> Row
    ensures { Reads (M.held memory.now) (M.laid_for memory.now) (λ w d. result.0 ≡ slice_index (model_of w d).successors edge.0) }
{
    Row(memory.load(Area::Successors, edge.0 as usize))
}

pub fn set_successor(memory: &mut Memory<'_>, edge: Edge, row: Row)
    ensures { Writes memory.old memory.new (λ w w' d. MakesBy w w' d (λ m. leading_by m (slice_set m.successors edge.0 row.0))) }
{
    memory.save(Area::Successors, edge.0 as usize, row.0);
}
