// An edge that differs from all rows.
ghost use Rattle.areas.specs.Memories.{Writes};
ghost use Rattle.moves.specs.Holding.{Rounded};
ghost use Rattle.closing.specs.Leading.{Strays};

use areas::memory::Memory;
use moves::counters;
use moves::numbers::Edge;
use moves::phase::{Phase, enter};
use moves::rows::add_row;

// The edge becomes a row, and the answer is true; where there are as many rows as there may be, it shows that the box is larger.
pub fn grow(memory: &mut Memory<'_>, edge: Edge) -> bool
    ensures { Writes memory.old memory.new (λ w w' d. Strays w d edge.0 → Rounded w w' d result) }
{
    if counters::rows(memory) < memory.shape.most() {
        add_row(memory, edge);
        true
    } else {
        enter(memory, Phase::Larger(edge));
        false
    }
}
