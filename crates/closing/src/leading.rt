// Each edge is led to the row that it is like.
ghost use Rattle.areas.specs.Memories.{Writes};
ghost use Rattle.closing.specs.Leading.{FullTable, EdgesLed};

use crate::likeness::row_like;
use areas::memory::Memory;
use moves::counters;
use moves::numbers::Edge;
use moves::successors::set_successor;

// Leads each edge to the first row that it is like, up to the first edge that is like none.
pub fn lead_edges(memory: &mut Memory<'_>) -> Option<Edge>
    ensures { Writes memory.old memory.new (λ w w' d. FullTable w d → EdgesLed w w' d result) }
{
    let rows = counters::rows(memory).min(memory.shape.most());
    for u in 1..rows * memory.shape.keys() + 1 {
        let edge = Edge(u);
        let Some(row) = row_like(memory, edge) else {
            return Some(edge);
        };
        set_successor(memory, edge, row);
    }
    None
}
