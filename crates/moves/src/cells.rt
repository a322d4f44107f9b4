// The cells of the observation table: 0, or 1 and the number of an answer.
ghost use Rattle.std.specs.Prelude.{◌≡◌, ◌+◌, ◌*◌};
ghost use Rattle.areas.specs.Memories.{Reads, Writes};
ghost use Rattle.areas.specs.Shapes.{dims};
ghost use Rattle.model.specs.Observations.{cell_at};
ghost use Rattle.moves.specs.Additions.{CellSet};
ghost use Rattle.moves.specs.Observed.{observed_at, seen_value, SeenIn};

use crate::answers::entry;
use crate::numbers::Edge;
use areas::area::Area;
use areas::memory::Memory;
use areas::reading::Readable;

// Where the cell of an edge and a suffix stands.
fn place<M: Readable>(memory: &M, edge: Edge, suffix: u32) -> usize
    ensures { result ≡ edge.0 * (dims (M.laid_for memory.now)).most + suffix }
{
    edge.0 as usize * memory.most() as usize + suffix as usize
}

// The number of the answer in the cell; none where the cell is 0. Edge and suffix are given apart, since callers hold one and go through the other.
pub fn cell<M: Readable>(memory: &M, edge: Edge, suffix: u32) -> Option<u32>
    ensures { Reads (M.held memory.now) (M.laid_for memory.now) (λ w d. seen_value result ≡ cell_at d.most (observed_at w d) edge.0 suffix) }
{
    let place = place(memory, edge, suffix);
    memory.load(Area::Cells, place).checked_sub(1)
}

// What the answer in the cell showed; none where the cell is 0.
pub fn seen<M: Readable>(memory: &M, edge: Edge, suffix: u32) -> Option<u32>
    ensures { Reads (M.held memory.now) (M.laid_for memory.now) (λ w d. SeenIn w d edge.0 suffix result) }
{
    let answer = cell(memory, edge, suffix)?;
    Some(entry(memory, answer).shown)
}

// The cell takes an answer.
pub fn set_cell(memory: &mut Memory<'_>, edge: Edge, suffix: u32, answer: u32)
    ensures { Writes memory.old memory.new (λ w w' d. CellSet w w' d edge.0 suffix answer) }
{
    let place = place(memory, edge, suffix);
    if let Some(kept) = answer.checked_add(1) {
        memory.save(Area::Cells, place, kept);
    }
}
