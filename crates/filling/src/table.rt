// Cell by cell, answers told before are taken over.
ghost use Rattle.std.specs.Prelude.{◌<◌};
ghost use Rattle.areas.specs.Memories.{Writes};
ghost use Rattle.model.specs.Observations.{edges_used, suffixes_used};
ghost use Rattle.moves.specs.Observed.{observed_at};
ghost use Rattle.filling.specs.Filled.{Filling, CellTried, EdgeTried, TableTried};

use crate::answered::cell_answer;
use areas::memory::Memory;
use areas::reading::Readable;
use lookup::{find, spell};
use moves::cells::{cell, set_cell};
use moves::counters;
use moves::numbers::Edge;
use moves::phase::{Phase, enter};

// Whether the cell is known, or takes the answer to its word; if that was never told of, it is asked about.
fn fill_cell(memory: &mut Memory<'_>, edge: Edge, suffix: u32) -> bool
    ensures { Writes memory.old memory.new (λ w w' d. Filling w d → edge.0 < edges_used d.keys (observed_at w d) → suffix < suffixes_used (observed_at w d) → CellTried w w' d edge.0 suffix result) }
{
    if cell(memory, edge, suffix).is_some() {
        return true;
    }
    let word = cell_answer(memory, edge, suffix, 0);
    let Some(number) = find(memory, spell(memory.view(), word)) else {
        enter(memory, Phase::AsksCell(edge, suffix));
        return false;
    };
    set_cell(memory, edge, suffix, number);
    true
}

// Fills the cells of an edge, up to the first whose word was never told of.
fn fill_edge(memory: &mut Memory<'_>, edge: Edge) -> bool
    ensures { Writes memory.old memory.new (λ w w' d. Filling w d → edge.0 < edges_used d.keys (observed_at w d) → EdgeTried w w' d edge.0 result) }
{
    for suffix in 0..counters::suffixes(memory) {
        if !fill_cell(memory, edge, suffix) {
            return false;
        }
    }
    true
}

// Fills the table, up to the first cell whose word was never told of; that is asked about, and the answer is false.
pub fn fill(memory: &mut Memory<'_>) -> bool
    ensures { Writes memory.old memory.new (λ w w' d. Filling w d → TableTried w w' d result) }
{
    let rows = counters::rows(memory).min(memory.shape.most());
    for u in 0..rows * memory.shape.keys() + 1 {
        if !fill_edge(memory, Edge(u)) {
            return false;
        }
    }
    true
}
