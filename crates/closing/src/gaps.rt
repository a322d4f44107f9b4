// The first cell without an answer.
ghost use Rattle.areas.specs.Memories.{Reads};
ghost use Rattle.closing.specs.Missing.{GapFound};

use areas::reading::Readable;
use moves::cells::cell;
use moves::counters;
use moves::numbers::Edge;

// A cell in use without an answer.
#[derive(Clone, Copy)]
pub struct Gap {
    pub edge: Edge,
    pub suffix: u32,
}

// The first cell in use without an answer; none where the table is full.
pub fn first_gap<M: Readable>(memory: &M) -> Option<Gap>
    ensures { Reads (M.held memory.now) (M.laid_for memory.now) (λ w d. GapFound w d result) }
{
    let rows = counters::rows(memory).min(memory.most());
    let suffixes = counters::suffixes(memory);
    for u in 0..rows * memory.keys() + 1 {
        for suffix in 0..suffixes {
            let edge = Edge(u);
            if cell(memory, edge, suffix).is_none() {
                return Some(Gap { edge, suffix });
            }
        }
    }
    None
}
