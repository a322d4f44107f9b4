// A cell's word was answered.
ghost use Rattle.std.specs.Prelude.{◌≡◌};
ghost use Rattle.areas.specs.Memories.{Writes};
ghost use Rattle.model.specs.Learners.{asks_cell};
ghost use Rattle.model.specs.Models.{model_filling, heard_cell};
ghost use Rattle.store.specs.Decoding.{model_of};
ghost use Rattle.moves.specs.Holding.{Holds};
ghost use Rattle.moves.specs.Making.{MakesBy};

use crate::answered::cell_answer;
use areas::memory::Memory;
use moves::answers::add_entry;
use moves::cells::set_cell;
use moves::counters;
use moves::numbers::Edge;
use moves::phase::{Phase, enter};

// Keeps the answer to the word of the cell that was asked about, and goes on filling.
pub fn hear_cell(memory: &mut Memory<'_>, edge: Edge, suffix: u32, answer: u32)
    ensures { Writes memory.old memory.new (λ w w' d. Holds w d → (model_of w d).phase ≡ asks_cell edge.0 suffix → MakesBy w w' d (λ m. model_filling m (heard_cell m.keys m.most m.page edge.0 suffix answer))) }
{
    let number = counters::answers(memory);
    let kept = cell_answer(memory, edge, suffix, answer);
    add_entry(memory, kept);
    set_cell(memory, edge, suffix, number);
    enter(memory, Phase::Filling);
}
