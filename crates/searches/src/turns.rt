// A search goes on: by the answers that were told, or by a new one.
ghost use Rattle.std.specs.Prelude.{◌≡◌};
ghost use Rattle.areas.specs.Memories.{Writes};
ghost use Rattle.model.specs.Learners.{bisecting, asks_middle};
ghost use Rattle.model.specs.Models.{model_hear_middle};
ghost use Rattle.store.specs.Decoding.{model_of};
ghost use Rattle.moves.specs.Holding.{Holds, Rounded};
ghost use Rattle.moves.specs.Making.{MakesBy};
ghost use Rattle.moves.specs.Phases.{search_value};

use crate::halves::{half, middle};
use crate::narrowing::narrow;
use crate::splitting::{last_edge, split};
use areas::memory::Memory;
use moves::answers::add_entry;
use moves::counters;
use moves::phase::{Phase, Search, enter};
use walks::mixed;

// Leads a search on as far as the answers go. True if it ends with a row more; false if its middle is to be asked about, or the box has more states than there may be.
pub fn bisect(memory: &mut Memory<'_>, search: Search) -> bool
    ensures { Writes memory.old memory.new (λ w w' d. Holds w d → (model_of w d).phase ≡ bisecting (search_value search) → Rounded w w' d result) }
{
    match narrow(memory, search) {
        Err(place) => {
            enter(memory, Phase::AsksMiddle(place));
            false
        }
        Ok(place) => {
            if counters::rows(memory) < memory.shape.most() {
                split(memory, place);
                true
            } else {
                let edge = last_edge(memory, place);
                enter(memory, Phase::Larger(edge));
                false
            }
        }
    }
}

// The answer to the middle's word is written down, and the search goes on in one half.
pub fn hear_middle(memory: &mut Memory<'_>, search: Search, answer: u32)
    ensures { Writes memory.old memory.new (λ w w' d. Holds w d → (model_of w d).phase ≡ asks_middle (search_value search) → MakesBy w w' d (λ m. model_hear_middle m (search_value search) answer)) }
{
    let told = counters::answers(memory);
    let word = mixed(memory, search.along, middle(search), answer);
    add_entry(memory, word);
    let times = counters::bisected(memory);
    counters::set_bisected(memory, times.saturating_add(1));
    let next = half(memory, search, told);
    enter(memory, Phase::Bisecting(next));
}
