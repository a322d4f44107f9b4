// A search goes on as long as the words in its middle were told of.
ghost use Rattle.std.specs.Prelude.{◌≡◌};
ghost use Rattle.areas.specs.Memories.{Reads};
ghost use Rattle.model.specs.Learners.{bisecting};
ghost use Rattle.store.specs.Decoding.{model_of};
ghost use Rattle.moves.specs.Holding.{Holds};
ghost use Rattle.moves.specs.Phases.{search_value};
ghost use Rattle.searches.specs.Searching.{Between, NarrowsTo};

use crate::halves::{half, middle};
use areas::reading::Readable;
use lookup::{find, spell};
use moves::phase::Search;
use walks::mixed;

// The number of the answer to the word in the middle.
fn answer_between<M: Readable>(memory: &M, search: Search) -> Option<u32>
    ensures { Reads (M.held memory.now) (M.laid_for memory.now) (λ w d. Between w d search result) }
{
    let word = mixed(memory, search.along, middle(search), 0);
    find(memory, spell(memory.view(), word))
}

// Halves a search while the middle's word was told of: until no place is left between its ends, or, as an error, up to a middle whose word was never told of.
pub fn narrow<M: Readable>(memory: &M, mut search: Search) -> Result<Search, Search>
    ensures { Reads (M.held memory.now) (M.laid_for memory.now) (λ w d. Holds w d → (model_of w d).phase ≡ bisecting (search_value search) → NarrowsTo w d result) }
{
    // The middles are looked up among the answers, so there is no slice in which a library's search could find the place.
    while search.high.saturating_sub(search.low) > 1 {
        let Some(told) = answer_between(memory, search) else {
            return Err(search);
        };
        search = half(memory, search, told);
    }
    Ok(search)
}
