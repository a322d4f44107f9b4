// Where a search begins, and its two halves.
ghost use Rattle.std.specs.Prelude.{◌≡◌, ◌+◌, ◌-◌, ◌<◌, ◌≤◌};
ghost use Rattle.areas.specs.Memories.{Reads};
ghost use Rattle.model.specs.Observations.{count, Closed};
ghost use Rattle.model.specs.Learners.{middle as middle_of};
ghost use Rattle.model.specs.Moves.{first_bisection};
ghost use Rattle.store.specs.Decoding.{model_of};
ghost use Rattle.moves.specs.Holding.{Holds};
ghost use Rattle.moves.specs.Observed.{observed_at};
ghost use Rattle.moves.specs.Phases.{search_value};
ghost use Rattle.searches.specs.Searching.{Halves};

use areas::reading::Readable;
use lookup::rest;
use moves::answers::entry;
use moves::cells::cell;
use moves::phase::Search;
use moves::rows::edge_of;
use walks::end_row;

// The search along an answer that the hypothesis gets wrong begins at its two ends.
pub fn start<M: Readable>(memory: &M, along: u32) -> Search
    ensures { Reads (M.held memory.now) (M.laid_for memory.now) (λ w d. Holds w d → Closed d.keys d.most (observed_at w d) (model_of w d).successors → along < count (observed_at w d) → search_value result ≡ first_bisection d.keys d.most (observed_at w d) (model_of w d).successors along) }
{
    let word = rest(memory.view(), entry(memory, along));
    let edge = edge_of(memory, end_row(memory, along));
    Search {
        along,
        low: 0,
        high: word.count(),
        left: along,
        right: cell(memory, edge, 0).unwrap_or(0),
    }
}

// The place in the middle.
pub fn middle(search: Search) -> usize
    ensures { search.low ≤ search.high → result ≡ middle_of (search_value search) }
{
    search.low + search.high.saturating_sub(search.low) / 2
}

// The half of a search in which the answers at its ends still differ, where this answer is to the middle's word.
pub fn half<M: Readable>(memory: &M, search: Search, told: u32) -> Search
    ensures exact { Reads (M.held memory.now) (M.laid_for memory.now) (λ w d. Halves w d search told result) }
    ensures shorter { search.low + 1 < search.high → result.high - result.low < search.high - search.low }
{
    let place = middle(search);
    let shown = entry(memory, told).shown;
    if shown == entry(memory, search.left).shown {
        Search {
            low: place,
            left: told,
            ..search
        }
    } else {
        Search {
            high: place,
            right: told,
            ..search
        }
    }
}
