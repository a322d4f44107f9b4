// The end of a search: the edge at its place becomes a row, and what stands behind it a suffix.
ghost use Rattle.std.specs.Prelude.{◌≡◌};
ghost use Rattle.areas.specs.Memories.{Reads, Writes};
ghost use Rattle.model.specs.Moves.{last_edge};
ghost use Rattle.store.specs.Decoding.{model_of};
ghost use Rattle.moves.specs.Observed.{observed_at};
ghost use Rattle.moves.specs.Phases.{search_value};
ghost use Rattle.searches.specs.Searching.{Searching, Splits};

use areas::memory::Memory;
use areas::reading::Readable;
use lookup::rest;
use moves::answers::entry;
use moves::cells::set_cell;
use moves::counters;
use moves::numbers::{Edge, Key, edge_behind};
use moves::phase::{Phase, Search, enter};
use moves::rows::{add_row, edge_of};
use moves::successors::successor;
use moves::suffixes::add_suffix;
use walks::{row_along, span_behind};

// The edge at the place where a search has ended.
pub(crate) fn last_edge<M: Readable>(memory: &M, search: Search) -> Edge
    ensures { Reads (M.held memory.now) (M.laid_for memory.now) (λ w d. Searching w d search → result.0 ≡ last_edge d.keys (observed_at w d) (model_of w d).successors (search_value search)) }
{
    let row = row_along(memory, search.along, search.low);
    let word = rest(memory.view(), entry(memory, search.along));
    edge_behind(memory.view().shape, row, Key(word.letter(search.low)))
}

// One suffix and one row more, after which the edge and the row that it led to differ.
pub fn split(memory: &mut Memory<'_>, search: Search)
    ensures { Writes memory.old memory.new (λ w w' d. Splits w w' d search) }
{
    let edge = last_edge(memory, search);
    let other = edge_of(memory, successor(memory, edge));
    let suffix = counters::suffixes(memory);
    let span = span_behind(memory, search.along, search.high);
    add_suffix(memory, span);
    set_cell(memory, edge, suffix, search.left);
    set_cell(memory, other, suffix, search.right);
    add_row(memory, edge);
    enter(memory, Phase::Filling);
}
