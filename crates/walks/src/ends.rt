// Whether the hypothesis shows what was told.
ghost use Rattle.std.specs.Prelude.{◌≡◌, suc, ◌<◌, Decides};
ghost use Rattle.areas.specs.Memories.{Reads};
ghost use Rattle.model.specs.Observations.{count, end_row};
ghost use Rattle.store.specs.Decoding.{model_of};
ghost use Rattle.moves.specs.Holding.{Holds};
ghost use Rattle.moves.specs.Observed.{observed_at, seen_value};
ghost use Rattle.walks.specs.Agreeing.{FirstWrong};

use crate::leads::lead;
use areas::reading::Readable;
use lookup::rest;
use moves::answers::entry;
use moves::cells::seen;
use moves::counters;
use moves::numbers::Row;
use moves::rows::edge_of;

// The row to which an answer's word leads.
pub fn end_row<M: Readable>(memory: &M, c: u32) -> Row
    ensures { Reads (M.held memory.now) (M.laid_for memory.now) (λ w d. Holds w d → c < count (observed_at w d) → result.0 ≡ end_row d.keys (observed_at w d) (model_of w d).successors c) }
{
    let answer = entry(memory, c);
    let word = rest(memory.view(), answer);
    lead(memory, Row(answer.row), word, word.count())
}

// The first answer with which the hypothesis doesn't agree.
pub fn first_wrong<M: Readable>(memory: &M) -> Option<u32>
    ensures { Reads (M.held memory.now) (M.laid_for memory.now) (λ w d. FirstWrong w d result) }
{
    for c in 0..counters::answers(memory) {
        let edge = edge_of(memory, end_row(memory, c));
        let shown = entry(memory, c).shown;
        if seen(memory, edge, 0) != Some(shown) {
            return Some(c);
        }
    }
    None
}
