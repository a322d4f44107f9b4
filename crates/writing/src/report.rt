// What the learner wants, by what it is doing.
ghost use Rattle.std.specs.Prelude.{◌≡◌, ◌≤◌, length, ◌≢◌};
ghost use Rattle.promises.specs.declared.Wanted.TheVariants.{NoStore};
ghost use Rattle.areas.specs.Memories.{Reads};
ghost use Rattle.model.specs.States.{out_words};
ghost use Rattle.store.specs.Decoding.{model_of};
ghost use Rattle.moves.specs.Holding.{Holds};
ghost use Rattle.moves.specs.Observed.{page_at};
ghost use Rattle.writing.specs.Wants.{Wants};

use crate::table::write_table;
use crate::words::ask;
use areas::reading::Readable;
use filling::cell_answer;
use moves::phase::{Phase, phase_of};
use promises::Wanted;
use searches::middle;
use walks::mixed;

// What is wanted, with the word or the table written to the front of out.
pub fn wanted<M: Readable>(memory: &M, out: &mut [u32]) -> Wanted
    ensures wants { Reads (M.held memory.now) (M.laid_for memory.now) (λ w d. Holds w d → out_words d.keys d.most (length (page_at w d).log) ≤ length out.old → Wants (model_of w d) out.old out.new result) }
    ensures stored { result ≢ NoStore }
{
    match phase_of(memory) {
        Phase::AsksCell(edge, suffix) => {
            let word = cell_answer(memory, edge, suffix, 0);
            ask(memory, word, out)
        }
        Phase::AsksMiddle(search) => {
            let word = mixed(memory, search.along, middle(search), 0);
            ask(memory, word, out)
        }
        Phase::ShowsTable => Wanted::Table(write_table(memory, out)),
        Phase::Larger(_) => Wanted::Larger,
        _ => Wanted::Broken,
    }
}
