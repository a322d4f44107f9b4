// The answer to a cell's word, as it is kept.
ghost use Rattle.std.specs.Prelude.{◌≡◌, ◌<◌, length};
ghost use Rattle.areas.specs.Memories.{Reads};
ghost use Rattle.model.specs.Pages.{cell_entry};
ghost use Rattle.store.specs.Decoding.{entry_of};
ghost use Rattle.moves.specs.Observed.{page_at};

use areas::reading::Readable;
use areas::records::Record;
use moves::numbers::Edge;
use moves::suffixes;

// An answer to the word of an edge with a suffix behind it.
pub fn cell_answer<M: Readable>(memory: &M, edge: Edge, suffix: u32, shown: u32) -> Record
    ensures { Reads (M.held memory.now) (M.laid_for memory.now) (λ w d. suffix < length (page_at w d).suffixes → entry_of result ≡ cell_entry d.keys (page_at w d) edge.0 suffix shown) }
{
    let span = suffixes::suffix(memory, suffix);
    let mut answer = Record {
        row: 0,
        key: 0,
        start: span.start,
        size: span.size,
        shown,
    };
    if edge.0 > 0 {
        answer.row = (edge.0 - 1) / memory.keys();
        answer.key = (edge.0 - 1) % memory.keys() + 1;
    }
    answer
}
