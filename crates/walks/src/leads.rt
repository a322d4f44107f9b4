// From row to row, letter by letter.
ghost use Rattle.std.specs.Prelude.{◌≡◌, suc, ◌+◌, ◌*◌, take, slice_index};
ghost use Rattle.areas.specs.Memories.{Reads};
ghost use Rattle.model.specs.Observations.{leads_to};
ghost use Rattle.store.specs.Decoding.{model_of};
ghost use Rattle.spelling.specs.Spelt.{spelt};

use areas::area::Area;
use areas::reading::Readable;
use moves::numbers::{Key, Row};
use spelling::Spelling;

// The row to which a key leads from a row.
pub fn next_row<M: Readable>(memory: &M, row: Row, key: Key) -> Row
    ensures { Reads (M.held memory.now) (M.laid_for memory.now) (λ w d. result.0 ≡ slice_index (model_of w d).successors (suc (row.0 * d.keys + key.0))) }
{
    let edge = 1 + (row.0 as usize * memory.keys() as usize + key.0 as usize);
    Row(memory.load(Area::Successors, edge))
}

// The row to which the first letters of a word lead from a row.
pub fn lead<M: Readable>(memory: &M, from: Row, word: Spelling<'_>, letters: usize) -> Row
    ensures { Reads (M.held memory.now) (M.laid_for memory.now) (λ w d. result.0 ≡ leads_to d.keys (model_of w d).successors from.0 (take letters (spelt word.entry))) }
{
    let mut row = from;
    for i in 0..letters.min(word.count()) {
        row = next_row(memory, row, Key(word.letter(i)));
    }
    row
}
