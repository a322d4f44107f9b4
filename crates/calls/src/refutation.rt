// A table is refuted.
ghost use Rattle.std.specs.Prelude.{length};
ghost use Rattle.promises.specs.Promises.{RefutedSays};
ghost use Rattle.store.specs.Reading.{state_of};

use areas::memory::Memory;
use moves::opening::read_shape;
use moves::phase::{Phase, phase_of};
use promises::Given;
use refuting::{has_room, of_keys, refute, shown_after};

// Takes a word after which the box shows something else than the table that was shown last, and what it shows.
pub fn refuted(store: &mut [u32], word: &[u32], answer: u32) -> Given
    ensures { RefutedSays state_of (state_of store.old) (length store.old) word.now answer store.old store.new result }
{
    let Some(shape) = read_shape(store) else {
        return Given::Unstored;
    };
    let mut memory = Memory {
        words: store,
        shape,
    };
    let Phase::ShowsTable = phase_of(&memory) else {
        return Given::NotAsked;
    };
    if !of_keys(word, shape.keys()) {
        return Given::NoRefute;
    }
    if shown_after(&memory, word) == answer {
        return Given::NoRefute;
    }
    if !has_room(&memory, word.len()) {
        return Given::Full;
    }
    refute(&mut memory, word, answer);
    Given::Taken
}
