// What is wanted next.
ghost use Rattle.std.specs.Prelude.{◌<◌, ◌≤◌, length, MatchBool};
ghost use Rattle.areas.specs.Memories.{Reads};
ghost use Rattle.model.specs.States.{out_words};
ghost use Rattle.promises.specs.Promises.{NextSays};
ghost use Rattle.store.specs.Reading.{state_of};
ghost use Rattle.moves.specs.Holding.{Holds};
ghost use Rattle.moves.specs.Observed.{page_at};

use areas::memory::Memory;
use areas::reading::Readable;
use moves::counters;
use moves::opening::read_shape;
use promises::Wanted;
use rounds::settle;
use writing::wanted;

// Whether out might be too short for a question or a table.
fn is_short<M: Readable>(memory: &M, out: &[u32]) -> bool
    ensures { Reads (M.held memory.now) (M.laid_for memory.now) (λ w d. Holds w d → MatchBool result (length out.now < out_words d.keys d.most (length (page_at w d).log)) (out_words d.keys d.most (length (page_at w d).log) ≤ length out.now)) }
{
    let keys = memory.keys() as usize;
    let most = memory.most() as usize;
    let table = (keys + 1) * (most + 1) + most;
    out.len() < table || out.len() - table < counters::letters(memory)
}

// A word to ask about, a table to look at, or that the box is larger or an answer was wrong.
pub fn step(store: &mut [u32], out: &mut [u32]) -> Wanted
    ensures { NextSays state_of (state_of store.old) store.old store.new out.old out.new result }
{
    let Some(shape) = read_shape(store) else {
        return Wanted::NoStore;
    };
    let mut memory = Memory {
        words: store,
        shape,
    };
    if is_short(&memory, out) {
        return Wanted::Short;
    }
    settle(&mut memory);
    wanted(&memory, out)
}
