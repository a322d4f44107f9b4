// An answer is taken.
ghost use Rattle.promises.specs.Promises.{ToldSays};
ghost use Rattle.store.specs.Reading.{state_of};

use areas::memory::Memory;
use filling::hear_cell;
use moves::opening::read_shape;
use moves::phase::{Phase, phase_of};
use promises::Given;
use searches::hear_middle;

// Takes what the box shows after the word that was asked about last.
pub fn told(store: &mut [u32], answer: u32) -> Given
    ensures { ToldSays state_of (state_of store.old) answer store.old store.new result }
{
    let Some(shape) = read_shape(store) else {
        return Given::Unstored;
    };
    let mut memory = Memory {
        words: store,
        shape,
    };
    match phase_of(&memory) {
        Phase::AsksCell(edge, suffix) => {
            hear_cell(&mut memory, edge, suffix, answer);
            Given::Taken
        }
        Phase::AsksMiddle(search) => {
            hear_middle(&mut memory, search, answer);
            Given::Taken
        }
        _ => Given::NotAsked,
    }
}
