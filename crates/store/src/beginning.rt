// Begins a store.
ghost use Rattle.std.specs.Prelude.{◌≡◌, length, MatchBool};
ghost use Rattle.areas.specs.Memories.{Writes};
ghost use Rattle.promises.specs.Promises.{Unfit, BeganPost};
ghost use Rattle.store.specs.Begun.{Fit, LaidOut};
ghost use Rattle.store.specs.Reading.{state_of};

use crate::header;
use areas::area::Area;
use areas::memory::Memory;
use areas::shape::{Counts, Shape};
use promises::Began;

// Marks a memory as a store.
pub const STORE_MARK: u32 = 1280263758;

// Whether keys and states are within the limits, and the memory is long enough.
fn is_fit(keys: u32, most: u32, room: u32, store: &[u32]) -> bool
    ensures { MatchBool result (Fit keys most room store.now) (Unfit keys most room store.now) }
{
    let Some(counts) = Counts::new(keys, most) else {
        return false;
    };
    store.len() >= counts.words_needed(room)
}

// Lays the memory out with nothing told.
fn lay_out(memory: &mut Memory<'_>)
    ensures { Writes memory.old memory.new (λ w w' d. length w ≡ d.length → LaidOut w w' d) }
{
    let keys = memory.shape.keys();
    let most = memory.shape.most();
    memory.clear_before(Area::Answers);
    memory.save(Area::Header, header::MARK, STORE_MARK);
    memory.save(Area::Header, header::KEYS, keys);
    memory.save(Area::Header, header::MOST, most);
    memory.save(Area::Header, header::ROWS, 1);
    memory.save(Area::Header, header::SUFFIXES, 1);
}

// Begins a store for so many keys and at most so many states, with room for so many letters of refuting words.
pub fn begin(keys: u32, most: u32, room: u32, store: &mut [u32]) -> Began
    ensures { BeganPost state_of keys most room store.old store.new result }
{
    if !is_fit(keys, most, room, store) {
        return Began::Few;
    }
    let Some(shape) = Shape::new(keys, most, store.len()) else {
        return Began::Few;
    };
    let mut memory = Memory {
        words: store,
        shape,
    };
    lay_out(&mut memory);
    Began::Ready
}
