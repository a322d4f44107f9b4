// How many letters of refuting words, and how many states, a memory has room for.
ghost use Rattle.store.specs.Room.{RoomIn, MostStates};

use areas::shape::Counts;

// The most letters with which a store of so many words can be begun.
pub fn room_in(keys: u32, most: u32, words: usize) -> Option<u32>
    ensures { RoomIn keys most words result }
{
    let counts = Counts::new(keys, most)?;
    let letters = words.checked_sub(counts.words_needed(0))? / 16;
    Some(u32::try_from(letters).unwrap_or(u32::MAX))
}

// The most states with which a store of so many words can be begun: a count, so 0 where no store can.
pub fn most_states(keys: u32, words: usize) -> u32
    ensures { MostStates keys words result }
{
    let mut best = 0;
    for most in 1..1025 {
        if room_in(keys, most, words).is_some() {
            best = most;
        }
    }
    best
}
