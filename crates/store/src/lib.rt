// The learner's memory: what counts as a store, and what begins one.
#![tactic(auto)]

ghost use Rattle.store.specs.Reading.{StoresStand};

mod beginning;
pub mod header;
mod room;

pub use beginning::{STORE_MARK, begin};
pub use room::{most_states, room_in};

// What holds of every state holds of whatever is taken for a store.
pub fn stores_stand()
    ensures { StoresStand }
{}

#[cfg(test)]
mod tests;
