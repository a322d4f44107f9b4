// Answers looked up by their words.
#![tactic(auto)]

mod parts;
mod search;

pub use parts::{rest, spell};
pub use search::find;

#[cfg(test)]
mod tests;
