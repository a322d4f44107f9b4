// Rounds of the learner: it fills its table, closes it, compares it with all answers and searches along one that is wrong, until a word is asked about, a table shown, or the box found larger.
#![tactic(auto)]

mod conclusion;
mod turns;

pub use turns::settle;
