// One move of the learner at a time: reads and writes of its memory, safe on any memory, each said in the model's terms.
#![tactic(auto)]

pub mod answers;
pub mod cells;
pub mod counters;
pub mod letters;
pub mod numbers;
pub mod opening;
pub mod phase;
pub mod rows;
pub mod successors;
pub mod suffixes;
#[cfg(test)]
mod tests;
