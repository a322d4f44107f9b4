// The calls of the learner: what is wanted next, an answer, a refutation.
#![tactic(auto)]

mod answering;
mod refutation;
mod runs;
mod stepping;

pub use answering::told;
pub use refutation::refuted;
pub use runs::{calls_add_up, calls_end, calls_go_on};
pub use stepping::step;

#[cfg(test)]
mod tests;
