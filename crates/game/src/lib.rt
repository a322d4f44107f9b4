// A machine given as a table, played against the learner until its table is learnt.
#![tactic(auto)]

mod hypotheses;
mod playing;
mod referee;
mod transcript;

pub use playing::{Game, GameFault, play};
pub use transcript::{Counterexample, Transcript};

#[cfg(test)]
mod tests;
