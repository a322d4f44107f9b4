// A search by halves along an answer.
#![tactic(auto)]

mod halves;
mod narrowing;
mod splitting;
mod turns;

pub use halves::{half, middle, start};
pub use narrowing::narrow;
pub use splitting::split;
pub use turns::{bisect, hear_middle};

#[cfg(test)]
mod tests;
