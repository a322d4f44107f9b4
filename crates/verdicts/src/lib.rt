// Whether a table is borne out by a log of answers, and what is missing.
#![tactic(auto)]

mod apart;
mod checks;
pub mod choice;
mod edges;
pub mod greedy;
pub mod listing;
mod looks;
mod order;
pub mod report;
pub mod verdict;
pub mod words;
