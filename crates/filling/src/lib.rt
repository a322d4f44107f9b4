// The observation table is filled: cells take answers told before, and the first whose word was never told of is asked about.
#![tactic(auto)]

mod answered;
mod heard;
mod table;

pub use answered::cell_answer;
pub use heard::hear_cell;
pub use table::fill;
