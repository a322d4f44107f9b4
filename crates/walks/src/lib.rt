// Where words lead by the successors of the rows.
#![tactic(auto)]

mod along;
mod ends;
mod leads;

pub use along::{mixed, row_along, span_behind};
pub use ends::{end_row, first_wrong};
pub use leads::{lead, next_row};

#[cfg(test)]
mod tests;
