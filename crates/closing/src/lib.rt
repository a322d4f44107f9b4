// The observation table is closed: each edge is led to the row that it is like, and an edge that is like none becomes a row.
#![tactic(auto)]

mod gaps;
mod growing;
mod leading;
mod likeness;

pub use gaps::{Gap, first_gap};
pub use growing::grow;
pub use leading::lead_edges;
pub use likeness::{differ, row_like};

#[cfg(test)]
mod tests;
