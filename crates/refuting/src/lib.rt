// A table that was shown is refuted by a word after which the box shows something else.
#![tactic(auto)]

mod hypothesis;
mod letters;
mod refutation;
mod room;

pub use hypothesis::{row_after, shown_after};
pub use letters::of_keys;
pub use refutation::refute;
pub use room::has_room;
