// What a settled learner wants is written out: the word that it asks about, or the table that it shows.
#![tactic(auto)]

mod report;
mod table;
mod words;

pub use report::wanted;
pub use table::write_table;
pub use words::ask;
