// Reads single lines of two text formats, a table's rows and answers, and writes numbers and words for people.
#![tactic(auto)]

mod answers;
mod faults;
mod numbers;
mod rows;
mod scan;
mod words;

pub use answers::{AnswerLine, answer_line};
pub use faults::LineFault;
pub use rows::{RowLine, row_line};
pub use scan::{Token, tokens};
pub use words::{Numbers, Word};

#[cfg(test)]
mod tests;
