// Memory as areas of words: reads and writes that are safe on any memory, whatever the numbers mean.
#![tactic(auto)]

pub mod area;
pub mod bulk;
pub mod memory;
pub mod places;
pub mod reading;
pub mod records;
pub mod shape;
pub mod spans;
#[cfg(test)]
mod tests;
pub mod words;
