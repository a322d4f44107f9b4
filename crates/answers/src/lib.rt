// Tables and logs of answers as values, and whether two words were told apart.
#![tactic(auto)]

pub mod apart;
pub mod log;
pub mod table;
