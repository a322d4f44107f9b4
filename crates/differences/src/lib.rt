// The first word after which two tables show different things, or that there is none.
#![tactic(auto)]

pub mod first;
mod product;
mod search;
#[cfg(test)]
mod tests;
