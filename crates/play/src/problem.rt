// What can keep the program from playing a game to its end, and how it is said.
use std::alloc::AllocError;
use std::io;
use thiserror::Error;

#[derive(Debug, Drop, Error)]
pub enum Problem {
    #[error("the numbers make no table")]
    NoTable,
    #[error("the store is too short to begin")]
    NoStore,
    #[error("there is no room to write a question or a table")]
    Short,
    #[error("the store has no room for a refuting word")]
    Full,
    #[error("out of memory")]
    Memory(#[from(alloc)] AllocError),
    #[error(transparent)]
    Output(#[from] io::Error),
}
