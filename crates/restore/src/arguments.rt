// Reads the program's arguments.
use std::alloc::AllocError;
use std::io;
use thiserror::Error;

// What is wrong with them.
#[derive(Debug, Drop, Error)]
pub enum Wrong {
    #[error("expected KEYS and STATES; restore --help says more")]
    Usage,
    #[error("expected a number of digits, at most 4294967295")]
    NoNumber,
    #[error("{0} keys: expected 1 to 64")]
    OtherKeys(u32),
    #[error("{states} states do not fit; with {keys} keys, 1 to {most} states do")]
    TooLarge { keys: u32, states: u32, most: u32 },
    #[error(transparent)]
    Input(#[from] io::Error),
    #[error("out of memory")]
    Memory(#[from(alloc)] AllocError),
}

// A number of decimal digits; `parse` alone would take a sign too.
pub fn number(text: &str) -> Result<u32, Wrong> {
    if !text.bytes().all(|b| b.is_ascii_digit()) {
        return Err(Wrong::NoNumber);
    }
    text.parse().map_err(|_| Wrong::NoNumber)
}
