// What can keep the program from a verdict, and how it is said.
use formats::LineFault;
use std::alloc::AllocError;
use std::io;
use thiserror::Error;
use verdicts::report::AuditFault;

#[derive(Debug, Drop, Error)]
pub enum Problem {
    #[error("expected two files, a table and its answers; audit --help says more")]
    Usage,
    #[error("{path}:{line}: {fault}")]
    Line {
        path: String,
        line: usize,
        fault: Fault,
    },
    #[error("{0}: expected a row: what it shows, then where each key leads")]
    NoRows(String),
    #[error("{0}: {1}")]
    Unread(String, io::Error),
    #[error(transparent)]
    Input(#[from] io::Error),
    #[error("out of memory")]
    NoReport(#[from] AuditFault),
    #[error("out of memory")]
    Memory(#[from(alloc)] AllocError),
}

// What is wrong with a line of a file.
#[derive(Debug, Drop, Error)]
pub enum Fault {
    #[error(transparent)]
    Format(LineFault),
    #[error("expected at most 1048576 rows, found {0}")]
    ManyRows(usize),
    #[error("expected what the row shows and then where at least one key leads")]
    NoKeys,
    #[error("expected at most 64 keys, found {0}")]
    ManyKeys(usize),
    #[error("expected {width} numbers, as in the first row")]
    Uneven { width: usize },
    #[error("key {key} leads to no row; expected a number below {rows}")]
    NoSuchRow { key: u32, rows: usize },
    #[error("key {key} is none of the table's; expected keys below {keys}")]
    OtherKey { key: u32, keys: usize },
}
