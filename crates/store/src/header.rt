// The words of the header.
pub const MARK: usize = 0;

pub const KEYS: usize = 1;

pub const MOST: usize = 2;

pub const ROWS: usize = 3;

pub const SUFFIXES: usize = 4;

pub const ANSWERS: usize = 5;
// Two words, low then high.
pub const LETTERS: usize = 6;

pub const BISECTED: usize = 8;

pub const REFUTES: usize = 9;

pub const LAST: usize = 10;

pub const PHASE: usize = 11;

pub const FIRST: usize = 12;

pub const SECOND: usize = 13;

pub const THIRD: usize = 14;
// Two words each.
pub const LOW: usize = 16;

pub const HIGH: usize = 18;
