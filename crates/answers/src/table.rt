// A table as a value: a row for each state, with what it shows and where each key leads.
ghost use Rattle.std.specs.Prelude.{◌≡◌, ℕ, ◌+◌, ◌*◌, ◌<◌, ◌≤◌, length};
ghost use Rattle.machines.specs.Tables.{next};

pub use machines::Key;

pub mod makes;
mod numbers;
pub mod reads;

// The number of a row, from 0.
#[derive(Clone, Copy, PartialEq, Eq, Debug)]
pub struct Row(pub usize);

// A table of so many rows, at most 1,048,576, for so many keys, 1 to 64; its cells are rows of 1 + keys numbers.
#[derive(Drop)]
pub struct Table {
    keys: usize,

    // All rows lie in one Vec, whose length alone does not say how many they are.
    rows: usize,
    cells: Vec<u32>,
    ghost some_keys: { 1 ≤ keys },
    ghost few_keys: { keys ≤ 64 },
    ghost some_rows: { 0 < rows },
    ghost few_rows: { rows ≤ 1048576 },
    ghost long: { length cells.items ≡ rows * (keys + 1) },
    ghost inside: { (i x : ℕ) → i < rows → x < keys → next keys cells.items i x < rows },
}
