// A table made from its numbers, row after row, or why they make none.
ghost use Rattle.std.specs.Prelude.{◌≡◌, ℕ, ◌+◌, ◌*◌, ◌≤◌, length, MatchOption, MatchResult};
ghost use Rattle.answers.specs.Made.{Stray, NoneStray, MadeOf, RefusedNumbers};

use super::makes::TableFault;
use super::{Key, Row, Table, makes};
use std::alloc::Global;

// The first row with a key that leads to none of so many rows, and the first such key.
fn stray_edge(numbers: &[u32], keys: u32, rows: usize) -> Option<(Row, Key)>
    requires keys { keys ≤ 64 }
    requires long { rows * (keys + 1) ≡ length numbers.now }
    ensures { MatchOption result (NoneStray keys numbers.now rows) (λ e. Stray keys numbers.now rows e.0.0 e.1.0) }
{
    let width = keys as usize + 1;
    for (i, row) in numbers.chunks_exact(width).enumerate() {
        if let Some(key) = makes::stray_key(row, keys, rows) {
            return Some((Row(i), key));
        }
    }
    None
}

impl Table {
    // The table for so many keys with these numbers: for each row what it shows and then where each key leads.
    pub fn from_numbers(heap: Global, keys: usize, numbers: &[u32]) -> Result<Table, TableFault>
        ensures { MatchResult result (MadeOf keys numbers.now) (RefusedNumbers keys numbers.now) }
    {
        if keys < 1 {
            return Err(TableFault::NoKeys);
        }
        if keys > makes::MOST_KEYS {
            return Err(TableFault::ManyKeys(keys));
        }
        let rows = numbers.len() / (keys + 1);
        if numbers.len() % (keys + 1) != 0 {
            return Err(TableFault::Uneven(Row(rows)));
        }
        if rows < 1 {
            return Err(TableFault::NoRows);
        }
        if rows > makes::MOST_ROWS {
            return Err(TableFault::ManyRows(rows));
        }
        if let Some((row, key)) = stray_edge(numbers, keys as u32, rows) {
            return Err(TableFault::NoSuchRow(row, key));
        }
        let cells = Vec::from_slice(heap, numbers)?;
        Ok(Table { keys, rows, cells })
    }
}
