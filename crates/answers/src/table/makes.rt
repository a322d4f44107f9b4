// A table made from rows, or why they make none.
ghost use Rattle.std.specs.Prelude.{◌≡◌, ℕ, ◌+◌, ◌<◌, ◌≤◌, length, MatchOption, MatchResult, slice_index};
ghost use Rattle.answers.specs.Made.{lists, MadeFrom, Refused, AllLead};
ghost use Rattle.answers.specs.declared.table.makes.TableFault.TheVariants.{Memory};

use super::{Key, Row, Table};
use std::alloc::{AllocError, Global};

// The most rows that a table may have.
pub(super) const MOST_ROWS: usize = 1048576;

// The most keys that a table may have.
pub(super) const MOST_KEYS: usize = 64;

// Why rows make no table.
#[derive(Clone, Copy, PartialEq, Eq, Debug)]
pub enum TableFault {
    NoRows,
    ManyRows(usize),
    NoKeys,
    ManyKeys(usize),
    Uneven(Row),
    NoSuchRow(Row, Key),
    Memory,
}

// By hand, since a contract names the fault that `?` makes.
impl From<AllocError> for TableFault {
    ghost from_gives = { λ _ r. r ≡ Memory };

    fn from(_e: AllocError) -> TableFault {
        TableFault::Memory
    }
}

// The first key of the row that leads to none of so many rows.
pub(super) fn stray_key(row: &[u32], keys: u32, rows: usize) -> Option<Key>
    requires { length row.now ≡ keys + 1 }
    ensures { MatchOption result (AllLead row.now keys rows) (λ x. (x.0 < keys) × (rows ≤ slice_index row.now (1 + x.0))) }
{
    let x = row[1..].iter().position(|to| *to as usize >= rows)?;
    Some(Key(x as u32))
}

impl Table {
    // The table with these rows, each what it shows and then where each key leads.
    pub fn from_rows(heap: Global, rows: &[Vec<u32>]) -> Result<Table, TableFault>
        ensures { MatchResult result (MadeFrom (lists rows.now)) (Refused (lists rows.now)) }
    {
        let Some(first) = rows.first() else {
            return Err(TableFault::NoRows);
        };
        if rows.len() > MOST_ROWS {
            return Err(TableFault::ManyRows(rows.len()));
        }
        let width = first.len();
        if width < 2 {
            return Err(TableFault::NoKeys);
        }
        if width > MOST_KEYS + 1 {
            return Err(TableFault::ManyKeys(width - 1));
        }
        let mut cells = Vec::new(heap);
        for (i, row) in rows.iter().enumerate() {
            if row.len() != width {
                return Err(TableFault::Uneven(Row(i)));
            }
            if let Some(key) = stray_key(row.as_slice(), (width - 1) as u32, rows.len()) {
                return Err(TableFault::NoSuchRow(Row(i), key));
            }
            cells.extend_from_slice(row.as_slice())?;
        }
        Ok(Table {
            keys: width - 1,
            rows: rows.len(),
            cells,
        })
    }
}
