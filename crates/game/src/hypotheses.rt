// Looks for a word after which a machine does not show what a table shows.
ghost use Rattle.std.specs.Prelude.{◌≡◌, IfOk, MatchOption};
ghost use Rattle.machines.specs.Tables.{shows, Same};
ghost use Rattle.answers.specs.Values.{keys_of, cells_of};
ghost use Rattle.differences.specs.Differences.{Found};
ghost use Rattle.game.specs.Counterexamples.{TableNumbers, Counters};

use crate::transcript::Counterexample;
use answers::table::Table;
use answers::table::makes::TableFault;
use differences::first;
use differences::first::DifferenceFault;
use std::alloc::{AllocError, Global};

// The table with these numbers.
fn table_of(heap: Global, keys: usize, numbers: &[u32]) -> Result<Table, AllocError>
    requires { TableNumbers keys numbers.now }
    ensures keys { IfOk result (λ t. keys_of t ≡ keys) }
    ensures cells { IfOk result (λ t. cells_of t ≡ numbers.now) }
{
    Table::from_numbers(heap, keys, numbers).map_err(
        |_fault: TableFault|
            requires { _fault ≡ TableFault.Memory }
        { AllocError },
    )
}

// The first word after which the two tables, which are for as many keys, show different things.
fn difference(heap: Global, one: &Table, other: &Table) -> Result<Option<Vec<u32>>, AllocError>
    requires { keys_of one.now ≡ keys_of other.now }
    ensures { IfOk result (Found (keys_of other.now) (cells_of one.now) (cells_of other.now)) }
{
    first::first_difference(heap, one, other).map_err(
        |_fault: DifferenceFault|
            requires { _fault ≡ DifferenceFault.Memory }
        { AllocError },
    )
}

// The first word after which the machine does not show what the table with these numbers shows, and what it shows then.
pub(crate) fn counterexample(
    heap: Global,
    machine: &Table,
    numbers: &[u32],
) -> Result<Option<Counterexample>, AllocError>
    requires { TableNumbers (keys_of machine.now) numbers.now }
    ensures { IfOk result (λ found. MatchOption found (Same (keys_of machine.now) (shows (keys_of machine.now) numbers.now) (shows (keys_of machine.now) (cells_of machine.now))) (Counters (keys_of machine.now) (cells_of machine.now) numbers.now)) }
{
    let table = table_of(heap, machine.keys(), numbers)?;
    let Some(word) = difference(heap, &table, machine)? else {
        return Ok(None);
    };
    let shown = machine.shows(word.as_slice()).unwrap();
    Ok(Some(Counterexample {
        hypothesis: Vec::from_slice(heap, numbers)?,
        word,
        shown,
    }))
}
