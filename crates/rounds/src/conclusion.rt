// A full and closed table is shown, or an answer that it gets wrong is searched along.
ghost use Rattle.areas.specs.Memories.{Writes};
ghost use Rattle.moves.specs.Holding.{Rounded, Settles};
ghost use Rattle.rounds.specs.Readiness.{ClosedTable, AgreeingTable};

use areas::memory::Memory;
use moves::counters;
use moves::phase::{Phase, enter};
use searches::{bisect, start};
use walks::first_wrong;

// Shows the table that is read off.
fn show(memory: &mut Memory<'_>)
    ensures { Writes memory.old memory.new (λ w w' d. AgreeingTable w d → Settles w w' d) }
{
    let rows = counters::rows(memory);
    counters::set_last(memory, rows);
    enter(memory, Phase::ShowsTable);
}

// Compares the table with all answers: shows it, or searches along the first that it gets wrong.
pub fn conclude(memory: &mut Memory<'_>) -> bool
    ensures { Writes memory.old memory.new (λ w w' d. ClosedTable w d → Rounded w w' d result) }
{
    let Some(wrong) = first_wrong(memory) else {
        show(memory);
        return false;
    };
    let search = start(memory, wrong);
    enter(memory, Phase::Bisecting(search));
    bisect(memory, search)
}
