// One round after another, until something is settled.
ghost use Rattle.std.specs.Prelude.{◌≡◌, false};
ghost use Rattle.areas.specs.Memories.{Writes};
ghost use Rattle.store.specs.Decoding.{model_of};
ghost use Rattle.moves.specs.Holding.{Holds, Rounded, Settles};
ghost use Rattle.closing.specs.Leading.{FullTable};
ghost use Rattle.filling.specs.Filled.{Filling};
ghost use Rattle.rounds.specs.Readiness.{RoundMade, SettlingMade};

use crate::conclusion::conclude;
use areas::memory::Memory;
use closing::{grow, lead_edges};
use filling::fill;
use moves::phase::{Phase, phase_of};
use searches::bisect;

// Closes a full table: an edge that is like no row becomes one, or the table is compared with all answers.
fn close(memory: &mut Memory<'_>) -> bool
    ensures { Writes memory.old memory.new (λ w w' d. FullTable w d → Rounded w w' d result) }
{
    match lead_edges(memory) {
        Some(edge) => grow(memory, edge),
        None => conclude(memory),
    }
}

// Fills the table and closes it, unless a cell's word is to be asked about.
fn complete(memory: &mut Memory<'_>) -> bool
    ensures { Writes memory.old memory.new (λ w w' d. Filling w d → Rounded w w' d result) }
{
    if fill(memory) { close(memory) } else { false }
}

// One round: the answer is true where it leaves one row more to go on with.
fn round(memory: &mut Memory<'_>) -> bool
    ensures { Writes memory.old memory.new (λ w w' d. RoundMade w w' d result) }
{
    match phase_of(memory) {
        Phase::Filling => complete(memory),
        Phase::Bisecting(search) => bisect(memory, search),
        _ => false,
    }
}

// Rounds until something is settled; each adds a row, so there are no more of them than there may be states.
pub fn settle(memory: &mut Memory<'_>)
    ensures { Writes memory.old memory.new (λ w w' d. SettlingMade w w' d) }
{
    for _turn in 0..memory.shape.most() {
        if !round(memory) {
            return;
        }
    }
}
