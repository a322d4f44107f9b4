// What can be wrong with a line, and how it is said.
ghost use Rattle.std.specs.Prelude.{◌≡◌};
ghost use Rattle.formats.specs.declared.faults.LineFault.TheVariants.{Memory};

use std::alloc::AllocFailed;
use thiserror::Error;

// Columns are counted from 1.
#[derive(Debug, Drop, Error)]
pub enum LineFault {
    #[error("column {0}: expected a digit, a blank, ':', '@' or '#'")]
    OtherCharacter(usize),
    #[error("column {0}: a number above 4294967295")]
    LargeNumber(usize),
    #[error("expected ':' and then what was shown")]
    NoColon,
    #[error("expected one ':', and after it a number")]
    SecondColon,
    #[error("expected keys, ':' and what was shown; '@' belongs to tables")]
    AtInAnswer,
    #[error("expected what was shown, a number, after ':'")]
    NothingShown,
    #[error("expected one number after ':'")]
    MuchShown,
    #[error("expected what the row shows, a number, first")]
    NoNumber,
    #[error("expected numbers and then perhaps '@' and a word; ':' belongs to answers")]
    ColonInRow,
    #[error("expected one '@' at most, and after it a word")]
    SecondAt,
    #[error("out of memory")]
    Memory,
}

// By hand, since the contracts of the readers name the fault that `?` makes.
impl<T: Drop> From<AllocFailed<T>> for LineFault {
    ghost from_gives = { λ _ r. r ≡ Memory };

    fn from(_e: AllocFailed<T>) -> LineFault {
        LineFault::Memory
    }
}
