// The first word after which two tables show different things.
ghost use Rattle.std.specs.Prelude.{◌≡◌, MatchResult};
ghost use Rattle.differences.specs.Differences.{Answered, Refused};
ghost use Rattle.differences.specs.declared.first.DifferenceFault.TheVariants.{Memory};

use crate::product::{FIRST, Product};
use crate::search;
use answers::table::Table;
use std::alloc::{AllocError, Global};
use thiserror::Error;

// Why there is no answer.
#[derive(Debug, Drop, Error)]
pub enum DifferenceFault {
    #[error("the tables are for different numbers of keys")]
    DifferentKeys,
    #[error("out of memory")]
    Memory,
}

// By hand, since contracts name the fault that `?` gives.
impl From<AllocError> for DifferenceFault {
    ghost from_gives = { λ _ r. r ≡ Memory };

    fn from(_e: AllocError) -> DifferenceFault {
        DifferenceFault::Memory
    }
}

// The first word, shorter ones first, after which the two tables show different things.
pub fn first_difference(
    heap: Global,
    one: &Table,
    other: &Table,
) -> Result<Option<Vec<u32>>, DifferenceFault>
    ensures { MatchResult result (Answered one.now other.now) (Refused one.now other.now) }
{
    let product = Product::of(one, other).ok_or(DifferenceFault::DifferentKeys)?;
    if !product.alike(FIRST) {
        return Ok(Some(Vec::new(heap)));
    }
    Ok(search::explore(heap, product)?)
}
