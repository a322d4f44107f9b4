// All that is missing for a table to be borne out by a log.
ghost use Rattle.std.specs.Prelude.{◌≡◌, MatchResult};
ghost use Rattle.answers.specs.Logs.{told};
ghost use Rattle.answers.specs.Made.{lists};
ghost use Rattle.verdicts.specs.Verdicts.{Reports, NoReport};
ghost use Rattle.verdicts.specs.declared.report.AuditFault.TheVariants.{Memory};

use crate::checks::Examination;
use crate::listing::Listing;
use crate::order::Index;
use answers::log::Answer;
use answers::table::{Key, Row, Table};
use std::alloc::{AllocError, Global};

// Answers by their numbers; pairs of rows, the first before the second; a row with a key, and another row.
#[derive(Drop)]
pub struct Report {
    pub conflicts: Listing<usize>,
    pub wrong: Listing<usize>,
    pub words: Listing<Row>,
    pub pairs: Listing<(Row, Row)>,
    pub edges: Listing<(Row, Key, Row)>,
}

// Why there is no report.
#[derive(Debug, Drop)]
pub enum AuditFault {
    WordCount,
    Memory,
}

// By hand, since a contract names the fault that `?` makes.
impl From<AllocError> for AuditFault {
    ghost from_gives = { λ _ r. r ≡ Memory };

    fn from(_e: AllocError) -> AuditFault {
        AuditFault::Memory
    }
}

// Lists what is missing for the table, with a word for each row, to be borne out by the answers: at most so many of each kind.
pub fn examine(
    heap: Global,
    table: &Table,
    words: &[Vec<u32>],
    answers: &[Answer],
    most: usize,
) -> Result<Report, AuditFault>
    ensures { MatchResult result (Reports table.now (lists words.now) (told answers.now) most) (NoReport table.now (lists words.now)) }
{
    if words.len() != table.rows() {
        return Err(AuditFault::WordCount);
    }
    let index = Index::new(heap, answers)?;
    let examination = Examination {
        heap,
        table,
        words,
        index,
        most,
    };
    Ok(Report {
        conflicts: examination.conflicts()?,
        wrong: examination.wrong_answers()?,
        words: examination.unfit_words()?,
        pairs: examination.pairs_alike()?,
        edges: examination.open_edges()?,
    })
}
