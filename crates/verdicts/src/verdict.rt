// Whether a table is borne out, and if not, the first thing that is missing.
ghost use Rattle.std.specs.Prelude.{ℕ, ◌<◌, List, MatchResult};
ghost use Rattle.machines.specs.Answers.{Told};
ghost use Rattle.answers.specs.declared.table.Table.{Table};
ghost use Rattle.answers.specs.Logs.{told};
ghost use Rattle.answers.specs.Made.{lists};
ghost use Rattle.verdicts.specs.Verdicts.{Reports, NoReport, Judged};

use crate::report;
use crate::report::{AuditFault, Report};
use answers::log::Answer;
use answers::table::{Key, Row, Table};
use std::alloc::Global;

// Why a table is not borne out; answers by their numbers.
#[derive(Clone, Copy, PartialEq, Eq, Debug)]
pub enum Flaw {
    Conflict(usize),
    Wrong(usize),
    Unfit(Row),
    Alike(Row, Row),
    Open(Row, Key, Row),
}

impl Report {
    // The first thing that is missing for the table that was reported on; none if it is borne out.
    pub fn verdict(&self) -> Option<Flaw>
        ensures { (t : Table) (ws : List (List ℕ)) (answers : List Told) (most : ℕ) → 0 < most → Reports t ws answers most self.now → Judged t ws answers result }
    {
        if let Some(i) = self.conflicts.head() {
            return Some(Flaw::Conflict(i));
        }
        if let Some(i) = self.wrong.head() {
            return Some(Flaw::Wrong(i));
        }
        if let Some(row) = self.words.head() {
            return Some(Flaw::Unfit(row));
        }
        if let Some((one, other)) = self.pairs.head() {
            return Some(Flaw::Alike(one, other));
        }
        let (row, key, other) = self.edges.head()?;
        Some(Flaw::Open(row, key, other))
    }
}

// Whether the table, with a word for each row, is borne out by the answers, and if not, the first thing that is missing.
pub fn audit(
    heap: Global,
    table: &Table,
    words: &[Vec<u32>],
    answers: &[Answer],
) -> Result<Option<Flaw>, AuditFault>
    ensures { MatchResult result (Judged table.now (lists words.now) (told answers.now)) (NoReport table.now (lists words.now)) }
{
    let report = report::examine(heap, table, words, answers, 1)?;
    Ok(report.verdict())
}
