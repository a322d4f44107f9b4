// Looks at all answers and rows, and lists those that are not as they must be.
ghost use Rattle.std.specs.Prelude.{ℕ, ◌+◌, ◌*◌, ◌<◌, length, IfOk};
ghost use Rattle.answers.specs.Logs.{told};
ghost use Rattle.answers.specs.Made.{lists};
ghost use Rattle.answers.specs.Values.{keys_of, rows_of, cells_of};
ghost use Rattle.verdicts.specs.Faults.{Consistent, Agreed, RowFit, PairApart};
ghost use Rattle.verdicts.specs.Listings.{Checks, Lists, itself, row_at, pair_at};

use crate::checks::Examination;
use crate::listing::Listing;
use answers::table::Row;
use std::alloc::AllocError;

impl Examination<'_> {
    // The answers that say something else than the first to the same word.
    pub(crate) fn conflicts(&self) -> Result<Listing<usize>, AllocError>
        ensures { IfOk result (Lists itself (Consistent (told self.now.index.answers.now)) (length (told self.now.index.answers.now)) self.now.most) }
    {
        let answers = self.index.answers.len();
        Listing::of(self.heap, self.most, answers, |i| {
            (!self.consistent(i)).then_some(i)
        })
    }

    // The answers that the table gets wrong.
    pub(crate) fn wrong_answers(&self) -> Result<Listing<usize>, AllocError>
        ensures { IfOk result (Lists itself (Agreed (keys_of self.now.table.now) (cells_of self.now.table.now) (told self.now.index.answers.now)) (length (told self.now.index.answers.now)) self.now.most) }
    {
        let answers = self.index.answers.len();
        Listing::of(self.heap, self.most, answers, |i| {
            (!self.agreed(i)).then_some(i)
        })
    }

    // The rows whose words are not fit for them.
    pub(crate) fn unfit_words(&self) -> Result<Listing<Row>, AllocError>
        ensures { IfOk result (Lists row_at (RowFit (keys_of self.now.table.now) (cells_of self.now.table.now) (lists self.now.words.now) (told self.now.index.answers.now)) (rows_of self.now.table.now) self.now.most) }
    {
        Listing::of(self.heap, self.most, self.table.rows(), |row| {
            (!self.fit(row)).then_some(Row(row))
        })
    }

    // The two rows, if the first is before the second and their words are not told apart.
    fn alike(&self, one: usize, other: usize) -> Option<(Row, Row)>
        requires one { one < rows_of self.now.table.now }
        requires other { other < rows_of self.now.table.now }
        ensures { Checks (pair_at (rows_of self.now.table.now)) (PairApart (rows_of self.now.table.now) (lists self.now.words.now) (told self.now.index.answers.now)) (one * rows_of self.now.table.now + other) result }
    {
        (!self.rows_apart(one, other)).then_some((Row(one), Row(other)))
    }

    // The pairs of rows whose words are not told apart.
    pub(crate) fn pairs_alike(&self) -> Result<Listing<(Row, Row)>, AllocError>
        ensures { IfOk result (Lists (pair_at (rows_of self.now.table.now)) (PairApart (rows_of self.now.table.now) (lists self.now.words.now) (told self.now.index.answers.now)) (rows_of self.now.table.now * rows_of self.now.table.now) self.now.most) }
    {
        let mut found = Listing::new(self.heap);
        let rows = self.table.rows();
        for one in 0..rows {
            found.look(self.most, rows, |other| self.alike(one, other))?;
        }
        Ok(found)
    }
}
