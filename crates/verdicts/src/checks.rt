// One look at one thing that must hold for a table to be borne out.
ghost use Rattle.std.specs.Prelude.{◌≡◌, ◌<◌, [], length, Decides, slice_index_or};
ghost use Rattle.answers.specs.Logs.{told};
ghost use Rattle.answers.specs.Made.{lists};
ghost use Rattle.answers.specs.Values.{keys_of, rows_of, cells_of};
ghost use Rattle.verdicts.specs.Faults.{Consistent, Agreed, RowFit, RowsApart};

use crate::order::Index;
use crate::words;
use answers::table::{Row, Table};
use std::alloc::Global;

// A table with a word for each row, the answers that are to bear it out, and how many things of each kind are to be listed at most.
#[derive(Drop)]
pub(crate) struct Examination<'a> {
    pub(crate) heap: Global,
    pub(crate) table: &'a Table,
    pub(crate) words: &'a [Vec<u32>],
    pub(crate) index: Index<'a>,
    pub(crate) most: usize,
    ghost one_each: { length (lists words.now) ≡ rows_of table.now },
}

impl Examination<'_> {
    // The word of the row.
    pub(crate) fn word(&self, row: usize) -> &[u32]
        requires { row < rows_of self.now.table.now }
        ensures { result.now ≡ slice_index_or (lists self.now.words.now) row [] }
    {
        self.words[row].as_slice()
    }

    // Whether answer i says what the first answer to its word says.
    pub(crate) fn consistent(&self, i: usize) -> bool
        ensures { Decides result (Consistent (told self.now.index.answers.now) i) }
    {
        self.index
            .other_than(i, self.index.word_of(i), &[])
            .is_none()
    }

    // Whether the table shows after the word of answer i what it says.
    pub(crate) fn agreed(&self, i: usize) -> bool
        ensures { Decides result (Agreed (keys_of self.now.table.now) (cells_of self.now.table.now) (told self.now.index.answers.now) i) }
    {
        self.table.shows(self.index.word_of(i)) == Some(self.index.shown_of(i))
    }

    // Whether the word of the row is fit for it.
    pub(crate) fn fit(&self, row: usize) -> bool
        requires { row < rows_of self.now.table.now }
        ensures { Decides result (RowFit (keys_of self.now.table.now) (cells_of self.now.table.now) (lists self.now.words.now) (told self.now.index.answers.now) row) }
    {
        words::word_fault(self.table, self.index.answers, Row(row), self.word(row)).is_none()
    }

    // Whether the words of the rows are told apart, if the first row is before the second.
    pub(crate) fn rows_apart(&self, one: usize, other: usize) -> bool
        requires one { one < rows_of self.now.table.now }
        requires other { other < rows_of self.now.table.now }
        ensures { Decides result (RowsApart (lists self.now.words.now) (told self.now.index.answers.now) one other) }
    {
        one >= other || self.index.apart(self.word(one), self.word(other)).is_some()
    }
}
