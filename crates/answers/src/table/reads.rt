// What a table shows, and where a word leads in it.
ghost use Rattle.std.specs.Prelude.{◌≡◌, ℕ, ◌+◌, ◌*◌, ◌<◌, ◌≤◌, MatchOption};
ghost use Rattle.machines.specs.Tables.{row_shows, next};
ghost use Rattle.answers.specs.Values.{keys_of, rows_of, cells_of, Next, Lead, Shows};

use super::{Key, Row, Table};

impl Table {
    pub fn keys(&self) -> usize
        ensures { result ≡ keys_of self.now }
    {
        self.keys
    }

    pub fn rows(&self) -> usize
        ensures { result ≡ rows_of self.now }
    {
        self.rows
    }

    // Where the row's numbers begin.
    fn start(&self, row: Row) -> usize
        requires { row.0 < rows_of self.now }
        ensures { result ≡ row.0 * (keys_of self.now + 1) }
    {
        row.0 * (self.keys + 1)
    }

    // What the row shows.
    fn shown_at(&self, row: Row) -> u32
        requires { row.0 < rows_of self.now }
        ensures { result ≡ row_shows (keys_of self.now) (cells_of self.now) row.0 }
    {
        self.cells[self.start(row)]
    }

    // Where the key leads from the row.
    fn follow(&self, row: Row, key: Key) -> Row
        requires row { row.0 < rows_of self.now }
        requires key { key.0 < keys_of self.now }
        ensures { result.0 ≡ next (keys_of self.now) (cells_of self.now) row.0 key.0 }
    {
        Row(self.cells[self.start(row) + (1 + key.0 as usize)] as usize)
    }

    // What the row shows, if there is such a row.
    pub fn row_shown(&self, row: Row) -> Option<u32>
        ensures { MatchOption result (rows_of self.now ≤ row.0) (λ m. (row.0 < rows_of self.now) × (m ≡ row_shows (keys_of self.now) (cells_of self.now) row.0)) }
    {
        (row.0 < self.rows).then(|| self.shown_at(row))
    }

    // Where the key leads from the row, if there are such a row and such a key.
    pub fn next(&self, row: Row, key: Key) -> Option<Row>
        ensures { Next self.now row.0 key.0 result }
    {
        let within = row.0 < self.rows && (key.0 as usize) < self.keys;
        within.then(|| self.follow(row, key))
    }

    // The row that the word leads to from row 0, unless the word has other keys.
    pub fn lead(&self, word: &[u32]) -> Option<Row>
        ensures { Lead self.now word.now result }
    {
        word.iter().try_fold(Row(0), |at, x| self.next(at, Key(*x)))
    }

    // What the table shows after the word, unless the word has other keys.
    pub fn shows(&self, word: &[u32]) -> Option<u32>
        ensures { Shows self.now word.now result }
    {
        self.lead(word).and_then(|row| self.row_shown(row))
    }
}
