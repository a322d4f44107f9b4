// Looks at each row's word with each key behind it.
ghost use Rattle.std.specs.Prelude.{◌≡◌, ℕ, ◌+◌, ◌*◌, ◌<◌, [], ◌∷◌, ◌++◌, IfOk, Decides, OnOk, slice_index_or};
ghost use Rattle.machines.specs.Tables.{next};
ghost use Rattle.answers.specs.Logs.{told};
ghost use Rattle.answers.specs.Made.{lists};
ghost use Rattle.answers.specs.Values.{keys_of, rows_of, cells_of};
ghost use Rattle.verdicts.specs.Faults.{ApartOrThere, EdgeApart};
ghost use Rattle.verdicts.specs.Listings.{Checks, Lists, edge_at};

use crate::checks::Examination;
use crate::listing::Listing;
use answers::table::{Key, Row};
use std::alloc::AllocError;

impl Examination<'_> {
    // The row's word with the key behind it.
    fn word_along(&self, row: usize, key: u32) -> Result<Vec<u32>, AllocError>
        requires { row < rows_of self.now.table.now }
        ensures { IfOk result (λ v. v.items ≡ slice_index_or (lists self.now.words.now) row [] ++ (key ∷ [])) }
    {
        let mut word = Vec::from_slice(self.heap, self.word(row))?;
        word.push(key)?;
        Ok(word)
    }

    // Whether the row's word with the key behind it is told apart from the other row's, unless the key leads there.
    fn apart_or_there(&self, row: usize, key: u32, word: &[u32], other: usize) -> bool
        requires row { row < rows_of self.now.table.now }
        requires key { key < keys_of self.now.table.now }
        requires other { other < rows_of self.now.table.now }
        requires word { word.now ≡ slice_index_or (lists self.now.words.now) row [] ++ (key ∷ []) }
        ensures { Decides result (ApartOrThere (keys_of self.now.table.now) (cells_of self.now.table.now) (lists self.now.words.now) (told self.now.index.answers.now) row key other) }
    {
        self.table.next(Row(row), Key(key)) == Some(Row(other))
            || self.index.apart(word, self.word(other)).is_some()
    }

    // The row, the key and the other row, if the key does not lead there and nothing tells its word apart from the other row's.
    fn open(&self, row: usize, key: u32, word: &[u32], other: usize) -> Option<(Row, Key, Row)>
        requires row { row < rows_of self.now.table.now }
        requires key { key < keys_of self.now.table.now }
        requires other { other < rows_of self.now.table.now }
        requires word { word.now ≡ slice_index_or (lists self.now.words.now) row [] ++ (key ∷ []) }
        ensures { Checks (edge_at (keys_of self.now.table.now) (rows_of self.now.table.now)) (EdgeApart (keys_of self.now.table.now) (rows_of self.now.table.now) (cells_of self.now.table.now) (lists self.now.words.now) (told self.now.index.answers.now)) ((row * keys_of self.now.table.now + key) * rows_of self.now.table.now + other) result }
    {
        let apart = self.apart_or_there(row, key, word, other);
        (!apart).then_some((Row(row), Key(key), Row(other)))
    }

    // Looks at the row and the key against each other row.
    fn look_along(
        &self,
        found: &mut Listing<(Row, Key, Row)>,
        row: usize,
        key: u32,
    ) -> Result<(), AllocError>
        requires row { row < rows_of self.now.table.now }
        requires key { key < keys_of self.now.table.now }
        requires sofar { Lists (edge_at (keys_of self.now.table.now) (rows_of self.now.table.now)) (EdgeApart (keys_of self.now.table.now) (rows_of self.now.table.now) (cells_of self.now.table.now) (lists self.now.words.now) (told self.now.index.answers.now)) ((row * keys_of self.now.table.now + key) * rows_of self.now.table.now) self.now.most found.old }
        ensures { OnOk result (Lists (edge_at (keys_of self.now.table.now) (rows_of self.now.table.now)) (EdgeApart (keys_of self.now.table.now) (rows_of self.now.table.now) (cells_of self.now.table.now) (lists self.now.words.now) (told self.now.index.answers.now)) ((row * keys_of self.now.table.now + (key + 1)) * rows_of self.now.table.now) self.now.most found.new) }
    {
        let word = self.word_along(row, key)?;
        let word = word.as_slice();
        found.look(self.most, self.table.rows(), |other| {
            self.open(row, key, word, other)
        })
    }

    // The rows and keys that are not told apart from another row, to which the key does not lead.
    pub(crate) fn open_edges(&self) -> Result<Listing<(Row, Key, Row)>, AllocError>
        ensures { IfOk result (Lists (edge_at (keys_of self.now.table.now) (rows_of self.now.table.now)) (EdgeApart (keys_of self.now.table.now) (rows_of self.now.table.now) (cells_of self.now.table.now) (lists self.now.words.now) (told self.now.index.answers.now)) ((rows_of self.now.table.now * keys_of self.now.table.now) * rows_of self.now.table.now) self.now.most) }
    {
        let mut found = Listing::new(self.heap);
        for row in 0..self.table.rows() {
            for key in 0..self.table.keys() as u32 {
                self.look_along(&mut found, row, key)?;
            }
        }
        Ok(found)
    }
}
