// The product of two tables for as many keys: a pair of rows, one of each, follows a key in both.
ghost use Rattle.std.specs.Prelude.{◌≡◌};
ghost use Rattle.answers.specs.Values.{keys_of};

use answers::table::{Key, Row, Table};

#[derive(Clone, Copy)]
pub(crate) struct Pair {
    one: Row,
    other: Row,
}

impl Pair {
    // The numbers of both rows.
    pub(crate) fn rows(self) -> (usize, usize)
        ensures { result ≡ (self.one.0, self.other.0) }
    {
        (self.one.0, self.other.0)
    }
}

// The rows that begin.
pub(crate) const FIRST: Pair = Pair {
    one: Row(0),
    other: Row(0),
};

// Two tables for as many keys.
#[derive(Clone, Copy)]
pub(crate) struct Product<'a> {
    one: &'a Table,
    other: &'a Table,
    ghost same_keys: { keys_of one.now ≡ keys_of other.now },
}

impl<'a> Product<'a> {
    ghost use Rattle.std.specs.Prelude.{◌<◌, MatchOption, Decides};
    ghost use Rattle.machines.specs.Tables.{row_shows, next};
    ghost use Rattle.answers.specs.Values.{cells_of};
    ghost use Rattle.differences.specs.Pairs.{Inside};

    // The product of the tables, unless they are for different numbers of keys.
    pub(crate) fn of(one: &'a Table, other: &'a Table) -> Option<Product<'a>>
        ensures { MatchOption result (keys_of one.now ≡ keys_of other.now → ⊥) (λ p. (p.one.now ≡ one.now) × (p.other.now ≡ other.now)) }
    {
        if one.keys() != other.keys() {
            return None;
        }
        Some(Product { one, other })
    }

    // How many keys both tables are for.
    pub(crate) fn keys(&self) -> u32
        ensures { result ≡ keys_of self.now.one.now }
    {
        self.one.keys() as u32
    }

    // Whether the two rows show the same.
    pub(crate) fn alike(&self, pair: Pair) -> bool
        requires { Inside self.now.one.now self.now.other.now pair }
        ensures { Decides result (row_shows (keys_of self.now.one.now) (cells_of self.now.one.now) pair.one.0 ≡ row_shows (keys_of self.now.other.now) (cells_of self.now.other.now) pair.other.0) }
    {
        self.one.row_shown(pair.one) == self.other.row_shown(pair.other)
    }

    // The two rows that the key leads to.
    pub(crate) fn follow(&self, pair: Pair, key: u32) -> Pair
        requires inside { Inside self.now.one.now self.now.other.now pair }
        requires key { key < keys_of self.now.one.now }
        ensures one { result.one.0 ≡ next (keys_of self.now.one.now) (cells_of self.now.one.now) pair.one.0 key }
        ensures other { result.other.0 ≡ next (keys_of self.now.other.now) (cells_of self.now.other.now) pair.other.0 key }
    {
        Pair {
            one: self.one.next(pair.one, Key(key)).unwrap(),
            other: self.other.next(pair.other, Key(key)).unwrap(),
        }
    }
}
