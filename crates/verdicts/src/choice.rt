// A told word for each row, where nobody named one.
ghost use Rattle.std.specs.Prelude.{◌≡◌, ℕ, ◌+◌, ◌<◌, List, ◌++◌, length, IfOk, Decides, MatchBool, slice_index};
ghost use Rattle.machines.specs.Words.{Less};
ghost use Rattle.answers.specs.Logs.{told};
ghost use Rattle.answers.specs.Values.{keys_of, rows_of, cells_of};
ghost use Rattle.verdicts.specs.Choices.{LeadsHere, Followers, Better, BetterOf, CandidateFor, PlacedIn, WordFor, WordsFor};
ghost use Rattle.verdicts.specs.Orders.{word_at};

use crate::order::Index;
use answers::log::Answer;
use answers::table::{Row, Table};
use std::alloc::{AllocError, Global};

// A place of the order whose word leads to a row, and how many words of the order begin with it.
#[derive(Clone, Copy)]
struct Candidate {
    place: usize,
    followers: usize,
}

// Whether the word leads to the row.
fn leads_here(table: &Table, word: &[u32], row: Row) -> bool
    ensures { Decides result (LeadsHere (keys_of table.now) (cells_of table.now) row.0 word.now) }
{
    table.lead(word) == Some(row)
}

impl Index<'_> {
    // The word at the place of the order.
    fn word_in(&self, place: usize) -> &[u32]
        requires { place < length self.now.order.items }
        ensures { result.now ≡ word_at (told self.now.answers.now) (slice_index self.now.order.items place) }
    {
        self.word_of(self.order[place])
    }

    // Whether the word of answer i does not begin with the other.
    fn leaves(&self, word: &[u32], i: usize) -> bool
        ensures { MatchBool result ((x : List ℕ) → word_at (told self.now.answers.now) i ≡ word.now ++ x → ⊥) ((x : List ℕ) × (word_at (told self.now.answers.now) i ≡ word.now ++ x)) }
    {
        !self.word_of(i).starts_with(word)
    }

    // How many words of the order begin with the one at the place; they stand together from there on.
    fn followers(&self, place: usize) -> usize
        requires { place < length self.now.order.items }
        ensures { Followers (told self.now.answers.now) self.now.order.items place result }
    {
        let word = self.word_in(place);
        let rest = &self.order[place..];
        rest.iter()
            .position(|i| self.leaves(word, *i))
            .unwrap_or(rest.len())
    }

    // Whether the word at one place of the order is shorter than that at another, or as long and before it.
    fn shorter_first(&self, one: usize, other: usize) -> bool
        requires one { one < length self.now.order.items }
        requires other { other < length self.now.order.items }
        ensures { Decides result (Less (word_at (told self.now.answers.now) (slice_index self.now.order.items one)) (word_at (told self.now.answers.now) (slice_index self.now.order.items other))) }
    {
        let u = self.word_in(one).len();
        let v = self.word_in(other).len();
        if u != v {
            return u < v;
        }
        one < other
    }

    // Whether the first of two candidates has more followers, or as many and the word that is first.
    fn better(&self, one: Candidate, other: Candidate) -> bool
        requires one { one.place < length self.now.order.items }
        requires other { other.place < length self.now.order.items }
        ensures { Decides result (Better (told self.now.answers.now) self.now.order.items one.place one.followers other.place other.followers) }
    {
        if one.followers != other.followers {
            return one.followers > other.followers;
        }
        self.shorter_first(one.place, other.place)
    }

    // The better of two candidates, if there is an old one.
    fn better_of(&self, old: Option<Candidate>, new: Candidate) -> Candidate
        requires old { PlacedIn self.now.order.items old }
        requires new { new.place < length self.now.order.items }
        ensures { BetterOf (told self.now.answers.now) self.now.order.items old new result }
    {
        match old {
            Some(best) if !self.better(new, best) => best,
            _ => new,
        }
    }

    // The best candidate for the row so far, with one place of the order more.
    fn consider(
        &self,
        table: &Table,
        row: Row,
        best: Option<Candidate>,
        place: usize,
    ) -> Option<Candidate>
        requires place { place < length self.now.order.items }
        requires sofar { CandidateFor (keys_of table.now) (cells_of table.now) (told self.now.answers.now) self.now.order.items row.0 place best }
        ensures { CandidateFor (keys_of table.now) (cells_of table.now) (told self.now.answers.now) self.now.order.items row.0 (place + 1) result }
    {
        if !leads_here(table, self.word_in(place), row) {
            return best;
        }
        let followers = self.followers(place);
        Some(self.better_of(best, Candidate { place, followers }))
    }

    // The told word for the row: of those that lead to it the one that the most told words begin with, and of these the first.
    fn best_word(&self, table: &Table, row: Row) -> Option<usize>
        ensures { WordFor (keys_of table.now) (cells_of table.now) (told self.now.answers.now) row.0 result }
    {
        let mut best = None;

        // A `for`, since `consider` asks that its candidate is the best so far, which the closure of a `fold` could not say.
        for place in 0..self.order.len() {
            best = self.consider(table, row, best, place);
        }
        let candidate = best?;
        Some(self.order[candidate.place])
    }
}

// For each row the number of an answer whose word leads to it, if there is one.
pub fn row_words(
    heap: Global,
    table: &Table,
    answers: &[Answer],
) -> Result<Vec<Option<usize>>, AllocError>
    ensures { IfOk result (λ v. WordsFor (keys_of table.now) (cells_of table.now) (told answers.now) (rows_of table.now) v.items) }
{
    let index = Index::new(heap, answers)?;
    let mut chosen = Vec::new(heap);
    for row in 0..table.rows() {
        chosen.push(index.best_word(table, Row(row)))?;
    }
    Ok(chosen)
}
