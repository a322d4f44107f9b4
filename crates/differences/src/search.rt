// A search through the pairs of rows that words lead to, in the order of the words.
ghost use Rattle.std.specs.Prelude.{◌≡◌, ◌+◌, ◌<◌, List, [], ◌∷◌, ◌++◌, IfOk, vec_len, MatchBool, MatchOption, OnOk};
ghost use Rattle.machines.specs.Tables.{shows};
ghost use Rattle.machines.specs.Words.{Word};
ghost use Rattle.answers.specs.Values.{keys_of, cells_of};
ghost use Rattle.differences.specs.Differences.{Found};
ghost use Rattle.differences.specs.Searches.{Linked, word_at, Visited, ComeTo, GoingOn, EndsWith};

use crate::product::{FIRST, Pair, Product};
use std::alloc::{AllocError, Global};
use std::collections::HashSet;

// The key leads on from the pair of an earlier visit.
#[derive(Clone, Copy)]
pub(crate) struct Step {
    from: usize,
    key: u32,
}

// A pair of rows, and the step that leads to it; none leads to the first.
#[derive(Clone, Copy)]
pub(crate) struct Visit {
    pair: Pair,
    step: Option<Step>,
}

// The visits in the order of their words, and the pairs of rows that were visited.
#[derive(Drop)]
pub(crate) struct Search<'a> {
    product: Product<'a>,
    visits: Vec<Visit>,
    visited: HashSet<(usize, usize)>,
}

impl<'a> Search<'a> {
    // One visit more, unless its pair was visited.
    fn visit(&mut self, visit: Visit) -> Result<(), AllocError>
        ensures product { self.new.product ≡ self.old.product }
        ensures visit { OnOk result (Visited visit self.old self.new) }
    {
        if self.visited.insert(visit.pair.rows())? {
            self.visits.push(visit)?;
        }
        Ok(())
    }

    // A search at the first rows, which show the same.
    fn begin(heap: Global, product: Product<'a>) -> Result<Search<'a>, AllocError>
        requires { shows (keys_of product.one.now) (cells_of product.one.now) [] ≡ shows (keys_of product.one.now) (cells_of product.other.now) [] }
        ensures product { IfOk result (λ s. s.product ≡ product.entry) }
        ensures search { IfOk result (λ s. ComeTo s 0 0) }
    {
        let mut search = Search {
            product,
            visits: Vec::new(heap),
            visited: HashSet::new(heap),
        };
        let visit = Visit {
            pair: FIRST,
            step: None,
        };
        search.visit(visit)?;
        Ok(search)
    }

    // Visits the pair to which the key leads from the visit at the place, if its rows show the same; whether they do.
    fn follow(&mut self, at: usize, key: u32) -> Result<bool, AllocError>
        requires key { key < keys_of self.old.product.one.now }
        requires sofar { GoingOn self.old at key }
        ensures product { self.new.product ≡ self.old.product }
        ensures sofar { IfOk result (λ alike. MatchBool alike (GoingOn self.new at (key + 1)) (EndsWith self.new at key)) }
    {
        let pair = self.product.follow(self.visits[at].pair, key);
        if !self.product.alike(pair) {
            return Ok(false);
        }
        let step = Some(Step { from: at, key });
        self.visit(Visit { pair, step })?;
        Ok(true)
    }

    // Follows the keys from the visit at the place; the first that leads to rows which show different things.
    fn expand(&mut self, at: usize) -> Result<Option<u32>, AllocError>
        requires { GoingOn self.old at 0 }
        ensures product { self.new.product ≡ self.old.product }
        ensures sofar { IfOk result (λ found. MatchOption found (ComeTo self.new (at + 1) 0) (EndsWith self.new at)) }
    {
        for key in 0..self.product.keys() {
            if !self.follow(at, key)? {
                return Ok(Some(key));
            }
        }
        Ok(None)
    }

    // The word of the visit at the place with the key behind it, read back from its end.
    fn word_to(&self, heap: Global, at: usize, key: u32) -> Result<Vec<u32>, AllocError>
        requires place { at < vec_len self.now.visits }
        requires linked { (ws : List Word) × Linked self.now.visits.items ws }
        ensures { IfOk result (λ w. (ws : List Word) → Linked self.now.visits.items ws → w.items ≡ word_at ws at ++ (key ∷ [])) }
    {
        let mut word = Vec::new(heap);
        word.push(key)?;
        let mut place = at;
        while let Some(step) = self.visits[place].step {
            word.push(step.key)?;
            place = step.from;
        }
        word.reverse();
        Ok(word)
    }
}

// The first word after which the two tables show different things, if it is not the empty one.
pub(crate) fn explore(heap: Global, product: Product) -> Result<Option<Vec<u32>>, AllocError>
    requires { shows (keys_of product.one.now) (cells_of product.one.now) [] ≡ shows (keys_of product.one.now) (cells_of product.other.now) [] }
    ensures { IfOk result (Found (keys_of product.entry.one.now) (cells_of product.entry.one.now) (cells_of product.entry.other.now)) }
{
    let mut search = Search::begin(heap, product)?;
    let mut at = 0;
    // Each turn may put further visits behind the others, so nothing iterates over them.
    while at < search.visits.len() {
        if let Some(key) = search.expand(at)? {
            return Ok(Some(search.word_to(heap, at, key)?));
        }
        at += 1;
    }
    Ok(None)
}
