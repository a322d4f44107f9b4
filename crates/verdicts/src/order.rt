// Answers in alphabetical order of their words, so that a word is found without looking at all of them.
ghost use Rattle.std.specs.Prelude.{◌≡◌, ◌+◌, ◌<◌, [], ◌++◌, length, IfOk, OnOk};
ghost use Rattle.std.specs.Cmp.Lexicographic.{slice_cmp};
ghost use Rattle.std.specs.Ordering.{nat_cmp};
ghost use Rattle.answers.specs.Logs.{told};
ghost use Rattle.verdicts.specs.Orders.{Sorted, Ordered, Indexed, Placed, Sought, Found, shown_at, word_at};

use answers::log::Answer;
use std::alloc::{AllocError, Global};
use std::cmp::Ordering;

// How w stands to u with x behind it.
fn compare(w: &[u32], u: &[u32], x: &[u32]) -> Ordering
    ensures { result ≡ slice_cmp nat_cmp w.now (u.now ++ x.now) }
{
    let n = w.len().min(u.len());
    let front = &w[..n];
    let rest = &w[n..];
    match front.cmp(&u) {
        Ordering::Equal => rest.cmp(&x),
        unequal => unequal,
    }
}

// The word of answer i; past the last answer it is empty.
fn word_of(answers: &[Answer], i: usize) -> &[u32]
    ensures { result.now ≡ word_at (told answers.now) i }
{
    match answers.get(i) {
        Some(answer) => answer.word.as_slice(),
        None => &[],
    }
}

// Where u with x behind it stands in the order, or where it would stand.
// By hand, since the library's search compares once more at its end, and goes on where it has found the word.
fn search(answers: &[Answer], order: &[usize], u: &[u32], x: &[u32]) -> Result<usize, usize>
    requires { Sorted (told answers.now) order.now }
    ensures { Sought (told answers.now) order.now (u.now ++ x.now) result }
{
    let mut low = 0;
    let mut high = order.len();
    while low < high {
        let middle = low + (high - low) / 2;
        match compare(word_of(answers, order[middle]), u, x) {
            Ordering::Less => low = middle + 1,
            Ordering::Equal => return Ok(middle),
            Ordering::Greater => high = middle,
        }
    }
    Err(low)
}

// Takes answer i into the order of the answers before it, unless its word is there.
fn take_in(order: &mut Vec<usize>, answers: &[Answer], i: usize) -> Result<(), AllocError>
    requires within { i < length (told answers.now) }
    requires before { Ordered (told answers.now) i order.old.items }
    ensures { OnOk result (Ordered (told answers.now) (i + 1) order.new.items) }
{
    if let Err(place) = search(answers, order.as_slice(), word_of(answers, i), &[]) {
        order.insert(place, i)?;
    }
    Ok(())
}

// Of each word told just the first answer, in alphabetical order of the words.
// A sorted Vec and no map, since a word is looked up by two parts, which for a key of a map would have to be joined in memory.
#[derive(Drop)]
pub(crate) struct Index<'a> {
    pub(crate) answers: &'a [Answer],
    pub(crate) order: Vec<usize>,
    ghost indexed: { ∥ Indexed (told answers.now) order.items ∥₁ },
}

impl<'a> Index<'a> {
    pub(crate) fn new(heap: Global, answers: &'a [Answer]) -> Result<Index<'a>, AllocError>
        ensures { IfOk result (λ index. index.answers.now ≡ answers.now) }
    {
        let mut order = Vec::new(heap);
        for i in 0..answers.len() {
            take_in(&mut order, answers, i)?;
        }
        Ok(Index { answers, order })
    }

    // The word of answer i; past the last answer it is empty.
    pub(crate) fn word_of(&self, i: usize) -> &'a [u32]
        ensures { result.now ≡ word_at (told self.now.answers.now) i }
    {
        word_of(self.answers, i)
    }

    // What answer i says was shown; past the last answer it is 0.
    pub(crate) fn shown_of(&self, i: usize) -> u32
        ensures { result ≡ shown_at (told self.now.answers.now) i }
    {
        self.answers.get(i).map_or(0, |answer| answer.shown)
    }

    // The first place of the order at which the word does not come before u.
    pub(crate) fn place_of(&self, u: &[u32]) -> usize
        ensures { Placed (told self.now.answers.now) self.now.order.items u.now result }
    {
        match search(self.answers, self.order.as_slice(), u, &[]) {
            Ok(place) | Err(place) => place,
        }
    }

    // The first answer to u with x behind it.
    pub(crate) fn find(&self, u: &[u32], x: &[u32]) -> Option<usize>
        ensures { Found (told self.now.answers.now) self.now.order.items (u.now ++ x.now) result }
    {
        let Ok(place) = search(self.answers, self.order.as_slice(), u, x) else {
            return None;
        };
        Some(self.order[place])
    }
}
