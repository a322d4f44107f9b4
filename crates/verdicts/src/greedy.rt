// Told words any two of which are told apart: a box that gave these answers has at least as many states.
ghost use Rattle.std.specs.Prelude.{ℕ, ◌<◌, length, IfOk, MatchBool};
ghost use Rattle.machines.specs.Answers.{ToldApart};
ghost use Rattle.answers.specs.Logs.{told};
ghost use Rattle.verdicts.specs.Greedy.{FirstAlike, Greedy};
ghost use Rattle.verdicts.specs.Orders.{FirstSaid, word_at};

use crate::order::Index;
use answers::log::Answer;
use std::alloc::{AllocError, Global};

// Whether nothing tells the words of two answers apart.
fn alike(index: &Index<'_>, i: usize, j: usize) -> bool
    ensures { MatchBool result (ToldApart (FirstSaid (told index.now.answers.now)) (word_at (told index.now.answers.now) i) (word_at (told index.now.answers.now) j) → ⊥) (ToldApart (FirstSaid (told index.now.answers.now)) (word_at (told index.now.answers.now) i) (word_at (told index.now.answers.now) j)) }
{
    index.apart(index.word_of(i), index.word_of(j)).is_none()
}

// The place of the first chosen answer from whose word that of answer i is not told apart.
fn first_alike(index: &Index<'_>, chosen: &[usize], i: usize) -> Option<usize>
    ensures { FirstAlike (told index.now.answers.now) chosen.now i result }
{
    chosen.iter().position(|other| alike(index, i, *other))
}

// Numbers of answers whose words are told apart from each other: each answer in turn, if its word is told apart from all before.
pub fn apart_words(heap: Global, answers: &[Answer]) -> Result<Vec<usize>, AllocError>
    ensures { IfOk result (λ v. Greedy (told answers.now) v.items) }
{
    let index = Index::new(heap, answers)?;
    let mut chosen = Vec::new(heap);
    for i in 0..answers.len() {
        if first_alike(&index, chosen.as_slice(), i).is_none() {
            chosen.push(i)?;
        }
    }
    Ok(chosen)
}
