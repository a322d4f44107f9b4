// A refuting word and its answer are kept, and the word is searched along.
ghost use Rattle.areas.specs.Memories.{Reads, Writes};
ghost use Rattle.model.specs.States.{refuted_by};
ghost use Rattle.model.specs.Models.{view_model};
ghost use Rattle.store.specs.Decoding.{model_of};
ghost use Rattle.moves.specs.Holding.{Turned};
ghost use Rattle.moves.specs.Making.{MakesBy};
ghost use Rattle.refuting.specs.Showing.{ShowsWord, BeginsSearch, Refutable, RoomFor, kept_refutation};

use crate::hypothesis::row_after;
use areas::memory::Memory;
use areas::reading::Readable;
use areas::records::Record;
use lookup::find;
use moves::answers::add_entry;
use moves::cells::cell;
use moves::counters;
use moves::letters::add_letters;
use moves::phase::{Phase, Search, enter};
use moves::rows::edge_of;
use spelling::Spelling;

// The search along a word that is about to be kept, from end to end.
fn first_search<M: Readable>(memory: &M, word: &[u32]) -> Search
    ensures { Reads (M.held memory.now) (M.laid_for memory.now) (λ w d. ShowsWord w d word.now → BeginsSearch w d word.now result) }
{
    let number = counters::answers(memory);
    let edge = edge_of(memory, row_after(memory, word));
    Search {
        along: number,
        low: 0,
        high: word.len(),
        left: number,
        right: cell(memory, edge, 0).unwrap_or(0),
    }
}

// Keeps the letters of the word and its answer, and counts the refutation.
fn keep(memory: &mut Memory<'_>, word: &[u32], answer: u32)
    ensures { Writes memory.old memory.new (λ w w' d. ShowsWord w d word.now → RoomFor w d word.now → MakesBy w w' d (λ m. kept_refutation m word.now answer)) }
{
    let times = counters::refutes(memory);
    let entry = Record {
        row: 0,
        key: 0,
        start: counters::letters(memory),
        size: word.len(),
        shown: answer,
    };
    add_letters(memory, word);
    add_entry(memory, entry);
    counters::set_refutes(memory, times.saturating_add(1));
}

// Takes a refutation: its word is searched along, or, if it was told of before, there are two answers to it.
pub fn refute(memory: &mut Memory<'_>, word: &[u32], answer: u32)
    ensures { Writes memory.old memory.new (λ w w' d. Refutable w d word.now answer → Turned w w' d (refuted_by (view_model (model_of w d)) word.now answer)) }
{
    let search = first_search(memory, word);
    match find(memory, Spelling::from(word)) {
        None => {
            keep(memory, word, answer);
            enter(memory, Phase::Bisecting(search));
        }
        Some(_) => {
            keep(memory, word, answer);
            enter(memory, Phase::Broken);
        }
    }
}
