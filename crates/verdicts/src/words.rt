// Whether a word is fit to stand for a row.
ghost use Rattle.std.specs.Prelude.{◌≡◌, ℕ, ◌<◌, [], length, Decides};
ghost use Rattle.answers.specs.Logs.{told};
ghost use Rattle.answers.specs.Values.{keys_of, cells_of};
ghost use Rattle.verdicts.specs.Faults.{FirstAnswer, IsWordFault};

use answers::log::Answer;
use answers::table::{Row, Table};

// Why a word is not fit for a row.
#[derive(Clone, Copy, PartialEq, Eq, Debug)]
pub enum WordFault {
    // Row 0 must have the empty word.
    NotEmpty,
    OtherKeys,
    LeadsTo(Row),
    NotTold,
}

// The number of the first answer to the word.
pub fn first_answer(answers: &[Answer], word: &[u32]) -> Option<usize>
    ensures { FirstAnswer (told answers.now) word.now result }
{
    answers
        .iter()
        .position(|answer| answer.word.as_slice() == word)
}

// Whether the word is empty, if the row is the first.
fn may_stand_for(row: Row, word: &[u32]) -> bool
    ensures { Decides result (row.0 ≡ 0 → word.now ≡ []) }
{
    row.0 != 0 || word.is_empty()
}

// Why the word is not fit for the row, if it is not.
pub fn word_fault(table: &Table, answers: &[Answer], row: Row, word: &[u32]) -> Option<WordFault>
    ensures { IsWordFault (keys_of table.now) (cells_of table.now) (told answers.now) row.0 word.now result }
{
    if !may_stand_for(row, word) {
        return Some(WordFault::NotEmpty);
    }
    let Some(led) = table.lead(word) else {
        return Some(WordFault::OtherKeys);
    };
    if led != row {
        return Some(WordFault::LeadsTo(led));
    }
    let told = first_answer(answers, word).is_some();
    (!told).then_some(WordFault::NotTold)
}
