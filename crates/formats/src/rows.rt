// Reads a table's line: what the row shows, the row that each key leads to, and perhaps '@' and a word.
ghost use Rattle.std.specs.Prelude.{◌≡◌, [], vec_items};
ghost use Rattle.formats.specs.Calls.{Gives};
ghost use Rattle.formats.specs.Lines.{line_row, row_in, row_of, word_on};
ghost use Rattle.std.specs.Option.{option_map};

use crate::faults::LineFault;
use crate::numbers::leading_numbers;
use crate::scan::Token;
use std::alloc::Global;

#[derive(Drop)]
pub struct RowLine {
    pub numbers: Vec<u32>,
    pub word: Option<Vec<u32>>,
}

fn row_of(numbers: Vec<u32>, word: Option<Vec<u32>>) -> Result<RowLine, LineFault>
    ensures { Gives row_in result (row_of numbers.items (option_map vec_items word)) }
{
    if numbers.is_empty() {
        return Err(LineFault::NoNumber);
    }
    Ok(RowLine { numbers, word })
}

// The word of the tokens after `@`.
fn last_word(heap: Global, tokens: &[Token]) -> Result<Vec<u32>, LineFault>
    ensures { Gives vec_items result (word_on [] tokens.now) }
{
    let (word, rest) = leading_numbers(heap, tokens)?;
    let Some((mark, _)) = rest.split_first() else {
        return Ok(word);
    };
    match mark {
        Token::At => Err(LineFault::SecondAt),
        _ => Err(LineFault::ColonInRow),
    }
}

pub fn row_line(heap: Global, tokens: &[Token]) -> Result<RowLine, LineFault>
    ensures { Gives row_in result (line_row tokens.now) }
{
    let (numbers, rest) = leading_numbers(heap, tokens)?;
    let Some((mark, after)) = rest.split_first() else {
        return row_of(numbers, None);
    };
    match mark {
        Token::At => {
            let word = last_word(heap, after)?;
            row_of(numbers, Some(word))
        }
        _ => Err(LineFault::ColonInRow),
    }
}
