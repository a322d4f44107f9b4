// Reads an answer's line: the keys, ':' and what was shown.
ghost use Rattle.std.specs.Prelude.{◌≡◌};
ghost use Rattle.formats.specs.Calls.{Gives};
ghost use Rattle.formats.specs.Lines.{answer_in, line_answer, one_shown};

use crate::faults::LineFault;
use crate::numbers::leading_numbers;
use crate::scan::Token;
use std::alloc::Global;

#[derive(Drop)]
pub struct AnswerLine {
    pub word: Vec<u32>,
    pub shown: u32,
}

// What was shown, from the tokens after `:`.
fn one_shown(tokens: &[Token]) -> Result<u32, LineFault>
    ensures { result ≡ one_shown tokens.now }
{
    match tokens {
        [] => Err(LineFault::NothingShown),
        [Token::Number(shown)] => Ok(*shown),
        [Token::Colon] => Err(LineFault::SecondColon),
        [Token::At] => Err(LineFault::AtInAnswer),
        _ => Err(LineFault::MuchShown),
    }
}

pub fn answer_line(heap: Global, tokens: &[Token]) -> Result<AnswerLine, LineFault>
    ensures { Gives answer_in result (line_answer tokens.now) }
{
    let (word, rest) = leading_numbers(heap, tokens)?;
    let Some((mark, after)) = rest.split_first() else {
        return Err(LineFault::NoColon);
    };
    match mark {
        Token::Colon => {
            let shown = one_shown(after)?;
            Ok(AnswerLine { word, shown })
        }
        _ => Err(LineFault::AtInAnswer),
    }
}
