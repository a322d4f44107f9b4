// Cuts a line into numbers and marks.
ghost use Rattle.std.specs.Prelude.{◌≡◌, Ok, vec_items};
ghost use Rattle.formats.specs.Calls.{Gives};
ghost use Rattle.formats.specs.Tokens.{kind, closed, next, held, line_tokens};

use crate::faults::LineFault;
use std::alloc::Global;

#[derive(Clone, Copy, Debug, PartialEq, Eq)]
pub enum Token {
    Number(u32),
    Colon,
    At,
}

// What a byte is in a line, outside of a comment.
#[derive(Clone, Copy)]
enum Kind {
    Digit(u32),
    Blank,
    Mark(Token),
    Other,
}

// The digits of a number so far: their value, and the column of the first.
#[derive(Clone, Copy)]
struct Digits {
    value: u32,
    column: usize,
}

// What is read of a line: the tokens, and the digits of a number that may go on.
#[derive(Drop)]
struct Reader {
    tokens: Vec<Token>,
    digits: Option<Digits>,
}

fn kind_of(b: u8) -> Kind
    ensures { result ≡ kind b }
{
    match b {
        b'0'..=b'9' => Kind::Digit(u32::from(b - b'0')),
        b' ' | b'\t' | b'\r' => Kind::Blank,
        b':' => Kind::Mark(Token::Colon),
        b'@' => Kind::Mark(Token::At),
        _ => Kind::Other,
    }
}

impl Reader {
    fn digit(&mut self, digit: u32, column: usize) -> Result<(), LineFault>
        ensures { Gives (λ _. held self.new) result (next (held self.old) column (Kind.Digit digit)) }
    {
        let before = self.digits.unwrap_or(Digits { value: 0, column });
        let value = u64::from(before.value) * 10 + u64::from(digit);
        let Ok(value) = u32::try_from(value) else {
            return Err(LineFault::LargeNumber(before.column));
        };
        self.digits = Some(Digits { value, ..before });
        Ok(())
    }

    fn end_number(&mut self) -> Result<(), LineFault>
        ensures { Gives (λ _. held self.new) result (Ok (closed (held self.old))) }
    {
        if let Some(digits) = self.digits.take() {
            self.tokens.push(Token::Number(digits.value))?;
        }
        Ok(())
    }

    fn read(&mut self, b: u8, column: usize) -> Result<(), LineFault>
        ensures { Gives (λ _. held self.new) result (next (held self.old) column (kind b)) }
    {
        match kind_of(b) {
            Kind::Digit(digit) => self.digit(digit, column),
            Kind::Blank => self.end_number(),
            Kind::Mark(token) => {
                self.end_number()?;
                self.tokens.push(token)?;
                Ok(())
            }
            Kind::Other => Err(LineFault::OtherCharacter(column)),
        }
    }
}

// The tokens of a line; `#` starts a comment to its end.
pub fn tokens(heap: Global, line: &[u8]) -> Result<Vec<Token>, LineFault>
    ensures { Gives vec_items result (line_tokens line.now) }
{
    let mut reader = Reader {
        tokens: Vec::new(heap),
        digits: None,
    };
    for (i, b) in line.iter().enumerate() {
        if *b == b'#' {
            break;
        }
        reader.read(*b, i + 1)?;
    }
    reader.end_number()?;
    Ok(reader.tokens)
}
