// Takes the numbers that a line's tokens begin with.
ghost use Rattle.std.specs.Prelude.{◌≡◌, MatchResult};
ghost use Rattle.formats.specs.declared.faults.LineFault.TheVariants.{Memory};
ghost use Rattle.formats.specs.Numbers.{IsNumbersThen};

use crate::faults::LineFault;
use crate::scan::Token;
use std::alloc::Global;

// The numbers before the first mark, and the tokens from it on.
pub fn leading_numbers(heap: Global, tokens: &[Token]) -> Result<(Vec<u32>, &[Token]), LineFault>
    ensures { MatchResult result (λ p. IsNumbersThen tokens.now p.0.items p.1.now) (λ e. e ≡ Memory) }
{
    let mut numbers = Vec::new(heap);
    for (i, token) in tokens.iter().enumerate() {
        let Token::Number(number) = token else {
            return Ok((numbers, &tokens[i..]));
        };
        numbers.push(*number)?;
    }
    Ok((numbers, &[]))
}
