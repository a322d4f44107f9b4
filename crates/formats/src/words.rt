// Numbers and words as people read them.
ghost use Rattle.std.specs.Prelude.{Some};
ghost use Rattle.formats.specs.Words.{numbers_text, word_text};

use std::fmt;

// Numbers with blanks between.
#[derive(Clone, Copy)]
pub struct Numbers<'a>(pub &'a [u32]);

impl fmt::Display for Numbers<'_> {
    ghost output = { λ ns. Some (numbers_text ns.0.now) };

    fn fmt<W: fmt::Write>(&self, f: &mut fmt::Formatter<W>) -> fmt::Result {
        let Some((first, rest)) = self.0.split_first() else {
            return Ok(());
        };
        write!(f, "{first}")?;
        for number in rest {
            write!(f, " {number}")?;
        }
        Ok(())
    }
}

// A word of keys.
#[derive(Clone, Copy)]
pub struct Word<'a>(pub &'a [u32]);

impl fmt::Display for Word<'_> {
    ghost output = { λ word. Some (word_text word.0.now) };

    fn fmt<W: fmt::Write>(&self, f: &mut fmt::Formatter<W>) -> fmt::Result {
        match self.0 {
            [] => f.write_str("(empty)"),
            keys => Numbers(keys).fmt(f),
        }
    }
}
