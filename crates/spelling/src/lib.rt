// Words given by their parts, compared and written letter by letter.
#![tactic(auto)]

ghost use Rattle.std.specs.Prelude.{◌≡◌, ◌+◌, [], length, Decides, slice_index};
ghost use Rattle.spelling.specs.Spelt.{key_first, spelt, Puts};

// The letters of a state's word, perhaps a key, and letters of a refuting word.
#[derive(Clone, Copy)]
pub struct Spelling<'a> {
    pub front: &'a [u32],
    pub key: Option<u32>,
    pub rest: &'a [u32],
}

// A word by itself.
impl<'a> From<&'a [u32]> for Spelling<'a> {
    ghost from_gives = { λ word r. spelt r ≡ word.now };

    fn from(word: &'a [u32]) -> Spelling<'a> {
        Spelling {
            front: word,
            key: None,
            rest: &[],
        }
    }
}

// Letter i of a list of letters, 0 past its end.
fn letter_of(letters: &[u32], i: usize) -> u32
    ensures { result ≡ slice_index letters.now i }
{
    letters.get(i).copied().unwrap_or(0)
}

impl Spelling<'_> {
    // Where the letters of the rest begin.
    fn rest_at(&self) -> usize
        ensures { result ≡ length self.now.front.now + length (key_first self.now.key []) }
    {
        self.front.len() + usize::from(self.key.is_some())
    }

    // How many letters the word has.
    pub fn count(&self) -> usize
        ensures { result ≡ length (spelt self.now) }
    {
        self.rest_at() + self.rest.len()
    }

    // Letter i of the word, 0 past its end.
    pub fn letter(&self, i: usize) -> u32
        ensures { result ≡ slice_index (spelt self.now) i }
    {
        if i < self.front.len() {
            return self.front[i];
        }
        let behind = i - self.front.len();
        match self.key {
            None => letter_of(self.rest, behind),
            Some(key) if behind == 0 => key,
            Some(_) => letter_of(self.rest, behind - 1),
        }
    }

    // Whether both stand for one word, whatever their parts: so no equality that could be derived.
    pub fn same(&self, other: &Spelling<'_>) -> bool
        ensures { Decides result (spelt self.now ≡ spelt other.now) }
    {
        let count = self.count();
        if count != other.count() {
            return false;
        }
        for i in 0..count {
            if self.letter(i) != other.letter(i) {
                return false;
            }
        }
        true
    }

    // Whether it stands for this word.
    pub fn is_word(&self, word: &[u32]) -> bool
        ensures { Decides result (spelt self.now ≡ word.now) }
    {
        self.same(&Spelling::from(word))
    }

    // Writes the word to the front of out, letter by letter, and answers true; if out is shorter it is left as it was.
    pub fn write(&self, out: &mut [u32]) -> bool
        ensures { Puts (spelt self.now) out.old out.new result }
    {
        let count = self.count();
        if count > out.len() {
            return false;
        }
        for (i, letter) in out[..count].iter_mut().enumerate() {
            *letter = self.letter(i);
        }
        true
    }
}

#[cfg(test)]
mod tests;
