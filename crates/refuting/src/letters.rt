// Whether a word is one of keys.
ghost use Rattle.std.specs.Prelude.{Decides};
ghost use Rattle.machines.specs.Words.{Keys};

// Whether each letter is one of so many keys.
pub fn of_keys(word: &[u32], keys: u32) -> bool
    ensures { Decides result (Keys keys word.now) }
{
    word.iter().all(|x| *x < keys)
}
