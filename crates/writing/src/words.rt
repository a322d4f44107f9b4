// A word is asked about.
ghost use Rattle.std.specs.Prelude.{◌≡◌, ◌≢◌};
ghost use Rattle.areas.specs.Memories.{Reads};
ghost use Rattle.promises.specs.declared.Wanted.TheVariants.{NoStore};
ghost use Rattle.writing.specs.Wants.{AsksWord};

use areas::reading::Readable;
use areas::records::Record;
use lookup::spell;
use promises::Wanted;

// Writes the word to the front of out, and asks about it.
pub fn ask<M: Readable>(memory: &M, word: Record, out: &mut [u32]) -> Wanted
    ensures word { Reads (M.held memory.now) (M.laid_for memory.now) (λ w d. AsksWord w d word out.old out.new result) }
    ensures stored { result ≢ NoStore }
{
    let spelling = spell(memory.view(), word);
    let count = spelling.count();
    spelling.write(out);
    Wanted::Ask(count)
}
