// One word of a memory, or a number of two words, low then high: 0 is read past the end, and nothing is written there.
ghost use Rattle.std.specs.Prelude.{◌≡◌, ◌+◌, ◌*◌, ◌/◌, ◌%◌, slice_index, slice_set};
ghost use Rattle.areas.specs.Words.{wide, set_wide};

pub fn get(store: &[u32], i: usize) -> u32
    ensures { result ≡ slice_index store.now i }
{
    store.get(i).copied().unwrap_or(0)
}

pub fn put(store: &mut [u32], i: usize, v: u32)
    ensures { store.new ≡ slice_set store.old i v }
{
    if i < store.len() {
        store[i] = v;
    }
}

// How many numbers a word can tell apart.
const RADIX: usize = 4294967296;

// The number of these two words.
pub(crate) fn joined(low: u32, high: u32) -> usize
    ensures { result ≡ low + high * 4294967296 }
{
    low as usize + high as usize * RADIX
}

pub(crate) fn low(v: usize) -> u32
    ensures { result ≡ v % 4294967296 }
{
    (v % RADIX) as u32
}

pub(crate) fn high(v: usize) -> u32
    ensures { result ≡ v / 4294967296 }
{
    (v / RADIX) as u32
}

// A number of two words is read and written by functions of its own, since each of its words may lie past the end.
pub fn get_wide(store: &[u32], i: usize) -> usize
    ensures { result ≡ wide store.now i }
{
    if i < store.len() {
        joined(get(store, i), get(store, i + 1))
    } else {
        0
    }
}

pub fn put_wide(store: &mut [u32], i: usize, v: usize)
    ensures { store.new ≡ set_wide store.old i v }
{
    if i < store.len() {
        put(store, i, low(v));
        put(store, i + 1, high(v));
    }
}
