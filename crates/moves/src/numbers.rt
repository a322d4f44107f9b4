// Numbers of rows, keys and edges, so that none is taken for another.
ghost use Rattle.std.specs.Prelude.{◌≡◌, suc, ◌+◌, ◌*◌, ◌<◌};
ghost use Rattle.areas.specs.Shapes.{dims};

use areas::shape::Shape;
pub use machines::Key;

// A row of a store is a number of one word of the memory, a row of a table (`answers::table::Row`) one of its places: one generic type for both would be named with its number at every use.
#[derive(Clone, Copy, PartialEq, Eq, Debug)]
pub struct Row(pub u32);

// 0 is the empty word, 1 + i * k + x the access word of row i with key x behind it: an edge stays the number by which the memory keeps its cells and its successor.
#[derive(Clone, Copy, PartialEq, Eq, Debug)]
pub struct Edge(pub u32);

// The edge of a row's access word with a key behind it; the largest number where that has no number.
pub fn edge_behind(shape: Shape, row: Row, key: Key) -> Edge
    ensures { suc (row.0 * (dims shape).keys + key.0) < 4294967296 → result.0 ≡ suc (row.0 * (dims shape).keys + key.0) }
{
    let number = 1 + row.0 as usize * shape.keys() as usize + key.0 as usize;
    Edge(u32::try_from(number).unwrap_or(u32::MAX))
}
