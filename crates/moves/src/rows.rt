// The rows: one more from an edge, and each row's edge and access word.
ghost use Rattle.std.specs.Prelude.{◌≡◌, ◌<◌, ◌≤◌, length};
ghost use Rattle.areas.specs.Memories.{Reads, Writes};
ghost use Rattle.model.specs.Observations.{rows as rows_in, edge_of as edge_in, access_word};
ghost use Rattle.moves.specs.Additions.{RowAdded};
ghost use Rattle.moves.specs.Spelling.{RowIn, AccessLetter, AccessWritten, EdgeWritten};
ghost use Rattle.moves.specs.Observed.{observed_at};

use crate::counters;
use crate::numbers::{Edge, Row};
use areas::area::Area;
use areas::memory::Memory;
use areas::reading::Readable;
use store::header;

// The edge that a row is, where there are so many.
pub fn edge_of<M: Readable>(memory: &M, row: Row) -> Edge
    ensures { Reads (M.held memory.now) (M.laid_for memory.now) (λ w d. row.0 < rows_in (observed_at w d) → result.0 ≡ edge_in (observed_at w d) row.0) }
{
    Edge(memory.load(Area::Edges, row.0 as usize))
}

// How many letters the access word of a row has.
pub fn access_size<M: Readable>(memory: &M, row: Row) -> u32
    ensures { Reads (M.held memory.now) (M.laid_for memory.now) (λ w d. RowIn w d row.0 → result ≡ length (access_word (observed_at w d) row.0)) }
{
    memory.load(Area::Sizes, row.0 as usize)
}

// Letter i of the access word of a row.
pub fn access_letter<M: Readable>(memory: &M, row: Row, i: u32) -> u32
    ensures { Reads (M.held memory.now) (M.laid_for memory.now) (λ w d. AccessLetter w d row.0 i result) }
{
    let start = row.0 as usize * memory.most() as usize;
    memory.load(Area::Access, start + i as usize)
}

// Writes the access word of a row to the front of out, as far as out goes, and answers how many letters those are.
pub fn write_access<M: Readable>(memory: &M, row: Row, out: &mut [u32]) -> usize
    ensures within { result ≤ length out.new }
    ensures written { Reads (M.held memory.now) (M.laid_for memory.now) (λ w d. AccessWritten w d row.0 out.new result) }
{
    let size = access_size(memory, row);
    let end = out.len().min(size as usize);
    for (i, letter) in out[..end].iter_mut().enumerate() {
        *letter = access_letter(memory, row, i as u32);
    }
    end
}

// Writes the word of an edge to the front of out, as far as out goes, and answers how many letters those are.
pub fn write_edge<M: Readable>(memory: &M, edge: Edge, out: &mut [u32]) -> usize
    ensures within { result ≤ length out.new }
    ensures written { Reads (M.held memory.now) (M.laid_for memory.now) (λ w d. EdgeWritten w d edge.0 out.new result) }
{
    if edge.0 == 0 {
        return 0;
    }
    let number = edge.0 - 1;
    let size = write_access(memory, Row(number / memory.keys()), out);
    if size == out.len() {
        return size;
    }
    out[size] = number % memory.keys();
    size + 1
}

// One row more, from an edge, where there is room.
pub fn add_row(memory: &mut Memory<'_>, edge: Edge)
    ensures { Writes memory.old memory.new (λ w w' d. RowAdded w w' d edge.0) }
{
    let row = counters::rows(memory);
    if row < memory.shape.most() {
        // Without a heap the word is spelt in an array for the longest that there can be.
        let mut word = [0; 1024];
        let size = write_edge(memory, edge, &mut word);
        let start = row as usize * memory.shape.most() as usize;
        memory.copy_in(Area::Access, start, &word[..size]);
        memory.save(Area::Sizes, row as usize, size as u32);
        memory.save(Area::Edges, row as usize, edge.0);
        memory.save(Area::Header, header::ROWS, row + 1);
    }
}
