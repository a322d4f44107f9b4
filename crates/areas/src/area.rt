// The areas of a memory, in the order in which they stand there.
#[derive(Clone, Copy)]
pub enum Area {
    // Counters and what a call leaves for the next.
    Header,
    // The edge of each row.
    Edges,
    // The access word of each row.
    Access,
    // The length of each access word.
    Sizes,
    // The start and the size of each suffix.
    Suffixes,
    // For each edge and suffix, which answer belongs there.
    Cells,
    // The row that each edge leads to.
    Successors,
    // The answers, eight words each.
    Answers,
    // The letters of words, as many as the memory has room for.
    Letters,
}
