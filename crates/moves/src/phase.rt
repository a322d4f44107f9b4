// What the learner is doing: how it is read from the header and written there.
ghost use Rattle.std.specs.Prelude.{◌≡◌};
ghost use Rattle.areas.specs.declared.area.Area.TheVariants.{Header};
ghost use Rattle.areas.specs.Layout.{area_of};
ghost use Rattle.areas.specs.Memories.{Reads, Writes};
ghost use Rattle.areas.specs.Frames.{Rewritten};
ghost use Rattle.model.specs.Models.{model_in};
ghost use Rattle.store.specs.Decoding.{search_in, model_of};
ghost use Rattle.moves.specs.Phases.{search_value, phase_value, set_search};
ghost use Rattle.moves.specs.Making.{ChangesBy};

use crate::numbers::Edge;
use areas::area::Area;
use areas::memory::Memory;
use areas::reading::Readable;
use store::header;

// A search by halves along an answer: its two ends, and the answers to the mixed words there.
#[derive(Clone, Copy)]
pub struct Search {
    pub along: u32,
    pub low: usize,
    pub high: usize,
    pub left: u32,
    pub right: u32,
}

#[derive(Clone, Copy)]
pub enum Phase {
    Filling,
    // The cell of this edge and the suffix of this number.
    AsksCell(Edge, u32),
    ShowsTable,
    Bisecting(Search),
    AsksMiddle(Search),
    // The edge that differs from all rows.
    Larger(Edge),
    Broken,
}

fn search_of<M: Readable>(memory: &M) -> Search
    ensures { Reads (M.held memory.now) (M.laid_for memory.now) (λ w d. search_value result ≡ search_in (area_of w d Header)) }
{
    Search {
        along: memory.load(Area::Header, header::FIRST),
        low: memory.load_wide(Area::Header, header::LOW),
        high: memory.load_wide(Area::Header, header::HIGH),
        left: memory.load(Area::Header, header::SECOND),
        right: memory.load(Area::Header, header::THIRD),
    }
}

// The phase stands in the lent memory as a number and the words that belong to it.
pub fn phase_of<M: Readable>(memory: &M) -> Phase
    ensures { Reads (M.held memory.now) (M.laid_for memory.now) (λ w d. phase_value result ≡ (model_of w d).phase) }
{
    let first = memory.load(Area::Header, header::FIRST);
    let second = memory.load(Area::Header, header::SECOND);
    match memory.load(Area::Header, header::PHASE) {
        0 => Phase::Filling,
        1 => Phase::AsksCell(Edge(first), second),
        2 => Phase::ShowsTable,
        3 => Phase::Bisecting(search_of(memory)),
        4 => Phase::AsksMiddle(search_of(memory)),
        5 => Phase::Larger(Edge(first)),
        _ => Phase::Broken,
    }
}

fn put_search(memory: &mut Memory<'_>, search: Search)
    ensures { Writes memory.old memory.new (λ w w' d. Rewritten w w' d Header (set_search (area_of w d Header) search)) }
{
    memory.save(Area::Header, header::FIRST, search.along);
    memory.save(Area::Header, header::SECOND, search.left);
    memory.save(Area::Header, header::THIRD, search.right);
    memory.save_wide(Area::Header, header::LOW, search.low);
    memory.save_wide(Area::Header, header::HIGH, search.high);
}

// The phase is written as it is read, by a number and the words that belong to it.
pub fn enter(memory: &mut Memory<'_>, phase: Phase)
    ensures { Writes memory.old memory.new (λ w w' d. ChangesBy w w' d (λ m. model_in m (phase_value phase))) }
{
    match phase {
        Phase::Filling => memory.save(Area::Header, header::PHASE, 0),
        Phase::AsksCell(edge, suffix) => {
            memory.save(Area::Header, header::FIRST, edge.0);
            memory.save(Area::Header, header::SECOND, suffix);
            memory.save(Area::Header, header::PHASE, 1);
        }
        Phase::ShowsTable => memory.save(Area::Header, header::PHASE, 2),
        Phase::Bisecting(search) => {
            put_search(memory, search);
            memory.save(Area::Header, header::PHASE, 3);
        }
        Phase::AsksMiddle(search) => {
            put_search(memory, search);
            memory.save(Area::Header, header::PHASE, 4);
        }
        Phase::Larger(edge) => {
            memory.save(Area::Header, header::FIRST, edge.0);
            memory.save(Area::Header, header::PHASE, 5);
        }
        Phase::Broken => memory.save(Area::Header, header::PHASE, 6),
    }
}
