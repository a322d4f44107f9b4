// What a memory is laid out for, by its own first words.
ghost use Rattle.moves.specs.Opening.{ShapeRead};

use areas::shape::Shape;
use areas::words::get;
use store::{STORE_MARK, header};

// The shape that the memory says; none where it can't be a store.
pub fn read_shape(store: &[u32]) -> Option<Shape>
    ensures { ShapeRead store.now result }
{
    if get(store, header::MARK) != STORE_MARK {
        return None;
    }
    Shape::new(
        get(store, header::KEYS),
        get(store, header::MOST),
        store.len(),
    )
}
