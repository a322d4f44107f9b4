// A memory that is lent, to be written or only to be read, and the shape that it is laid out in. Nothing is asked of its words, since a call may be lent any memory: what holds of a learner's memory is a premise of each promise.
use crate::shape::Shape;

#[derive(Drop)]
pub struct Memory<'a> {
    pub words: &'a mut [u32],
    pub shape: Shape,
}

// A memory that is only read.
#[derive(Clone, Copy)]
pub struct View<'a> {
    pub words: &'a [u32],
    pub shape: Shape,
}
