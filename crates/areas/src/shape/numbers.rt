// The three numbers of a shape.
ghost use Rattle.std.specs.Prelude.{◌≡◌};
ghost use Rattle.areas.specs.Shapes.{dims};

use super::Shape;

impl Shape {
    pub fn keys(self) -> u32
        ensures { result ≡ (dims self).keys }
    {
        self.counts.keys
    }

    // How many states there can be.
    pub fn most(self) -> u32
        ensures { result ≡ (dims self).most }
    {
        self.counts.most
    }

    // How many words the memory has.
    pub fn length(self) -> usize
        ensures { result ≡ (dims self).length }
    {
        self.length
    }
}
