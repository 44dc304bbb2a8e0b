// What cells are said to be a layout of.
ghost use Rattle.layout.specs.Capacity.{capacity};
ghost use Rattle.std.specs.Prelude.{◌≡◌};

use crate::ring::capacity_of;

#[derive(Clone, Copy, PartialEq, Eq, Debug)]
pub struct Shape {
    pub seed: u32,
    // Of records.
    pub count: usize,
    pub capacity: usize,
}

impl Shape {
    // Of so many records under the seed, with the capacity that they demand.
    pub fn new(seed: u32, count: usize) -> Shape
        ensures { result ≡ record { seed = seed; count = count; capacity = capacity count } }
    {
        Shape {
            seed,
            count,
            capacity: capacity_of(count),
        }
    }
}
