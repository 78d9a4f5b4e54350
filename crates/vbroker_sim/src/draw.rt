// Numbers that follow from a seed.

use rows::Numbers;

/// A sequence of numbers that depends only on its seed.
#[derive(Clone, Copy)]
pub struct Draw {
    // The numbers by the rule, the first eight left out.
    numbers: Numbers,
}

impl Draw {
    /// Starts the sequence of a seed.
    pub fn new(seed: u64) -> Draw {
        let mut draw = Draw {
            numbers: Numbers::new(seed),
        };
        // (seeds that follow one another begin alike)
        for _ in 0..8 {
            draw.numbers.next();
        }
        draw
    }

    /// Returns a number below a bound; 0 for the bound 0.
    pub fn below(&mut self, bound: u64) -> u64 {
        if bound == 0 {
            0
        } else {
            self.numbers.next() % bound
        }
    }

    /// Returns true once in as many times, on average.
    pub fn one_in(&mut self, count: u64) -> bool {
        self.below(count) == 0
    }
}
