// Numbers by a fixed rule.

ghost use Rattle.std.specs.Prelude.{◌≡◌};
ghost use Rattle.rows.specs.Numbers.{next_state, number_of};

use std::marker::Model;

/// Numbers that follow from a seed, by the rule of Knuth's MMIX. Their value in contracts is the
/// state of the rule.
#[derive(Clone, Copy)]
pub struct Numbers {
    // The state of the rule, modulo 2^64.
    state: u64,
}

impl Model for Numbers {
    ghost use Rattle.std.specs.Prelude.{ℕ};

    ghost Value = { ℕ };

    ghost view = { λ numbers. numbers.state };

    ghost inverse = { λ state. record { state = state } };
}

impl Numbers {
    /// Returns the numbers of a seed.
    pub fn new(seed: u64) -> Numbers
        ensures { result ≡ seed }
    {
        Numbers { state: seed }
    }

    /// Returns the next number, which is below 2^31: the upper bits of the state, since its lower
    /// bits repeat early.
    pub fn next(&mut self) -> u64
        ensures state { self.new ≡ next_state self.old }
        ensures number { result ≡ number_of self.new }
    {
        self.state = self
            .state
            .wrapping_mul(6_364_136_223_846_793_005)
            .wrapping_add(1_442_695_040_888_963_407);
        self.state >> 33
    }
}
