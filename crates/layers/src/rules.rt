// The two rules: counts that run the other way, and counts raised by a fixed number.
ghost use Rattle.std.specs.Prelude.{◌≡◌, neg_ℤ};
ghost use Rattle.std.proofs.Common.{arith};
ghost use Rattle.layers.specs.Layers.{negated, raised};
ghost use Rattle.layers.specs.Counts.{negated_steps, raised_steps};

use crate::layer::{Layer, Recount};
use coil::{CoilDriver, Microsteps};

#[derive(Clone, Copy, PartialEq, Eq, Debug, Default)]
pub struct Reversed;

// By default nothing is added.
#[derive(Clone, Copy, PartialEq, Eq, Debug, Default)]
pub struct Shifted {
    // what is added to the counts of both coils, modulo 2^32
    pub microsteps: u32,
}

impl Recount for Reversed {
    ghost recount = { λ _. negated };

    ghost turn = { λ _. neg_ℤ };

    ghost fits = { λ _ n. omega arith };

    ghost follows = { λ _. negated_steps };

    fn count(self, below: u32) -> u32 {
        below.wrapping_neg()
    }

    fn steps(self, above: Microsteps) -> Microsteps {
        -above
    }
}

impl Recount for Shifted {
    ghost recount = { λ rule. raised rule.microsteps };

    ghost turn = { λ _ steps. steps };

    ghost fits = { λ _ n. omega arith };

    ghost follows = { λ rule steps n _. raised_steps rule.microsteps steps n };

    fn count(self, below: u32) -> u32 {
        below.wrapping_add(self.microsteps)
    }

    fn steps(self, above: Microsteps) -> Microsteps {
        above
    }
}

impl<D: CoilDriver> Layer<Shifted, D> {
    // The microsteps that are added to the counts below.
    pub fn shift(&self) -> u32
        ensures { result ≡ self.now.rule.microsteps }
    {
        self.rule().microsteps
    }
}
