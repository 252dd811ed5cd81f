// The signed microsteps of one advance.
ghost use Rattle.std.specs.Prelude.{◌≡◌, pos, neg_ℤ, ◌≤ℤ◌};

use std::ops::Neg;

// At most 65,535 either way.
#[derive(Clone, Copy, PartialEq, Eq, Debug)]
pub struct Microsteps {
    pub value: i32,
    ghost within: { (neg_ℤ (pos 65535) ≤ℤ value) × (value ≤ℤ pos 65535) },
}

impl From<i16> for Microsteps {
    ghost from_gives = { λ steps r. r.value ≡ steps };

    fn from(steps: i16) -> Microsteps {
        Microsteps {
            value: i32::from(steps),
        }
    }
}

impl Neg for Microsteps {
    type Output = Microsteps;

    ghost neg_gives = { λ steps r. r.value ≡ neg_ℤ steps.value };

    fn neg(self) -> Microsteps {
        Microsteps { value: -self.value }
    }
}
