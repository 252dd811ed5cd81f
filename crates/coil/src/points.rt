// The current of a coil, in points.
ghost use Rattle.std.specs.Prelude.{◌≤◌};

use crate::OutOfRange;

// The most points that a coil is fed.
pub const MAX_POINTS: u8 = 167;

#[derive(Clone, Copy, PartialEq, Eq, Debug)]
pub struct Points {
    // percent of 3 A
    pub value: u8,
    ghost within: { value ≤ 167 },
}

impl Points {
    // No current.
    pub const NONE: Points = Points { value: 0 };
}

// The points that a setting's value means.
impl TryFrom<i32> for Points {
    ghost use Rattle.std.specs.Prelude.{◌≡◌, option_map};
    ghost use Rattle.std.specs.Result.{result_ok};
    ghost use Rattle.coil.specs.Numbers.{points_from};

    type Error = OutOfRange;

    ghost try_from_gives = { λ value points. option_map (λ p. p.value) (result_ok points) ≡ points_from value };

    fn try_from(value: i32) -> Result<Points, OutOfRange> {
        match u8::try_from(value) {
            Ok(value) if value <= MAX_POINTS => Ok(Points { value }),
            _ => Err(OutOfRange),
        }
    }
}
