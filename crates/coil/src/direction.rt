// Which way a motor turns.
ghost use Rattle.std.specs.Prelude.{◌≡◌};
ghost use Rattle.coil.specs.Directions.{level, way_of};

// Forward counts up.
#[derive(Clone, Copy, PartialEq, Eq, Debug)]
pub enum Direction {
    Forward = 0,
    Backward = 1,
}

impl Direction {
    // The level of the direction line: 1 for backward, else 0.
    pub fn level(self) -> u8
        ensures { result ≡ level self }
    {
        self as u8
    }
}

// The way of a signed number: backward where it is negative.
impl From<i64> for Direction {
    ghost from_gives = { λ number way. way ≡ way_of number };

    fn from(number: i64) -> Direction {
        if number < 0 {
            Direction::Backward
        } else {
            Direction::Forward
        }
    }
}
