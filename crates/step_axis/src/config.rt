// How step words are read: how many count in a cycle, and how large a step is.
ghost use Rattle.std.specs.Prelude.{◌≡◌, ◌≤◌, pos, ◌*ℤ◌, neg_ℤ, ◌≤ℤ◌, ok_or};
ghost use Rattle.step_axis.specs.Words.{word_count, scale, config_from};

use coil::{Microsteps, OutOfRange};

// How many of the four words count.
#[derive(Clone, Copy, PartialEq, Eq, Debug)]
pub enum WordCount {
    One = 1,
    Two = 2,
    Four = 4,
}

// The resolution r of a step, with the microsteps of a step, which are 2^(8-r).
#[derive(Clone, Copy, PartialEq, Eq, Debug)]
pub enum Resolution {
    Five = 8,
    Six = 4,
    Seven = 2,
    Eight = 1,
}

#[derive(Clone, Copy, PartialEq, Eq, Debug)]
pub struct StepConfig {
    pub words: WordCount,
    pub resolution: Resolution,
}

impl WordCount {
    pub(crate) fn count(self) -> usize
        ensures value { result ≡ word_count self }
        ensures some { 1 ≤ result }
        ensures most { result ≤ 4 }
    {
        self as usize
    }
}

impl Resolution {
    // The microsteps of so many steps.
    pub(crate) fn microsteps(self, steps: i16) -> Microsteps
        requires { (neg_ℤ (pos 8191) ≤ℤ steps) × (steps ≤ℤ pos 8191) }
        ensures { result.value ≡ steps *ℤ pos (scale self) }
    {
        Microsteps {
            value: i32::from(steps) * self as i32,
        }
    }
}

// What a value of the configuration register means: bits 3 and 4 are the word count, bits 5 and 6 the resolution,
// bit 11 is 1 and all others are 0. It is a layout, and so its fields are read by numbers.
impl TryFrom<i32> for StepConfig {
    type Error = OutOfRange;

    ghost try_from_gives = { λ value config. config ≡ ok_or (config_from value) (record {}) };

    fn try_from(value: i32) -> Result<StepConfig, OutOfRange> {
        let bits = u32::try_from(value).map_err(|_| OutOfRange)?;
        let words = bits / 8 % 4;
        let resolution = bits / 32 % 4;
        if bits != 0x0800 + words * 8 + resolution * 32 {
            return Err(OutOfRange);
        }
        let words = match words {
            0 => WordCount::One,
            1 => WordCount::Two,
            2 => WordCount::Four,
            _ => return Err(OutOfRange),
        };
        let resolution = match resolution {
            0 => Resolution::Five,
            1 => Resolution::Six,
            2 => Resolution::Seven,
            _ => Resolution::Eight,
        };
        Ok(StepConfig { words, resolution })
    }
}
