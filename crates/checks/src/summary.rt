// How many readings there are, and how many of them are those of a good module.
ghost use Rattle.std.specs.Prelude.{◌≡◌, length};
ghost use Rattle.checks.specs.Good.{count_good, verdict_on};

use crate::error::CheckError;
use crate::reading::Reading;
use std::fmt;

#[derive(Clone, Copy, PartialEq, Eq, Debug)]
pub struct Summary {
    pub readings: usize,
    pub good: usize,
}

impl Summary {
    pub fn of(readings: &[Reading]) -> Summary
        ensures { result ≡ record { readings = length readings.entry.now; good = count_good readings.entry.now } }
    {
        Summary {
            readings: readings.len(),
            good: readings.iter().filter(|reading| reading.is_good()).count(),
        }
    }

    // Whether every reading is good.
    pub fn verdict(&self) -> Result<(), CheckError>
        ensures { result ≡ verdict_on self.now }
    {
        if self.good == self.readings {
            Ok(())
        } else {
            Err(CheckError::BadReading)
        }
    }
}

impl fmt::Display for Summary {
    fn fmt<W: fmt::Write>(&self, f: &mut fmt::Formatter<W>) -> fmt::Result {
        let Summary { readings, good } = *self;
        write!(f, "{readings} readings, {good} good")
    }
}
