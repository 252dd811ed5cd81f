// What a check reads, beside what a good module reads.
ghost use Rattle.std.specs.Prelude.{◌≡◌, ◌==◌};
ghost use Rattle.coil.specs.Numbers.{number};

use coil::CoilId;
use std::fmt;

// What was sent before a reading.
#[derive(Clone, Copy, PartialEq, Eq, Debug)]
pub enum Sent {
    FullTurn,
    NoCurrent,
    MaximumCurrent,
    There,
    Back,
    WithoutTrip,
    WithTrip,
    BothRuns,
}

impl fmt::Display for Sent {
    fn fmt<W: fmt::Write>(&self, f: &mut fmt::Formatter<W>) -> fmt::Result {
        let text = match self {
            Sent::FullTurn => {
                "1 full turn of motor 2: sent 0x80C8 to motor 2 and 0x0000 to motor 1 in 32 cycles"
            }
            Sent::NoCurrent => "2 steps without current: sent 0x0005 to both motors",
            Sent::MaximumCurrent => {
                "3 maximum current: sent 167 to registers 35 and 38, 0xC000 to both motors"
            }
            Sent::There => "4 there and back: sent 0x8200 to motor 1 at count 1000",
            Sent::Back => "4 there and back: sent 0xA040 to motor 1 in 8 cycles",
            Sent::WithoutTrip => {
                "5 trip of motor 1: sent 0x8064 to motor 1 and 0x80C8 to motor 2 in 4 cycles, \
                 halfway flags 0 of motor 1"
            }
            Sent::WithTrip => "5 trip of motor 1: sent the same, but halfway flags 8 of motor 1",
            Sent::BothRuns => "5 trip of motor 1: sent both runs",
        };
        f.write_str(text)
    }
}

// What is read of a motor.
#[derive(Clone, Copy, PartialEq, Eq, Debug)]
pub enum Quantity {
    Count,
    Position,
    // the greatest of the motor's eight bytes of the answer
    GreatestByte,
    Points,
    Flags,
    // how many latest faults there are, 0 or 1
    Faults,
    // how many of its calls are answered another number
    OtherNumbers,
    // in how many cycles its half of the answer is another
    OtherAnswers,
}

impl fmt::Display for Quantity {
    fn fmt<W: fmt::Write>(&self, f: &mut fmt::Formatter<W>) -> fmt::Result {
        let text = match self {
            Quantity::Count => "count",
            Quantity::Position => "position",
            Quantity::GreatestByte => "greatest answer byte",
            Quantity::Points => "points",
            Quantity::Flags => "flags",
            Quantity::Faults => "latest faults",
            Quantity::OtherNumbers => "numbers that differ between the runs",
            Quantity::OtherAnswers => "answers that differ between the runs",
        };
        f.write_str(text)
    }
}

// One reading of a motor.
#[derive(Clone, Copy, PartialEq, Eq, Debug)]
pub struct Reading {
    pub sent: Sent,
    // 1 or 2; a plain number, since a reading of any motor is told
    pub motor: u8,
    pub quantity: Quantity,
    pub read: u32,
    // what a good module reads
    pub good: u32,
}

impl Sent {
    // A reading after this.
    pub(crate) fn reading(self, motor: CoilId, quantity: Quantity, read: u32, good: u32) -> Reading
        ensures { result ≡ record { sent = self; motor = number motor; quantity = quantity; read = read; good = good } }
    {
        Reading {
            sent: self,
            motor: motor as u8,
            quantity,
            read,
            good,
        }
    }
}

impl Reading {
    pub fn is_good(&self) -> bool
        ensures { result ≡ (self.now.read == self.now.good) }
    {
        self.read == self.good
    }
}

impl fmt::Display for Reading {
    fn fmt<W: fmt::Write>(&self, f: &mut fmt::Formatter<W>) -> fmt::Result {
        let Reading {
            sent,
            motor,
            quantity,
            read,
            good,
        } = *self;
        let verdict = if self.is_good() { "good" } else { "bad" };
        write!(
            f,
            "{sent}; motor {motor} {quantity}: read {read}, good module {good}: {verdict}"
        )
    }
}
