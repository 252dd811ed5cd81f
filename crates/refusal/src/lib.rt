// Why a call is refused. A refused call alters nothing.
#![tactic(auto)]

ghost use Rattle.std.specs.Prelude.{◌≡◌};
ghost use Rattle.refusal.specs.Numbers.{answer_number, number};
ghost use Rattle.refusal.specs.declared.Refusal.TheVariants as refusals;

use coil::{OutOfRange, UnknownCoil};

// Each refusal with the number that the module answers.
#[derive(Clone, Copy, PartialEq, Eq, Debug)]
pub enum Refusal {
    // the register isn't in the function model's table
    UnknownRegister = 1,
    // the register isn't open at this stage
    Closed = 2,
    // the value is out of the register's range
    OutOfRange = 3,
    // the register's motor is powered
    MotorPowered = 4,
    // the cycle record hasn't 16 bytes
    RecordLength = 5,
    // the answer buffer hasn't 16 bytes
    AnswerLength = 6,
    // the motor is neither 1 nor 2
    UnknownMotor = 7,
    // the reported flags are not below 16
    UnknownFlags = 8,
}

impl Refusal {
    // The number that the module answers.
    pub fn number(self) -> u8
        ensures { result ≡ number self }
    {
        self as u8
    }
}

// The number that a call answers: 0 where it is taken.
pub fn answer_number(answer: Result<(), Refusal>) -> u8
    ensures { result ≡ answer_number answer }
{
    answer.err().map_or(0, Refusal::number)
}

impl From<UnknownCoil> for Refusal {
    ghost from_gives = { λ _ refusal. refusal ≡ refusals.UnknownMotor };

    fn from(_error: UnknownCoil) -> Refusal {
        Refusal::UnknownMotor
    }
}

impl From<OutOfRange> for Refusal {
    ghost from_gives = { λ _ refusal. refusal ≡ refusals.OutOfRange };

    fn from(_error: OutOfRange) -> Refusal {
        Refusal::OutOfRange
    }
}
