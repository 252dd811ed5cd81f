// The pulse driver: two coils, and the pulses of each coil's latest accepted advance.
ghost use Rattle.std.specs.Prelude.{◌≡◌};
ghost use Rattle.coil.specs.Coils.{at, both};
ghost use Rattle.coil.specs.Meaning.{new_coils};
ghost use Rattle.drivers.specs.Pulsed.{Pulsed, no_pulses, pulses_for, pulse_meaning};
ghost use Rattle.std.proofs.Common.{rules};

use coil::{CoilDriver, CoilFault, CoilId, CoilPair, Direction, Microsteps, PerCoil, Points};

// One advance, as the power stage sees it.
#[derive(Clone, Copy, PartialEq, Eq, Debug)]
pub struct Pulses {
    pub direction: Direction,
    // the steps' size
    pub number: u32,
}

impl Pulses {
    // Before the first advance.
    pub const NONE: Pulses = Pulses {
        direction: Direction::Forward,
        number: 0,
    };
}

impl From<Microsteps> for Pulses {
    ghost from_gives = { λ steps pulses. pulses ≡ pulses_for steps.value };

    fn from(steps: Microsteps) -> Pulses {
        Pulses {
            direction: Direction::from(i64::from(steps.value)),
            number: steps.value.unsigned_abs(),
        }
    }
}

#[derive(Clone, Copy)]
pub struct PulseDriver {
    coils: CoilPair,
    // those of each coil's latest accepted advance
    pulses: PerCoil<Pulses>,
}

impl PulseDriver {
    // A driver with these counts, without current, without flags, and with no advance yet.
    pub fn new(first: u32, second: u32) -> PulseDriver
        ensures meaning { pulse_meaning result ≡ new_coils first second }
        ensures pulses { result.pulses ≡ both (λ _. no_pulses) }
    {
        PulseDriver {
            coils: CoilPair::new(first, second),
            pulses: PerCoil {
                first: Pulses::NONE,
                second: Pulses::NONE,
            },
        }
    }

    // Direction and number of pulses of the coil's latest accepted advance, both 0 before one.
    pub fn pulses(&self, coil: CoilId) -> Pulses
        ensures { result ≡ at self.now.pulses coil }
    {
        self.pulses[coil]
    }
}

// All calls but an advance are passed on as they are: one impl for all drivers that hold a pair would not fit this one,
// whose advance and `did` are its own.
impl CoilDriver for PulseDriver {
    ghost meaning = { pulse_meaning };

    ghost did = { Pulsed };

    ghost sound = { Prim.search rules };

    fn advance(&mut self, coil: CoilId, steps: Microsteps) -> Result<(), CoilFault> {
        self.coils.advance(coil, steps)?;
        self.pulses[coil] = Pulses::from(steps);
        Ok(())
    }

    fn feed(&mut self, coil: CoilId, points: Points) -> Result<(), CoilFault> {
        self.coils.feed(coil, points)
    }

    fn note(&mut self, coil: CoilId, flags: u8) {
        self.coils.note(coil, flags);
    }

    fn clear(&mut self, coil: CoilId) {
        self.coils.clear(coil);
    }

    fn count(&self, coil: CoilId) -> u32 {
        self.coils.count(coil)
    }

    fn points(&self, coil: CoilId) -> Points {
        self.coils.points(coil)
    }

    fn flags(&self, coil: CoilId) -> u8 {
        self.coils.flags(coil)
    }
}
