// A plain driver: two coils and nothing more. Other drivers hold it and add what they tell.
ghost use Rattle.std.specs.Prelude.{◌≡◌, true};
ghost use Rattle.coil.specs.Kept.{coil_of, coils_of};
ghost use Rattle.coil.specs.Meaning.{tripped, declines_advance, declines_feed, advanced, fed, reported, acknowledged, answered, new_coil, new_coils};
ghost use Rattle.std.proofs.Common.{rules};

use crate::state::CoilState;
use crate::{
    CoilDriver, CoilFault, CoilId, Microsteps, OPEN_LOAD, OVERCURRENT, OVERTEMPERATURE, PerCoil,
    Points, STALL,
};

// Flags that stand until they are cleared; overtemperature follows the reports.
const LATCHED: u8 = STALL | OPEN_LOAD | OVERCURRENT;

const TRIPPING: u8 = OVERTEMPERATURE | OVERCURRENT;

const ALL_FLAGS: u8 = 15;

// Whether these flags trip a coil.
fn is_tripped(flags: u8) -> bool
    ensures { result ≡ tripped flags }
{
    flags & TRIPPING != 0
}

impl CoilState {
    fn new(count: u32) -> CoilState
        ensures { coil_of result ≡ new_coil count }
    {
        CoilState {
            count,
            points: Points::NONE,
            flags: 0,
        }
    }

    fn advance(&mut self, steps: Microsteps) -> Result<(), CoilFault>
        ensures after { coil_of self.new ≡ advanced (coil_of self.old) steps.value }
        ensures answer { result ≡ answered (declines_advance self.old.flags steps.value) self.old.flags }
        ensures declined { declines_advance self.old.flags steps.value ≡ true → self.new ≡ self.old }
    {
        if is_tripped(self.flags) {
            return Err(CoilFault::Tripped(self.flags));
        }
        self.count = self.count.wrapping_add_signed(steps.value);
        Ok(())
    }

    fn feed(&mut self, points: Points) -> Result<(), CoilFault>
        ensures after { coil_of self.new ≡ fed (coil_of self.old) points.value }
        ensures answer { result ≡ answered (declines_feed self.old.flags points.value) self.old.flags }
        ensures declined { declines_feed self.old.flags points.value ≡ true → self.new ≡ self.old }
    {
        if is_tripped(self.flags) && points.value != 0 {
            return Err(CoilFault::Tripped(self.flags));
        }
        self.points = points;
        Ok(())
    }

    fn note(&mut self, flags: u8)
        ensures { coil_of self.new ≡ reported (coil_of self.old) flags }
    {
        let flags = self.flags & LATCHED | flags & ALL_FLAGS;
        let tripped = is_tripped(flags);
        *self = CoilState {
            count: self.count,
            points: if tripped { Points::NONE } else { self.points },
            flags,
        };
    }

    fn clear(&mut self)
        ensures { coil_of self.new ≡ acknowledged (coil_of self.old) }
    {
        self.flags &= OVERTEMPERATURE;
    }
}

#[derive(Clone, Copy)]
pub struct CoilPair {
    coils: PerCoil<CoilState>,
}

impl CoilPair {
    // Two coils at these counts, without current and without flags. The counts are no PerCoil, here and in the drivers
    // over a pair, since a call reads by place.
    pub fn new(first: u32, second: u32) -> CoilPair
        ensures { coils_of result ≡ new_coils first second }
    {
        CoilPair {
            coils: PerCoil {
                first: CoilState::new(first),
                second: CoilState::new(second),
            },
        }
    }
}

impl CoilDriver for CoilPair {
    ghost meaning = { coils_of };

    ghost did = { λ d call e. Unit {0} };

    ghost sound = { Prim.search rules };

    fn advance(&mut self, coil: CoilId, steps: Microsteps) -> Result<(), CoilFault> {
        self.coils[coil].advance(steps)
    }

    fn feed(&mut self, coil: CoilId, points: Points) -> Result<(), CoilFault> {
        self.coils[coil].feed(points)
    }

    fn note(&mut self, coil: CoilId, flags: u8) {
        self.coils[coil].note(flags);
    }

    fn clear(&mut self, coil: CoilId) {
        self.coils[coil].clear();
    }

    fn count(&self, coil: CoilId) -> u32 {
        self.coils[coil].count
    }

    fn points(&self, coil: CoilId) -> Points {
        self.coils[coil].points
    }

    fn flags(&self, coil: CoilId) -> u8 {
        self.coils[coil].flags
    }
}
