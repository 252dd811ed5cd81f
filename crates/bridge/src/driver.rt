// The bridge driver: two coils, and the levels of the two windings of each.
ghost use Rattle.std.specs.Prelude.{◌≡◌};
ghost use Rattle.coil.specs.Coils.{at};
ghost use Rattle.coil.specs.Meaning.{new_coils};
ghost use Rattle.bridge.specs.Bridged.{bridge_meaning};
ghost use Rattle.bridge.specs.Wave.{OnCircle, levels_at};
ghost use Rattle.std.proofs.Common.{rules};

use crate::wave::Levels;
use coil::{CoilDriver, CoilFault, CoilId, CoilPair, Microsteps, Points};

#[derive(Clone, Copy)]
pub struct BridgeDriver {
    coils: CoilPair,
}

impl BridgeDriver {
    // A driver with these counts, without current and without flags.
    pub fn new(first: u32, second: u32) -> BridgeDriver
        ensures { bridge_meaning result ≡ new_coils first second }
    {
        BridgeDriver {
            coils: CoilPair::new(first, second),
        }
    }

    // The levels of the coil's windings, which follow its count.
    pub fn levels(&self, coil: CoilId) -> Levels
        ensures value { result ≡ levels_at (at (bridge_meaning self.now) coil).count }
        ensures circle { OnCircle result }
    {
        Levels::at(self.coils.count(coil))
    }
}

// Passed on call by call: one impl for all drivers that hold a pair would not fit the pulse driver, whose advance and
// `did` are its own.
impl CoilDriver for BridgeDriver {
    ghost meaning = { bridge_meaning };

    // the levels follow the count, so there is nothing to say beside the meaning
    ghost did = { λ d call e. Unit {0} };

    ghost sound = { Prim.search rules };

    fn advance(&mut self, coil: CoilId, steps: Microsteps) -> Result<(), CoilFault> {
        self.coils.advance(coil, steps)
    }

    fn feed(&mut self, coil: CoilId, points: Points) -> Result<(), CoilFault> {
        self.coils.feed(coil, points)
    }

    fn note(&mut self, coil: CoilId, flags: u8) {
        self.coils.note(coil, flags);
    }

    fn clear(&mut self, coil: CoilId) {
        self.coils.clear(coil);
    }

    fn count(&self, coil: CoilId) -> u32 {
        self.coils.count(coil)
    }

    fn points(&self, coil: CoilId) -> Points {
        self.coils.points(coil)
    }

    fn flags(&self, coil: CoilId) -> u8 {
        self.coils.flags(coil)
    }
}
