// What a coil is, the calls that every coil driver takes, and a plain driver that keeps two coils.
#![tactic(auto)]

ghost use Rattle.std.specs.Prelude.{◌≡◌};
ghost use Rattle.coil.specs.Chains.{Did, Tried, on};
ghost use Rattle.coil.specs.Coils.{at, put};
ghost use Rattle.coil.specs.Meaning.{Coils, Sound, declines_advance, declines_feed, advanced, fed, reported, acknowledged, answered};
ghost use Rattle.coil.specs.declared.CoilCall.TheVariants.{Advance, Feed, Note, Clear};
ghost use Rattle.coil.specs.declared.CoilId.{CoilId};

mod direction;
mod error;
mod microsteps;
mod number;
mod pair;
mod per_coil;
mod points;
mod state;

pub use direction::Direction;
pub use error::{OutOfRange, UnknownCoil};
pub use microsteps::Microsteps;
pub use pair::CoilPair;
pub use per_coil::PerCoil;
pub use points::{MAX_POINTS, Points};

// Flag bits of a coil. They stay bits, since reports, answers and faults carry them in one byte.
pub const STALL: u8 = 1;

pub const OVERTEMPERATURE: u8 = 2;

pub const OPEN_LOAD: u8 = 4;

pub const OVERCURRENT: u8 = 8;

// A coil, by its number.
#[derive(Clone, Copy, PartialEq, Eq, Debug)]
pub enum CoilId {
    First = 1,
    Second = 2,
}

// Why a coil declined a call: it is tripped, and these are its flags.
#[derive(Clone, Copy, PartialEq, Eq, Debug)]
pub enum CoilFault {
    Tripped(u8),
}

// A call that can change a coil.
#[derive(Clone, Copy, PartialEq, Eq, Debug)]
pub enum CoilCall {
    Advance(i32),
    Feed(u8),
    Note(u8),
    Clear,
}

// A call of a driver: which coil, and what is called of it.
#[derive(Clone, Copy, PartialEq, Eq, Debug)]
pub struct DriverCall {
    pub coil: CoilId,
    pub call: CoilCall,
}

// A driver of two coils. No call on one coil alters the other, and a declined call alters nothing.
pub trait CoilDriver {
    // what the driver means: count, points and flags of each coil
    ghost meaning: { Self → Coils };

    // which accepted call led from one value of the driver to the next
    ghost did: { Did Self };

    // Adds signed microsteps to the count, modulo 2^32. Declined exactly when the coil is tripped.
    fn advance(&mut self, coil: CoilId, steps: Microsteps) -> Result<(), CoilFault>
        ensures after { meaning self.new ≡ put (meaning self.old) coil (advanced (at (meaning self.old) coil) steps.value) }
        ensures answer { result ≡ answered (declines_advance (at (meaning self.old) coil).flags steps.value) (at (meaning self.old) coil).flags }
        ensures calls { Tried did (declines_advance (at (meaning self.old) coil).flags steps.value) self.old (on coil (Advance steps.value)) self.new };

    // Sets the points. Declined exactly when the coil is tripped and the points are not 0.
    fn feed(&mut self, coil: CoilId, points: Points) -> Result<(), CoilFault>
        ensures after { meaning self.new ≡ put (meaning self.old) coil (fed (at (meaning self.old) coil) points.value) }
        ensures answer { result ≡ answered (declines_feed (at (meaning self.old) coil).flags points.value) (at (meaning self.old) coil).flags }
        ensures calls { Tried did (declines_feed (at (meaning self.old) coil).flags points.value) self.old (on coil (Feed points.value)) self.new };

    // Notes reported flags, of which bits 4 to 7 are ignored. A coil that is tripped after this has 0 points.
    fn note(&mut self, coil: CoilId, flags: u8)
        ensures after { meaning self.new ≡ put (meaning self.old) coil (reported (at (meaning self.old) coil) flags) }
        ensures calls { did self.old (on coil (Note flags)) self.new };

    // Removes stall, open load and overcurrent.
    fn clear(&mut self, coil: CoilId)
        ensures after { meaning self.new ≡ put (meaning self.old) coil (acknowledged (at (meaning self.old) coil)) }
        ensures calls { did self.old (on coil Clear) self.new };

    fn count(&self, coil: CoilId) -> u32
        ensures { result ≡ (at (meaning self.now) coil).count };

    fn points(&self, coil: CoilId) -> Points
        ensures { result.value ≡ (at (meaning self.now) coil).points };

    fn flags(&self, coil: CoilId) -> u8
        ensures { result ≡ (at (meaning self.now) coil).flags };

    ghost sound: { (x : Self) (i : CoilId) → Sound (at (meaning x) i) };
}
