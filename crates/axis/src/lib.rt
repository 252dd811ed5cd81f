// What every kind of axis is: one motor on one coil, driven by eight bytes a cycle.
#![tactic(auto)]

ghost use Rattle.std.specs.Prelude.{◌≡◌, ok_or};
ghost use Rattle.axis.specs.Kinds.{Cycled, Kind, Rests, seen};
ghost use Rattle.axis.specs.declared.AxisFault.TheVariants.{Coil};
ghost use Rattle.axis.specs.declared.currents.Current.TheVariants.{Off};
ghost use Rattle.coil.specs.Coils.{at};

use coil::{CoilDriver, CoilFault, CoilId, OutOfRange};

mod currents;

pub use coil::Points;
pub use currents::{Current, CurrentSetting, Currents};

// Why an axis could not do what it was ordered.
#[derive(Clone, Copy, PartialEq, Eq, Debug)]
pub enum AxisFault {
    // the coil declined a call
    Coil(CoilFault),
}

// By hand, since clauses say what a `?` makes of a fault, and a derived impl has no contract.
impl From<CoilFault> for AxisFault {
    ghost from_gives = { λ fault r. r ≡ Coil fault };

    fn from(fault: CoilFault) -> AxisFault {
        AxisFault::Coil(fault)
    }
}

// One kind of axis. What it means stands in `kind`; points are not among what it sees.
pub trait Axis: Drop {
    // the configuration that all axes of a module share
    type Config: Copy;

    ghost kind: { Kind Self.Config Self };

    fn new() -> Self
    where
        Self: Sized,
        ensures { result ≡ kind.fresh };

    // The configuration before it is set.
    fn first_config() -> Self::Config
        ensures { result ≡ kind.first_config };

    // The configuration that a value of its register means.
    fn config(value: i32) -> Result<Self::Config, OutOfRange>
        ensures { result ≡ ok_or (kind.config value) (record {}) };

    fn current(&self) -> Current
        ensures { result ≡ kind.current self.now };

    // One cycle: eight bytes of orders, eight of answer, and the coil that this axis drives. Driver and coil, orders and
    // answer are no structs: with a `&mut` in a struct each contract needs a clause on which reference it is.
    fn cycle<D: CoilDriver>(
        &mut self,
        config: Self::Config,
        driver: &mut D,
        coil: CoilId,
        orders: &[u8; 8],
        answer: &mut [u8; 8],
    ) -> Result<(), AxisFault>
        ensures { Cycled D.CoilDriver.meaning D.CoilDriver.did coil (kind.cycle config self.old (seen (at (D.CoilDriver.meaning driver.old) coil)) orders.now) self.new driver.old driver.new answer.new result };

    // after a cycle an axis on a tripped coil chooses no current
    ghost rests: { Rests kind };

    ghost starts: { kind.current kind.fresh ≡ Off };
}
