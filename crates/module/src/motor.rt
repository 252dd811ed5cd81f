// One motor of a module, whatever its kind of axis.
ghost use Rattle.std.specs.Prelude.{◌≡◌, None};
ghost use Rattle.axis.specs.Kinds.{seen};
ghost use Rattle.axis.specs.Levels.{chosen, is_powered, levels, no_levels, with_level};
ghost use Rattle.coil.specs.Coils.{at};
ghost use Rattle.module.specs.Motors.{Turned};

use axis::{Axis, AxisFault, CurrentSetting, Currents, Points};
use coil::{CoilDriver, CoilId};

// A fault, with the motor that had it and the number of the cycle in which it came.
#[derive(Clone, Copy, PartialEq, Eq, Debug)]
pub struct Fault {
    pub motor: CoilId,
    pub cycle: u32,
    pub cause: AxisFault,
}

#[derive(Drop)]
pub struct Motor<A> {
    pub(crate) axis: A,
    pub(crate) currents: Currents,
    // the latest fault, if there was one
    pub(crate) fault: Option<Fault>,
}

impl<A: Axis> Motor<A> {
    pub(crate) fn new() -> Motor<A>
        ensures axis { result.axis ≡ A.Axis.kind.fresh }
        ensures currents { levels result.currents ≡ no_levels }
        ensures fault { result.fault ≡ None }
    {
        Motor {
            axis: A::new(),
            currents: Currents::new(),
            fault: None,
        }
    }

    pub(crate) fn is_powered(&self) -> bool
        ensures { result ≡ is_powered (A.Axis.kind.current self.now.axis) }
    {
        self.axis.current().is_powered()
    }

    // The points that the motor wants: those of the current that its axis chooses.
    pub(crate) fn wanted(&self) -> Points
        ensures { result.value ≡ chosen (A.Axis.kind.current self.now.axis) (levels self.now.currents) }
    {
        self.currents.chosen(self.axis.current())
    }

    pub(crate) fn set(&mut self, which: CurrentSetting, points: Points)
        ensures axis { self.new.axis ≡ self.old.axis }
        ensures currents { levels self.new.currents ≡ with_level (levels self.old.currents) which points.value }
        ensures fault { self.new.fault ≡ self.old.fault }
    {
        self.currents.set(which, points);
    }

    // One cycle of the motor, with this number.
    pub(crate) fn cycle<D: CoilDriver>(
        &mut self,
        config: A::Config,
        driver: &mut D,
        coil: CoilId,
        cycle: u32,
        orders: &[u8; 8],
        answer: &mut [u8; 8],
    )
        ensures { Turned D.CoilDriver.meaning D.CoilDriver.did coil cycle (A.Axis.kind.cycle config self.old.axis (seen (at (D.CoilDriver.meaning driver.old) coil)) orders.now) self.old self.new driver.old driver.new answer.new }
    {
        if let Err(cause) = self.axis.cycle(config, driver, coil, orders, answer) {
            self.fault = Some(Fault {
                motor: coil,
                cycle,
                cause,
            });
        }
    }
}
