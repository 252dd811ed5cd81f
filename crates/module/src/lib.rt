// The two-motor module: prepared, started, then run by cycles.
#![tactic(auto)]

ghost use Rattle.std.specs.Prelude.{◌≡◌, length};
ghost use Rattle.coil.specs.Coils.{at};
ghost use Rattle.module.specs.Called.{Called, Filled, Made};
ghost use Rattle.module.specs.Effects.{acknowledgement, cycle, of_motor, report, setting};
ghost use Rattle.module.specs.Share.{rules, share, wanted};
ghost use Rattle.registers.specs.declared.Stage.{Stage};
ghost use Rattle.registers.specs.declared.Stage.TheVariants as stages;

use axis::Axis;
use coil::{CoilDriver, CoilId};
use refusal::Refusal;
use registers::{Model, Stage};

mod calls;
mod inner;
mod motor;
mod steps;

use inner::Inner;
pub use motor::Fault;
use std::marker::PhantomData;
use steps::place;

// The stage of a module is part of its type, so that a program that runs a cycle in preparation,
// or starts a module twice, is not built.
pub trait ModuleStage: Copy {
    ghost stage: { Stage };

    fn stage() -> Stage
        ensures { result ≡ stage };
}

#[derive(Clone, Copy)]
pub struct Preparation;

#[derive(Clone, Copy)]
pub struct Running;

// The last of a module: it can be read, and gives its driver back.
#[derive(Clone, Copy)]
pub struct Closed;

impl ModuleStage for Preparation {
    ghost stage = { stages.Preparation };

    fn stage() -> Stage {
        Stage::Preparation
    }
}

impl ModuleStage for Running {
    ghost stage = { stages.Running };

    fn stage() -> Stage {
        Stage::Running
    }
}

// A module of two motors of one kind over a driver. It is neither copied nor let go: `start` takes a module in
// preparation and gives a running one, and `end` gives the driver back.
pub struct Module<S, A: Axis, D> {
    stage: PhantomData<S>,
    inner: Inner<A, D>,
}

// What a motor shows beside its coil.
#[derive(Clone, Copy, PartialEq, Eq, Debug)]
pub struct MotorState {
    // the latest fault, if there was one
    pub fault: Option<Fault>,
    // the points that the motor wants
    pub wanted: u8,
}

impl<A: Model, D: CoilDriver> Module<Preparation, A, D> {
    // A module in preparation. Both coils are fed 0 points.
    pub fn new(driver: D) -> Module<Preparation, A, D>
        ensures { Made A.Axis.kind D.CoilDriver.meaning D.CoilDriver.did driver result.inner }
    {
        Module {
            stage: PhantomData,
            inner: Inner::new(driver),
        }
    }

    // Starting is never refused.
    pub fn start(self) -> Module<Running, A, D>
        ensures { result.inner ≡ self.inner }
    {
        self.at_stage::<Running>()
    }
}

impl<S: ModuleStage, A: Model, D: CoilDriver> Module<S, A, D> {
    // Sets a register: is it in the model's table, open at this stage, the value in range, its motor not powered?
    pub fn setting(&mut self, register: u16, value: i32) -> Result<(), Refusal>
        ensures effect { Called (rules A.Axis.kind A.Model.lines) D.CoilDriver.meaning D.CoilDriver.did S.ModuleStage.stage (setting register value) self.old.inner self.new.inner result }
        ensures stage { self.new.stage ≡ self.old.stage }
    {
        self.inner.setting(S::stage(), register, value)
    }
}

impl<S, A: Model, D: CoilDriver> Module<S, A, D> {
    fn at_stage<T>(self) -> Module<T, A, D>
        ensures { result.inner ≡ self.inner }
    {
        let Module { stage: _, inner } = self;
        Module {
            stage: PhantomData,
            inner,
        }
    }

    // The latest fault of a motor, if there was one. Motors are plain numbers in the calls of a module, and flags too:
    // they come from outside, and a wrong one is refused by its number.
    pub fn latest_fault(&self, motor: u8) -> Result<Option<Fault>, Refusal>
        ensures { result ≡ of_motor motor (λ i. (share A.Axis.kind D.CoilDriver.meaning self.now.inner i).fault) }
    {
        Ok(self.state(CoilId::try_from(motor)?).fault)
    }

    // The count of a motor's coil, in microsteps.
    pub fn count(&self, motor: u8) -> Result<u32, Refusal>
        ensures { result ≡ of_motor motor (λ i. (at (D.CoilDriver.meaning self.now.inner.driver) i).count) }
    {
        Ok(self.inner.driver.count(CoilId::try_from(motor)?))
    }

    // The points that a motor's coil is fed.
    pub fn points(&self, motor: u8) -> Result<u8, Refusal>
        ensures { result ≡ of_motor motor (λ i. (at (D.CoilDriver.meaning self.now.inner.driver) i).points) }
    {
        Ok(self.inner.driver.points(CoilId::try_from(motor)?).value)
    }

    // The flags of a motor's coil.
    pub fn flags(&self, motor: u8) -> Result<u8, Refusal>
        ensures { result ≡ of_motor motor (λ i. (at (D.CoilDriver.meaning self.now.inner.driver) i).flags) }
    {
        Ok(self.inner.driver.flags(CoilId::try_from(motor)?))
    }

    // What the motor on a coil shows.
    pub fn state(&self, coil: CoilId) -> MotorState
        ensures fault { result.fault ≡ (share A.Axis.kind D.CoilDriver.meaning self.now.inner coil).fault }
        ensures wanted { result.wanted ≡ wanted A.Axis.kind (share A.Axis.kind D.CoilDriver.meaning self.now.inner coil) }
    {
        let motor = &self.inner.motors[place(coil)];
        MotorState {
            fault: motor.fault,
            wanted: motor.wanted().value,
        }
    }

    // Takes no more calls; what the module shows can still be read.
    pub fn close(self) -> Module<Closed, A, D>
        ensures { result.inner ≡ self.inner }
    {
        self.at_stage::<Closed>()
    }

    // Ends the module and gives its driver back as it stands.
    pub fn end(self) -> D
        ensures { result ≡ self.inner.driver }
    {
        let Module { stage: _, inner } = self;
        inner.end()
    }
}

impl<A: Model, D: CoilDriver> Module<Running, A, D> {
    // One cycle: bytes 0 to 7 of record and answer are motor 1's, bytes 8 to 15 motor 2's. Any lengths come from outside,
    // and others than 16 are refused by their numbers.
    pub fn cycle(&mut self, orders: &[u8], answer: &mut [u8]) -> Result<(), Refusal>
        ensures effect { Called (rules A.Axis.kind A.Model.lines) D.CoilDriver.meaning D.CoilDriver.did stages.Running (cycle orders.now (length answer.old)) self.old.inner self.new.inner result }
        ensures answer { Filled (rules A.Axis.kind A.Model.lines) D.CoilDriver.meaning self.old.inner orders.now answer.old answer.new result }
        ensures stage { self.new.stage ≡ self.old.stage }
    {
        self.inner.cycle(orders, answer)
    }

    // Reports flags of a motor's coil: a motor that there is, and flags below 16?
    pub fn report(&mut self, motor: u8, flags: u8) -> Result<(), Refusal>
        ensures effect { Called (rules A.Axis.kind A.Model.lines) D.CoilDriver.meaning D.CoilDriver.did stages.Running (report motor flags) self.old.inner self.new.inner result }
        ensures stage { self.new.stage ≡ self.old.stage }
    {
        self.inner.report(motor, flags)
    }

    // Acknowledges a motor's faults: clears all flags of its coil but overtemperature.
    pub fn acknowledge(&mut self, motor: u8) -> Result<(), Refusal>
        ensures effect { Called (rules A.Axis.kind A.Model.lines) D.CoilDriver.meaning D.CoilDriver.did stages.Running (acknowledgement motor) self.old.inner self.new.inner result }
        ensures stage { self.new.stage ≡ self.old.stage }
    {
        self.inner.acknowledge(motor)
    }
}
