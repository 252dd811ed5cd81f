// Lists of calls of a module, and running one from the making of the module to its end.
#![tactic(auto)]

ghost use Rattle.std.specs.Prelude.{map};
ghost use Rattle.history.specs.Lists.{CallKind, event, query, running_calls, settings};
ghost use Rattle.history.specs.Ran.{Once, Passed, Ran};
ghost use Rattle.module.specs.Share.{rules};

use axis::Axis;
use coil::CoilDriver;
use module::{Closed, Module, ModuleStage, Preparation, Running};
use refusal::Refusal;
use registers::Model;

// A setting of a register.
#[derive(Clone, Copy, PartialEq, Eq, Debug)]
pub struct SetRegister {
    pub register: u16,
    pub value: i32,
}

// A call of a running module. A cycle has its record and its answer buffer, of any lengths. Motors and flags are plain
// numbers, as in the calls of a module.
#[derive(Drop)]
pub enum Call {
    Setting(SetRegister),
    Cycle { orders: Vec<u8>, answer: Vec<u8> },
    Report { motor: u8, flags: u8 },
    Acknowledge { motor: u8 },
}

// A call with the place for its answer.
#[derive(Drop)]
pub struct Entry<C> {
    pub call: C,
    pub ended: Result<(), Refusal>,
}

// The settings made in preparation and, once the module is started, the calls that follow.
#[derive(Drop)]
pub struct History {
    pub preparation: Vec<Entry<SetRegister>>,
    // absent where the module is never started
    pub running: Option<Vec<Entry<Call>>>,
}

// A call that can be made of a module at the stage S.
trait ModuleCall<S: ModuleStage> {
    ghost kind: { CallKind Self };

    fn make<A: Model, D: CoilDriver>(&mut self, module: &mut Module<S, A, D>) -> Result<(), Refusal>
    where
        Self: Sized,
        ensures { Once (rules A.Axis.kind A.Model.lines) D.CoilDriver.meaning D.CoilDriver.did «module».old.inner «module».new.inner (query kind self.old) (kind.buffer self.old) (event kind (record { call = self.new; ended = result })) };
}

// A setting can be made at each stage.
impl<S: ModuleStage> ModuleCall<S> for SetRegister {
    ghost kind = { settings S.ModuleStage.stage };

    fn make<A: Model, D: CoilDriver>(
        &mut self,
        module: &mut Module<S, A, D>,
    ) -> Result<(), Refusal> {
        module.setting(self.register, self.value)
    }
}

// The other calls can be made of a running module alone.
impl ModuleCall<Running> for Call {
    ghost kind = { running_calls };

    fn make<A: Model, D: CoilDriver>(
        &mut self,
        module: &mut Module<Running, A, D>,
    ) -> Result<(), Refusal> {
        match self {
            Call::Setting(setting) => setting.make(module),
            Call::Cycle { orders, answer } => {
                module.cycle(orders.as_slice(), answer.as_mut_slice())
            }
            Call::Report { motor, flags } => module.report(*motor, *flags),
            Call::Acknowledge { motor } => module.acknowledge(*motor),
        }
    }
}

// Makes the calls of a list, in order.
fn make_all<S: ModuleStage, C: ModuleCall<S>, A: Model, D: CoilDriver>(
    module: &mut Module<S, A, D>,
    entries: &mut [Entry<C>],
)
    ensures { Passed (rules A.Axis.kind A.Model.lines) D.CoilDriver.meaning D.CoilDriver.did «module».old.inner «module».new.inner (map (event C.kind) entries.old) (map (event C.kind) entries.new) }
{
    for entry in entries {
        entry.ended = entry.call.make(module);
    }
}

// Makes a module over the driver and runs the history to its end. Every call gets its answer, and nothing is allocated.
pub fn run<A: Model, D: CoilDriver>(driver: D, history: &mut History) -> Module<Closed, A, D>
    ensures { Ran (rules A.Axis.kind A.Model.lines) D.CoilDriver.meaning D.CoilDriver.did driver history.old history.new result.inner }
{
    let mut prepared: Module<Preparation, A, D> = Module::new(driver);
    make_all(&mut prepared, history.preparation.as_mut_slice());
    match &mut history.running {
        None => prepared.close(),
        Some(entries) => {
            // closed and not ended after this, so that it can be read
            let mut running = prepared.start();
            make_all(&mut running, entries.as_mut_slice());
            running.close()
        }
    }
}
