// The register tables of the function models: what each register sets, and when it is open.
#![tactic(auto)]

ghost use Rattle.std.specs.Prelude.{◌≡◌, List};
ghost use Rattle.registers.specs.Tables.{Line, is_open, look_up, step_lines};

use axis::{Axis, CurrentSetting};
use coil::CoilId;
use step_axis::StepAxis;

// A module is prepared, then it runs.
#[derive(Clone, Copy, PartialEq, Eq, Debug)]
pub enum Stage {
    Preparation,
    Running,
}

// The stages at which a register is open.
#[derive(Clone, Copy, PartialEq, Eq, Debug)]
pub enum Open {
    Preparation,
    BothStages,
}

// What a register sets: the module-wide configuration, or one of a motor's currents. It is no Option of a current, since
// the configuration is something that is set.
#[derive(Clone, Copy, PartialEq, Eq, Debug)]
pub enum Setting {
    Configuration,
    Current(CoilId, CurrentSetting),
}

#[derive(Clone, Copy, PartialEq, Eq, Debug)]
pub struct Register {
    pub setting: Setting,
    pub opened: Open,
}

impl Register {
    pub fn is_open(&self, stage: Stage) -> bool
        ensures { result ≡ is_open self.now.opened stage }
    {
        match (self.opened, stage) {
            (Open::Preparation, Stage::Running) => false,
            (Open::Preparation, Stage::Preparation) | (Open::BothStages, _) => true,
        }
    }
}

// A kind of axis with the register table of its function model.
pub trait Model: Axis {
    ghost lines: { List Line };

    // What the register sets, or none where the model has no such register.
    fn register(number: u16) -> Option<Register>
        ensures { result ≡ look_up lines number };
}

fn current(motor: CoilId, which: CurrentSetting) -> Register
    ensures { result ≡ record { setting = Setting.Current motor which; opened = Open.BothStages } }
{
    Register {
        setting: Setting::Current(motor, which),
        opened: Open::BothStages,
    }
}

impl Model for StepAxis {
    ghost lines = { step_lines };

    // the table of the rules, number by number
    fn register(number: u16) -> Option<Register> {
        let register = match number {
            33 => current(CoilId::First, CurrentSetting::Holding),
            34 => current(CoilId::First, CurrentSetting::Nominal),
            35 => current(CoilId::First, CurrentSetting::Maximum),
            36 => current(CoilId::Second, CurrentSetting::Holding),
            37 => current(CoilId::Second, CurrentSetting::Nominal),
            38 => current(CoilId::Second, CurrentSetting::Maximum),
            46 => Register {
                setting: Setting::Configuration,
                opened: Open::Preparation,
            },
            _ => return None,
        };
        Some(register)
    }
}
