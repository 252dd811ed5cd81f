// The law over whole runs, on the call that runs two histories side by side.
#![tactic(auto)]

ghost use Rattle.history.specs.Ran.{Ran};
ghost use Rattle.law.specs.Law.{CountsAddUp, EqualSumsLeaveEqualCounts, MotorsAreIndependent, SupplyHolds};
ghost use Rattle.law.specs.Models.{LawOfRun, Runs};
ghost use Rattle.law.specs.Whole.{whole};
ghost use Rattle.law.specs.declared.FunctionModel.{FunctionModel};
ghost use Rattle.law.specs.declared.FunctionModel.TheVariants.{StepWords};
ghost use Rattle.module.specs.Share.{rules};
ghost use Rattle.std.proofs.Common.{rules as std_rules};

use coil::CoilDriver;
use history::{History, run};
use module::{Closed, Module};
use registers::Model;
use step_axis::StepAxis;

// What a module makes of its cycles.
#[derive(Clone, Copy, PartialEq, Eq, Debug)]
pub enum FunctionModel {
    // function model 0
    StepWords,
}

// A kind of axis that runs one of the function models.
pub trait ModelAxis: Model {
    ghost model: { FunctionModel };

    // its rules and its register table are those of the model
    ghost runs: { Runs model Self.Axis.kind Self.Model.lines };
}

impl ModelAxis for StepAxis {
    ghost model = { StepWords };

    ghost runs = { Prim.search std_rules };
}

// Runs a history over a driver, by a kind of axis. Its contract is the law over one whole run: what a motor shows
// follows from what was done to it, the supply holds, and counts add up.
pub fn run_as<A: ModelAxis, D: CoilDriver>(driver: D, history: &mut History) -> Module<Closed, A, D>
    ensures run { Ran (rules A.Axis.kind A.Model.lines) D.CoilDriver.meaning D.CoilDriver.did driver history.old history.new result.inner }
    ensures law { LawOfRun (whole A.ModelAxis.model A.Axis.kind D.CoilDriver.meaning driver history.old history.new result.inner) }
{
    run(driver, history)
}

// Runs a history over each of two drivers, of any two kinds of axis and of driver. Its contract is the law over whole
// runs: motors are independent, the supply holds, and counts add up.
pub fn compare<A: ModelAxis, B: ModelAxis, D: CoilDriver, E: CoilDriver>(
    first: D,
    one: &mut History,
    second: E,
    other: &mut History,
) -> (Module<Closed, A, D>, Module<Closed, B, E>)
    ensures first_run { Ran (rules A.Axis.kind A.Model.lines) D.CoilDriver.meaning D.CoilDriver.did first one.old one.new result.0.inner }
    ensures second_run { Ran (rules B.Axis.kind B.Model.lines) E.CoilDriver.meaning E.CoilDriver.did second other.old other.new result.1.inner }
    ensures independent { MotorsAreIndependent (whole A.ModelAxis.model A.Axis.kind D.CoilDriver.meaning first one.old one.new result.0.inner) (whole B.ModelAxis.model B.Axis.kind E.CoilDriver.meaning second other.old other.new result.1.inner) }
    ensures first_supply { SupplyHolds (whole A.ModelAxis.model A.Axis.kind D.CoilDriver.meaning first one.old one.new result.0.inner) }
    ensures second_supply { SupplyHolds (whole B.ModelAxis.model B.Axis.kind E.CoilDriver.meaning second other.old other.new result.1.inner) }
    ensures first_counts { CountsAddUp (whole A.ModelAxis.model A.Axis.kind D.CoilDriver.meaning first one.old one.new result.0.inner) }
    ensures second_counts { CountsAddUp (whole B.ModelAxis.model B.Axis.kind E.CoilDriver.meaning second other.old other.new result.1.inner) }
    ensures equal_sums { EqualSumsLeaveEqualCounts (whole A.ModelAxis.model A.Axis.kind D.CoilDriver.meaning first one.old one.new result.0.inner) (whole B.ModelAxis.model B.Axis.kind E.CoilDriver.meaning second other.old other.new result.1.inner) }
{
    let left = run_as(first, one);
    let right = run_as(second, other);
    (left, right)
}
