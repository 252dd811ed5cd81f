// The calls of a module, over what it keeps at either stage.
ghost use Rattle.std.specs.Prelude.{◌≡◌, ◌≢◌, ◌↔◌, ◌++◌, length, MatchOption, IsSome};
ghost use Rattle.module.specs.Called.{Called, Filled};
ghost use Rattle.module.specs.Effects.{acknowledgement, cycle, report, setting};
ghost use Rattle.module.specs.Share.{rules};
ghost use Rattle.registers.specs.declared.Stage.TheVariants.{Running};

use crate::inner::Inner;
use axis::Axis;
use coil::{CoilDriver, CoilId};
use refusal::Refusal;
use registers::{Model, Setting, Stage};

// The eight bytes of motor 1 and of motor 2, where there are sixteen bytes.
fn halves(bytes: &[u8]) -> Option<(&[u8; 8], &[u8; 8])>
    ensures cases { MatchOption result (length bytes.now ≢ 16) (λ both. bytes.now ≡ both.0.now ++ both.1.now) }
    ensures variant { IsSome result ↔ (length bytes.now ≡ 16) }
{
    let (first, rest) = bytes.split_first_chunk()?;
    Some((first, rest.as_array()?))
}

impl<A: Model, D: CoilDriver> Inner<A, D> {
    pub(crate) fn report(&mut self, motor: u8, flags: u8) -> Result<(), Refusal>
        ensures { Called (rules A.Axis.kind A.Model.lines) D.CoilDriver.meaning D.CoilDriver.did Running (report motor flags) self.old self.new result }
    {
        let coil = CoilId::try_from(motor)?;
        if flags >= 16 {
            return Err(Refusal::UnknownFlags);
        }
        self.driver.note(coil, flags);
        Ok(())
    }

    pub(crate) fn acknowledge(&mut self, motor: u8) -> Result<(), Refusal>
        ensures { Called (rules A.Axis.kind A.Model.lines) D.CoilDriver.meaning D.CoilDriver.did Running (acknowledgement motor) self.old self.new result }
    {
        let coil = CoilId::try_from(motor)?;
        self.driver.clear(coil);
        Ok(())
    }

    // Orders and answer are slices, since any lengths come from outside, and others than 16 are refused.
    pub(crate) fn cycle(&mut self, orders: &[u8], answer: &mut [u8]) -> Result<(), Refusal>
        ensures effect { Called (rules A.Axis.kind A.Model.lines) D.CoilDriver.meaning D.CoilDriver.did Running (cycle orders.now (length answer.old)) self.old self.new result }
        ensures answer { Filled (rules A.Axis.kind A.Model.lines) D.CoilDriver.meaning self.old orders.now answer.old answer.new result }
    {
        let (first, second) = halves(orders).ok_or(Refusal::RecordLength)?;
        // two steps in place: a function that lends both halves gets no proof of what the buffer ends as
        let Some((first_answer, rest)) = answer.split_first_chunk_mut::<8>() else {
            return Err(Refusal::AnswerLength);
        };
        let Some(second_answer) = rest.as_mut_array::<8>() else {
            return Err(Refusal::AnswerLength);
        };
        self.move_motors(first, second, first_answer, second_answer);
        self.share();
        Ok(())
    }

    pub(crate) fn setting(&mut self, stage: Stage, register: u16, value: i32) -> Result<(), Refusal>
        ensures { Called (rules A.Axis.kind A.Model.lines) D.CoilDriver.meaning D.CoilDriver.did stage (setting register value) self.old self.new result }
    {
        let found = A::register(register).ok_or(Refusal::UnknownRegister)?;
        if !found.is_open(stage) {
            return Err(Refusal::Closed);
        }
        match found.setting {
            Setting::Configuration => self.configure(value),
            Setting::Current(coil, which) => self.set_current(coil, which, value),
        }
    }
}
