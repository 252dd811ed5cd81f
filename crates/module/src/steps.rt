// The steps that a module's calls are made of.
ghost use Rattle.std.specs.Prelude.{◌≡◌, ◌<◌, ◌++◌, Ok};
ghost use Rattle.coil.specs.declared.CoilId.{CoilId};
ghost use Rattle.module.specs.Called.{Adjusted, Made, Moved, Rested, Shared, Turn};
ghost use Rattle.module.specs.Effects.{in_range, with_config};
ghost use Rattle.module.specs.Share.{place as place_of};
ghost use Rattle.std.specs.Option.{unwrap_or};

use crate::inner::{Configuration, Inner};
use crate::motor::Motor;
use axis::{Axis, CurrentSetting, Points};
use coil::{CoilDriver, CoilId};
use refusal::Refusal;
use registers::Model;
use supply::Supply;

// The place of a motor in the table of two. The table is an array by the rules, and so it is not a PerCoil.
pub(crate) fn place(coil: CoilId) -> usize
    ensures value { result ≡ place_of coil }
    ensures within { result < 2 }
{
    coil as usize - 1
}

impl<A: Axis, D: CoilDriver> Inner<A, D> {
    // Both motors as they begin, and 0 points fed to both coils.
    pub(crate) fn new(driver: D) -> Inner<A, D>
        ensures { Made A.Axis.kind D.CoilDriver.meaning D.CoilDriver.did driver result }
    {
        let mut driver = driver;
        let _ = driver.feed(CoilId::First, Points::NONE);
        let _ = driver.feed(CoilId::Second, Points::NONE);
        Inner {
            configuration: Configuration {
                model: A::first_config(),
            },
            motors: [Motor::new(), Motor::new()],
            cycles: 0,
            supply: Supply::new(),
            driver,
        }
    }

    // Lets all go but the driver.
    pub(crate) fn end(self) -> D
        ensures { result ≡ self.driver }
    {
        let Inner {
            configuration: _,
            motors: _,
            cycles: _,
            supply: _,
            driver,
        } = self;
        driver
    }

    // One motor's part of a cycle.
    fn turn(&mut self, coil: CoilId, orders: &[u8; 8], answer: &mut [u8; 8])
        ensures { Turn A.Axis.kind D.CoilDriver.meaning D.CoilDriver.did coil self.old self.new orders.now answer.new }
    {
        let config = self.configuration.model;
        let cycle = self.cycles;
        self.motors[place(coil)].cycle(config, &mut self.driver, coil, cycle, orders, answer);
    }

    // Both motors move, motor 1 first, and the cycle gets its number. The halves are no PerCoil: of an array behind a
    // reference in a struct the proof knows no length.
    pub(crate) fn move_motors(
        &mut self,
        first: &[u8; 8],
        second: &[u8; 8],
        first_answer: &mut [u8; 8],
        second_answer: &mut [u8; 8],
    )
        ensures { Moved A.Axis.kind D.CoilDriver.meaning D.CoilDriver.did self.old self.new (first.now ++ second.now) (first_answer.new ++ second_answer.new) }
    {
        self.cycles = self.cycles.wrapping_add(1);
        self.turn(CoilId::First, first, first_answer);
        self.turn(CoilId::Second, second, second_answer);
    }

    // Feeds both coils what the supply grants of what their motors want. Neither feed is declined.
    pub(crate) fn share(&mut self)
        requires { (i : CoilId) → Rested A.Axis.kind D.CoilDriver.meaning self.old i }
        ensures { Shared A.Axis.kind D.CoilDriver.meaning D.CoilDriver.did self.old self.new }
    {
        let first = self.motors[0].wanted();
        let second = self.motors[1].wanted();
        let (first, second) = self.supply.share(first.value, second.value);
        let _ = self.driver.feed(CoilId::First, Points { value: first });
        let _ = self.driver.feed(CoilId::Second, Points { value: second });
    }
}

// Settings. Each question of the gate is asked in its order before anything is written.
impl<A: Model, D: CoilDriver> Inner<A, D> {
    // Sets the configuration of the function model: is the value in range?
    pub(crate) fn configure(&mut self, value: i32) -> Result<(), Refusal>
        ensures number { result ≡ in_range (A.Axis.kind.config value) (Ok tt) }
        ensures after { self.new ≡ with_config self.old (unwrap_or (A.Axis.kind.config value) self.old.configuration.model) }
    {
        self.configuration.model = A::config(value)?;
        Ok(())
    }

    // Sets one of a motor's currents: is the value in range, and the motor not powered?
    pub(crate) fn set_current(
        &mut self,
        coil: CoilId,
        which: CurrentSetting,
        value: i32,
    ) -> Result<(), Refusal>
        ensures { Adjusted A.Axis.kind D.CoilDriver.meaning coil which value self.old self.new result }
    {
        let points = Points::try_from(value)?;
        let at = place(coil);
        if self.motors[at].is_powered() {
            return Err(Refusal::MotorPowered);
        }
        self.motors[at].set(which, points);
        Ok(())
    }
}
