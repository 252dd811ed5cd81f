// The three current settings of a motor, in points, and the current that it chooses.
ghost use Rattle.std.specs.Prelude.{◌≡◌};
ghost use Rattle.axis.specs.Levels.{levels, no_levels, with_level, chosen, is_powered};

use coil::Points;

// Which current a motor chooses, with the number of its code; off is no power. It is no Option of a setting, since
// a match would then have to give each of the four its number.
#[derive(Clone, Copy, PartialEq, Eq, Debug)]
pub enum Current {
    Off = 0,
    Holding = 1,
    Nominal = 2,
    Maximum = 3,
}

// One of a motor's three current settings.
#[derive(Clone, Copy, PartialEq, Eq, Debug)]
pub enum CurrentSetting {
    Holding,
    Nominal,
    Maximum,
}

#[derive(Clone, Copy, PartialEq, Eq, Debug)]
pub struct Currents {
    pub holding: Points,
    pub nominal: Points,
    pub maximum: Points,
}

impl Current {
    pub fn is_powered(self) -> bool
        ensures { result ≡ is_powered self }
    {
        self != Current::Off
    }
}

impl Currents {
    // The settings as a module is made: all 0.
    pub fn new() -> Currents
        ensures { levels result ≡ no_levels }
    {
        Currents {
            holding: Points::NONE,
            nominal: Points::NONE,
            maximum: Points::NONE,
        }
    }

    pub fn set(&mut self, setting: CurrentSetting, points: Points)
        ensures { levels self.new ≡ with_level (levels self.old) setting points.value }
    {
        match setting {
            CurrentSetting::Holding => self.holding = points,
            CurrentSetting::Nominal => self.nominal = points,
            CurrentSetting::Maximum => self.maximum = points,
        }
    }

    // The points of a chosen current.
    pub fn chosen(&self, current: Current) -> Points
        ensures { result.value ≡ chosen current (levels self.now) }
    {
        match current {
            Current::Off => Points::NONE,
            Current::Holding => self.holding,
            Current::Nominal => self.nominal,
            Current::Maximum => self.maximum,
        }
    }
}
