// The speed of a motor that ramps to its target: as fast as it may go and still stop there.
#![tactic(auto)]

ghost use Rattle.std.specs.Prelude.{◌≡◌, ◌^◌, pos, ◌-ℤ◌, neg_ℤ, ◌≤ℤ◌};
ghost use Rattle.profile.specs.Course.{CourseStands};
ghost use Rattle.profile.specs.Laws.{RuleStands};
ghost use Rattle.profile.specs.Ramp.{along, braked, fastest, forbids_motion, heading, next_size, signed, slowest, toward};

use crate::stopping::greatest;
use coil::Microsteps;

mod stopping;

pub use coil::Direction;

#[derive(Clone, Copy, PartialEq, Eq, Debug)]
pub struct Speed {
    // microsteps a cycle
    pub size: u16,
    // of no account at size 0
    pub direction: Direction,
}

// How a motor may be driven. With acceleration or deceleration 0 it is not driven at all.
#[derive(Clone, Copy, PartialEq, Eq, Debug)]
pub struct Limits {
    // microsteps a cycle
    pub maximum: u16,
    // microsteps a cycle, each cycle
    pub acceleration: u16,
    // microsteps a cycle, each cycle
    pub deceleration: u16,
}

impl Speed {
    pub fn zero() -> Speed
        ensures { result ≡ record { size = 0; direction = Direction.Forward } }
    {
        Speed {
            size: 0,
            direction: Direction::Forward,
        }
    }

    // The microsteps of one cycle, negative where they go backward.
    pub fn steps(self) -> Microsteps
        ensures { result.value ≡ signed self }
    {
        // a size has 16 bits, so the cast keeps all
        let value = along(self.direction, i64::from(self.size)) as i32;
        Microsteps { value }
    }

    // The way that a move goes: on as it goes, and from standstill toward the target.
    fn heading(self, distance: i64) -> Direction
        ensures { result ≡ heading self distance }
    {
        if self.size > 0 {
            self.direction
        } else {
            Direction::from(distance)
        }
    }
}

impl Limits {
    fn forbids_motion(self) -> bool
        ensures { result ≡ forbids_motion self }
    {
        self.acceleration == 0 || self.deceleration == 0
    }

    // The least size that a speed of this size can have next.
    fn slowest(self, size: u16) -> u16
        ensures { result ≡ slowest self size }
    {
        size.saturating_sub(self.deceleration)
    }

    // The greatest size that it can have next. The sum may stop at 65,535, since no maximum is greater.
    fn fastest(self, size: u16) -> u16
        ensures { result ≡ fastest self size }
    {
        let faster = size.saturating_add(self.acceleration);
        faster.min(self.maximum).max(self.slowest(size))
    }

    // The speed after one cycle of braking.
    pub fn brake(self, speed: Speed) -> Speed
        ensures { result ≡ braked self speed }
    {
        if self.forbids_motion() {
            return Speed { size: 0, ..speed };
        }
        Speed {
            size: self.slowest(speed.size),
            ..speed
        }
    }

    // The speed after one cycle of going to a target; positions are in microsteps.
    pub fn toward(self, speed: Speed, position: i32, target: i32) -> Speed
        ensures { result ≡ toward self speed (target -ℤ position) }
    {
        let distance = distance(position, target);
        let heading = speed.heading(distance);
        let size = self.next_size(speed.size, along(heading, distance));
        let direction = if self.forbids_motion() {
            speed.direction
        } else {
            heading
        };
        Speed { size, direction }
    }

    // The size of the next speed, with so many microsteps to go, which are negative past the target.
    fn next_size(self, size: u16, distance: i64) -> u16
        ensures { result ≡ next_size self size distance }
    {
        if self.forbids_motion() {
            return 0;
        }
        let slowest = self.slowest(size);
        let Ok(room) = u64::try_from(distance) else {
            return slowest;
        };
        greatest(slowest, self.fastest(size), self.deceleration, room)
    }
}

// A distance in microsteps, counted this way.
fn along(way: Direction, distance: i64) -> i64
    requires { neg_ℤ (pos (2 ^ 32)) ≤ℤ distance }
    ensures { result ≡ along way distance }
{
    match way {
        Direction::Forward => distance,
        Direction::Backward => -distance,
    }
}

// Microsteps from one position to another: between the ends they take 33 bits.
fn distance(from: i32, to: i32) -> i64
    ensures value { result ≡ to -ℤ from }
    ensures least { neg_ℤ (pos (2 ^ 32)) ≤ℤ result }
{
    i64::from(to) - i64::from(from)
}

// The rule's sum is what it says, and the rule picks one speed.
pub fn rule_stands()
    ensures { RuleStands }
{}

// A move from standstill stays within its settings, doesn't pass its target, reaches it and stands there.
pub fn course_stands()
    ensures { CourseStands }
{}

#[cfg(test)]
mod tests {
    use super::*;

    fn tens() -> Limits {
        Limits {
            maximum: 10,
            acceleration: 2,
            deceleration: 2,
        }
    }

    fn speed(direction: Direction, size: u16) -> Speed {
        Speed { size, direction }
    }

    fn forward(size: u16) -> Speed {
        speed(Direction::Forward, size)
    }

    fn backward(size: u16) -> Speed {
        speed(Direction::Backward, size)
    }

    #[test]
    fn goes_to_a_target_either_way(rt: HostRuntime) {
        for (position, from, to) in [(0, 0, 2), (2, 2, 4), (6, 4, 4), (10, 4, 2), (12, 2, 0)] {
            assert_eq!(rt; tens().toward(forward(from), position, 12), forward(to));
        }
        assert_eq!(rt; tens().toward(Speed::zero(), 0, -12), backward(2));
        assert_eq!(rt; tens().toward(backward(4), -10, -12), backward(2));
        assert_eq!(rt; backward(4).steps().value, -4);
    }

    #[test]
    fn passes_a_target_that_is_too_near_or_behind(rt: HostRuntime) {
        assert_eq!(rt; tens().toward(forward(6), 0, 3), forward(4));
        assert_eq!(rt; tens().toward(forward(6), 0, -12), forward(4));
    }

    #[test]
    fn distances_do_not_wrap(rt: HostRuntime) {
        let limits = Limits {
            maximum: 65_535,
            acceleration: 65_535,
            deceleration: 1,
        };
        assert_eq!(rt;
            limits.toward(forward(0), i32::MIN, i32::MAX),
            forward(65_535)
        );
        assert_eq!(rt;
            limits.toward(forward(0), i32::MAX, i32::MIN),
            backward(65_535)
        );
    }

    #[test]
    fn brakes_and_stands_still(rt: HostRuntime) {
        assert_eq!(rt; tens().brake(backward(5)), backward(3));
        assert_eq!(rt; tens().brake(forward(1)), forward(0));
        let no_acceleration = Limits {
            acceleration: 0,
            ..tens()
        };
        assert_eq!(rt; no_acceleration.toward(forward(6), 0, 12), forward(0));
        assert_eq!(rt; no_acceleration.brake(backward(6)), backward(0));
    }
}
