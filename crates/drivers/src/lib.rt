// Coil drivers: each keeps the rules of a coil driver, and tells something of its own.
#![tactic(auto)]

mod pulse;

pub use coil::Direction;
pub use pulse::{PulseDriver, Pulses};

#[cfg(test)]
mod tests {
    use super::*;
    use coil::{CoilDriver, CoilFault, CoilId, Microsteps, Points};
    use std::test::Fail;

    #[test]
    fn count_wraps_both_ways(rt: HostRuntime) -> Result<(), Fail> {
        let mut driver = PulseDriver::new(4_294_967_295, 0);
        driver.advance(CoilId::First, Microsteps::from(1))?;
        assert_eq!(rt; driver.count(CoilId::First), 0);
        driver.advance(CoilId::Second, Microsteps::from(-1))?;
        assert_eq!(rt; driver.count(CoilId::Second), 4_294_967_295);
        Ok(())
    }

    #[test]
    fn tripped_coil_declines(rt: HostRuntime) -> Result<(), Fail> {
        let coil = CoilId::First;
        let backward = Pulses {
            direction: Direction::Backward,
            number: 7,
        };
        let mut driver = PulseDriver::new(100, 0);
        driver.advance(coil, Microsteps::from(-7))?;
        driver.feed(coil, Points { value: 167 })?;
        driver.note(coil, 0xF0);
        assert_eq!(rt; driver.flags(coil), 0);
        assert_eq!(rt; driver.points(coil).value, 167);
        driver.note(coil, 0xFF);
        assert_eq!(rt; driver.flags(coil), 15);
        assert_eq!(rt; driver.points(coil).value, 0);
        assert_eq!(rt;
            driver.advance(coil, Microsteps::from(8)),
            Err(CoilFault::Tripped(15))
        );
        assert_eq!(rt; driver.count(coil), 93);
        assert_eq!(rt; driver.pulses(coil), backward);
        assert_eq!(rt; driver.pulses(coil).direction.level(), 1);
        assert_eq!(rt;
            driver.feed(coil, Points { value: 1 }),
            Err(CoilFault::Tripped(15))
        );
        assert_eq!(rt; driver.feed(coil, Points { value: 0 }), Ok(()));
        driver.clear(coil);
        assert_eq!(rt; driver.flags(coil), 2);
        Ok(())
    }
}
