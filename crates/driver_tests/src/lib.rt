// The bridge driver and the layers by example: the table, levels round a turn, and piles.
#![tactic(auto)]

#[cfg(test)]
mod tests {
    use bridge::{BridgeDriver, Levels, quarter_wave};
    use coil::{CoilDriver, CoilFault, CoilId, Microsteps, Points};
    use layers::{Layer, Reversed, Shifted, as_one_shift, without_reversals};
    use std::test::Fail;

    // Fractions below are in units of 2^-30.
    const ONE: u64 = 1_073_741_824;

    const PI: u64 = 3_373_259_426;

    // 10,000 times the sine of k * 90 / 256 degrees, to the nearest whole number, by the sine's power series and not
    // from the table: x * (1 - x^2/(2*3) * (1 - x^2/(4*5) * (1 - .. x^2/(16*17)))), from the inside out. What is left
    // out and what is rounded stay below a millionth of the sine, and no sine is so close to a half that it matters.
    fn rounded_sine(k: u64) -> Option<u64> {
        let angle = k.wrapping_mul(PI) / 512;
        let square = angle.wrapping_mul(angle) / ONE;
        let mut rest = ONE;
        for divisor in [272, 210, 156, 110, 72, 42, 20, 6] {
            let part = (square.wrapping_mul(rest) / ONE).checked_div(divisor)?;
            rest = ONE.wrapping_sub(part);
        }
        let sine = angle.wrapping_mul(rest) / ONE;
        Some(sine.wrapping_mul(10_000).wrapping_add(ONE / 2) / ONE)
    }

    #[test]
    fn every_entry_is_the_rounded_sine(rt: HostRuntime) -> Result<(), Fail> {
        let wave = quarter_wave();
        for (k, entry) in (0..).zip(wave) {
            let expected = rounded_sine(k).ok_or("a divisor is 0")?;
            assert_eq!(rt; u64::from(entry), expected);
        }
        Ok(())
    }

    #[test]
    fn levels_go_round(rt: HostRuntime) -> Result<(), Fail> {
        let coil = CoilId::Second;
        let mut driver = BridgeDriver::new(7, 0);
        assert_eq!(rt; driver.levels(coil), Levels { a: 10_000, b: 0 });
        driver.advance(coil, Microsteps::from(128))?;
        assert_eq!(rt; driver.levels(coil), Levels { a: 7071, b: 7071 });
        driver.advance(coil, Microsteps::from(128))?;
        assert_eq!(rt; driver.levels(coil), Levels { a: 0, b: 10_000 });
        driver.advance(coil, Microsteps::from(256))?;
        assert_eq!(rt; driver.levels(coil), Levels { a: -10_000, b: 0 });
        driver.advance(coil, Microsteps::from(256))?;
        assert_eq!(rt; driver.levels(coil), Levels { a: 0, b: -10_000 });
        driver.advance(coil, Microsteps::from(-769))?;
        assert_eq!(rt; driver.count(coil), 4_294_967_295);
        assert_eq!(rt; driver.levels(coil), Levels { a: 10_000, b: -61 });
        Ok(())
    }

    #[test]
    fn reversal_over_shift_over_bridge(rt: HostRuntime) -> Result<(), Fail> {
        let coil = CoilId::Second;
        let by_10 = Shifted { microsteps: 10 };
        let shift = Layer::new(by_10, BridgeDriver::new(0, 4_294_967_290));
        assert_eq!(rt; shift.count(CoilId::First), 10);
        assert_eq!(rt; shift.count(coil), 4);
        let mut pile = Layer::new(Reversed, shift);
        assert_eq!(rt; pile.count(coil), 4_294_967_292);
        pile.advance(coil, Microsteps::from(250))?;
        assert_eq!(rt; pile.count(coil), 246);
        assert_eq!(rt; pile.below().count(coil), 4_294_967_050);
        pile.feed(coil, Points { value: 100 })?;
        assert_eq!(rt; pile.points(coil).value, 100);
        pile.note(coil, 8);
        assert_eq!(rt;
            pile.advance(coil, Microsteps::from(1)),
            Err(CoilFault::Tripped(8))
        );
        let bridge = pile.into_below().into_below();
        assert_eq!(rt; bridge.points(coil).value, 0);
        assert_eq!(rt; bridge.count(coil), 4_294_967_040);
        assert_eq!(rt; bridge.levels(coil), Levels { a: 0, b: -10_000 });
        Ok(())
    }

    #[test]
    fn two_of_a_kind(rt: HostRuntime) {
        let coil = CoilId::First;
        let twice = Layer::new(Reversed, Layer::new(Reversed, BridgeDriver::new(5, 0)));
        assert_eq!(rt; twice.count(coil), 5);
        assert_eq!(rt; without_reversals(twice).count(coil), 5);
        let lower = Shifted {
            microsteps: 4_294_967_290,
        };
        let upper = Shifted { microsteps: 9 };
        let shifts = Layer::new(upper, Layer::new(lower, BridgeDriver::new(5, 0)));
        assert_eq!(rt; shifts.count(coil), 8);
        let one = as_one_shift(shifts);
        assert_eq!(rt; one.shift(), 3);
        assert_eq!(rt; one.count(coil), 8);
    }
}
