// The one supply of both coils.
#![tactic(auto)]

ghost use Rattle.std.specs.Prelude.{◌≡◌};
ghost use Rattle.coil.specs.declared.CoilId.TheVariants.{First, Second};
ghost use Rattle.supply.specs.Shares.{granted};

// Points that both coils together may be fed: 8 A.
const SUPPLY_POINTS: u16 = 267;

#[derive(Clone, Copy)]
pub struct Supply;

impl Supply {
    pub fn new() -> Supply
        ensures { result ≡ record {} }
    {
        Supply
    }

    // What each motor is fed of what both want: motor 1 all, motor 2 at most what is left. It shares out any bytes, and
    // Points would take fewer.
    pub fn share(&mut self, first: u8, second: u8) -> (u8, u8)
        ensures value { result ≡ (granted First first second, granted Second first second) }
        ensures same { self.new ≡ self.old }
    {
        let left = SUPPLY_POINTS - u16::from(first);
        // the smaller of a byte and another number is a byte, so the cast keeps all
        (first, u16::from(second).min(left) as u8)
    }
}

#[cfg(test)]
mod tests {
    use super::*;

    #[test]
    fn second_motor_gets_what_is_left(rt: HostRuntime) {
        let mut supply = Supply::new();
        assert_eq!(rt; supply.share(167, 167), (167, 100));
        assert_eq!(rt; supply.share(160, 108), (160, 107));
        assert_eq!(rt; supply.share(0, 167), (0, 167));
    }
}
