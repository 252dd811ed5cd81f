// What is kept of one coil.
ghost use Rattle.std.specs.Prelude.{◌≡◌, ◌^◌, ◌<◌, true};
ghost use Rattle.coil.specs.Meaning.{tripped};

use crate::Points;

#[derive(Clone, Copy)]
pub struct CoilState {
    // microsteps, modulo 2^32
    pub count: u32,
    pub points: Points,
    // bits 0 to 3: stall, overtemperature, open load, overcurrent
    pub flags: u8,
    ghost sound: { (count < 2 ^ 32) × (flags < 16) × (tripped flags ≡ true → points.value ≡ 0) },
}
