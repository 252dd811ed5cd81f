// Coils by their numbers.
ghost use Rattle.std.specs.Prelude.{◌≡◌, ok_or};
ghost use Rattle.coil.specs.Numbers.{coil_numbered};

use crate::{CoilId, UnknownCoil};

impl TryFrom<u8> for CoilId {
    type Error = UnknownCoil;

    ghost try_from_gives = { λ number coil. coil ≡ ok_or (coil_numbered number) (record {}) };

    fn try_from(number: u8) -> Result<CoilId, UnknownCoil> {
        match number {
            1 => Ok(CoilId::First),
            2 => Ok(CoilId::Second),
            _ => Err(UnknownCoil),
        }
    }
}
