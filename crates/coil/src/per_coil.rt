// One value for each of the two coils.
ghost use Rattle.std.specs.Prelude.{◌≡◌};
ghost use Rattle.std.specs.Borrow.{sem};
ghost use Rattle.coil.specs.Coils.{at};
ghost use Rattle.coil.specs.Lending.{LendsPart};

use crate::CoilId;
use std::ops::{Index, IndexMut};

#[derive(Clone, Copy, PartialEq, Eq, Debug)]
pub struct PerCoil<T> {
    pub first: T,
    pub second: T,
}

impl<T> Index<CoilId> for PerCoil<T> {
    type Output = T;

    ghost index_gives = { λ values coil value. value ≡ at values coil };

    fn index(&self, coil: CoilId) -> &T {
        match coil {
            CoilId::First => &self.first,
            CoilId::Second => &self.second,
        }
    }
}

impl<T> IndexMut<CoilId> for PerCoil<T> {
    fn index_mut(&mut self, coil: CoilId) -> &mut T
        ensures* writes_back { sem 𝓛 (LendsPart T.row self.entry coil result) }
        ensures value { result.now ≡ at self.old coil }
    {
        match coil {
            CoilId::First => &mut self.first,
            CoilId::Second => &mut self.second,
        }
    }
}
