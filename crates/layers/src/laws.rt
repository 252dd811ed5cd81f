// Piles that a lower one can stand for.
ghost use Rattle.std.specs.Prelude.{◌≡◌, ◌+◌, ◌%◌, ◌^◌};
ghost use Rattle.layers.specs.Piles.{ReversalDid, SameCalls, ShiftDid, reversal_meaning, shift_meaning};

use crate::layer::Layer;
use crate::rules::Shifted;
use crate::{Reversal, ZeroShift};
use coil::CoilDriver;

// Two reversals mean what the driver below them means.
pub fn without_reversals<D: CoilDriver>(pile: Reversal<Reversal<D>>) -> D
    ensures meaning { ⟦<Reversal<D> as CoilDriver>⟧.meaning ≡ reversal_meaning D.CoilDriver.meaning }
    ensures calls { SameCalls ⟦<Reversal<D> as CoilDriver>⟧.did (ReversalDid D.CoilDriver.did) }
    ensures below { result ≡ pile.below.below }
    ensures same { D.CoilDriver.meaning result ≡ reversal_meaning (reversal_meaning D.CoilDriver.meaning) pile }
{
    pile.into_below().into_below()
}

// Two zero shifts mean one by the sum of both, modulo 2^32.
pub fn as_one_shift<D: CoilDriver>(pile: ZeroShift<ZeroShift<D>>) -> ZeroShift<D>
    ensures meaning { ⟦<ZeroShift<D> as CoilDriver>⟧.meaning ≡ shift_meaning D.CoilDriver.meaning }
    ensures calls { SameCalls ⟦<ZeroShift<D> as CoilDriver>⟧.did (ShiftDid D.CoilDriver.did) }
    ensures one { result ≡ record { rule = record { microsteps = (pile.below.rule.microsteps + pile.rule.microsteps) % 2 ^ 32 }; below = pile.below.below } }
    ensures same { shift_meaning D.CoilDriver.meaning result ≡ shift_meaning (shift_meaning D.CoilDriver.meaning) pile }
{
    let upper = pile.shift();
    let below = pile.into_below();
    let microsteps = below.shift().wrapping_add(upper);
    Layer::new(Shifted { microsteps }, below.into_below())
}
