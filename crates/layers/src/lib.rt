// Layers: drivers over any driver below, in piles of any height.
#![tactic(auto)]

mod laws;
mod layer;
mod rules;

pub use laws::{as_one_shift, without_reversals};
pub use layer::{Layer, Recount};
pub use rules::{Reversed, Shifted};

// A driver whose counts run the other way than those of the driver below.
pub type Reversal<D> = Layer<Reversed, D>;

// A driver whose counts are those of the driver below plus a fixed number.
pub type ZeroShift<D> = Layer<Shifted, D>;
