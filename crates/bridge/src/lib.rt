// The bridge driver: it keeps the rules of a coil driver, and tells the levels of the windings of each coil.
#![tactic(auto)]

mod driver;
mod table;
mod wave;

pub use driver::BridgeDriver;
pub use wave::{Levels, quarter_wave};
