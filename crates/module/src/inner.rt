// What a module keeps, at either stage.
use crate::motor::Motor;
use axis::Axis;
use supply::Supply;

// Settings of the whole module; those of the function model are one part of them.
#[derive(Clone, Copy)]
pub struct Configuration<C> {
    pub(crate) model: C,
}

// The plain struct inside a module, by the rules with one table of both motors: calls are done on it at either stage.
pub struct Inner<A: Axis, D> {
    pub(crate) configuration: Configuration<A::Config>,
    // motor 1, motor 2
    pub(crate) motors: [Motor<A>; 2],
    // the number of the latest accepted cycle, modulo 2^32
    pub(crate) cycles: u32,
    pub(crate) supply: Supply,
    pub(crate) driver: D,
}
