// Why a number stands for no value of a type.

// No coil has this number.
#[derive(Clone, Copy, PartialEq, Eq, Debug)]
pub struct UnknownCoil;

// The number is out of the range of what it would set.
#[derive(Clone, Copy, PartialEq, Eq, Debug)]
pub struct OutOfRange;
