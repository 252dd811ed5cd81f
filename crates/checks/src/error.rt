// Why the checks end without success.
ghost use Rattle.std.specs.Prelude.{◌≡◌};
ghost use Rattle.checks.specs.declared.error.CheckError.TheVariants.{Memory, Refused};

use refusal::Refusal;
use std::alloc::AllocError;
use thiserror::Error;

#[derive(Clone, Copy, Debug, Error)]
pub enum CheckError {
    // want of memory
    #[error("out of memory")]
    Memory,
    // the module refused a call
    #[error("the module refused a call with number {}", .0.number())]
    Refused(Refusal),
    // a reading isn't that of a good module
    #[error("a reading is bad")]
    BadReading,
}

// The two impls of `From` are by hand, since clauses name the variant that a `?` makes.
impl From<AllocError> for CheckError {
    ghost from_gives = { λ _ r. r ≡ Memory };

    fn from(_error: AllocError) -> CheckError {
        CheckError::Memory
    }
}

impl From<Refusal> for CheckError {
    ghost from_gives = { λ refusal r. r ≡ Refused refusal };

    fn from(refusal: Refusal) -> CheckError {
        CheckError::Refused(refusal)
    }
}
