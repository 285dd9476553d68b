// Why no image was made.
ghost use Rattle.std.specs.Prelude.{◌≡◌};
ghost use Rattle.image.specs.declared.failures.MakeError.TheVariants.{Refused, NoMemory};

use block::Refusal;
use std::alloc::AllocError;

// Why no new image was made.
#[derive(Clone, Copy, Debug)]
pub enum MakeError {
    Refused(Refusal),
    NoMemory,
}

impl From<Refusal> for MakeError {
    ghost from_gives = { λ refusal e. e ≡ Refused refusal };

    fn from(refusal: Refusal) -> MakeError {
        MakeError::Refused(refusal)
    }
}

impl From<AllocError> for MakeError {
    ghost from_gives = { λ _ e. e ≡ NoMemory };

    fn from(_error: AllocError) -> MakeError {
        MakeError::NoMemory
    }
}
