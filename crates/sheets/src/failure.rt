// Why there is no record, or no report of one.
ghost use Rattle.std.specs.Prelude.{◌≡◌};
ghost use Rattle.sheets.specs.declared.failure.Failure.TheVariants.{Refused, NoMemory};

use std::alloc::AllocError;
use std::error::Error;
use std::fmt;
use terms::refusal::Refusal;

#[derive(Drop, Debug)]
pub enum Failure {
    Refused(Refusal),
    NoMemory,
}

impl From<Refusal> for Failure {
    ghost from_gives = { λ e r. r ≡ Refused e };

    fn from(refusal: Refusal) -> Failure {
        Failure::Refused(refusal)
    }
}

impl From<AllocError> for Failure {
    ghost from_gives = { λ _ r. r ≡ NoMemory };

    fn from(_error: AllocError) -> Failure {
        Failure::NoMemory
    }
}

// A text finds no place only where memory is wanting.
impl From<fmt::Error> for Failure {
    ghost from_gives = { λ _ r. r ≡ NoMemory };

    fn from(_error: fmt::Error) -> Failure {
        Failure::NoMemory
    }
}

impl fmt::Display for Failure {
    fn fmt<W: fmt::Write>(&self, f: &mut fmt::Formatter<W>) -> fmt::Result {
        match self {
            Failure::Refused(refusal) => write!(f, "refused with {refusal}"),
            Failure::NoMemory => write!(f, "no memory"),
        }
    }
}

impl Error for Failure {}
