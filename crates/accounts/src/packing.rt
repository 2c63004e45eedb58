// A sheet's text packed into its record.
ghost use Rattle.std.specs.Prelude.{◌≡◌};
ghost use Rattle.accounts.specs.Packings.{unsaid, unmade, PacksText};

use sheets::failure::Failure;
use sheets::pack::pack;
use std::alloc::Global;
use std::error::Error;
use std::fmt;
use terms::refusal::Refusal;
use texts::sheet::{TextError, parse};

// Why a text is not packed.
#[derive(Drop, Debug)]
pub enum NotPacked {
    NoSheet(TextError),
    Refused(Refusal),
    NoMemory,
}

impl From<TextError> for NotPacked {
    ghost from_gives = { λ e r. r ≡ unsaid e };

    fn from(error: TextError) -> NotPacked {
        match error {
            TextError::NoMemory => NotPacked::NoMemory,
            error => NotPacked::NoSheet(error),
        }
    }
}

impl From<Failure> for NotPacked {
    ghost from_gives = { λ e r. r ≡ unmade e };

    fn from(error: Failure) -> NotPacked {
        match error {
            Failure::Refused(refusal) => NotPacked::Refused(refusal),
            Failure::NoMemory => NotPacked::NoMemory,
        }
    }
}

impl fmt::Display for NotPacked {
    fn fmt<W: fmt::Write>(&self, f: &mut fmt::Formatter<W>) -> fmt::Result {
        match self {
            NotPacked::NoSheet(error) => write!(f, "{error}"),
            NotPacked::Refused(refusal) => write!(f, "refused with {refusal}"),
            NotPacked::NoMemory => write!(f, "no memory"),
        }
    }
}

impl Error for NotPacked {}

// The record of the sheet that a text says.
pub fn pack_text(heap: Global, text: &[u8]) -> Result<Vec<u8>, NotPacked>
    ensures { PacksText text.now result }
{
    let sheet = parse(heap, text)?;
    Ok(pack(heap, sheet.slope, sheet.slack, &sheet.heights)?)
}
