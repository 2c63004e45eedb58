ghost use Rattle.std.specs.Prelude.{◌≡◌, ℕ, ◌+◌, ◌*◌, ◌≤◌, true, length, is_ok};
ghost use Rattle.terms.specs.Limits.{last_max};
ghost use Rattle.records.specs.Sheet.{last_of};
ghost use Rattle.records.specs.Verdict.{record_verdict, shape_verdict};

use crate::layout::{HEAD_BYTES, LAST, SLACK, SLOPE, pad_after, size};
use crate::packed::Packed;
use heights::checks;
use terms::refusal::Refusal;

pub mod reads;

// The last position that a record says.
fn last_of(bytes: &[u8]) -> u32
    requires { 6 ≤ length bytes.now }
    ensures { result ≡ last_of bytes.now }
{
    LAST.read(bytes)
}

// The tests of the length that the last position calls for, and of the pad bits.
fn check_shape(bytes: &[u8], last: usize) -> Result<(), Refusal>
    requires { last ≤ last_max }
    ensures { result ≡ shape_verdict bytes.now last }
{
    if bytes.len() != size(last + 1) {
        return Err(Refusal::RecordLengthWrong);
    }
    if pad_after(last + 1).read(bytes) != 0 {
        return Err(Refusal::PadBitSet);
    }
    Ok(())
}

// The tests of a record that is to be the gauge of that name.
pub fn check(bytes: &[u8], name: u8) -> Result<(), Refusal>
    ensures { result ≡ record_verdict bytes.now name }
{
    if bytes.len() < HEAD_BYTES {
        return Err(Refusal::RecordTooShort);
    }
    let last = last_of(bytes) as usize;
    let slope = SLOPE.read(bytes);
    let slack = SLACK.read(bytes);
    checks::check_line(last, slope, slack)?;
    check_shape(bytes, last)?;
    checks::check_heights(&Packed::new(bytes), slope, slack)?;
    checks::check_name(name)
}

// A sheet record, read where it lies: a window over the lent bytes.
#[derive(Clone, Copy, Drop)]
pub struct Record<'a> {
    bytes: &'a [u8],
    name: u8,
    ghost passes: { is_ok (record_verdict bytes.now name) ≡ true },
    ghost size: { length bytes.now ≡ 6 + 2 * (last_of bytes.now + 1) },
    ghost few: { last_of bytes.now ≤ last_max },
}

impl<'a> Record<'a> {
    // The gauge of bytes that have passed the tests.
    pub fn new(bytes: &'a [u8], name: u8) -> Record<'a>
        requires { is_ok (record_verdict bytes.now name) ≡ true }
        ensures { (result.bytes.now ≡ bytes.now) × (result.name ≡ name) }
    {
        Record { bytes, name }
    }

    // The bytes of the record.
    pub fn bytes(&self) -> &'a [u8]
        ensures { result.now ≡ self.now.bytes.now }
    {
        self.bytes
    }
}
