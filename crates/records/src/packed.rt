ghost use Rattle.std.specs.Prelude.{◌≡◌, ◌+◌, ◌*◌, ◌≤◌, length};
ghost use Rattle.terms.specs.Limits.{last_max};
ghost use Rattle.records.specs.Sheet.{last_of, heights_of};

use crate::layout::{HEAD_BYTES, HEIGHT_BYTES, height_at};
use heights::list::Heights;

// The heights of a record, where they lie in its bytes.
#[derive(Clone, Copy, Drop)]
pub(crate) struct Packed<'a> {
    bytes: &'a [u8],
    ghost size: { length bytes.now ≡ 6 + 2 * (last_of bytes.now + 1) },
    ghost few: { last_of bytes.now ≤ last_max },
}

impl<'a> Packed<'a> {
    // The heights of bytes that have the length that their last position calls for.
    #[tactic(auto, using(crate::proofs::Heights::length_heights))]
    pub(crate) fn new(bytes: &'a [u8]) -> Packed<'a>
        requires size { length bytes.now ≡ 6 + 2 * (last_of bytes.now + 1) }
        requires few { last_of bytes.now ≤ last_max }
        ensures window { result.bytes.now ≡ bytes.now }
        ensures long { length (heights_of bytes.now (last_of bytes.now + 1)) ≡ last_of bytes.now + 1 }
    {
        Packed { bytes }
    }
}

impl<'a> Heights for Packed<'a> {
    ghost list = { λ p. heights_of p.bytes.now (last_of p.bytes.now + 1) };

    #[tactic(auto, using(crate::proofs::Heights::length_heights))]
    fn count(&self) -> usize {
        (self.bytes.len() - HEAD_BYTES) / HEIGHT_BYTES
    }

    #[tactic(auto, using(crate::proofs::Heights::length_heights))]
    fn height(&self, position: usize) -> i32 {
        height_at(position).read_signed(self.bytes)
    }
}
