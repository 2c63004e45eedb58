// Where the fields of a record lie, in bits: the last position, the slope, the slack, then the heights.
ghost use Rattle.std.specs.Prelude.{◌≡◌, ◌+◌, ◌*◌, ◌^◌, ◌<◌, ◌≤◌};
ghost use Rattle.terms.specs.Limits.{last_max};

use fields::Field;

pub(crate) const LAST: Field = Field { at: 0, width: 12 };

pub(crate) const SLOPE: Field = Field { at: 12, width: 16 };

pub(crate) const SLACK: Field = Field { at: 28, width: 16 };

const HEIGHTS_AT: usize = 44;

const HEIGHT_WIDTH: usize = 16;

const PAD_WIDTH: usize = 4;

// The bytes of the fields before the heights with the pad bits, and of each height.
pub(crate) const HEAD_BYTES: usize = 6;

pub(crate) const HEIGHT_BYTES: usize = 2;

// The bytes of a record with that many heights.
pub(crate) fn size(count: usize) -> usize
    requires { count < 2 ^ 62 }
    ensures { result ≡ 6 + 2 * count }
{
    HEAD_BYTES + HEIGHT_BYTES * count
}

// The height of a position.
pub(crate) fn height_at(position: usize) -> Field
    requires { position ≤ last_max }
    ensures at { result.at ≡ 44 + 16 * position }
    ensures width { result.width ≡ 16 }
{
    Field {
        at: HEIGHTS_AT + HEIGHT_WIDTH * position,
        width: HEIGHT_WIDTH,
    }
}

// The 0 bits after that many heights, up to a whole byte.
pub(crate) fn pad_after(count: usize) -> Field
    requires { count ≤ last_max + 1 }
    ensures at { result.at ≡ 44 + 16 * count }
    ensures width { result.width ≡ 4 }
{
    Field {
        at: HEIGHTS_AT + HEIGHT_WIDTH * count,
        width: PAD_WIDTH,
    }
}
