// Where the fields of a certificate lie, in bits: the line, the tolerance, the count, the floor's position, the ceiling, then the touches.
// The line stands as in a record, by constants of its own: either format may change without the other.
ghost use Rattle.std.specs.Prelude.{◌≡◌, ◌+◌, ◌*◌, ◌<◌};

use fields::Field;

pub(crate) const LAST: Field = Field { at: 0, width: 12 };

pub(crate) const SLOPE: Field = Field { at: 12, width: 16 };

pub(crate) const SLACK: Field = Field { at: 28, width: 16 };

pub(crate) const TOLERANCE: Field = Field { at: 44, width: 16 };

pub(crate) const COUNT: Field = Field { at: 60, width: 9 };

pub(crate) const FLOOR: Field = Field {
    at: 69,
    width: POSITION_WIDTH,
};

pub(crate) const CEILING: Field = Field { at: 81, width: 17 };

pub(crate) const TOUCHES_AT: usize = 98;

const POSITION_WIDTH: usize = 12;

const HEIGHT_WIDTH: usize = 16;

// The bits of one touch: its position and its height.
pub(crate) const TOUCH_WIDTH: usize = POSITION_WIDTH + HEIGHT_WIDTH;

// The position of the touch at that place.
pub(crate) fn position_at(place: usize) -> Field
    requires { place < 256 }
    ensures at { result.at ≡ 98 + 28 * place }
    ensures width { result.width ≡ 12 }
{
    Field {
        at: TOUCHES_AT + TOUCH_WIDTH * place,
        width: POSITION_WIDTH,
    }
}

// The height of the touch at that place.
pub(crate) fn height_at(place: usize) -> Field
    requires { place < 256 }
    ensures at { result.at ≡ 98 + 28 * place + 12 }
    ensures width { result.width ≡ 16 }
{
    Field {
        at: TOUCHES_AT + TOUCH_WIDTH * place + POSITION_WIDTH,
        width: HEIGHT_WIDTH,
    }
}
