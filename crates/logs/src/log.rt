ghost use Rattle.std.specs.Prelude.{◌≡◌, ◌≤◌, length, take};
ghost use Rattle.std.proofs.Props.{props};
ghost use Rattle.terms.specs.Limits.{touches_max};
ghost use Rattle.caps.specs.Touches.{Sound};
ghost use Rattle.caps.specs.Props.{InOrder-prop};

use caps::sound::PLACES;
use caps::{Line, Touch};

pub mod aims;
pub mod table;

// A survey but for its gauge, as plain numbers.
#[derive(Clone, Copy, PartialEq, Eq)]
pub struct Notes {
    // The gauge's line, noted once, at opening.
    pub line: Line,
    pub tolerance: u16,
    pub limit: u16,
    // The first `count` places of the table hold the touches; the table is a fixed one, since the device has no heap.
    pub count: u16,
    pub touches: [Touch; PLACES],
}

// The notes of a survey: line, limit and heights within their limits, the touches in rising order of position.
#[derive(Clone, Copy)]
pub struct Log {
    pub notes: Notes,
    ghost within: { notes.count ≤ notes.limit },
    ghost room: { notes.limit ≤ touches_max },
    ghost long: { length notes.touches ≡ touches_max },
    ghost sound: { Sound notes.line (take notes.count notes.touches) } by { Prim.hlevel (props, InOrder-prop) },
}
