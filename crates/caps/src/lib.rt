// The touches of a line, and what they tell of its heights.
#![tactic(auto)]

pub mod sound;
pub mod table;

use pick::Ranked;

// A touched position with its height.
#[derive(Clone, Copy, PartialEq, Eq, Debug)]
pub struct Touch {
    pub position: u16,
    pub height: i16,
}

// The last position of a line, and by how much two of its heights may differ: slope × distance + slack.
#[derive(Clone, Copy, PartialEq, Eq, Debug)]
pub struct Line {
    pub last: u16,
    pub slope: u16,
    pub slack: u16,
}

// The largest cap of a gap, at its lowest place.
#[derive(Clone, Copy, PartialEq, Eq, Debug)]
pub struct Summit {
    pub cap: i32,
    pub place: u16,
}

// What the touches tell of a line.
#[derive(Clone, Copy, PartialEq, Eq, Debug)]
pub struct Outlook {
    // The floor with its position: the touch of largest height, the lowest on a tie.
    pub floor: Touch,
    // The largest cap.
    pub ceiling: i32,
    // The untouched position of largest cap, the lowest on a tie; none where every position is touched.
    pub summit: Option<Summit>,
}

// Touches rank by height.
impl Ranked for Touch {
    ghost level = { λ t. t.height };

    fn rank(&self) -> i32 {
        i32::from(self.height)
    }
}

// Gaps rank by largest cap.
impl Ranked for Summit {
    ghost level = { λ s. s.cap };

    fn rank(&self) -> i32 {
        self.cap
    }
}
