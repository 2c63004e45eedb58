// Caps by every touch, the ceiling by every position, gaps by a walk over the positions.
use crate::terms::{Line, Touch};
use std::alloc::{AllocError, Global};
use std::ops::RangeInclusive;

// The touches on a line.
#[derive(Clone, Copy, Debug)]
pub struct Touches<'a> {
    pub line: Line,
    pub list: &'a [Touch],
}

// A position with its cap.
#[derive(Clone, Copy, PartialEq, Eq, Debug)]
pub struct Place {
    pub position: u32,
    pub cap: i64,
}

// A run of untouched positions that no neighbouring untouched position extends, and the lowest place of its largest cap.
#[derive(Clone, Copy, PartialEq, Eq, Debug)]
pub struct Gap {
    pub from: u32,
    pub to: u32,
    pub summit: Place,
}

// The higher of two places, the first on a tie.
fn higher(first: Place, second: Place) -> Place {
    if first.cap >= second.cap {
        first
    } else {
        second
    }
}

impl Touches<'_> {
    // The touched height of a position.
    pub fn height_at(&self, x: u32) -> Option<i64> {
        self.list
            .iter()
            .find(|touch| touch.position == x)
            .map(|touch| touch.height)
    }

    pub fn is_touched(&self, x: u32) -> bool {
        self.height_at(x).is_some()
    }

    // The smallest, over all touches, of touched height + slope × distance + slack.
    fn least_reach(&self, x: u32) -> Option<i64> {
        self.list
            .iter()
            .map(|touch| touch.height.wrapping_add(self.line.room(x, touch.position)))
            .min()
    }

    // The cap of a position; none before the first touch.
    pub fn cap(&self, x: u32) -> Option<i64> {
        self.height_at(x).or_else(|| self.least_reach(x))
    }

    // The largest cap of positions 0 to last; none before the first touch.
    pub fn ceiling(&self) -> Option<i64> {
        (0..=self.line.last).filter_map(|x| self.cap(x)).max()
    }

    // The touch of the largest height, at the lowest position that has it.
    pub fn floor(&self) -> Option<Touch> {
        let largest = self.list.iter().map(|touch| touch.height).max()?;
        self.list
            .iter()
            .copied()
            .filter(|touch| touch.height == largest)
            .min_by_key(|touch| touch.position)
    }

    // Something is touched, and ceiling ≤ floor + tolerance.
    pub fn is_settled(&self, tolerance: i64) -> bool {
        match (self.floor(), self.ceiling()) {
            (Some(floor), Some(ceiling)) => ceiling <= floor.height.wrapping_add(tolerance),
            _ => false,
        }
    }

    // The untouched one of some positions that has the largest cap, the lowest on a tie.
    fn summit(&self, positions: RangeInclusive<u32>) -> Option<Place> {
        positions
            .filter(|x| !self.is_touched(*x))
            .filter_map(|position| {
                let cap = self.least_reach(position)?;
                Some(Place { position, cap })
            })
            .reduce(higher)
    }

    // The untouched position of largest cap, the lowest on a tie; none before the first touch.
    pub fn highest_untouched(&self) -> Option<Place> {
        self.summit(0..=self.line.last)
    }

    // Whether a position is untouched, and is 0 or has a touched one before it.
    fn is_gap_start(&self, x: u32) -> bool {
        !self.is_touched(x)
            && x.checked_sub(1)
                .is_none_or(|before| self.is_touched(before))
    }

    // The gap that starts at a position.
    fn gap_from(&self, from: u32) -> Option<Gap> {
        let to = (from..=self.line.last)
            .take_while(|x| !self.is_touched(*x))
            .last()?;
        let summit = self.summit(from..=to)?;
        Some(Gap { from, to, summit })
    }

    // Every gap, in rising order; none before the first touch, since there is no cap then.
    pub fn gaps(&self, heap: Global) -> Result<Vec<Gap>, AllocError> {
        (0..=self.line.last)
            .filter(|x| self.is_gap_start(*x))
            .filter_map(|x| self.gap_from(x))
            .collect(heap)
    }

    // The place of largest cap in the lowest gap whose largest cap exceeds floor + tolerance.
    pub fn lowest_open(&self, heap: Global, tolerance: i64) -> Result<Option<Place>, AllocError> {
        let Some(floor) = self.floor() else {
            return Ok(None);
        };
        let bound = floor.height.wrapping_add(tolerance);
        let gaps = self.gaps(heap)?;
        Ok(
            gaps.iter()
                .map(|gap| gap.summit)
                .find(|summit| summit.cap > bound),
        )
    }
}

// The least distance of two touches of a search.
fn spacing(line: Line, tolerance: i64) -> i64 {
    if line.slack > tolerance || line.slope < 1 {
        return 1;
    }
    let spare = tolerance.wrapping_sub(line.slack);
    spare
        .checked_div(line.slope)
        .map_or(1, |more| more.wrapping_add(1))
}

// The most touches that a search can make: last ÷ d rounded down, plus one.
pub fn most_touches(line: Line, tolerance: i64) -> i64 {
    i64::from(line.last)
        .checked_div(spacing(line, tolerance))
        .map_or(1, |spaces| spaces.wrapping_add(1))
}
