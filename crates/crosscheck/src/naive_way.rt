// Floor, ceiling and the places to touch, by every touch at every position. A text of its own, apart from the crate `naive` too.
use caps::{Line, Touch};
use std::alloc::{AllocError, Global};

// The touches on a line.
#[derive(Clone, Copy)]
pub struct Touches<'a> {
    pub line: Line,
    pub list: &'a [Touch],
}

// A position with its cap.
#[derive(Clone, Copy, PartialEq, Eq)]
pub struct Place {
    pub cap: i64,
    pub position: u16,
}

// A place, touched or not.
#[derive(Clone, Copy)]
struct Spot {
    place: Place,
    is_touched: bool,
}

// What the touches tell of a line: the floor, and each position from 0 to the last. Before the first touch there is neither floor nor cap.
#[derive(Drop)]
pub struct View {
    pub floor: Option<Touch>,
    spots: Vec<Spot>,
}

// The higher of the two, the first on a tie.
fn higher_touch(held: Touch, next: Touch) -> Touch {
    if next.height <= held.height {
        held
    } else {
        next
    }
}

// The higher of the two, the first on a tie.
fn higher_place(held: Place, next: Place) -> Place {
    if next.cap <= held.cap { held } else { next }
}

impl Touches<'_> {
    // Touched height + slope × distance + slack.
    fn reach(&self, touch: &Touch, x: u16) -> i64 {
        let distance = i64::from(x.abs_diff(touch.position));
        let rise = i64::from(self.line.slope).wrapping_mul(distance);
        i64::from(touch.height)
            .wrapping_add(rise)
            .wrapping_add(i64::from(self.line.slack))
    }

    // A position with the height that is touched there, else with the least reach.
    fn spot(&self, position: u16) -> Option<Spot> {
        let touched = self.list.iter().find(|touch| touch.position == position);
        let cap = match touched {
            Some(touch) => i64::from(touch.height),
            None => self
                .list
                .iter()
                .map(|touch| self.reach(touch, position))
                .min()?,
        };
        Some(Spot {
            place: Place { cap, position },
            is_touched: touched.is_some(),
        })
    }

    // Asks every touch at every position.
    pub fn view(&self, heap: Global) -> Result<View, AllocError> {
        Ok(View {
            floor: self.list.iter().copied().reduce(higher_touch),
            spots: (0..=self.line.last)
                .filter_map(|x| self.spot(x))
                .collect(heap)?,
        })
    }
}

// The highest of the untouched places among some spots, the lowest position on a tie.
fn highest_untouched(spots: &[Spot]) -> Option<Place> {
    spots
        .iter()
        .filter(|spot| !spot.is_touched)
        .map(|spot| spot.place)
        .reduce(higher_place)
}

impl View {
    // The largest cap.
    pub fn ceiling(&self) -> Option<i64> {
        self.spots.iter().map(|spot| spot.place.cap).max()
    }

    // The untouched position of largest cap.
    pub fn high(&self) -> Option<Place> {
        highest_untouched(&self.spots)
    }

    // The height above which a cap is open.
    fn bound(&self, tolerance: u16) -> Option<i64> {
        let floor = self.floor?;
        Some(i64::from(floor.height) + i64::from(tolerance))
    }

    // Something is touched, and no position is open.
    pub fn is_settled(&self, tolerance: u16) -> bool {
        match (self.ceiling(), self.bound(tolerance)) {
            (Some(ceiling), Some(bound)) => ceiling <= bound,
            _ => false,
        }
    }

    // The position of largest cap in the lowest open gap; gaps are what lies between touched positions.
    pub fn lowest_open(&self, tolerance: u16) -> Option<Place> {
        let bound = self.bound(tolerance)?;
        self.spots
            .split(|spot| spot.is_touched)
            .filter_map(highest_untouched)
            .find(|place| place.cap > bound)
    }
}
