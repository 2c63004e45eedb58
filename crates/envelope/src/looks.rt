// Floor, ceiling and the places to touch. Each call passes over the touches a fixed number of times.
ghost use Rattle.std.specs.Prelude.{◌≡◌, ◌<◌, length, pos, ◌+ℤ◌};
ghost use Rattle.caps.specs.Gaps.{high_summit, summit_above};
ghost use Rattle.caps.specs.Outlooks.{floor_touch, outlook, settled_by, open_summit};
ghost use Rattle.caps.specs.Laws.{over, LawsOfCaps, LawsOfGaps};
ghost use Rattle.caps.specs.Figures.{Figures};

use crate::touched::Touched;
use caps::{Outlook, Summit, Touch};
use pick::{first_above, first_highest};

// The pick of the touches by height: the floor with its position.
fn highest_touch(touches: &[Touch]) -> Option<Touch>
    ensures { result ≡ floor_touch touches.now }
{
    first_highest(touches.iter().copied())
}

// The larger of the floor and the summit's cap.
fn over_floor(floor: Touch, summit: Option<Summit>) -> i32
    ensures { result ≡ over floor.height summit }
{
    let height = i32::from(floor.height);
    summit.map_or(height, |s| height.max(s.cap))
}

// Floor + tolerance: what is above it is open.
fn bound_over(floor: Touch, tolerance: u16) -> i32
    ensures { result ≡ floor.height +ℤ pos tolerance }
{
    i32::from(floor.height) + i32::from(tolerance)
}

impl<'t> Touched<'t> {
    // The floor with its position.
    fn floor(&self) -> Option<Touch>
        ensures { result ≡ floor_touch self.now.touches.now }
    {
        highest_touch(self.touches)
    }

    // The pick of the gaps by largest cap: the untouched position of largest cap, the lowest on a tie.
    fn highest_summit(&self) -> Option<Summit>
        requires { 0 < length self.now.touches.now }
        ensures { result ≡ high_summit self.now.line self.now.touches.now }
    {
        first_highest(self.gaps(&self.falls()))
    }

    // The summit of the lowest gap whose largest cap exceeds the bound.
    fn lowest_summit(&self, bound: i32) -> Option<Summit>
        requires { 0 < length self.now.touches.now }
        ensures { result ≡ summit_above self.now.line self.now.touches.now bound }
    {
        first_above(self.gaps(&self.falls()), bound)
    }

    // Floor with its position, ceiling, and the untouched position of largest cap. None before the first touch.
    pub fn look(&self) -> Option<Outlook>
        ensures is { result ≡ outlook self.now.line self.now.touches.now }
        ensures caps { LawsOfCaps }
        ensures figures { Figures }
    {
        let floor = self.floor()?;
        let summit = self.highest_summit();
        Some(Outlook {
            floor,
            ceiling: over_floor(floor, summit),
            summit,
        })
    }

    // The position of largest cap in the lowest open gap, the lowest on a tie. None before the first touch, and where settled.
    pub fn lowest_open(&self, tolerance: u16) -> Option<Summit>
        ensures is { result ≡ open_summit self.now.line self.now.touches.now tolerance }
        ensures gaps { LawsOfGaps }
    {
        let floor = self.floor()?;
        self.lowest_summit(bound_over(floor, tolerance))
    }
}

// Settled: something is touched, and the ceiling is at most the tolerance above the floor.
pub fn is_settled(outlook: Option<Outlook>, tolerance: u16) -> bool
    ensures { result ≡ settled_by outlook tolerance }
{
    // The Option is taken apart here, a rule of the project: before the first touch there is neither floor nor ceiling.
    match outlook {
        Some(seen) => seen.ceiling <= bound_over(seen.floor, tolerance),
        None => false,
    }
}
