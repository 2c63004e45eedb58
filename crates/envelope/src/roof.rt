// The largest cap of a gap in closed form.
ghost use Rattle.std.specs.Prelude.{◌≡◌, ◌+◌, ◌*◌, ◌≤◌, pos, ◌+ℤ◌, ◌-ℤ◌, unsigned_abs};
ghost use Rattle.std.specs.Int.{int_min};
ghost use Rattle.terms.specs.Limits.{last_max, slope_max};
ghost use Rattle.caps.specs.Stretches.{Peak};
ghost use Rattle.caps.specs.Crossings.{rise, fall, roof, crossing, within, beside};
ghost use Rattle.envelope.specs.Walks.{line_max};

use crate::touched::Touched;
use caps::{Summit, Touch};

// By how much a line of the slope rises from position 0 to x.
fn climb(slope: u16, x: u16) -> i32
    requires { (slope ≤ slope_max) × (x ≤ last_max) }
    ensures is { result ≡ pos (slope * x) }
    ensures small { slope * x ≤ slope_max * last_max }
{
    (u32::from(slope) * u32::from(x)) as i32
}

// The lower of the left extreme so far and the line that rises from one more touch.
pub(crate) fn lower_rise(left: i32, slope: u16, touch: Touch) -> i32
    requires { (slope ≤ slope_max) × (touch.position ≤ last_max) }
    ensures { result ≡ int_min left (rise slope touch) }
{
    left.min(i32::from(touch.height) - climb(slope, touch.position))
}

// The lower of the right extreme so far and the line that falls to one more touch. Not one with the function above: a sign would have to be passed, and says less than the two names.
pub(crate) fn lower_fall(right: i32, slope: u16, touch: Touch) -> i32
    requires { (slope ≤ slope_max) × (touch.position ≤ last_max) }
    ensures { result ≡ int_min right (fall slope touch) }
{
    right.min(i32::from(touch.height) + climb(slope, touch.position))
}

// x kept within from .. to.
fn kept_within(from: u16, to: u16, x: u32) -> u16
    requires { from ≤ to }
    ensures { result ≡ within from to x }
{
    x.clamp(u32::from(from), u32::from(to)) as u16
}

// A gap between touches lies below the line that rises from the left and the one that falls to the right.
#[derive(Clone, Copy)]
struct Roof {
    slope: u16,
    // Where the two lines stand at position 0.
    left: i32,
    right: i32,
    ghost slopes: { (1 ≤ slope) × (slope ≤ slope_max) },
    ghost lines: { (unsigned_abs left ≤ line_max) × (unsigned_abs right ≤ line_max) },
}

impl Roof {
    // The lower of the two lines at x.
    fn at(self, x: u16) -> Summit
        requires { x ≤ last_max }
        ensures place { result.place ≡ x }
        ensures cap { result.cap ≡ roof self.slope self.left self.right x }
        ensures small { unsigned_abs result.cap ≤ 2 * line_max }
    {
        let rise = climb(self.slope, x);
        Summit {
            cap: (self.left + rise).min(self.right - rise),
            place: x,
        }
    }

    // The last whole position at or before the crossing of the two lines.
    fn crossing(self) -> u32
        ensures is { result ≡ crossing self.slope self.left self.right }
        ensures small { result ≤ 2 * line_max }
    {
        let width = (self.right - self.left).max(0) as u32;
        width / (2 * u32::from(self.slope))
    }

    // Of the two whole neighbours of the crossing, kept within from .. to, the one where the roof is higher, the lower on a tie.
    fn crest(self, from: u16, to: u16) -> Summit
        requires { (from ≤ to) × (to ≤ last_max) }
        ensures place { result.place ≡ beside (roof self.slope self.left self.right) from to (crossing self.slope self.left self.right) }
        ensures cap { result.cap ≡ roof self.slope self.left self.right result.place }
        ensures small { unsigned_abs result.cap ≤ 2 * line_max }
    {
        let c = self.crossing();
        let low = self.at(kept_within(from, to, c));
        let next = self.at(kept_within(from, to, c + 1));
        if low.cap < next.cap { next } else { low }
    }
}

// The summit with the slack on top.
fn with_slack(summit: Summit, slack: u16) -> Summit
    requires { unsigned_abs summit.cap ≤ 2 * line_max }
    ensures { result ≡ record { cap = summit.cap +ℤ pos slack; place = summit.place } }
{
    Summit {
        cap: summit.cap + i32::from(slack),
        ..summit
    }
}

impl<'t> Touched<'t> {
    // The summit of a gap with touches on both sides.
    pub(crate) fn between(&self, left: i32, right: i32, from: u16, to: u16) -> Summit
        requires ends { (from ≤ to) × (to ≤ self.now.line.last) }
        requires lines { (unsigned_abs left ≤ line_max) × (unsigned_abs right ≤ line_max) }
        ensures place { Peak (roof self.now.line.slope left right) from to result.place }
        ensures cap { result.cap ≡ roof self.now.line.slope left right result.place +ℤ pos self.now.line.slack }
    {
        let roof = Roof {
            slope: self.line.slope,
            left,
            right,
        };
        with_slack(roof.crest(from, to), self.line.slack)
    }

    // The summit of a gap with touches on the left only: its far end.
    pub(crate) fn beyond(&self, left: i32, to: u16) -> Summit
        requires end { to ≤ self.now.line.last }
        requires line { unsigned_abs left ≤ line_max }
        ensures { result ≡ record { cap = (left +ℤ pos (self.now.line.slope * to)) +ℤ pos self.now.line.slack; place = to } }
    {
        let far_end = Summit {
            cap: left + climb(self.line.slope, to),
            place: to,
        };
        with_slack(far_end, self.line.slack)
    }

    // The summit of a gap with touches on the right only: its far end. Not one with `beyond`: a sign to pass says less than the two names.
    pub(crate) fn ahead(&self, right: i32, from: u16) -> Summit
        requires end { from ≤ self.now.line.last }
        requires line { unsigned_abs right ≤ line_max }
        ensures { result ≡ record { cap = (right -ℤ pos (self.now.line.slope * from)) +ℤ pos self.now.line.slack; place = from } }
    {
        let near_end = Summit {
            cap: right - climb(self.line.slope, from),
            place: from,
        };
        with_slack(near_end, self.line.slack)
    }
}
