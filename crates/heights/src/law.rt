// The range of each height of a list, and the law between every two, by one loop with running extremes.
ghost use Rattle.std.specs.Prelude.{◌≡◌, ℕ, ◌+◌, ◌*◌, ◌<◌, ◌≤◌, ◌||◌, length, ℤ, pos, ◌+ℤ◌, ◌-ℤ◌, None, int_lt};
ghost use Rattle.std.specs.Int.{int_max, int_min};
ghost use Rattle.terms.specs.Limits.{last_max, slope_max, slack_max};
ghost use Rattle.terms.specs.Meaning.{Height};
ghost use Rattle.heights.specs.Heights.{marked, allowed, apart, partner, first_outside, first_break};
ghost use Rattle.heights.specs.Theorems.{BreaksAreTold};

use crate::list::Heights;
use terms::limits::{UNREAD, is_height};

// Whether a height marks a position without a reading.
pub(crate) fn is_marked(height: i32) -> bool
    ensures { result ≡ marked height }
{
    height == UNREAD
}

// Whether a height may stand in a list: it is in range, or marks a position without a reading.
fn is_allowed(height: i32) -> bool
    ensures { result ≡ allowed height }
{
    is_marked(height) || is_height(height)
}

// Whether two readable heights differ by more than a reach.
fn is_apart(reach: u32, x: i32, y: i32) -> bool
    ensures { result ≡ apart reach x y }
{
    !is_marked(x) && !is_marked(y) && x.abs_diff(y) > reach
}

// By how much two heights may differ: slope × their distance + slack.
#[derive(Clone, Copy, Drop)]
pub(crate) struct Bound {
    pub(crate) slope: u32,
    pub(crate) slack: u32,
    ghost sloped: { slope ≤ slope_max },
    ghost slacked: { slack ≤ slack_max },
}

impl Bound {
    // Slope × distance.
    fn rise(self, distance: usize) -> u32
        requires { distance ≤ last_max }
        ensures value { result ≡ self.slope * distance }
        ensures most { result ≤ slope_max * last_max }
    {
        self.slope * distance as u32
    }

    // By how much two heights at that distance may differ.
    fn reach(self, distance: usize) -> u32
        requires { distance ≤ last_max }
        ensures { result ≡ self.slope * distance + self.slack }
    {
        self.rise(distance) + self.slack
    }
}

// A readable height, give or take a reach.
#[derive(Clone, Copy, Drop)]
struct Span {
    height: i32,
    reach: u32,
    ghost ranged: { Height height },
    ghost short: { reach ≤ slope_max * last_max + slack_max },
}

impl Span {
    // Whether all of it stays under a limit.
    fn stays_under(self, limit: i32) -> bool
        ensures { result ≡ int_lt (self.height +ℤ pos self.reach) limit }
    {
        self.height + (self.reach as i32) < limit
    }

    // Whether all of it stays over a limit.
    fn stays_over(self, limit: i32) -> bool
        ensures { result ≡ int_lt limit (self.height -ℤ pos self.reach) }
    {
        limit < self.height - (self.reach as i32)
    }

    // The greater of its upper end and another height.
    fn greater(self, other: i32) -> i32
        ensures { result ≡ int_max other (self.height +ℤ pos self.reach) }
    {
        other.max(self.height + (self.reach as i32))
    }

    // The lesser of its lower end and another height.
    fn lesser(self, other: i32) -> i32
        ensures { result ≡ int_min other (self.height -ℤ pos self.reach) }
    {
        other.min(self.height - (self.reach as i32))
    }
}

// Of the readable heights so far: the greatest height + slope × position and the least height − slope × position.
#[derive(Clone, Copy, Drop)]
struct Extremes {
    greatest: i32,
    least: i32,
}

impl Extremes {
    // Whether a height is too far from some height before it; its span reaches slope × position + slack.
    fn is_stray(self, span: Span) -> bool
        ensures { result ≡ (int_lt (span.height +ℤ pos span.reach) self.greatest || int_lt self.least (span.height -ℤ pos span.reach)) }
    {
        span.stays_under(self.greatest) || span.stays_over(self.least)
    }

    // The extremes with one height more; its span reaches slope × position.
    fn with(self, span: Span) -> Extremes
        ensures greatest { result.greatest ≡ int_max self.greatest (span.height +ℤ pos span.reach) }
        ensures least { result.least ≡ int_min self.least (span.height -ℤ pos span.reach) }
    {
        Extremes {
            greatest: span.greater(self.greatest),
            least: span.lesser(self.least),
        }
    }
}

// A list of no more heights than a sheet may have, and the bound that every two of them are to keep.
#[derive(Drop)]
pub(crate) struct Sheet<'a, H: Heights> {
    pub(crate) heights: &'a H,
    pub(crate) bound: Bound,
    ghost short: { length (H.Heights.list heights.now) ≤ last_max + 1 },
}

impl<'a, H: Heights> Sheet<'a, H> {
    // The lowest position whose height may not stand there.
    pub(crate) fn find_outside(&self) -> Option<u32>
        ensures { result ≡ first_outside (H.Heights.list self.now.heights.now) }
    {
        // A loop and no `find`: with it the tests of a table of 4,001 heights took a fifth more instructions.
        for p in 0..self.heights.count() {
            if !is_allowed(self.heights.height(p)) {
                return Some(p as u32);
            }
        }
        None
    }

    // The lowest position before `later` that breaks the law with it.
    fn find_partner(&self, later: usize) -> Option<u32>
        requires { later < length (H.Heights.list self.now.heights.now) }
        ensures { result ≡ partner self.now.bound.slope self.now.bound.slack (H.Heights.list self.now.heights.now) later }
    {
        let heights = self.heights;
        let bound = self.bound;
        let height = heights.height(later);
        (0..later as u32).find(
            |&earlier|
                requires { (earlier < later) × ((later < length (H.Heights.list heights.now)) × (later ≤ last_max)) }
            {
                let reach = bound.reach(later - earlier as usize);
                is_apart(reach, heights.height(earlier as usize), height)
            },
        )
    }

    // The lowest position that breaks the law with an earlier one, and the lowest such earlier one.
    pub(crate) fn find_break(&self) -> Option<(u32, u32)>
        requires { first_outside (H.Heights.list self.now.heights.now) ≡ None }
        ensures is { result ≡ first_break self.now.bound.slope self.now.bound.slack (H.Heights.list self.now.heights.now) }
        ensures told { BreaksAreTold }
    {
        let heights = self.heights;
        let bound = self.bound;
        // Outside of all that heights within their range can come to.
        let mut so_far = Extremes {
            greatest: -200_000_000,
            least: 200_000_000,
        };
        for later in 0..heights.count() {
            let height = heights.height(later);
            if !is_marked(height) {
                let rise = bound.rise(later);
                let reach = rise + bound.slack;
                if so_far.is_stray(Span { height, reach }) {
                    // A stray height always has a partner.
                    let earlier = self.find_partner(later)?;
                    return Some((later as u32, earlier));
                }
                so_far = so_far.with(Span {
                    height,
                    reach: rise,
                });
            }
        }
        None
    }
}
