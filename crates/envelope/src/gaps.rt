// The gaps, one by one from the lowest on, each by its summit; no list of gaps is stored.
ghost use Rattle.std.specs.Prelude.{◌≡◌, ◌<◌, ◌≤◌, length, unsigned_abs};
ghost use Rattle.envelope.specs.Walks.{line_max, summits, strip_of, Falls, Walking};
ghost use Rattle.caps.specs.Props.{InOrder-prop};
ghost use Rattle.std.proofs.Props.{props};

use crate::roof::lower_rise;
use crate::touched::Touched;
use caps::Summit;

// A walk over the gaps.
#[derive(Drop)]
pub struct Gaps<'t, 'f> {
    seen: Touched<'t>,
    // For each place, the least of height + slope × position over the touches from there on: a table beside the touches, which are lent.
    falls: &'f [i32],
    // The touches before this place lie behind. It is a place, and no slice of those ahead: what is proved of a walk names those behind too.
    at: usize,
    // The position after them.
    from: u16,
    // The least of height - slope × position over them, over none i32::MAX: a running least asks nothing at a touch, an Option would.
    left: i32,
    ghost walking: { Walking seen.line seen.touches.now falls.now at from left } by { Prim.hlevel (props, InOrder-prop) },
}

impl<'t, 'f> Iterator for Gaps<'t, 'f> {
    ghost use Rattle.std.specs.Iterator.{YieldsFirst, item_count};
    ghost use Rattle.envelope.specs.Rest.{rest};

    type Item = Summit;

    ghost next_gives = { YieldsFirst rest };

    ghost remaining = { item_count rest };

    // Inlined: a call for each gap costs a third of a look's time where the compiler leaves one.
    #[inline(always)]
    fn next(&mut self) -> Option<Summit> {
        while self.at < self.seen.touches.len() {
            let seen = self.seen;
            let at = self.at;
            let from = self.from;
            let left = self.left;
            let touch = seen.touches[at];
            self.at = at + 1;
            self.from = touch.position + 1;
            self.left = lower_rise(left, seen.line.slope, touch);
            if from < touch.position {
                let right = self.falls[at];
                if at == 0 {
                    return Some(seen.ahead(right, from));
                }
                return Some(seen.between(left, right, from, touch.position - 1));
            }
        }
        let seen = self.seen;
        let summit = seen.strip(self.left, self.from);
        self.from = seen.line.last + 1;
        summit
    }
}

impl<'t> Touched<'t> {
    ghost use Rattle.envelope.specs.Rest.{rest};

    // The summit of the strip after the last touch, where there is one.
    fn strip(&self, left: i32, from: u16) -> Option<Summit>
        requires { unsigned_abs left ≤ line_max }
        ensures { result ≡ strip_of self.now.line left from }
    {
        if from <= self.line.last {
            Some(self.beyond(left, self.line.last))
        } else {
            None
        }
    }

    // The gaps of the line, from the lowest on. That something is touched is asked, and no type: it would be made of the floor that `look` and `lowest_open` have.
    pub fn gaps<'f>(&self, falls: &'f [i32]) -> Gaps<'t, 'f>
        requires some { 0 < length self.now.touches.now }
        requires table { Falls self.now.line self.now.touches.now falls.now }
        ensures { rest result ≡ summits self.now.line self.now.touches.now }
    {
        Gaps {
            seen: *self,
            falls,
            at: 0,
            from: 0,
            left: i32::MAX,
        }
    }
}
