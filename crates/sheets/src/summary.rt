// What the readings of any gauge come to.
ghost use Rattle.std.specs.Prelude.{◌≡◌, ℕ, ◌+◌, ◌≤◌, Bool, ℤ, int_lt};
ghost use Rattle.terms.specs.Limits.{last_max};
ghost use Rattle.sheets.specs.Summaries.{led, with_reading, Summarizes, summary_before};

use gauges::gauge::Gauge;
use terms::fault::Fault;

// A readable position with its height.
#[derive(Clone, Copy, PartialEq, Eq, Debug)]
pub struct Spot {
    pub position: u32,
    pub height: i32,
}

// How many positions are readable, and the first of lowest and of highest height.
#[derive(Clone, Copy)]
pub struct Summary {
    pub readable: u32,
    pub lowest: Option<Spot>,
    pub highest: Option<Spot>,
}

// The spot so far, unless its height is outranked by that of one more. Its own step: the pick of `pick` goes over a list, and here a count and two picks share each reading.
fn led<F: Fn(i32, i32) -> bool>(best: Option<Spot>, spot: Spot, outranked: F) -> Option<Spot>
    ghost rank: { ℤ → ℤ }
    requires callable { F.IsAlwaysCallable outranked }
    requires ranks { (a b : ℤ) (r : Bool) → F.post outranked a b r → r ≡ int_lt (rank a) (rank b) }
    ensures { result ≡ led rank best spot }
{
    match best {
        Some(held) if !outranked(held.height, spot.height) => best,
        _ => Some(spot),
    }
}

// The summary with one reading more.
fn with_reading(so_far: Summary, position: u32, reading: Result<i32, Fault>) -> Summary
    requires { so_far.readable ≤ last_max }
    ensures { result ≡ with_reading so_far position reading }
{
    let Ok(height) = reading else {
        return so_far;
    };
    let spot = Spot { position, height };
    Summary {
        readable: so_far.readable + 1,
        lowest: led(so_far.lowest, spot, |held, one_more| one_more < held),
        highest: led(so_far.highest, spot, |held, one_more| held < one_more),
    }
}

// Reads every position once.
// A `for` and no fold: the closure of a fold needs a clause on the count so far, and the bound of that is found only from the loop's invariant.
pub fn summarize<G: Gauge>(gauge: &G) -> Summary
    ensures sums { Summarizes (G.Gauge.meaning gauge.now) ((G.Gauge.meaning gauge.now).last + 1) result }
    ensures value { result ≡ summary_before (G.Gauge.meaning gauge.now) ((G.Gauge.meaning gauge.now).last + 1) }
{
    let mut so_far = Summary {
        readable: 0,
        lowest: None,
        highest: None,
    };
    for position in 0..gauge.last() + 1 {
        so_far = with_reading(so_far, position, gauge.read(position));
    }
    so_far
}
