// What the layers on two gauges share: both read up to the smaller last position, the first gauge before the second.
ghost use Rattle.std.specs.Prelude.{◌≡◌, min, IfOk};
ghost use Rattle.terms.specs.Meaning.{Height};
ghost use Rattle.layers.specs.Layers.{both_up_to};

use gauges::gauge::Gauge;
use terms::fault::{Fault, LAYER};

// The last position that two gauges have in common.
pub(crate) fn common_last<A: Gauge, B: Gauge>(first: &A, second: &B) -> u32
    ensures { result ≡ min (A.Gauge.meaning first.now).last (B.Gauge.meaning second.now).last }
{
    first.last().min(second.last())
}

// The heights of two gauges at a position, or the fault that ends the reading.
pub(crate) fn read_both<A: Gauge, B: Gauge>(
    first: &A,
    second: &B,
    position: u32,
) -> Result<(i32, i32), Fault>
    ensures value { result ≡ both_up_to (A.Gauge.meaning first.now) (B.Gauge.meaning second.now) position }
    ensures within { IfOk result (λ p. Height p.0 × Height p.1) }
{
    if position > common_last(first, second) {
        return Err(Fault::beyond(position, LAYER));
    }
    Ok((first.read_below(position)?, second.read_below(position)?))
}
