ghost use Rattle.std.specs.Prelude.{◌≡◌};
ghost use Rattle.terms.specs.Meaning.{Height};
ghost use Rattle.layers.specs.Examples.{LayerExamples};
ghost use Rattle.layers.specs.Layers.{sum_height, sum_meaning};
ghost use Rattle.layers.specs.Laws.{sum_lawful};

use crate::pair::{common_last, read_both};
use gauges::gauge::Gauge;
use terms::fault::Fault;
use terms::limits::{HEIGHT_MAX, SLACK_MAX, SLOPE_MAX};

// The sum of the heights of two gauges.
#[derive(Clone, Copy, Drop)]
pub struct Sum<A, B> {
    first: A,
    second: B,
}

impl<A, B> Sum<A, B> {
    #[tactic(auto, using(crate::proofs::Shown::layer_examples))]
    pub fn of(first: A, second: B) -> Sum<A, B>
        ensures made { (result.first ≡ first) × (result.second ≡ second) }
        ensures examples { LayerExamples }
    {
        Sum { first, second }
    }
}

// The sum of two heights, kept within their range.
#[tactic(auto, unfolding(crate::specs::Layers::sum_height))]
fn kept_sum(first: i32, second: i32) -> i32
    requires { (Height first) × (Height second) }
    ensures { result ≡ sum_height first second }
{
    (first + second).clamp(-HEIGHT_MAX, HEIGHT_MAX)
}

impl<A: Gauge, B: Gauge> Gauge for Sum<A, B> {
    ghost meaning = { λ s. sum_meaning (A.Gauge.meaning s.first) (B.Gauge.meaning s.second) };

    ghost lawful = { λ s. sum_lawful (A.Gauge.meaning s.first) (B.Gauge.meaning s.second) (A.Gauge.lawful s.first) (B.Gauge.lawful s.second) };

    fn last(&self) -> u32 {
        common_last(&self.first, &self.second)
    }

    fn slope(&self) -> u32 {
        (self.first.slope() + self.second.slope()).min(SLOPE_MAX)
    }

    fn slack(&self) -> u32 {
        (self.first.slack() + self.second.slack()).min(SLACK_MAX)
    }

    fn read(&self, position: u32) -> Result<i32, Fault> {
        let (first, second) = read_both(&self.first, &self.second, position)?;
        Ok(kept_sum(first, second))
    }
}
