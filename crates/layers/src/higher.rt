ghost use Rattle.std.specs.Prelude.{◌≡◌};
ghost use Rattle.layers.specs.Layers.{higher_meaning};
ghost use Rattle.layers.specs.Laws.{higher_lawful};

use crate::pair::{common_last, read_both};
use gauges::gauge::Gauge;
use terms::fault::Fault;

// The greater height of two gauges.
#[derive(Clone, Copy, Drop)]
pub struct Higher<A, B> {
    first: A,
    second: B,
}

impl<A, B> Higher<A, B> {
    pub fn of(first: A, second: B) -> Higher<A, B>
        ensures { (result.first ≡ first) × (result.second ≡ second) }
    {
        Higher { first, second }
    }
}

impl<A: Gauge, B: Gauge> Gauge for Higher<A, B> {
    ghost meaning = { λ s. higher_meaning (A.Gauge.meaning s.first) (B.Gauge.meaning s.second) };

    ghost lawful = { λ s. higher_lawful (A.Gauge.meaning s.first) (B.Gauge.meaning s.second) (A.Gauge.lawful s.first) (B.Gauge.lawful s.second) };

    fn last(&self) -> u32 {
        common_last(&self.first, &self.second)
    }

    fn slope(&self) -> u32 {
        self.first.slope().max(self.second.slope())
    }

    fn slack(&self) -> u32 {
        self.first.slack().max(self.second.slack())
    }

    fn read(&self, position: u32) -> Result<i32, Fault> {
        let (first, second) = read_both(&self.first, &self.second, position)?;
        Ok(first.max(second))
    }
}
