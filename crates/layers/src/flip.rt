ghost use Rattle.std.specs.Prelude.{◌≡◌};
ghost use Rattle.layers.specs.Layers.{flip_meaning};
ghost use Rattle.layers.specs.Laws.{flip_lawful};

use gauges::gauge::Gauge;
use terms::fault::Fault;

// The negated heights of a gauge.
#[derive(Clone, Copy, Drop)]
pub struct Flip<G> {
    lower: G,
}

impl<G> Flip<G> {
    pub fn over(lower: G) -> Flip<G>
        ensures { result.lower ≡ lower }
    {
        Flip { lower }
    }
}

impl<G: Gauge> Gauge for Flip<G> {
    ghost meaning = { λ s. flip_meaning (G.Gauge.meaning s.lower) };

    ghost lawful = { λ s. flip_lawful (G.Gauge.meaning s.lower) (G.Gauge.lawful s.lower) };

    // The figures that stay are the lower gauge's own, told by a call each, as in Coarse: nothing shared would be shorter.
    fn last(&self) -> u32 {
        self.lower.last()
    }

    fn slope(&self) -> u32 {
        self.lower.slope()
    }

    fn slack(&self) -> u32 {
        self.lower.slack()
    }

    fn read(&self, position: u32) -> Result<i32, Fault> {
        let height = self.lower.read_below(position)?;
        Ok(-height)
    }
}
