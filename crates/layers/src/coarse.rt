ghost use Rattle.std.specs.Prelude.{◌≡◌};
ghost use Rattle.layers.specs.Layers.{coarse_meaning};
ghost use Rattle.layers.specs.Laws.{coarse_lawful};
ghost use Rattle.layers.specs.Multiples.{ReadsGreatestMultiples};

use crate::step::Step;
use gauges::gauge::Gauge;
use terms::fault::Fault;
use terms::limits::SLACK_MAX;

// The heights of a gauge, rounded down to multiples of a step.
#[derive(Clone, Copy, Drop)]
pub struct Coarse<G> {
    lower: G,
    step: Step,
}

impl<G: Gauge> Coarse<G> {
    #[tactic(auto, using(crate::proofs::Rounding::reads_greatest))]
    pub fn over(lower: G, step: Step) -> Coarse<G>
        ensures made { (result.lower ≡ lower) × (result.step ≡ step) }
        ensures rounded { ReadsGreatestMultiples result.step.size (G.Gauge.meaning result.lower) }
    {
        Coarse { lower, step }
    }
}

impl<G: Gauge> Gauge for Coarse<G> {
    ghost meaning = { λ s. coarse_meaning s.step.size (G.Gauge.meaning s.lower) };

    ghost lawful = { λ s. coarse_lawful s.step.size s.step.sized (G.Gauge.meaning s.lower) (G.Gauge.lawful s.lower) };

    // The figures that stay are the lower gauge's own, told by a call each, as in Flip: nothing shared would be shorter.
    fn last(&self) -> u32 {
        self.lower.last()
    }

    fn slope(&self) -> u32 {
        self.lower.slope()
    }

    fn slack(&self) -> u32 {
        (self.lower.slack() + self.step.excess()).min(SLACK_MAX)
    }

    fn read(&self, position: u32) -> Result<i32, Fault> {
        let height = self.lower.read_below(position)?;
        Ok(self.step.round_down(height))
    }
}
