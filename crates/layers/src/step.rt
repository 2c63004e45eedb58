ghost use Rattle.std.specs.Prelude.{◌≡◌, ◌-◌, ◌≤◌, Ok, Err, MatchResult};
ghost use Rattle.terms.specs.Limits.{step_max};
ghost use Rattle.terms.specs.Meaning.{Height};
ghost use Rattle.layers.specs.Layers.{rounded_down, coarse_height, step_verdict};

use terms::limits::{HEIGHT_MAX, STEP_MAX};
use terms::refusal::Refusal;

// A step to whose multiples heights are rounded.
#[derive(Clone, Copy, Drop)]
pub struct Step {
    size: u32,
    ghost sized: { (1 ≤ size) × (size ≤ step_max) },
}

impl Step {
    // The step of that size, if its test does not refuse it.
    pub fn new(size: u32) -> Result<Step, Refusal>
        ensures { MatchResult result (λ s. (step_verdict size ≡ Ok tt) × (s.size ≡ size)) (λ e. step_verdict size ≡ Err e) }
    {
        if size == 0 || size > STEP_MAX {
            return Err(Refusal::StepOutOfRange);
        }
        Ok(Step { size })
    }

    // The greatest multiple of the step at or below a height.
    fn multiple_below(&self, height: i32) -> i32
        requires { Height height }
        ensures { result ≡ rounded_down self.now.size height }
    {
        height - height.rem_euclid(self.size as i32)
    }

    // That multiple, but at least the lowest height.
    pub(crate) fn round_down(&self, height: i32) -> i32
        requires { Height height }
        ensures { result ≡ coarse_height self.now.size height }
    {
        self.multiple_below(height).max(-HEIGHT_MAX)
    }

    // How much the rounding can add to a difference.
    pub(crate) fn excess(&self) -> u32
        ensures { result ≡ self.now.size - 1 }
    {
        self.size - 1
    }
}
