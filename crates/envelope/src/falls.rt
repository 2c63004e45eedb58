// The right extremes: one backward pass.
ghost use Rattle.envelope.specs.Walks.{Falls};

use crate::roof::lower_fall;
use crate::touched::Touched;
use caps::sound::PLACES;

impl<'t> Touched<'t> {
    // For each place, the least of height + slope × position over the touches from there on.
    pub fn falls(&self) -> [i32; PLACES]
        ensures { Falls self.now.line self.now.touches.now result }
    {
        let mut falls = [0; PLACES];
        let mut low = i32::MAX;
        // By index: after an adapter of `iter_mut`, as `rev` and `zip` are, nothing is known of what was written.
        for i in (0..self.touches.len()).rev() {
            low = lower_fall(low, self.line.slope, self.touches[i]);
            falls[i] = low;
        }
        falls
    }
}
