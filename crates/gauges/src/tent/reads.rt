ghost use Rattle.std.specs.Prelude.{◌≡◌, ℕ, ◌*◌, ◌≤◌};
ghost use Rattle.terms.specs.Limits.{last_max, slope_max};
ghost use Rattle.terms.specs.Meaning.{distance};
ghost use Rattle.gauges.specs.Tents.{tent_height, tent_meaning};
ghost use Rattle.gauges.specs.TentLaw.{tent_lawful};

use crate::gauge::Gauge;
use crate::tent::Tent;
use terms::fault::Fault;
use terms::limits::HEIGHT_MAX;

impl Tent {
    // How far the height falls from the crown to a position.
    #[tactic(auto, unfolding(terms::specs::Meaning::distance))]
    fn fall(&self, position: u32) -> u32
        requires { position ≤ self.now.last }
        ensures value { result ≡ self.now.slope * distance position self.now.crown }
        ensures bound { result ≤ slope_max * last_max }
    {
        position.abs_diff(self.crown) * self.slope
    }

    fn height_at(&self, position: u32) -> i32
        requires { position ≤ self.now.last }
        ensures { result ≡ tent_height self.now.slope self.now.crown self.now.height position }
    {
        (self.height - self.fall(position) as i32).max(-HEIGHT_MAX)
    }
}

impl Gauge for Tent {
    ghost meaning = { λ t. tent_meaning t.last t.slope t.crown t.height t.name };

    ghost lawful = { λ t. tent_lawful t.last t.slope t.crown t.height t.name t.lasts t.slopes t.ranged.high };

    fn last(&self) -> u32 {
        self.last
    }

    fn slope(&self) -> u32 {
        self.slope
    }

    fn slack(&self) -> u32 {
        0
    }

    fn read(&self, position: u32) -> Result<i32, Fault> {
        if position > self.last {
            return Err(Fault::beyond(position, self.name));
        }
        Ok(self.height_at(position))
    }
}
