ghost use Rattle.std.specs.Prelude.{◌≡◌, Ok, Err, MatchResult};
ghost use Rattle.gauges.specs.Made.{TentOf};
ghost use Rattle.gauges.specs.Tents.{tent_verdict};

use crate::tent::Tent;
use heights::checks::{check_line, check_name};
use terms::limits::is_height;
use terms::refusal::Refusal;

impl Tent {
    // The tent of these figures, if none of its tests refuses it.
    pub fn new(last: u32, slope: u32, crown: u32, height: i32, name: u8) -> Result<Tent, Refusal>
        ensures { MatchResult result (λ t. (tent_verdict last slope crown height name ≡ Ok tt) × TentOf last slope crown height name t) (λ e. tent_verdict last slope crown height name ≡ Err e) }
    {
        // A tent has no slack.
        check_line(last as usize, slope, 0)?;
        if !is_height(height) {
            return Err(Refusal::HeightOutOfRange { position: None });
        }
        check_name(name)?;
        if crown > last {
            return Err(Refusal::PositionBeyondLast);
        }
        Ok(Tent {
            last,
            slope,
            crown,
            height,
            name,
        })
    }
}
