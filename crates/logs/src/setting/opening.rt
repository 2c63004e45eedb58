ghost use Rattle.logs.specs.Settings.{SetAsAsked};

use crate::setting::Setting;
use terms::limits::{TOLERANCE_MAX, TOUCHES_MAX};
use terms::refusal::Refusal;

impl Setting {
    // Tests the tolerance, then the limit.
    pub fn new(tolerance: u32, limit: u32) -> Result<Setting, Refusal>
        ensures { SetAsAsked tolerance limit result }
    {
        if TOLERANCE_MAX < tolerance {
            return Err(Refusal::ToleranceOutOfRange);
        }
        if limit == 0 || TOUCHES_MAX < limit {
            return Err(Refusal::LimitOutOfRange);
        }
        Ok(Setting {
            tolerance: tolerance as u16,
            limit: limit as u16,
        })
    }
}
