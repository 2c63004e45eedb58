// Where a search touches.
ghost use Rattle.std.specs.Prelude.{◌≡◌};
ghost use Rattle.logs.specs.Logs.{state_of, place_seen, high_aim, left_aim, FreeAim};

use crate::log::Log;
use caps::Outlook;
use envelope::looks::is_settled;

// The untouched position of largest cap; position 0 before the first touch.
fn high_place(seen: Option<Outlook>) -> u16
    ensures { result ≡ place_seen seen }
{
    seen.and_then(|outlook| outlook.summit)
        .map_or(0, |summit| summit.place)
}

impl Log {
    // Where high touches; none where settled.
    pub fn high_aim(&self) -> Option<u16>
        ensures is { result ≡ high_aim (state_of self.now) }
        ensures free { FreeAim (state_of self.now) result }
    {
        let seen = self.look();
        if is_settled(seen, self.notes.tolerance) {
            return None;
        }
        Some(high_place(seen))
    }

    // Where left touches, position 0 first; none where settled. A touched line without an open gap is settled.
    pub fn left_aim(&self) -> Option<u16>
        ensures is { result ≡ left_aim (state_of self.now) }
        ensures free { FreeAim (state_of self.now) result }
    {
        if self.notes.count == 0 {
            return Some(0);
        }
        let summit = self.view().lowest_open(self.notes.tolerance)?;
        Some(summit.place)
    }
}
