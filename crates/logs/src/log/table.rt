// The table of touches.
ghost use Rattle.std.specs.Prelude.{◌≡◌, ◌<◌, false, length};
ghost use Rattle.terms.specs.Limits.{touches_max};
ghost use Rattle.terms.specs.Meaning.{Height};
ghost use Rattle.caps.specs.Touches.{WithinLimits, Sound, is_touched};
ghost use Rattle.surveys.specs.States.{add, with_tolerance, full, standing};
ghost use Rattle.logs.specs.Logs.{state_of, begun, PutIn, Free};

use crate::log::{Log, Notes};
use crate::setting::Setting;
use caps::sound::PLACES;
use caps::table::insert_touch;
use caps::{Line, Outlook, Touch};
use envelope::touched::Touched;

// Whether a touch stands at the position.
fn has_touch(touches: &[Touch], position: u16) -> bool
    ensures { result ≡ is_touched touches.now position }
{
    touches.iter().any(|touch| touch.position == position)
}

impl Notes {
    // Puts the touch in at its place among the others.
    fn put_in(&mut self, touch: Touch)
        requires { (self.old.count < length self.old.touches) × (self.old.count < touches_max) }
        ensures { PutIn touch self.old self.new }
    {
        insert_touch(&mut self.touches, usize::from(self.count), touch);
        self.count += 1;
    }
}

impl Log {
    // A log with no touch.
    pub fn open(line: Line, setting: Setting) -> Log
        requires { WithinLimits line }
        ensures { state_of result ≡ begun line setting }
    {
        Log {
            notes: Notes {
                line,
                tolerance: setting.tolerance,
                limit: setting.limit,
                count: 0,
                touches: [Touch {
                    position: 0,
                    height: 0,
                }; PLACES],
            },
        }
    }

    // The front of the table.
    fn front(&self) -> &[Touch]
        ensures { result.now ≡ (state_of self.now).touches }
    {
        let table = &self.notes.touches[..];
        &table[0..usize::from(self.notes.count)]
    }

    // The line and its touches, as what tells of the heights.
    pub fn view(&self) -> Touched<'_>
        ensures line { result.line ≡ self.now.notes.line }
        ensures touches { result.touches.now ≡ (state_of self.now).touches }
    {
        Touched {
            line: self.notes.line,
            touches: self.front(),
        }
    }

    // The touches, in rising order of position.
    pub fn touched(&self) -> &[Touch]
        ensures items { result.now ≡ (state_of self.now).touches }
        ensures sound { Sound self.now.notes.line result.now }
        ensures count { length result.now ≡ self.now.notes.count }
    {
        self.front()
    }

    // Floor, ceiling and the untouched position of largest cap. None before the first touch.
    pub fn look(&self) -> Option<Outlook>
        ensures { result ≡ standing (state_of self.now) }
    {
        self.view().look()
    }

    // The number of touches.
    pub fn number_of_touches(&self) -> u16
        ensures { result ≡ length (state_of self.now).touches }
    {
        self.touched().len() as u16
    }

    // Whether the touches equal the limit.
    pub fn is_full(&self) -> bool
        ensures { result ≡ full (state_of self.now) }
    {
        self.number_of_touches() == self.notes.limit
    }

    // Whether the position is touched.
    pub fn is_touched(&self, position: u16) -> bool
        ensures { result ≡ is_touched (state_of self.now).touches position }
    {
        has_touch(self.touched(), position)
    }

    // Sets the tolerance, and leaves every touch.
    pub fn set_tolerance(&mut self, tolerance: u16)
        ensures { state_of self.new ≡ with_tolerance tolerance (state_of self.old) }
    {
        self.notes = Notes {
            tolerance,
            ..self.notes
        };
    }

    // Puts a touch in at its place.
    pub fn insert(&mut self, touch: Touch)
        requires room { full (state_of self.old) ≡ false }
        requires free { Free (state_of self.old) touch.position }
        requires height { Height touch.height }
        ensures { state_of self.new ≡ add touch (state_of self.old) }
    {
        self.notes.put_in(touch);
    }
}
