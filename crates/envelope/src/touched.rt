ghost use Rattle.caps.specs.Touches.{Sound};
ghost use Rattle.caps.specs.Props.{InOrder-prop};
ghost use Rattle.std.proofs.Props.{props};

use caps::sound::are_touches;
use caps::{Line, Touch};

// The touches of a line, within all limits and in rising order of position.
#[derive(Clone, Copy)]
pub struct Touched<'t> {
    pub line: Line,
    pub touches: &'t [Touch],
    pub ghost sound: { Sound line touches.now } by { Prim.hlevel (props, InOrder-prop) },
}

impl<'t> Touched<'t> {
    ghost use Rattle.envelope.specs.Views.{SeenAsAsked};

    // Tests the line and its touches.
    pub fn new(line: Line, touches: &'t [Touch]) -> Option<Touched<'t>>
        ensures { SeenAsAsked line touches.now result }
    {
        // An `if`, since in a closure of `then` it would not be known that the test was passed.
        if are_touches(line, touches) {
            Some(Touched { line, touches })
        } else {
            None
        }
    }
}
