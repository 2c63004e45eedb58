ghost use Rattle.std.specs.Prelude.{◌≡◌};
ghost use Rattle.terms.specs.Faults.{raised, beyond, unread, cause_number};

// The name that stands for a layer; the gauges at the bottom of a stack have names from 1 on.
// A number and no Option: a fault's text has it in the place of a gauge's name, as 0.
pub const LAYER: u8 = 0;

// Why a reading has no height.
#[derive(Clone, Copy, PartialEq, Eq, Debug)]
pub enum Cause {
    // The position is beyond the gauge's last one.
    Beyond,
    // The gauge has no reading there.
    Unread,
}

// A reading that has no height.
#[derive(Clone, Copy, PartialEq, Eq, Debug)]
pub struct Fault {
    pub cause: Cause,
    // The position asked.
    pub position: u32,
    // The name of the gauge that failed, or LAYER.
    pub gauge: u8,
    // The number of layers that it came up through, at most 255.
    pub layers: u8,
}

impl Fault {
    // The fault of the gauge of that name at a position beyond its last one.
    pub fn beyond(position: u32, gauge: u8) -> Fault
        ensures { result ≡ beyond position gauge }
    {
        Fault {
            cause: Cause::Beyond,
            position,
            gauge,
            layers: 0,
        }
    }

    // The fault of the gauge of that name at a position where it has no reading. A literal of its own, as `beyond` has: a function below both would only name the cause.
    pub fn unread(position: u32, gauge: u8) -> Fault
        ensures { result ≡ unread position gauge }
    {
        Fault {
            cause: Cause::Unread,
            position,
            gauge,
            layers: 0,
        }
    }
}

// A fault from below that has come up through one more layer. `?` makes it of the lower gauge's fault, and the layer's own fault of it.
#[derive(Clone, Copy, Drop)]
pub struct Raised(pub Fault);

impl From<Fault> for Raised {
    ghost from_gives = { λ f r. r.0 ≡ raised f };

    fn from(fault: Fault) -> Raised {
        Raised(Fault {
            cause: fault.cause,
            position: fault.position,
            gauge: fault.gauge,
            layers: fault.layers.saturating_add(1),
        })
    }
}

impl From<Raised> for Fault {
    ghost from_gives = { λ r f. f ≡ r.0 };

    fn from(raised: Raised) -> Fault {
        raised.0
    }
}

impl Cause {
    // The number of each cause, written out as the numbers of the refusals are, whose cases hold values.
    pub fn number(&self) -> u8
        ensures { result ≡ cause_number self.now }
    {
        match self {
            Cause::Beyond => 1,
            Cause::Unread => 2,
        }
    }
}

#[cfg(test)]
mod tests {
    use super::*;

    // 300 layers count to 255, and all else of the fault stays.
    #[test]
    fn layers_stay_at_255(rt: HostRuntime) {
        let mut fault = Fault::unread(7, 3);
        for _ in 0..300 {
            fault = Fault::from(Raised::from(fault));
        }
        assert_eq!(rt;
            fault,
            Fault {
                layers: 255,
                ..Fault::unread(7, 3)
            }
        );
    }
}
