ghost use Rattle.std.specs.Prelude.{◌≡◌};
ghost use Rattle.commands.specs.Orders.{order, verb_of, call_of};

use crate::part::Part;
use surveys::calls::Call;

// What a line of the input says, with the parts of the input that say it.
#[derive(Clone, Copy)]
pub enum Command<'a> {
    High {
        verb: Part<'a>,
    },
    Left {
        verb: Part<'a>,
    },
    Ask {
        verb: Part<'a>,
    },
    At {
        verb: Part<'a>,
        digits: Part<'a>,
        number: u32,
    },
    Run {
        verb: Part<'a>,
        digits: Part<'a>,
        number: u32,
    },
    Tol {
        verb: Part<'a>,
        digits: Part<'a>,
        number: u32,
    },
    // The line is no command.
    Unknown {
        line: Part<'a>,
    },
}

impl<'a> Command<'a> {
    // The verb as it is printed.
    pub fn verb(&self) -> &'static str
        ensures { result.now ≡ verb_of (order self.now) }
    {
        match self {
            Command::High { .. } => "high",
            Command::Left { .. } => "left",
            Command::Ask { .. } => "ask",
            Command::At { .. } => "at",
            Command::Run { .. } => "run",
            Command::Tol { .. } => "tol",
            Command::Unknown { .. } => "?",
        }
    }

    // The call to a survey; a line that is no command makes none.
    pub fn call(&self) -> Option<Call>
        ensures { result ≡ call_of (order self.now) }
    {
        match self {
            Command::High { .. } => Some(Call::High),
            Command::Left { .. } => Some(Call::Left),
            Command::Ask { .. } => Some(Call::Ask),
            Command::At { number, .. } => Some(Call::At(*number)),
            Command::Run { number, .. } => Some(Call::Run(*number)),
            Command::Tol { number, .. } => Some(Call::Tol(*number)),
            Command::Unknown { .. } => None,
        }
    }
}
