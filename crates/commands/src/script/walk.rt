ghost use Rattle.std.specs.Prelude.{◌≡◌, ◌-◌, length};
ghost use Rattle.commands.specs.Scripts.{to_come, Walk};
ghost use Rattle.commands.specs.Orders.{orders};
ghost use Rattle.commands.specs.Theorems.{LinesAreTheInput, CallsAsWritten, NumbersReadBack};
ghost use Rattle.std.specs.Iterator.{at_most};

use crate::command::Command;
use crate::reader::next_command;
use crate::script::Script;

impl<'a> Script<'a> {
    // The commands of the input, from its first line on.
    pub fn new(input: &'a [u8]) -> Script<'a>
        ensures { to_come result ≡ orders input.now }
    {
        Script { input, at: 0 }
    }

    // The command of the next line that is not empty.
    pub fn read_command(&mut self) -> Option<Command<'a>>
        ensures walk { Walk self.old result self.new }
        ensures lines { LinesAreTheInput }
        ensures calls { CallsAsWritten }
        ensures numbers { NumbersReadBack }
    {
        let (command, end) = next_command(self.input, self.at)?;
        self.at = end;
        Some(command)
    }
}

impl<'a> Iterator for Script<'a> {
    type Item = Command<'a>;

    ghost next_gives = { Walk };

    ghost remaining = { λ s. at_most (length s.input.now - s.at) };

    fn next(&mut self) -> Option<Command<'a>> {
        self.read_command()
    }
}
