ghost use Rattle.std.specs.Prelude.{◌≡◌, IfOk};
ghost use Rattle.terms.specs.Meaning.{Meaning, Lawful, Height};
ghost use Rattle.gauges.specs.Layering.{lifted, plain};

use terms::fault::{Fault, Raised};

// What tells heights along a line. Every implementation says what it means and proves that this is lawful.
pub trait Gauge {
    ghost meaning: { Self → Meaning };

    ghost lawful: { (g : Self) → Lawful (meaning g) };

    // The last position.
    fn last(&self) -> u32
        ensures { result ≡ (meaning self.now).last };

    fn slope(&self) -> u32
        ensures { result ≡ (meaning self.now).slope };

    fn slack(&self) -> u32
        ensures { result ≡ (meaning self.now).slack };

    // The height at a position, or the fault.
    fn read(&self, position: u32) -> Result<i32, Fault>
        ensures { result ≡ (meaning self.now).reading position };

    // The same reading; the law keeps its height in range.
    fn read_in_range(&self, position: u32) -> Result<i32, Fault>
        ensures value { result ≡ (meaning self.now).reading position }
        ensures within { IfOk result Height }
    {
        self.read(position)
    }

    // The reading as the layer above has it: its fault has come up through one more layer.
    fn read_below(&self, position: u32) -> Result<i32, Raised>
        ensures value { plain result ≡ lifted ((meaning self.now).reading position) }
        ensures within { IfOk result Height }
    {
        Ok(self.read_in_range(position)?)
    }
}
