// The sheet of the worked examples, and their figures as one fact.
#![tactic(auto)]

ghost use Rattle.std.specs.Prelude.{◌≡◌};
ghost use Rattle.caps.specs.Figures.{line_a, sheet_a};
ghost use Rattle.worked.specs.Worked.{WorkedExamples};

// The slope of the sheet, in micrometres for each tenth of a millimetre.
pub const SLOPE: u32 = 5;

// The slack of the sheet.
pub const SLACK: u32 = 0;

// All worked examples hold of the definitions.
fn are_shown()
    ensures { WorkedExamples }
{}

// The heights of the sheet at its positions 0 to 10.
pub fn heights() -> [i32; 11]
    ensures is { result ≡ sheet_a }
    ensures examples { WorkedExamples }
{
    are_shown();
    [0, 4, 8, 10, 9, 5, 6, 9, 7, 3, 0]
}
