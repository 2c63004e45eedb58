ghost use Rattle.std.specs.Prelude.{◌≡◌, true, is_ok};
ghost use Rattle.heights.specs.Verdicts.{table_verdict};

use heights::checks::{check_name, check_sheet};
use heights::list::Lent;
use terms::refusal::Refusal;

pub mod reads;

// Heights that a caller has in a list, where -32,768 stands for no reading.
#[derive(Clone, Copy, Drop)]
pub struct Table<'a> {
    heights: &'a [i32],
    slope: u32,
    slack: u32,
    name: u8,
    ghost passes: { is_ok (table_verdict slope slack heights.now name) ≡ true },
}

impl<'a> Table<'a> {
    // The tests of a table.
    pub fn check(heights: &[i32], slope: u32, slack: u32, name: u8) -> Result<(), Refusal>
        ensures { result ≡ table_verdict slope slack heights.now name }
    {
        check_sheet(&Lent { heights }, slope, slack)?;
        check_name(name)
    }

    // The gauge of a list that has passed the tests.
    pub fn new(heights: &'a [i32], slope: u32, slack: u32, name: u8) -> Table<'a>
        requires { is_ok (table_verdict slope slack heights.now name) ≡ true }
        ensures { (result.heights.now ≡ heights.now) × (result.slope ≡ slope) × (result.slack ≡ slack) × (result.name ≡ name) }
    {
        Table {
            heights,
            slope,
            slack,
            name,
        }
    }
}
