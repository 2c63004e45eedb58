ghost use Rattle.std.specs.Prelude.{◌≤◌};
ghost use Rattle.terms.specs.Limits.{tolerance_max, touches_max};

pub mod opening;

// A tolerance and a touch limit that a survey may be opened with.
#[derive(Clone, Copy)]
pub struct Setting {
    pub tolerance: u16,
    pub limit: u16,
    ghost tolerable: { tolerance ≤ tolerance_max },
    ghost some: { 1 ≤ limit },
    ghost few: { limit ≤ touches_max },
}
