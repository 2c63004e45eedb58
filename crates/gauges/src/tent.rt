ghost use Rattle.std.specs.Prelude.{ℕ, ◌≤◌};
ghost use Rattle.terms.specs.Limits.{last_max, slope_max};
ghost use Rattle.terms.specs.Meaning.{Height};

pub mod makes;
pub mod reads;

// The bow of the beam: the crown's height less slope times the distance from the crown.
#[derive(Clone, Copy, Drop)]
pub struct Tent {
    last: u32,
    slope: u32,
    crown: u32,
    height: i32,
    name: u8,
    ghost lasts: { (1 ≤ last) × (last ≤ last_max) },
    ghost slopes: { (1 ≤ slope) × (slope ≤ slope_max) },
    ghost crowned: { crown ≤ last },
    ghost ranged: { Height height },
    ghost named: { 1 ≤ name },
}
