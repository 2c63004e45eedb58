// Openings and lists of calls, refused ones among them.
use crate::chance::Chance;
use naive::laws::Sheet;
use naive::survey::Call;
use naive::terms::count_of;
use std::alloc::{AllocError, Global};

// A tolerance that is of some use beside a slope and a slack.
pub fn draw_tolerance(chance: &mut Chance, sheet: &Sheet) -> u32 {
    let wide = sheet.slope.wrapping_mul(4).wrapping_add(sheet.slack);
    match chance.below(4) {
        0 => 0,
        1 => 40_000,
        2 => chance.below(300),
        _ => chance.below(u32::try_from(wide).unwrap_or(1).min(40_000)),
    }
}

// A touch limit: small ones are reached.
pub fn draw_limit(chance: &mut Chance) -> u32 {
    match chance.below(3) {
        0 => 256,
        1 => u32::from(chance.between(1, 4)),
        _ => u32::from(chance.between(1, 30)),
    }
}

// A call of a tolerance or an ask.
fn draw_quiet(chance: &mut Chance, sheet: &Sheet) -> Call {
    match chance.below(4) {
        0 => Call::Ask,
        1 => Call::Tol(chance.about(40_000)),
        _ => Call::Tol(draw_tolerance(chance, sheet)),
    }
}

// One call: a position touched already, one beyond the last, a budget of 0 and a tolerance too large come up.
fn draw_call(chance: &mut Chance, sheet: &Sheet) -> Call {
    let count = count_of(&sheet.heights);
    match chance.below(12) {
        0 | 1 | 2 => Call::High,
        3 | 4 => Call::Left,
        5 | 6 => Call::At(chance.below(count.saturating_add(1))),
        7 => Call::At(chance.about(count)),
        8 => Call::Run(chance.below(6)),
        9 => Call::Run(chance.about(300)),
        _ => draw_quiet(chance, sheet),
    }
}

// A list of calls.
pub fn draw_calls(
    heap: Global,
    chance: &mut Chance,
    sheet: &Sheet,
    count: u16,
) -> Result<Vec<Call>, AllocError> {
    (0..count).map(|_| draw_call(chance, sheet)).collect(heap)
}
