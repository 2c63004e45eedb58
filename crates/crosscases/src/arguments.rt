// Naive figures as the proved crates take them.
use gauges::tent::Tent;
use std::alloc::{AllocError, Global};
use terms::refusal::Refusal;

// A slope, a slack or a step.
pub fn figure_for(figure: i64) -> u32 {
    u32::try_from(figure).unwrap_or(u32::MAX)
}

// A height; one that is too large stays one.
fn height_for(height: i64) -> i32 {
    i32::try_from(height).unwrap_or(i32::MAX)
}

// A list of heights.
pub fn heights_for(heap: Global, heights: &[i64]) -> Result<Vec<i32>, AllocError> {
    heights
        .iter()
        .map(|height| height_for(*height))
        .collect(heap)
}

// The proved tent of these figures.
pub fn tent_for(tent: naive::gauges::Tent) -> Result<Tent, Refusal> {
    Tent::new(
        tent.last,
        figure_for(tent.slope),
        tent.crown,
        height_for(tent.height),
        tent.name,
    )
}
