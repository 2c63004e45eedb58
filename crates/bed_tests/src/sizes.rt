use bed::survey::Survey;
use caps::sound::PLACES;
use gauges::tent::Tent;
use logs::log::Log;
use std::mem::size_of;

// Beside its gauge a survey takes less than 1,100 bytes, and a look at its touches no more for its scratch.
#[test]
fn a_survey_is_small(rt: HostRuntime) {
    assert_eq!(rt; size_of::<Log>(), 1_036);
    assert!(rt; size_of::<Survey<Tent>>() <= size_of::<Tent>() + 1_100);
    assert!(rt; size_of::<[i32; PLACES]>() <= 1_100);
}

// The same to the byte: a survey's notes and touches, what stands beside its gauge, and the scratch of a look.
#[test]
fn the_sizes_are_pinned(rt: HostRuntime) {
    assert_eq!(rt; size_of::<Log>(), 1_036);
    assert!(rt; size_of::<Survey<Tent>>() <= size_of::<Tent>() + 1_040);
    assert_eq!(rt; size_of::<[i32; PLACES]>(), 1_024);
}
