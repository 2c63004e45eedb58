// A record under a beam and a step: a stack of gauges.
pub mod puts;

// The bow of the beam, as the command names it.
#[derive(Clone, Copy)]
pub struct Beam {
    pub crown: u32,
    pub height: i32,
    pub slope: u32,
}

// What stands over the record.
#[derive(Clone, Copy)]
pub struct Layers {
    pub beam: Option<Beam>,
    pub step: Option<u32>,
}
