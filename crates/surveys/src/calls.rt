// One call to a survey.
#[derive(Clone, Copy, PartialEq, Eq, Debug)]
pub enum Call {
    // Touch the untouched position of largest cap.
    High,
    // Touch the position of largest cap in the lowest open gap.
    Left,
    // Touch this position.
    At(u32),
    // Repeat high, with this budget of touches.
    Run(u32),
    // Set the tolerance.
    Tol(u32),
    // Tell floor, ceiling, touches and whether settled.
    Ask,
}
