// A part of the input, where it lies.
#[derive(Clone, Copy)]
pub struct Part<'a> {
    pub bytes: &'a [u8],
    // The place of its first byte in the input.
    pub place: usize,
}
