ghost use Rattle.std.specs.Prelude.{◌≡◌, ℕ, ◌<◌, List, length, ℤ};
ghost use Rattle.heights.specs.Heights.{height_at};

// A list of heights, wherever it lies.
pub trait Heights {
    ghost list: { Self → List ℤ };

    fn count(&self) -> usize
        ensures { result ≡ length (list self.now) };

    fn height(&self, position: usize) -> i32
        requires { position < length (list self.now) }
        ensures { result ≡ height_at (list self.now) position };
}

// Heights that a caller has in a slice.
#[derive(Clone, Copy, Drop)]
pub struct Lent<'a> {
    pub heights: &'a [i32],
}

impl<'a> Heights for Lent<'a> {
    ghost list = { λ l. l.heights.now };

    fn count(&self) -> usize {
        self.heights.len()
    }

    fn height(&self, position: usize) -> i32 {
        self.heights[position]
    }
}
