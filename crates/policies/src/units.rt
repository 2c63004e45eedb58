// Numbers as the form prints them.
ghost use Rattle.std.specs.Prelude.{Some};
ghost use Rattle.policies.specs.Lines.{place_text, height_text};

use std::fmt;

// A position in millimetres with one decimal.
#[derive(Clone, Copy)]
pub struct Place(pub u16);

impl fmt::Display for Place {
    ghost output = { λ p. Some (place_text p.0) };

    fn fmt<W: fmt::Write>(&self, f: &mut fmt::Formatter<W>) -> fmt::Result {
        let whole = self.0 / 10;
        let tenth = self.0 % 10;
        write!(f, "{whole}.{tenth} mm")
    }
}

// A height in micrometres.
#[derive(Clone, Copy)]
pub struct Height(pub i32);

impl fmt::Display for Height {
    ghost output = { λ h. Some (height_text h.0) };

    fn fmt<W: fmt::Write>(&self, f: &mut fmt::Formatter<W>) -> fmt::Result {
        let height = self.0;
        write!(f, "{height} µm")
    }
}
