// Where the form is printed.
ghost use Rattle.std.specs.Prelude.{◌≡◌, ℕ, List, ◌++◌, OnOk};

pub trait Paper {
    // What is printed on it so far.
    ghost said: { Self → List ℕ };

    // Prints the text after what is there.
    fn print(&mut self, text: &str) -> anyhow::Result<()>
        ensures { OnOk result (said self.new ≡ said self.old ++ text.now) };
}
