// Standard output as the paper of a form.
ghost use Rattle.std.specs.Prelude.{string_bytes};

use policies::paper::Paper;
use std::io::Write;

// Standard output, and what was printed on it so far: no clause sees the stream itself.
#[derive(Drop)]
pub(crate) struct Output<'a> {
    rt: &'a HostRuntime,
    said: String,
}

impl<'a> Output<'a> {
    // Standard output with nothing printed on it.
    pub(crate) fn new(rt: &'a HostRuntime) -> Output<'a> {
        Output {
            rt,
            said: String::new(rt.alloc()),
        }
    }
}

impl<'a> Paper for Output<'a> {
    ghost said = { λ o. string_bytes o.said };

    fn print(&mut self, text: &str) -> anyhow::Result<()> {
        self.said.push_str(text)?;
        self.rt.stdout().write_all(text.as_bytes())?;
        Ok(())
    }
}
