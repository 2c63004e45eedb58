ghost use Rattle.std.specs.Prelude.{◌≤◌, length};

pub mod walk;

// An input of commands, read line by line.
#[derive(Drop)]
pub struct Script<'a> {
    input: &'a [u8],
    // Where the next line begins, or the line end before it stands: the place and not the rest, since each part tells its place.
    at: usize,
    ghost within: { at ≤ length input.now },
}
