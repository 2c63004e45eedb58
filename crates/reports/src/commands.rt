// The commands `show` and `pack`, over the runtime.
use accounts::stack::Layers;
use anyhow::anyhow;
use std::fs;
use std::io::{Read, Write};

// One byte more than the longest record: enough to refuse every longer one.
const RECORD_BOUND: u64 = 8_009;

// One byte more than the longest text of a sheet that is read.
const TEXT_BOUND: u64 = 65_537;

// What the user asks for.
#[derive(Drop)]
pub enum Command {
    Show { path: String, layers: Layers },
    Pack { path: String },
}

// The bytes of a file, read to the bound of records. `forms` and `survey` read by the same lines: the crate under all three would be longer than they.
fn read_record(rt: &HostRuntime, path: &str) -> anyhow::Result<Vec<u8>> {
    let mut bytes = Vec::new(rt.alloc());
    fs::open(rt, path)?
        .take(RECORD_BOUND)
        .read_to_end(&mut bytes)?;
    Ok(bytes)
}

// The report of an accepted record, or its refusal.
pub fn report(rt: &HostRuntime, bytes: &[u8], layers: Layers) -> anyhow::Result<String> {
    Ok(accounts::report::report(rt.alloc(), bytes, layers)??)
}

// The record of the sheet that a text says, in the wider language of `sheets::text`; `accounts::packing::pack_text` takes the narrower one.
pub fn pack_text(rt: &HostRuntime, text: &str) -> anyhow::Result<Vec<u8>> {
    let sheet = sheets::text::parse(rt.alloc(), text)?;
    Ok(sheets::pack::pack(rt.alloc(), sheet.slope, sheet.slack, &sheet.heights)?)
}

// Prints the report of a record.
fn show(rt: &HostRuntime, path: &str, layers: Layers) -> anyhow::Result<()> {
    let bytes = read_record(rt, path)?;
    let text = report(rt, &bytes, layers)?;
    rt.stdout().write_all(text.as_bytes())?;
    Ok(())
}

// Writes the record of the sheet that standard input says.
fn pack(rt: &HostRuntime, path: &str) -> anyhow::Result<()> {
    let mut text = String::new(rt.alloc());
    rt.stdin().take(TEXT_BOUND).read_to_string(&mut text)?;
    if text.len() as u64 == TEXT_BOUND {
        return Err(anyhow!("the text is longer than 65,536 bytes"));
    }
    let bytes = pack_text(rt, text.as_str())?;
    fs::write(rt, path, bytes.as_slice())?;
    let length = bytes.len();
    println!(rt; "record of {length} bytes written to {path}")?;
    Ok(())
}

// Does what the user asks for.
pub fn run(rt: &HostRuntime, command: Command) -> anyhow::Result<()> {
    match command {
        Command::Show { path, layers } => show(rt, path.as_str(), layers),
        Command::Pack { path } => pack(rt, path.as_str()),
    }
}
