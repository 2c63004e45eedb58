// Surveys the sheet of file `sheet.rec` by the commands of standard input.
#![tactic(auto)]

use std::io::{ErrorKind, Read, Write};
use std::process::ExitCode;
use std::{fs, io};
use transcripts::print::{input_bound, is_accepted, print, sheet_bound};

// The first bytes that are read, as many as the bound says.
fn read_first(rt: &HostRuntime, from: impl Read + Drop, bound: u64) -> io::Result<Vec<u8>> {
    let mut bytes = Vec::new(rt.alloc());
    from.take(bound).read_to_end(&mut bytes)?;
    Ok(bytes)
}

// The first bytes of the record, and none where there is no such file.
fn read_sheet(rt: &HostRuntime) -> io::Result<Vec<u8>> {
    match fs::open(rt, "sheet.rec") {
        Ok(file) => read_first(rt, file, sheet_bound()),
        Err(error) if error.kind() == ErrorKind::NotFound => Ok(Vec::new(rt.alloc())),
        Err(error) => Err(error),
    }
}

// The first bytes of the input; a refused record has none read.
fn read_input(rt: &HostRuntime, sheet: &[u8]) -> io::Result<Vec<u8>> {
    if !is_accepted(sheet) {
        return Ok(Vec::new(rt.alloc()));
    }
    read_first(rt, rt.stdin(), input_bound())
}

fn run(rt: &HostRuntime) -> anyhow::Result<()> {
    let sheet = read_sheet(rt)?;
    let input = read_input(rt, &sheet)?;
    let text = print(rt.alloc(), &sheet, &input)?;
    rt.stdout().write_all(text.as_bytes())?;
    Ok(())
}

// An error stands after the program's own name, which no answer of `main` would print.
fn main(rt: HostRuntime) -> ExitCode {
    match run(&rt) {
        Ok(()) => ExitCode::SUCCESS,
        Err(error) => {
            let _ = eprintln!(rt; "survey: {error}");
            ExitCode::FAILURE
        }
    }
}
