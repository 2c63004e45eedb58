// Shows a sheet record, or packs one from text.
#![tactic(auto)]

use reports::arguments::read_command;
use reports::commands::run;
use std::env;
use std::process::ExitCode;

// Reads the words and does what they say.
fn work(rt: &HostRuntime) -> anyhow::Result<()> {
    run(rt, read_command(env::args(rt)?)?)
}

// An error stands after the program's own name, which no answer of `main` would print.
fn main(rt: HostRuntime) -> ExitCode {
    match work(&rt) {
        Ok(()) => ExitCode::SUCCESS,
        Err(error) => {
            let _ = eprintln!(rt; "sheet: {error}");
            ExitCode::FAILURE
        }
    }
}
