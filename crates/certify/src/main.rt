// Surveys the sheet of `sheet.rec`, prints the insurer's form and writes `sheet.cert`.
#![tactic(auto)]

use forms::command::{read_tolerance, run};
use std::env;
use std::process::ExitCode;

// Reads the tolerance and does the work.
fn work(rt: &HostRuntime) -> anyhow::Result<()> {
    run(rt, read_tolerance(env::args(rt)?)?)
}

// An error stands after the program's own name, which no answer of `main` would print.
fn main(rt: HostRuntime) -> ExitCode {
    match work(&rt) {
        Ok(()) => ExitCode::SUCCESS,
        Err(error) => {
            let _ = eprintln!(rt; "certify: {error}");
            ExitCode::FAILURE
        }
    }
}
