// The command `certify`, over the runtime.
use crate::output::Output;
use anyhow::anyhow;
use policies::policy::policy_for;
use std::env::Args;
use std::fs;
use std::io::Read;

const USAGE: &str = "usage: certify TOLERANCE, in a folder with sheet.rec";

const RECORD_PATH: &str = "sheet.rec";

const CERTIFICATE_PATH: &str = "sheet.cert";

// One byte more than the longest record: enough to refuse every longer one.
const RECORD_BOUND: u64 = 8_009;

// The tolerance that the words say, in micrometres; the first word is the program's name.
pub fn read_tolerance(mut args: Args) -> anyhow::Result<u32> {
    let _ = args.next();
    match (args.next(), args.next()) {
        (Some(word), None) => Ok(word.as_str().parse::<u32>()?),
        _ => Err(anyhow!(USAGE)),
    }
}

// The bytes of the record's file, read to the bound of records. `reports` and `survey` read by the same lines: the crate under all three would be longer than they.
fn read_record(rt: &HostRuntime) -> anyhow::Result<Vec<u8>> {
    let mut bytes = Vec::new(rt.alloc());
    fs::open(rt, RECORD_PATH)?
        .take(RECORD_BOUND)
        .read_to_end(&mut bytes)?;
    Ok(bytes)
}

// Surveys the sheet, prints the form, and writes the certificate; where there is none, says why.
pub fn run(rt: &HostRuntime, tolerance: u32) -> anyhow::Result<()> {
    let record = read_record(rt)?;
    let mut paper = Output::new(rt);
    match policy_for(rt.alloc(), &mut paper, &record, tolerance)? {
        Ok(bytes) => {
            fs::write(rt, CERTIFICATE_PATH, bytes.as_slice())?;
            let length = bytes.len();
            println!(rt; "certificate of {length} bytes written to {CERTIFICATE_PATH}")?;
            Ok(())
        }
        Err(refusal) => Err(anyhow!("no certificate, refused with {refusal}")),
    }
}
