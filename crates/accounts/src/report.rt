// The report of a record.
ghost use Rattle.std.specs.Prelude.{◌≡◌, IfOk, string_bytes, OnOk};
ghost use Rattle.accounts.specs.Lines.{and_lines};
ghost use Rattle.accounts.specs.Failures.{Tells};
ghost use Rattle.accounts.specs.Reports.{record_lines, report_of};

use crate::lines::put_summary;
use crate::stack::Layers;
use crate::stack::puts::put_stack;
use records::record::{Record, check};
use sheets::failure::Failure;
use sheets::repack::packs_again;
use std::alloc::{AllocError, Global};
use std::fmt::Write;

// The gauge's name of the record, `record_name` of this crate's definitions; `policies` and `transcripts` name their own, and none of the three rests on another.
const RECORD_NAME: u8 = 1;

// What an accepted record says, and that packing it again gives the same bytes.
fn put_record(heap: Global, out: &mut String, accepted: Record<'_>) -> Result<(), AllocError>
    ensures { OnOk result (string_bytes out.new ≡ and_lines (string_bytes out.old) (record_lines accepted.entry.bytes.now accepted.entry.name)) }
{
    let length = accepted.bytes().len();
    writeln!(out, "record of {length} bytes")?;
    put_summary(out, &accepted)?;
    if packs_again(heap, accepted)? {
        writeln!(out, "packed again: the same {length} bytes")?;
    } else {
        writeln!(out, "packed again: other bytes")?;
    }
    Ok(())
}

// The report of an accepted record under layers, or its refusal.
// Want of memory for what is told of the record is the outer error, and under the layers a Failure: the program has other words for each.
pub fn report(
    heap: Global,
    bytes: &[u8],
    layers: Layers,
) -> Result<Result<String, Failure>, AllocError>
    ensures { IfOk result (Tells (report_of bytes.now layers.beam layers.step)) }
{
    if let Err(refusal) = check(bytes, RECORD_NAME) {
        return Ok(Err(Failure::Refused(refusal)));
    }
    let record = Record::new(bytes, RECORD_NAME);
    let mut out = String::new(heap);
    put_record(heap, &mut out, record)?;
    match put_stack(&mut out, record, layers) {
        Ok(()) => Ok(Ok(out)),
        Err(failure) => Ok(Err(failure)),
    }
}
