// The calls of an input, and the lines printed for their answers.
ghost use Rattle.std.specs.Prelude.{◌≡◌, ◌≤◌, [], ◌∷◌, ◌++◌, length, drop, IfOk, string_bytes, OnOk};
ghost use Rattle.surveys.specs.declared.calls.Call.TheVariants.{Ask};
ghost use Rattle.commands.specs.Orders.{order, orders, call_of};
ghost use Rattle.transcripts.specs.Entries.{text_of};
ghost use Rattle.transcripts.specs.Told.{with_call, asked, used, told_text, lines_told};

use crate::entry::{Entry, put_entry};
use commands::command::Command;
use commands::script::Script;
use std::alloc::{AllocError, Global};
use surveys::answers::Answer;
use surveys::calls::Call;
use terms::refusal::Refusal;

// Appends the command's call, if it makes one, and the ask whose answer its line prints.
fn push_calls(calls: &mut Vec<Call>, command: &Command<'_>) -> Result<(), AllocError>
    ensures { OnOk result (calls.new.items ≡ calls.old.items ++ with_call (call_of (order command.now)) (Ask ∷ [])) }
{
    if let Some(call) = command.call() {
        calls.push(call)?;
    }
    calls.push(Call::Ask)?;
    Ok(())
}

// The calls of all lines of an input.
pub(crate) fn gather_calls(heap: Global, input: &[u8]) -> Result<Vec<Call>, AllocError>
    ensures { IfOk result (λ v. v.items ≡ asked (orders input.now)) }
{
    let mut calls = Vec::new(heap);
    for command in Script::new(input) {
        push_calls(&mut calls, &command)?;
    }
    Ok(calls)
}

// What is printed for a command whose calls got the first of the answers, and the answers after those.
fn take_entry<'a>(command: &Command<'_>, answers: &'a [Answer]) -> (Entry, &'a [Answer])
    requires { used (call_of (order command.now)) ≤ length answers.now }
    ensures text { text_of result.0 ≡ told_text (order command.now) answers.now }
    ensures left { result.1.now ≡ drop (used (call_of (order command.now))) answers.now }
{
    let (number, told, left) = match (command.call(), answers) {
        (Some(_), [made, told, left @ ..]) => (made.number(), told, left),
        (None, [told, left @ ..]) => (Refusal::NotACommand.number(), told, left),
        _ => unreachable!(),
    };
    (Entry::new(command.verb(), number, *told), left)
}

// The lines printed for an input whose calls got these answers.
pub(crate) fn print_lines(
    heap: Global,
    input: &[u8],
    answers: &[Answer],
) -> Result<String, AllocError>
    requires { length answers.now ≡ length (asked (orders input.now)) }
    ensures { IfOk result (λ t. string_bytes t ≡ lines_told (orders input.now) answers.now) }
{
    let mut out = String::new(heap);
    let mut left = answers;
    for command in Script::new(input) {
        let (entry, after) = take_entry(&command, left);
        put_entry(&mut out, heap, entry)?;
        left = after;
    }
    Ok(out)
}
