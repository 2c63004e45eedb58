// The call that a line of an input says, and the verb that it prints.
use naive::survey::Call;

// The number of 1 to 5 decimal digits; none where the text is anything else.
fn number(text: &[u8]) -> Option<u32> {
    if !(1..=5).contains(&text.len()) {
        return None;
    }
    text.iter().try_fold(0, |value: u32, byte| {
        let digit = char::from(*byte).to_digit(10)?;
        Some(value.wrapping_mul(10).wrapping_add(digit))
    })
}

// The number after a verb and one space.
fn number_after(line: &[u8], verb: &[u8]) -> Option<u32> {
    number(line.strip_prefix(verb)?)
}

// The call that a line says; none where it is no command.
pub fn call(line: &[u8]) -> Option<Call> {
    match line {
        b"high" => Some(Call::High),
        b"left" => Some(Call::Left),
        b"ask" => Some(Call::Ask),
        _ => number_after(line, b"at ")
            .map(Call::At)
            .or_else(|| number_after(line, b"run ").map(Call::Run))
            .or_else(|| number_after(line, b"tol ").map(Call::Tol)),
    }
}

// The verb that a line prints.
pub fn verb(call: Option<Call>) -> &'static str {
    match call {
        Some(Call::High) => "high",
        Some(Call::Left) => "left",
        Some(Call::At(_)) => "at",
        Some(Call::Run(_)) => "run",
        Some(Call::Tol(_)) => "tol",
        Some(Call::Ask) => "ask",
        None => "?",
    }
}
