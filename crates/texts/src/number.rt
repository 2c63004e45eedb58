// Decimal numbers.
ghost use Rattle.std.specs.Prelude.{◌≡◌, ◌<◌, ◌≤◌, length, IfSome, Decides};
ghost use Rattle.texts.specs.Numbers.{number_of};

// The most digits that a number has.
const DIGITS_MAX: usize = 5;

// Whether a number may have so many digits.
fn has_digits(count: usize) -> bool
    ensures { Decides result ((1 ≤ count) × (count ≤ 5)) }
{
    (1..=DIGITS_MAX).contains(&count)
}

// The number that 1 to 5 decimal digits write.
pub fn number(digits: &[u8]) -> Option<u32>
    ensures value { result ≡ number_of digits.now }
    ensures bound { IfSome result (λ n. n < 100000) }
{
    if !has_digits(digits.len()) {
        return None;
    }
    // A loop, since in a `try_fold` nothing bounds the number so far, and the sum is not proved to fit.
    let mut n = 0;
    for digit in digits {
        n = 10 * n + char::from(*digit).to_digit(10)?;
    }
    Some(n)
}
