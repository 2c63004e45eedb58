// Words, parted by white space.
ghost use Rattle.std.specs.Prelude.{◌≡◌, ◌<◌, [], ◌∷◌, length, not, position, IfSome, MatchOption};
ghost use Rattle.texts.specs.Words.{is_blank, words};

// Whether a byte is white space.
fn is_blank(byte: u8) -> bool
    ensures { result ≡ is_blank byte }
{
    matches!(byte, b' ' | b'\t' | b'\n' | b'\r')
}

// Where the first word begins.
fn word_start(bytes: &[u8]) -> Option<usize>
    ensures { result ≡ position (λ b. not (is_blank b)) bytes.now }
{
    bytes.iter().position(|byte| !is_blank(*byte))
}

// Where the white space after it begins.
fn word_end(bytes: &[u8]) -> Option<usize>
    ensures { result ≡ position is_blank bytes.now }
{
    bytes.iter().position(|byte| is_blank(*byte))
}

// The first word, and the bytes after it.
pub fn next_word(bytes: &[u8]) -> Option<(&[u8], &[u8])>
    ensures value { MatchOption result (words bytes.now ≡ []) (λ p. words bytes.now ≡ p.0.now ∷ words p.1.now) }
    ensures onward { IfSome result (λ p. length p.1.now < length bytes.now) }
{
    let from = &bytes[word_start(bytes)?..];
    Some(from.split_at(word_end(from).unwrap_or(from.len())))
}
