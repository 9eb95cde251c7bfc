// Bytes cut at a separator: the lines of an input, the words of a line.
ghost use Rattle.std.specs.Prelude.{◌≡◌, ◌==◌};
ghost use Rattle.std.specs.List.{position};
ghost use Rattle.statement.specs.Lines.{before, after, trimmed};

// Where the first separator stands.
fn find(bytes: &[u8], separator: u8) -> Option<usize>
    ensures { result ≡ position (λ c. c == separator) bytes.now }
{
    bytes.iter().position(|c| *c == separator)
}

// The bytes before the first separator, and those after it.
pub fn split_once(bytes: &[u8], separator: u8) -> (&[u8], &[u8])
    ensures before_the_first { result.0.now ≡ before separator bytes.now }
    ensures after_the_first { result.1.now ≡ after separator bytes.now }
{
    match find(bytes, separator) {
        Some(i) => (&bytes[..i], &bytes[i + 1..]),
        None => (bytes, &[]),
    }
}

// A line without the carriage return that may stand at its end.
pub fn trim(line: &[u8]) -> &[u8]
    ensures without_carriage_return { result.now ≡ trimmed line.now }
{
    match line {
        [front @ .., b'\r'] => front,
        _ => line,
    }
}
