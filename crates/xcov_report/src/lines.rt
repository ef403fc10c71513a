//! The lines of a file.

ghost use Rattle.std.specs.Prelude.{◌≡◌, ◌≤◌, ◌==◌, ◌∷◌, ◌<◌, [], length, MatchOption};
ghost use Rattle.std.specs.List.{position};
ghost use Rattle.std.specs.Str.Lines.{lines, strip_carriage_return};

/// Splits the first line off, without its end.
pub(crate) fn split_line(bytes: &[u8]) -> Option<(&[u8], &[u8])>
    ensures split { MatchOption result (bytes.now ≡ []) (λ parts. lines bytes.now ≡ parts.0.now ∷ lines parts.1.now) }
    ensures shorter { MatchOption result Unit (λ parts. length parts.1.now < length bytes.now) }
{
    if bytes.is_empty() {
        return None;
    }
    match line_feed(bytes) {
        Some(end) => Some((without_return(&bytes[..end]), &bytes[end + 1..])),
        None => Some((bytes, &[])),
    }
}

/// The place of the first line feed.
fn line_feed(bytes: &[u8]) -> Option<usize>
    ensures { result ≡ position (λ byte. byte == 10) bytes.now }
{
    bytes.iter().position(|byte| *byte == b'\n')
}

/// The line without the carriage return at its end.
fn without_return(line: &[u8]) -> &[u8]
    ensures { result.now ≡ strip_carriage_return line.now }
{
    line.strip_suffix(b"\r").unwrap_or(line)
}

/// How many lines there are.
pub(crate) fn line_count(bytes: &[u8]) -> usize
    ensures lines { result ≡ length (lines bytes.now) }
    ensures few { result ≤ length bytes.now }
{
    let mut count = 0;
    let mut rest = bytes;
    while let Some((_, after)) = split_line(rest) {
        count += 1;
        rest = after;
    }
    count
}
