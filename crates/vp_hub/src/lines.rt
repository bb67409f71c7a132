//! The lines of a connection's bytes.

ghost use Rattle.std.specs.Prelude.{◌==◌, IfSome, position, ◌≡◌, ◌≤◌, ◌<◌, take, length};
ghost use Rattle.vp_hub.specs.Lines.{IsLine};

fn line_feed(bytes: &[u8]) -> Option<usize>
    ensures place { result ≡ position (λ b. b == 10) bytes.now }
    ensures there { IfSome result (λ i. i < length bytes.now) }
{
    bytes.iter().position(|b| *b == b'\n')
}

/// The length of the first line with its line feed, or of all bytes.
pub(crate) fn first_line(bytes: &[u8]) -> usize
    ensures most { result ≤ length bytes.now }
    ensures some { 0 < length bytes.now → 0 < result }
    ensures line { IsLine (take result bytes.now) }
{
    match line_feed(bytes) {
        Some(place) => place + 1,
        None => bytes.len(),
    }
}
