// Where a piece of some bytes ends: a line of a text, a word of a line.
ghost use Rattle.std.specs.Prelude.{◌≡◌, ◌+◌, ◌≤◌, length, drop};
ghost use Rattle.trace.specs.Pieces.{pieces, first};

// The place of the first `separator` from `at` on, or the end of the bytes where there is none.
pub(crate) fn piece_end(bytes: &[u8], at: usize, separator: u8) -> usize
    requires { at ≤ length bytes.now }
    ensures place { result ≡ at + length (first (pieces separator (drop at bytes.now))) }
    ensures within { result ≤ length bytes.now }
{
    for end in at..bytes.len() {
        if bytes[end] == separator {
            return end;
        }
    }
    bytes.len()
}
