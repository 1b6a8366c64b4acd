//! Places in a program's text.

ghost use Rattle.std.specs.Prelude.{◌≡◌, ◌-◌, ◌≤◌, ◌==◌, not, length};
ghost use Rattle.std.specs.List.{suffix_len};
ghost use Rattle.kahn_streams.specs.Place.{line_of, column_of};

/// A half-open range of bytes of the text: from `from`, up to but without `to`.
#[derive(Clone, Copy, Debug, PartialEq, Eq)]
pub struct Span {
    /// The first byte, counted from 0.
    pub from: usize,
    /// The byte after the last one.
    pub to: usize,
}

impl Span {
    /// Returns the line and the column of the span's first byte in its text, both from 1. The column counts bytes.
    pub fn place(&self, text: &str) -> (usize, usize)
        requires { self.now.from ≤ length text.now }
        ensures line { result.0 ≡ line_of text.now self.now.from }
        ensures column { result.1 ≡ column_of text.now self.now.from }
    {
        let before = &text.as_bytes()[..self.from];
        let line = before.iter().filter(|byte| **byte == b'\n').count() + 1;
        let column = before.len() - line_start(before) + 1;
        (line, column)
    }
}

/// Returns where the last line of a text begins.
#[tactic(auto, using(std::proofs::lemmas::List::Sums::suffix_len_is))]
fn line_start(text: &[u8]) -> usize
    ensures within { result ≤ length text.now }
    ensures line { length text.now - result ≡ suffix_len (λ b. not (b == 10)) text.now }
{
    let mut at = text.len();
    'bytes: while at > 0 && text[at - 1] != b'\n' {
        at -= 1;
    }
    at
}
