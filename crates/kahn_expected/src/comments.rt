//! The comments of a text, which of them has to do with what stands at a place behind it, and what one has behind its first line that reads
//! like a part of a program.

ghost use Rattle.std.specs.Prelude.{◌≡◌, ◌↔◌, ◌≤◌, ◌<◌, ℕ, IfOk, IfSome, IsTrue, Some, length, slice_get};
ghost use Rattle.kahn_syntax.specs.Texts.{Gap, IsBlank, IsComment};
ghost use Rattle.kahn_expected.specs.{Comments.AreComments, Comments.EndsLine, inner.Passing.Passed};

use kahn_streams::NoMemory;
use kahn_syntax::{Span, lex};
use std::alloc::{AllocError, Global};

/// Whether it is a space, a tab, a CR or an LF.
fn is_blank(b: u8) -> bool
    ensures { IsTrue result ↔ IsBlank b }
{
    b == b' ' || b == b'\t' || b == b'\r' || b == b'\n'
}

/// Where a comment ends that begins here.
fn comment_end(text: &[u8], from: usize) -> usize
    requires { (b : ℕ) × IsComment text.now from b }
    ensures { IsComment text.now from result }
{
    let mut at = from;
    'bytes: while text[at] != b';' {
        at += 1;
    }
    at + 1
}

/// Adds the comments between two lexemes.
fn add_gap(comments: &mut Vec<Span>, text: &[u8], from: usize, to: usize) -> Result<(), AllocError>
    requires gap { Gap text.now from to }
    requires inside { to ≤ length text.now }
    ensures { IfOk result (λ _. (a : ℕ) → Passed text.now a comments.old.items from → Passed text.now a comments.new.items to) }
{
    let mut at = from;
    'gap: while at < to {
        if is_blank(text[at]) {
            at += 1;
        } else {
            let end = comment_end(text, at);
            comments.push(Span { from: at, to: end })?;
            at = end;
        }
    }
    Ok(())
}

/// The comments of a text that has lexemes, in order. It refuses only where memory was refused.
pub fn comments_of(alloc: Global, text: &str) -> Result<Vec<Span>, NoMemory>
    ensures { IfOk result (λ cs. AreComments text.now 0 cs.items) }
{
    // A text that has lexemes is refused for want of memory alone.
    let Ok(lexemes) = lex(alloc, text) else {
        return Err(NoMemory);
    };
    let bytes = text.as_bytes();
    let mut comments = Vec::new(alloc);
    let mut at = 0;
    for lexeme in &lexemes {
        add_gap(&mut comments, bytes, at, lexeme.span.from)?;
        at = lexeme.span.to;
    }
    add_gap(&mut comments, bytes, at, bytes.len())?;
    Ok(comments)
}

/// What stands from one place of a text to another; nothing where that isn't within the text.
pub fn bytes_between(text: &str, from: usize, to: usize) -> &[u8] {
    text.as_bytes().get(from..to).unwrap_or(&[])
}

/// Whether it is a letter, a digit or `_`.
pub fn is_of_word(b: u8) -> bool {
    b.is_ascii_alphanumeric() || b == b'_'
}

/// Whether a text begins with a word, in any letter case, and no letter, digit or `_` goes on behind it.
pub fn has_word(word: &[u8], text: &[u8]) -> bool {
    let (first, rest) = (text.get(..word.len()), text.get(word.len()..));
    let next = rest.unwrap_or(&[]).first().copied().unwrap_or(b' ');
    first.is_some_and(|first| first.eq_ignore_ascii_case(word)) && !is_of_word(next)
}

/// Whether a word stands on the first line of a text, in any letter case.
fn line_has(word: &[u8], text: &[u8]) -> bool {
    let end = text.iter().position(|byte| *byte == b'\n');
    let line = text.get(..end.unwrap_or(text.len())).unwrap_or(text);
    let mut words = line.split(|byte| !is_of_word(*byte));
    words.any(|one| one.eq_ignore_ascii_case(word))
}

/// Whether a text begins with `send`, `print` or `repeat`, or with `if` or `while` and has `then` or `do` on that line; or with `begin` or
/// `end`, where these are looked for too.
fn has_statement(text: &[u8], blocks: bool) -> bool {
    has_word(b"send", text)
        || has_word(b"print", text)
        || has_word(b"repeat", text)
        || (has_word(b"if", text) && line_has(b"then", text))
        || (has_word(b"while", text) && line_has(b"do", text))
        || (blocks && (has_word(b"begin", text) || has_word(b"end", text)))
}

/// Whether `:=` or a line with a statement begins between two bytes, at the first of which a line begins.
fn has_part(text: &[u8], from: usize, to: usize, blocks: bool) -> bool {
    let mut line = true;
    for at in from..to {
        let rest = text.get(at..).unwrap_or(&[]);
        if rest.starts_with(b":=") || (line && has_statement(rest, blocks)) {
            return true;
        }
        let byte = rest.first().copied().unwrap_or(b'\n');
        line = byte == b'\n' || (line && is_blank(byte));
    }
    false
}

/// The first line feed between two bytes.
fn line_feed(text: &[u8], from: usize, to: usize) -> Option<usize>
    ensures { IfSome result (λ e. (from ≤ e) × (e < to) × (slice_get text.now e ≡ Some 10)) }
{
    for at in from..to {
        if let Some(byte) = text.get(at).copied() {
            if byte == b'\n' {
                return Some(at);
            }
        }
    }
    None
}

/// Whether a line ends between two bytes of a text, and behind that `:=` or a line with a statement begins; or a line with `begin` or `end`,
/// where these are looked for too.
pub fn swallows(text: &[u8], from: usize, to: usize, blocks: bool) -> bool
    ensures { IsTrue result → EndsLine text.now from to }
{
    match line_feed(text, from, to) {
        Some(end) => has_part(text, end.saturating_add(1), to, blocks),
        None => false,
    }
}

/// The byte from which on no line ends, or blanks alone stand.
fn beside_from(text: &[u8]) -> usize {
    let line = text.iter().rposition(|byte| *byte == b'\n');
    let dark = text.iter().rposition(|byte| !is_blank(*byte));
    match (line, dark) {
        (Some(line), Some(dark)) => line.min(dark).saturating_add(1),
        _ => 0,
    }
}

/// The last comment in the text before a byte that has to do with what stands there: it ends on the same line or right before it,
/// or it goes on over a line's end and what reads like a statement, or like the beginning or the end of a block. It refuses only
/// where memory was refused.
pub fn comment_before(alloc: Global, text: &str, at: usize) -> Result<Option<Span>, NoMemory> {
    let before = text.get(..at).unwrap_or(text);
    let comments = comments_of(alloc, before)?;
    let bytes = before.as_bytes();
    let beside = beside_from(bytes);
    for comment in comments.iter().rev() {
        if beside <= comment.to || swallows(bytes, comment.from, comment.to, true) {
            return Ok(Some(*comment));
        }
    }
    Ok(None)
}
