//! Changes of a text: what an editor puts there, how a change is reported, and the text with it.

ghost use Rattle.std.specs.Prelude.{◌≡◌, ◌++◌, IfOk, IfSome, string_bytes};
ghost use Rattle.kahn_diagnostic.specs.{Fixes.blank_if, Fixes.byte_before, Fixes.change_words, Fixes.fix_words, Fixes.is_apart, Fixes.is_boundary};
ghost use Rattle.kahn_diagnostic.specs.Fixes.{is_dark, is_followed, is_mark, is_of_word, is_part};
ghost use Rattle.kahn_diagnostic.specs.{Fixes.is_word_letter, Fixes.part_text, Fixes.place_words, Fixes.put_text, Fixes.side_words, Notes.IsApplied};

use crate::lines::Lines;
use crate::rendering::Fix;
use kahn_streams::Span;
use kahn_texts::add;
use std::alloc::{AllocError, Global};

/// Whether a character begins at byte `at`, or the text ends there.
fn is_boundary(text: &str, at: usize) -> bool
    ensures { result ≡ is_boundary text.now at }
{
    let bytes = text.as_bytes();
    at == bytes.len() || at < bytes.len() && (bytes[at] < 128 || 192 <= bytes[at])
}

fn is_part(text: &str, span: Span) -> bool
    ensures { result ≡ is_part text.now span }
{
    span.from <= span.to && is_boundary(text, span.from) && is_boundary(text, span.to)
}

/// Returns a part of a text, or nothing if no characters begin and end there.
#[tactic(auto, using(crate::proofs::Boundaries::from_part, crate::proofs::Boundaries::to_part, crate::proofs::Boundaries::in_order))]
pub fn part_of(text: &str, span: Span) -> &str
    ensures { result.now ≡ part_text text.now span }
{
    if is_part(text, span) {
        return &text[span.from..span.to];
    }
    ""
}

fn is_word_letter(byte: u8) -> bool
    ensures { result ≡ is_word_letter byte }
{
    byte.is_ascii_alphanumeric() || byte == b'_'
}

/// Whether a byte is a letter, a digit or `_`.
fn is_of_word(byte: Option<u8>) -> bool
    ensures { result ≡ is_of_word byte }
{
    match byte {
        Some(byte) => is_word_letter(byte),
        None => false,
    }
}

/// Whether there is a byte, and it isn't a blank.
fn is_dark(byte: Option<u8>) -> bool
    ensures { result ≡ is_dark byte }
{
    match byte {
        Some(byte) => byte != b' ',
        None => false,
    }
}

/// Whether it is a sign before which no blank is needed: a bracket, a comma or a semicolon.
fn is_mark(put: &[u8]) -> bool
    ensures { result ≡ is_mark put.now }
{
    let first = put.first().copied().unwrap_or(0);
    put.len() == 1 && (first == b';' || first == b',' || first == b')' || first == b'(')
}

fn byte_before(text: &[u8], at: usize) -> Option<u8>
    ensures { result ≡ byte_before text.now at }
{
    if at == 0 {
        return None;
    }
    text.get(at - 1).copied()
}

/// Whether a blank comes before what is put: between two words, and before what is inserted, unless that is such a sign.
fn is_apart(text: &[u8], put: &[u8], span: Span) -> bool
    ensures { result ≡ is_apart text.now put.now span }
{
    let before = byte_before(text, span.from);
    let is_free = span.from == span.to && !is_mark(put) && is_dark(before);
    is_free || is_of_word(before) && is_of_word(put.first().copied())
}

/// Whether a blank comes after what is put: between two words.
fn is_followed(text: &[u8], put: &[u8], span: Span) -> bool
    ensures { result ≡ is_followed text.now put.now span }
{
    let last = put.last().copied().or(byte_before(text, span.from));
    is_of_word(last) && is_of_word(text.get(span.to).copied())
}

fn blank_if(is_there: bool) -> &'static str
    ensures { result.now ≡ blank_if is_there }
{
    if is_there { " " } else { "" }
}

/// Returns what an editor puts in the place of `fix.span`, with blanks where two words would grow together. Fails only if memory is
/// refused.
pub fn padded(alloc: Global, text: &str, fix: &Fix) -> Result<String, AllocError>
    ensures { IfOk result (λ put. string_bytes put ≡ put_text text.now fix.now) }
{
    let (bytes, put) = (text.as_bytes(), fix.put.as_str());
    let is_front = is_apart(bytes, put.as_bytes(), fix.span);
    let is_back = is_followed(bytes, put.as_bytes(), fix.span);
    let mut all = String::from_str(alloc, blank_if(is_front))?;
    all.push_str(put)?;
    all.push_str(blank_if(is_back))?;
    Ok(all)
}

/// Returns the text with a change, or nothing if no characters begin and end there. Fails only if memory is refused.
pub fn applied(alloc: Global, text: &str, fix: &Fix) -> Result<Option<String>, AllocError>
    ensures { IfOk result (λ new. IfSome new (λ new. IsApplied text.now fix.now (string_bytes new))) }
{
    let Some((before, _)) = text.split_at_checked(fix.span.from) else {
        return Ok(None);
    };
    let Some((_, after)) = text.split_at_checked(fix.span.to) else {
        return Ok(None);
    };
    let put = padded(alloc, text, fix)?;
    let mut new = String::from_str(alloc, before)?;
    new.push_str(put.as_str())?;
    new.push_str(after)?;
    Ok(Some(new))
}

fn side_words<'t>(fix: &'t Fix) -> &'t str
    ensures { result.now ≡ side_words fix.now }
{
    if fix.beside.to <= fix.span.from {
        "` after `"
    } else {
        "` before `"
    }
}

/// Adds what a change does, in words.
fn add_change<'t>(words: &mut String, text: &'t str, fix: &'t Fix) -> Result<(), AllocError>
    ensures { IfOk result (λ _. string_bytes words.new ≡ string_bytes words.old ++ change_words text.now fix.now) }
{
    let (old, put) = (part_of(text, fix.span), fix.put.as_str());
    if put.is_empty() {
        return add(words, &["remove `", old, "`"]);
    }
    if fix.span.from == fix.span.to {
        let (side, beside) = (side_words(fix), part_of(text, fix.beside));
        return add(words, &["insert `", put, side, beside, "`"]);
    }
    add(words, &["replace `", old, "` with `", put, "`"])
}

/// Adds the place of a change, if that isn't where the note on `span` is.
fn add_place(words: &mut String, text: &Lines<'_>, span: Span, fix: &Fix) -> Result<(), AllocError>
    ensures { IfOk result (λ _. string_bytes words.new ≡ string_bytes words.old ++ place_words text.now span fix.now) }
{
    if fix.span.from == span.from {
        return Ok(());
    }
    text.add_spot(words, " at ", fix.span.from)
}

/// Adds `fix: `, what the change does, and its place if that isn't where the note on `span` is.
pub(crate) fn add_fix_words(
    words: &mut String,
    text: &Lines<'_>,
    span: Span,
    fix: &Fix,
) -> Result<(), AllocError>
    ensures { IfOk result (λ _. string_bytes words.new ≡ string_bytes words.old ++ fix_words text.now span fix.now) }
{
    words.push_str("fix: ")?;
    add_change(words, text.text(), fix)?;
    add_place(words, text, span, fix)
}
