//! Which line of an input text is at fault, where its words stand, and which of them is at fault.

ghost use Rattle.std.specs.Prelude.{◌≡◌, ◌+◌, ◌<◌, ◌≤◌, IfSome, IsFalse, IsTrue, MatchOption, length, slice_get, ◌↔◌};
ghost use Rattle.std.specs.List.{position, position_or_len};
ghost use Rattle.kahn_texts.specs.Formats.{AreBlanks, content as content_of, is_blank};
ghost use Rattle.kahn_input_notes.specs.{Fitting.AreAllFit, Fitting.IsFitPart, Fitting.IsUnfitWord, Fitting.IsUnfit, Fitting.IsUnfitSpan, Fitting.colon_at, Fitting.dark_span, Fitting.is_letter, Fitting.lack_place, Fitting.moved_by, Fitting.line_name, Fitting.name_span, Fitting.part_of, Seeking.CountsAs, Seeking.IsFirstNamed, Seeking.IsFound, Seeking.IsNamedNowhere, Seeking.IsUnfound, Seeking.has_line_name};

use kahn_streams::{Kind, Span};
use kahn_texts::{blanks, is_blank, value_of, word_bytes};

/// The most bytes of a name.
const MOST_NAME_BYTES: usize = 64;

/// A line of an input text.
#[derive(Clone, Copy)]
pub(crate) struct FoundLine<'a> {
    /// The byte at which it begins.
    pub from: usize,
    /// The line without its end.
    pub line: &'a [u8],
}

fn first_blank(bytes: &[u8]) -> Option<usize>
    ensures { result ≡ position is_blank bytes.now }
{
    bytes.iter().position(|byte| is_blank(*byte))
}

/// How many bytes stand before the first blank.
#[tactic(auto, using(kahn_texts::proofs::Scanned::stop_of))]
fn dark_bytes(bytes: &[u8]) -> usize
    ensures within { result ≤ length bytes.now }
    ensures stop { result ≡ position_or_len is_blank bytes.now }
{
    first_blank(bytes).unwrap_or(bytes.len())
}

pub(crate) fn name_span(line: &[u8]) -> Span
    ensures order { result.from ≤ result.to }
    ensures within { result.to ≤ length line.now }
    ensures span { result ≡ name_span line.now }
{
    let from = blanks(line);
    let to = from + word_bytes(&line[from..]);
    Span { from, to }
}

pub(crate) fn part_of(line: &[u8], span: Span) -> &[u8]
    requires order { span.from ≤ span.to }
    requires within { span.to ≤ length line.now }
    ensures { result.now ≡ part_of line.now span }
{
    &line[span.from..span.to]
}

pub(crate) fn line_name(line: &[u8]) -> &[u8]
    ensures { result.now ≡ line_name line.now }
{
    part_of(line, name_span(line))
}

/// The same part of a text, where the line begins at this byte.
pub(crate) fn moved_by(by: usize, span: Span) -> Span
    requires from { by + span.from ≤ usize.MAX }
    requires to { by + span.to ≤ usize.MAX }
    ensures from { result.from ≡ by + span.from }
    ensures to { result.to ≡ by + span.to }
    ensures span { result ≡ moved_by by span }
{
    Span {
        from: by + span.from,
        to: by + span.to,
    }
}

/// Where the colon behind the name stands.
pub(crate) fn colon_at(line: &[u8]) -> usize
    ensures within { result ≤ length line.now }
    ensures place { result ≡ colon_at line.now }
{
    let to = name_span(line).to;
    to + blanks(&line[to..])
}

/// What stands from there on, up to a blank.
fn dark_span(line: &[u8], at: usize) -> Span
    requires { at ≤ length line.now }
    ensures order { result.from ≤ result.to }
    ensures within { result.to ≤ length line.now }
    ensures span { result ≡ dark_span line.now at }
{
    Span {
        from: at,
        to: at + dark_bytes(&line[at..]),
    }
}

fn has_letter(line: &[u8], at: usize) -> bool
    ensures { result ≡ is_letter (slice_get line.now at) }
{
    match line.get(at) {
        Some(byte) => byte.is_ascii_alphabetic(),
        None => false,
    }
}

/// Where a line goes wrong that doesn't begin with a name and a colon, and what is wanted there.
pub(crate) fn lack_of(line: &[u8]) -> (Span, &'static str)
    ensures order { result.0.from ≤ result.0.to }
    ensures within { result.0.to ≤ length line.now }
    ensures span { result.0 ≡ lack_place line.now }
{
    let name = name_span(line);
    if !has_letter(line, name.from) {
        let span = dark_span(line, name.from);
        return (span, "; a line begins with the name of a channel");
    }
    if name.to - name.from > MOST_NAME_BYTES {
        return (name, "; a name has at most 64 characters");
    }
    let span = dark_span(line, colon_at(line));
    (span, "; a colon stands behind the name")
}

/// Whether a part between blanks is a value of the kind, or any where none is asked for, or nothing.
fn is_fit_part(asked: Option<Kind>, part: &[u8]) -> bool
    ensures fit { IsTrue result → IsFitPart asked part.now }
    ensures unfit { IsFalse result → (0 < length part.now) × IsUnfitWord asked part.now }
{
    if part.is_empty() {
        return true;
    }
    match (value_of(part), asked) {
        (None, _) => false,
        (Some(_), None) => true,
        (Some(value), Some(kind)) => value.kind() == kind,
    }
}

/// Returns the byte after a piece that begins at `from` and the separator after it.
pub(crate) fn past(_bytes: &[u8], from: usize, piece: &[u8]) -> usize
    requires { from + length piece.now ≤ length _bytes.now }
    ensures { result ≡ from + length piece.now + 1 }
{
    from + piece.len() + 1
}

/// The first word that is no such value.
pub(crate) fn first_unfit(asked: Option<Kind>, bytes: &[u8]) -> Option<Span>
    ensures order { IfSome result (λ span. span.from ≤ span.to) }
    ensures within { IfSome result (λ span. span.to ≤ length bytes.now) }
    ensures first { MatchOption result (AreAllFit asked bytes.now) (IsUnfit asked bytes.now) }
{
    let mut from = 0;
    for word in bytes.split(|byte| *byte == b' ' || *byte == b'\t') {
        let further = past(bytes, from, word);
        if !is_fit_part(asked, word) {
            let to = further - 1;
            return Some(Span { from, to });
        }
        from = further;
    }
    None
}

/// The first word behind the colon that is no such value, or the name where all are.
pub(crate) fn unfit_span(asked: Option<Kind>, line: &[u8]) -> Span
    ensures order { result.from ≤ result.to }
    ensures within { result.to ≤ length line.now }
    ensures span { IsUnfitSpan asked line.now result }
{
    let from = (colon_at(line) + 1).min(line.len());
    match first_unfit(asked, &line[from..]) {
        Some(span) => moved_by(from, span),
        None => name_span(line),
    }
}

/// A line without one carriage return before its end.
pub(crate) fn content(line: &[u8]) -> &[u8]
    ensures within { length result.now ≤ length line.now }
    ensures line { result.now ≡ content_of line.now }
{
    match line.last() {
        Some(b'\r') => &line[..line.len() - 1],
        _ => line,
    }
}

/// How much a line counts: each one, or entries alone, which aren't blank.
fn count_in(entries: bool, line: &[u8]) -> usize
    ensures { CountsAs entries line.now result }
{
    let is_skipped = entries && line.iter().all(|byte| is_blank(*byte));
    if is_skipped { 0 } else { 1 }
}

/// Finds line `number` from 0; with `entries`, blank lines don't count.
pub(crate) fn find_line(text: &str, entries: bool, number: usize) -> Option<FoundLine<'_>>
    ensures { MatchOption result (IsUnfound text.now entries number) (λ f. IsFound text.now entries number f.from f.line.now) }
{
    let mut from = 0;
    let mut left = number;
    for whole in text.as_bytes().split(|byte| *byte == b'\n') {
        let line = content(whole);
        let more = count_in(entries, line);
        let further = past(text.as_bytes(), from, whole);
        if more > left {
            return Some(FoundLine { from, line });
        }
        left -= more;
        from = further;
    }
    None
}

fn has_line_name(line: &[u8], name: &[u8]) -> bool
    ensures { result ≡ has_line_name name.now line.now }
{
    line_name(line) == name
}

/// Where the name of a line that begins at this byte stands in the text.
fn placed_name(_text: &str, from: usize, line: &[u8]) -> Span
    requires { from + length line.now ≤ length _text.now }
    ensures { result ≡ moved_by from (name_span line.now) }
{
    moved_by(from, name_span(line))
}

/// Where the name of the first line that begins with this one stands.
pub(crate) fn first_named(text: &str, name: &[u8]) -> Option<Span>
    ensures { MatchOption result (IsNamedNowhere text.now name.now) (IsFirstNamed text.now name.now) }
{
    let mut from = 0;
    for line in text.as_bytes().split(|byte| *byte == b'\n') {
        let further = past(text.as_bytes(), from, line);
        if has_line_name(line, name) {
            return Some(placed_name(text, from, line));
        }
        from = further;
    }
    None
}
