//! A note as data, and how it is written as lines.

ghost use Rattle.std.specs.Prelude.{◌≡◌, ◌++◌, IfOk, string_bytes};
ghost use Rattle.kahn_diagnostic.specs.{Marks.carets_of, Marks.heading, Marks.marked_as, Marks.rows_text, Notes.IsRendered, Notes.fix_text, Notes.head_text, Notes.line_below, Notes.sort_words};

use crate::fixes::add_fix_words;
use crate::lines::Lines;
use crate::rows::{Row, add_row};
use itoa::Buffer;
use kahn_streams::Span;
use kahn_texts::{add, add_repeated, add_shown_text};
use std::alloc::{AllocError, Global};

/// How serious a note is.
#[derive(Clone, Copy, PartialEq, Eq)]
pub enum Sort {
    /// The text is refused.
    Error,
    /// The text is allowed, and seldom meant.
    Warning,
    /// Another place that has to do with an error or a warning.
    Note,
}

/// A change of a text: a part of it, which may be empty, is replaced by a text, which may be empty.
#[derive(Drop)]
pub struct Fix {
    /// The part that is replaced.
    pub span: Span,
    /// What replaces it, without the blanks around it.
    pub put: String,
    /// The lexeme next to it, after which something is inserted, or before which.
    pub beside: Span,
}

/// Another place that has to do with what is said.
#[derive(Drop)]
pub struct Other {
    /// The place.
    pub span: Span,
    /// What is said of it.
    pub words: String,
}

/// What is said of a part of a text.
#[derive(Drop)]
pub struct Note {
    /// How serious it is.
    pub sort: Sort,
    /// The part of the text that it is about.
    pub span: Span,
    /// What is said.
    pub words: String,
    /// The one change that mends it, where one is known.
    pub fix: Option<Fix>,
    /// Sentences that stand below it.
    pub below: Vec<String>,
    /// Other places that have to do with it.
    pub others: Vec<Other>,
}

/// A note that has words alone.
pub fn simple(alloc: Global, sort: Sort, span: Span, words: &str) -> Result<Note, AllocError>
    ensures sort { IfOk result (λ note. note.sort ≡ sort) }
    ensures span { IfOk result (λ note. note.span ≡ span) }
    ensures words { IfOk result (λ note. string_bytes note.words ≡ words.now) }
{
    Ok(Note {
        sort,
        span,
        words: String::from_str(alloc, words)?,
        fix: None,
        below: Vec::new(alloc),
        others: Vec::new(alloc),
    })
}

fn sort_words(sort: Sort) -> &'static str
    ensures { result.now ≡ sort_words sort }
{
    match sort {
        Sort::Error => "error",
        Sort::Warning => "warning",
        Sort::Note => "note",
    }
}

/// The carets below a part: one at least.
fn carets(alloc: Global, source: &str, near: Span, part: Span) -> Result<String, AllocError>
    ensures { IfOk result (λ text. string_bytes text ≡ carets_of source.now near part) }
{
    let mut text = String::new(alloc);
    add_row(&mut text, source, Row::Carets, near, part)?;
    if text.is_empty() {
        text.push_str("^")?;
    }
    Ok(text)
}

/// Adds what is shown of the source line of a part, with its number, and below it blanks, and carets under the part.
fn add_rows(
    note: &mut String,
    alloc: Global,
    source: &str,
    number: &str,
    near: Span,
    part: Span,
) -> Result<(), AllocError>
    ensures { IfOk result (λ _. string_bytes note.new ≡ string_bytes note.old ++ rows_text source.now number.now near part) }
{
    add(note, &[" ", number, " | "])?;
    add_row(note, source, Row::Source, near, part)?;
    note.push_str("\n ")?;
    add_repeated(note, " ", number.len())?;
    note.push_str(" | ")?;
    add_row(note, source, Row::Blanks, near, part)?;
    note.push_str(carets(alloc, source, near, part)?.as_str())?;
    note.push_str("\n")
}

/// Adds the heading of a note: `PATH:LINE:COLUMN: SORT: WORDS`.
fn add_heading(
    note: &mut String,
    sort: &str,
    path: &str,
    text: &Lines<'_>,
    from: usize,
    words: &str,
) -> Result<(), AllocError>
    ensures { IfOk result (λ _. string_bytes note.new ≡ string_bytes note.old ++ heading sort.now path.now text.now from words.now) }
{
    note.push_str(path)?;
    text.add_spot(note, ":", from)?;
    add(note, &[": ", sort, ": "])?;
    add_shown_text(note, words)?;
    note.push_str("\n")
}

/// Adds a note of a sort on a part of the text of a file, in three lines: its heading, the line where the part begins, and carets under the
/// part. A part that begins beyond the text is told as the text's end. It refuses only where memory was refused.
fn add_marked(
    note: &mut String,
    alloc: Global,
    sort: &str,
    path: &str,
    text: &Lines<'_>,
    span: Span,
    words: &str,
) -> Result<(), AllocError>
    ensures { IfOk result (λ _. string_bytes note.new ≡ string_bytes note.old ++ marked_as sort.now path.now text.now span words.now) }
{
    let (line, _) = text.place(span.from);
    let mut buffer = Buffer::new();
    let number = buffer.format(line);
    add_heading(note, sort, path, text, span.from, words)?;
    let source = text.text();
    let from = span.from.min(source.len());
    let part = Span { from, to: span.to };
    add_rows(note, alloc, source, number, text.near(from), part)
}

/// Adds a line below the carets under a part.
fn add_remark(
    lines: &mut String,
    text: &Lines<'_>,
    span: Span,
    words: &str,
) -> Result<(), AllocError>
    ensures { IfOk result (λ _. string_bytes lines.new ≡ string_bytes lines.old ++ line_below text.now span words.now) }
{
    let (line, _) = text.place(span.from);
    let mut buffer = Buffer::new();
    let number = buffer.format(line);
    lines.push_str(" ")?;
    add_repeated(lines, " ", number.len())?;
    lines.push_str(" = ")?;
    add_shown_text(lines, words)?;
    lines.push_str("\n")
}

/// Adds the line of the change, if there is one.
fn add_fix(
    lines: &mut String,
    alloc: Global,
    text: &Lines<'_>,
    note: &Note,
) -> Result<(), AllocError>
    ensures { IfOk result (λ _. string_bytes lines.new ≡ string_bytes lines.old ++ fix_text text.now note.now.span note.now.fix) }
{
    let Some(fix) = &note.fix else {
        return Ok(());
    };
    let mut words = String::new(alloc);
    add_fix_words(&mut words, text, note.span, fix)?;
    add_remark(lines, text, note.span, words.as_str())
}

/// Adds the place of a note with its words, and the change.
fn add_head(
    lines: &mut String,
    alloc: Global,
    path: &str,
    text: &Lines<'_>,
    note: &Note,
) -> Result<(), AllocError>
    ensures { IfOk result (λ _. string_bytes lines.new ≡ string_bytes lines.old ++ head_text path.now text.now note.now) }
{
    let sort = sort_words(note.sort);
    let words = note.words.as_str();
    add_marked(lines, alloc, sort, path, text, note.span, words)?;
    add_fix(lines, alloc, text, note)
}

/// Returns a note on a text whose lines were counted, as lines: `PATH:LINE:COLUMN: SORT: WORDS`, the source line with carets, the
/// change, the sentences below, and then the other places. What would drive a terminal is shown as U+FFFD. Fails only if memory is
/// refused.
pub fn render_in(
    alloc: Global,
    path: &str,
    text: &Lines<'_>,
    note: &Note,
) -> Result<String, AllocError>
    ensures { IfOk result (λ lines. IsRendered path.now text.now note.now (string_bytes lines)) }
{
    let mut lines = String::new(alloc);
    add_head(&mut lines, alloc, path, text, note)?;
    for sentence in &note.below {
        add_remark(&mut lines, text, note.span, sentence.as_str())?;
    }
    for other in &note.others {
        let words = other.words.as_str();
        add_marked(&mut lines, alloc, "note", path, text, other.span, words)?;
    }
    Ok(lines)
}

/// Returns the same of a text whose lines weren't counted. Fails only if memory is refused.
pub fn render(alloc: Global, path: &str, text: &str, note: &Note) -> Result<String, AllocError>
    ensures { IfOk result (λ lines. IsRendered path.now text.now note.now (string_bytes lines)) }
{
    let text = Lines::new(alloc, text)?;
    render_in(alloc, path, &text, note)
}
