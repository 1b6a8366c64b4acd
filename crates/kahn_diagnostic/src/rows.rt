//! Rows of a note: what is written of each character of a source line, and below it.

ghost use Rattle.std.specs.Prelude.{◌≡◌, ◌++◌, IfOk, string_bytes};
ghost use Rattle.kahn_diagnostic.specs.Marks.{columns, is_within, piece_of, shown_row};

use kahn_streams::Span;
use kahn_texts::{add_repeated, add_shown, is_kept_back};
use std::alloc::AllocError;
use unicode_width::UnicodeWidthChar;

/// The most notes of one sort.
pub const MOST_NOTES: usize = 20;

/// What is written of a source line.
#[derive(Clone, Copy)]
pub(crate) enum Row {
    /// The line.
    Source,
    /// Blanks below what stands before the part.
    Blanks,
    /// Carets below the part.
    Carets,
}

fn columns(character: char) -> usize
    ensures { result ≡ columns character }
{
    if character == '\t' {
        4
    } else if is_kept_back(character) {
        1
    } else {
        character.width().unwrap_or(0)
    }
}

fn is_within(part: Span, at: usize) -> bool
    ensures { result ≡ is_within part at }
{
    part.from <= at && at < part.to
}

/// Adds what one row has of the character that begins at byte `at` of the text.
fn add_piece(
    text: &mut String,
    row: Row,
    near: Span,
    part: Span,
    at: usize,
    character: char,
) -> Result<(), AllocError>
    ensures { IfOk result (λ _. string_bytes text.new ≡ string_bytes text.old ++ piece_of row near part at character) }
{
    if !is_within(near, at) {
        return Ok(());
    }
    match row {
        Row::Source => add_shown(text, character),
        Row::Blanks if at < part.from => add_repeated(text, " ", columns(character)),
        Row::Carets if is_within(part, at) => add_repeated(text, "^", columns(character)),
        Row::Blanks | Row::Carets => Ok(()),
    }
}

/// Adds a row of what is shown of a text, in the time of that.
pub(crate) fn add_row(
    text: &mut String,
    source: &str,
    row: Row,
    near: Span,
    part: Span,
) -> Result<(), AllocError>
    ensures { IfOk result (λ _. string_bytes text.new ≡ string_bytes text.old ++ shown_row row source.now near part) }
{
    let first = source.floor_char_boundary(near.from);
    let (_, behind) = source.split_at(first);
    for (at, character) in behind.char_indices() {
        let at = first + at;
        if at >= near.to {
            return Ok(());
        }
        add_piece(text, row, near, part, at, character)?;
    }
    Ok(())
}
