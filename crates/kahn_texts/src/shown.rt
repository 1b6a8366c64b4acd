//! What is shown of a text: pieces, places, how many more there are, and characters. No character of a text drives a terminal, and none turns
//! its neighbours.

ghost use Rattle.std.specs.Prelude.{◌≡◌, ◌++◌, IfOk, drop, flat_map, string_bytes, take, ◌≤◌, chars, length};
ghost use Rattle.std.specs.Str.Lossy.{utf8_valid_len};
ghost use Rattle.kahn_streams.specs.Place.{line_of, column_of};
ghost use Rattle.kahn_texts.specs.Shown.{counted_text, ends_before, is_kept_back, more_ending, shown_character, shown_length, shown_part, shown_text, spot_text, times_over, unsaid_text};

use itoa::Buffer;
use kahn_streams::Span;
use std::alloc::AllocError;

/// How many bytes of a part of a line are shown in a sentence, and the rest of a character there.
const MOST_SHOWN: usize = 40;

/// Adds pieces, one after another.
pub fn add(text: &mut String, pieces: &[&str]) -> Result<(), AllocError>
    ensures { IfOk result (λ _. string_bytes text.new ≡ string_bytes text.old ++ flat_map (λ piece. piece.now) pieces.now) }
{
    for piece in pieces {
        text.push_str(piece)?;
    }
    Ok(())
}

/// Adds a piece so many times.
pub fn add_repeated(text: &mut String, piece: &str, times: usize) -> Result<(), AllocError>
    ensures { IfOk result (λ _. string_bytes text.new ≡ string_bytes text.old ++ times_over times piece.now) }
{
    for _time in 0..times {
        text.push_str(piece)?;
    }
    Ok(())
}

/// The line and the column of a byte of a text, or of its end where the text has no such byte.
pub fn place(text: &str, from: usize) -> (usize, usize)
    ensures line { result.0 ≡ line_of text.now from }
    ensures column { result.1 ≡ column_of text.now from }
{
    let from = from.min(text.len());
    Span { from, to: from }.place(text)
}

/// Adds them, behind a word.
pub fn add_spot(words: &mut String, before: &str, text: &str, from: usize) -> Result<(), AllocError>
    ensures { IfOk result (λ _. string_bytes words.new ≡ string_bytes words.old ++ spot_text before.now text.now from) }
{
    let (line, column) = place(text, from);
    add_counted(words, before, line, column)
}

/// Adds a line and a column behind a word.
pub fn add_counted(
    words: &mut String,
    before: &str,
    line: usize,
    column: usize,
) -> Result<(), AllocError>
    ensures { IfOk result (λ _. string_bytes words.new ≡ string_bytes words.old ++ counted_text before.now line column) }
{
    let mut first = Buffer::new();
    let mut second = Buffer::new();
    let (line, column) = (first.format(line), second.format(column));
    add(words, &[before, line, ":", column])
}

/// The first so many of a list, and those behind them.
pub fn first_ones<T>(all: &[T], most: usize) -> (&[T], &[T])
    ensures first { result.0.now ≡ take most all.now }
    ensures others { result.1.now ≡ drop most all.now }
{
    all.split_at(most.min(all.len()))
}

/// The end of a line that tells how many more there are.
fn more_ending(more: usize) -> &'static str
    ensures { result.now ≡ more_ending more }
{
    if more == 1 { " more\n" } else { "s more\n" }
}

/// Adds how many more of something there are than were told, behind what stands before that, where there are any.
pub fn add_more<'a>(
    text: &mut String,
    before: &'a str,
    what: &'a str,
    more: usize,
) -> Result<(), AllocError>
    ensures { IfOk result (λ _. string_bytes text.new ≡ string_bytes text.old ++ unsaid_text before.now what.now more) }
{
    if more == 0 {
        return Ok(());
    }
    let mut digits = Buffer::new();
    let count = digits.format(more);
    add(text, &[before, "and ", count, " ", what])?;
    text.push_str(more_ending(more))
}

/// Whether a terminal doesn't get a character as it is: a control character, or a format character that changes how or in which order
/// those beside it are shown, or takes no place.
pub fn is_kept_back(character: char) -> bool
    ensures { result ≡ is_kept_back character }
{
    let is_format = matches!(
        character,
        '\u{061C}' | '\u{200B}'..='\u{200F}' | '\u{2028}'..='\u{202E}' | '\u{2060}'..='\u{206F}' | '\u{FEFF}'
    );
    character.is_control() || is_format
}

/// Adds a character as it is shown: a tab as four blanks, and a control or format character as U+FFFD.
pub fn add_shown(text: &mut String, character: char) -> Result<(), AllocError>
    ensures { IfOk result (λ _. string_bytes text.new ≡ string_bytes text.old ++ shown_character character) }
{
    if character == '\t' {
        text.push_str("    ")
    } else if is_kept_back(character) {
        text.push('\u{FFFD}')
    } else {
        text.push(character)
    }
}

/// Adds a text, as a path, in the form of a source line.
pub fn add_shown_text(text: &mut String, shown: &str) -> Result<(), AllocError>
    ensures { IfOk result (λ _. string_bytes text.new ≡ string_bytes text.old ++ shown_text shown.now) }
{
    for character in shown.chars() {
        add_shown(text, character)?;
    }
    Ok(())
}

/// Whether what is shown of a part of a line ends before its character that begins at a byte.
fn ends_before(at: usize, character: char) -> bool
    ensures { result ≡ ends_before at character }
{
    is_kept_back(character) || at >= MOST_SHOWN
}

/// How many bytes of a text are shown.
fn shown_length(text: &str) -> usize
    ensures within { result ≤ length text.now }
    ensures shown { result ≡ shown_length 0 (chars text.now) }
{
    for (at, character) in text.char_indices() {
        if ends_before(at, character) {
            return at;
        }
    }
    text.len()
}

/// A part of a line as far as it is a text.
fn readable(part: &[u8]) -> &str
    ensures { result.now ≡ take (utf8_valid_len part.now) part.now }
{
    match part.utf8_chunks().next() {
        Some(chunk) => chunk.valid(),
        None => "",
    }
}

/// What is shown of a part of a line: its front.
pub fn shown_part(part: &[u8]) -> &[u8]
    ensures { result.now ≡ shown_part part.now }
{
    &part[..shown_length(readable(part))]
}
