//! What is said of a lexeme that can't stand where it stands, or of a text that ends too early; of a comment before that; and of what goes
//! wrong before a character that isn't of the language.

ghost use Rattle.std.specs.Prelude.{◌≡◌, ◌++◌, IfOk, IfSome, length, string_bytes};
ghost use Rattle.std.specs.List.{concat};
ghost use Rattle.kahn_streams.specs.declared.span.Span.{Span};
ghost use Rattle.kahn_syntax.specs.{declared.fault.SyntaxFault.TheVariants.Expected, Texts.IsTextFault};
ghost use Rattle.kahn_program_notes.specs.{Notes.IsExpected, Notes.IsNoteAt, Notes.IsThereOrFixed, Notes.IsToldAt, Notes.Mends, Notes.listed, Notes.pieces_of, Notes.text_end_words, Notes.wanted_words, Words.any_words, Words.separator};

use crate::syntax::place::{
    Heading, MOST, Place, Saying, Words, mending, placed, put_behind, sentence,
};
use crate::syntax::rules::{FAR, character_fix, grammar_said};
use kahn_diagnostic::{Fix, Note, Other, Sort, part_of, simple};
use kahn_expected::{
    FaultPlace, LexemeGroup, Unexpected, Wanted, comment_before, has_word, is_of_word, place_at,
    reaches, sign_letters, swallows,
};
use kahn_streams::NoMemory;
use kahn_syntax::{Class, Lexeme, Span, SyntaxFault, What, lex};
use kahn_texts::{add, add_repeated};
use std::alloc::{AllocError, Global};

/// What a note has beside what was expected: a heading of its own, a change, and sentences, of which one is on the comment before it.
type Parts = (Heading, Option<Fix>, Vec<String>);

/// Returns what a class of lexemes is called, in three parts: prefix, word, suffix.
fn class_parts(class: Class) -> ((&'static str, &'static str), &'static str)
    ensures { result.0.0.now ++ (result.0.1.now ++ result.1.now) ≡ any_words class }
{
    match class {
        Class::Word(keyword) => (("`", keyword.letters()), "`"),
        Class::Name => (("a ", "name"), ""),
        Class::Number(_) => (("a ", "number"), ""),
        Class::Sign(sign) => (("`", sign_letters(sign)), "`"),
    }
}

/// How a class is written in the tables: the letters of a keyword or a sign, or what any of the class is.
pub(crate) fn class_word(class: Class) -> &'static str {
    let ((_, word), _) = class_parts(class);
    word
}

fn group_words(group: LexemeGroup) -> &'static str
    ensures { result.now ≡ wanted_words group }
{
    match group {
        LexemeGroup::Expression => "an expression",
        LexemeGroup::Operand => "an operand",
        LexemeGroup::Statement => "a statement",
        LexemeGroup::SimpleStatement => "a simple statement",
        LexemeGroup::Declaration => "a declaration",
        LexemeGroup::Operator => "an operator",
        LexemeGroup::Arithmetic => "an arithmetic operator",
    }
}

fn separator(left: usize) -> &'static str
    ensures { result.now ≡ separator left }
{
    match left {
        0 => "",
        1 => " or ",
        _ => ", ",
    }
}

/// Returns `the end of the text` and 1 if the text could end here, or else an empty string and 0.
fn end_piece(what: What) -> (&'static str, usize)
    ensures words { result.0.now ≡ concat (text_end_words what) }
    ensures count { result.1 ≡ length (text_end_words what) }
{
    match what {
        What::Nothing => ("the end of the text", 1),
        What::More | What::Other => ("", 0),
    }
}

/// Adds what may stand at a place, with commas between, and `or` before the last.
pub(crate) fn add_wanted(words: &mut String, wanted: &Wanted, what: What) -> Result<(), AllocError>
    ensures { IfOk result (λ _. string_bytes words.new ≡ string_bytes words.old ++ listed (pieces_of wanted.now what)) }
{
    let (end, ends) = end_piece(what);
    let mut left = wanted.groups.len() + wanted.others.len() + ends;
    for group in &wanted.groups {
        left -= 1;
        add(words, &[group_words(*group), separator(left)])?;
    }
    for class in &wanted.others {
        left -= 1;
        let ((open, word), close) = class_parts(*class);
        add(words, &[open, word, close, separator(left)])?;
    }
    add(words, &[end])
}

/// What is said of a comment: where it begins, and where it ends, on the same line or further on.
pub(crate) fn comment_words(alloc: Global, text: &str, comment: Span) -> Words {
    let words = if part_of(text, comment).contains('\n') {
        "the comment at # goes on to the `;` at @"
    } else {
        "the comment at # ends with the `;` at @"
    };
    let to = placed(alloc, text, "#", "", comment.to.saturating_sub(1))?;
    placed(alloc, text, words, to.as_str(), comment.from)
}

/// What is said of a comment that goes on over lines, if the text goes on with a `;` at the end of its first line.
pub(crate) fn unended_said(alloc: Global, text: &str, span: Span, comment: Span) -> Saying {
    let Some((line, _)) = part_of(text, comment).split_once("\n") else {
        return Ok(None);
    };
    let to = comment.from.saturating_add(line.trim_end().len());
    let first = Span { to, ..comment };
    let fix = put_behind(alloc, first, ";")?;
    let Some(fix) = mending(alloc, text, span, Some(fix))? else {
        return Ok(None);
    };
    let words = String::from_str(alloc, "a comment ends with `;`")?;
    Ok(Some((Some((first, words)), Some(fix), None)))
}

fn found_words(alloc: Global, text: &str, found: Option<Lexeme>) -> Words {
    match found {
        Some(lexeme) => sentence(alloc, "`@`", part_of(text, lexeme.span), ""),
        None => String::from_str(alloc, "the end of the text"),
    }
}

fn expected_words(alloc: Global, text: &str, what: What, unexpected: &Unexpected) -> Words
    ensures { IfOk result (λ words. IsExpected what unexpected.now (string_bytes words)) }
{
    let found = found_words(alloc, text, unexpected.found)?;
    let mut words = String::from_str(alloc, "expected ")?;
    add_wanted(&mut words, &unexpected.wanted, what)?;
    add(&mut words, &[", found ", found.as_str()])?;
    Ok(words)
}

/// What is said beside `expected ..`. If the comment before the place swallows code, this is at most the `;` that would end it
/// earlier.
fn said_of(alloc: Global, text: &str, span: Span, at: &FaultPlace, before: Option<Span>) -> Saying {
    if let Some(it) = before {
        let said = unended_said(alloc, text, span, it)?;
        if said.is_some() || swallows(text.as_bytes(), it.from, it.to, true) {
            return Ok(said);
        }
    }
    let mut all = Vec::new(alloc);
    if at.lexemes.len() <= MOST {
        all = reaches(alloc, &at.lexemes, at.number, FAR)?;
    }
    let far = all.iter().map(|reach| reach.to).max().unwrap_or(0);
    grammar_said(Place {
        alloc,
        text,
        lexemes: &at.lexemes,
        number: at.number,
        back: 0,
        span,
        wanted: &at.unexpected.wanted,
        reaches: &all,
        to: far.max(at.number.saturating_add(3)),
    })
}

fn heading_at(span: Span, fix: &Option<Fix>) -> Span
    ensures { IsThereOrFixed span fix.now result }
{
    match fix {
        Some(fix) => fix.span,
        None => span,
    }
}

/// The note on a place where something was expected, with a heading of its own or without.
fn note_at(alloc: Global, span: Span, expected: String, parts: Parts) -> Result<Note, AllocError>
    ensures told { IfOk result (IsToldAt span (string_bytes expected)) }
    ensures fix { IfOk result (λ note. note.fix ≡ parts.1) }
{
    let (head, fix, below) = parts;
    let mut note = simple(
        alloc,
        Sort::Error,
        heading_at(span, &fix),
        expected.as_str(),
    )?;
    note.fix = fix;
    note.below = below;
    let Some((at, words)) = head else {
        return Ok(note);
    };
    note.others.push(Other {
        span,
        words: expected,
    })?;
    note.span = at;
    note.words = words;
    Ok(note)
}

fn parts_at(alloc: Global, text: &str, span: Span, at: &FaultPlace) -> Result<Parts, NoMemory> {
    let comment = comment_before(alloc, text, span.from)?;
    let said = said_of(alloc, text, span, at, comment)?;
    let (head, fix, sentence) = said.unwrap_or((None, None, None));
    let mut below = Vec::new(alloc);
    if let Some(comment) = comment {
        below.push(comment_words(alloc, text, comment)?)?;
    }
    if let Some(sentence) = sentence {
        below.push(sentence)?;
    }
    Ok((head, fix, below))
}

/// Returns the note on a syntax error: what was expected, and the likeliest fix or hint (docs/faults-rules.md). Changes are tried
/// in texts of at most 8,192 lexemes. The heading is where the fix is. Fails only if memory is refused.
pub fn unexpected_note(alloc: Global, text: &str, span: Span, what: What) -> Result<Note, NoMemory>
    requires { IsTextFault text.now (Expected span what) }
    ensures { IfOk result (IsNoteAt text.now span what) }
{
    let place = place_at(alloc, text, span, what)?;
    let expected = expected_words(alloc, text, what, &place.unexpected)?;
    let (head, fix, below) = parts_at(alloc, text, span, &place)?;
    let fix = mending(alloc, text, span, fix)?;
    Ok(note_at(alloc, span, expected, (head, fix, below))?)
}

/// A text with blanks in the place of what is of no lexeme.
fn blanked(alloc: Global, text: &str) -> Words {
    let mut plain = String::new(alloc);
    for byte in text.bytes() {
        let is_of = byte.is_ascii_alphanumeric() || b" \t\r\n_;:=()+-*<>,".contains(&byte);
        plain.push(if is_of { char::from(byte) } else { ' ' })?;
    }
    Ok(plain)
}

/// A note on a part of a text where its lexemes go wrong, with these words; and below it the comment before the part that ends right
/// before it or on its line, or goes on over what reads like a statement. It refuses only where memory was refused.
pub fn commented_note(alloc: Global, text: &str, span: Span, words: &str) -> Result<Note, NoMemory>
    ensures span { IfOk result (λ note. note.span ≡ span) }
    ensures words { IfOk result (λ note. string_bytes note.words ≡ words.now) }
    ensures fix { IfOk result (λ note. IfSome note.fix (Mends text.now span)) }
{
    let plain = blanked(alloc, text)?;
    let mut note = simple(alloc, Sort::Error, span, words)?;
    note.fix = character_fix(alloc, text, plain.as_str(), span)?;
    if let Some(comment) = comment_before(alloc, text, span.from)? {
        note.below.push(comment_words(alloc, text, comment)?)?;
    }
    Ok(note)
}

/// Whether the second line of a comment begins with a kind, and a name stands behind that.
fn holds_name(text: &str, name: &str, comment: Span) -> bool {
    let Some((_, behind)) = part_of(text, comment).split_once("\n") else {
        return false;
    };
    let part = behind.trim().as_bytes();
    let mut words = part.split(|byte| !is_of_word(*byte));
    (has_word(b"integer", part) || has_word(b"logical", part))
        && words.any(|word| word == name.as_bytes())
}

/// Returns the line on the first comment that seems to hold the declaration of the name at `span`, or nothing.
pub fn held_remark(alloc: Global, text: &str, span: Span, comments: &[Span]) -> Words {
    let mut remark = String::new(alloc);
    let name = part_of(text, span);
    let mut all = comments.iter();
    if let Some(comment) = all.find(|comment| holds_name(text, name, **comment)) {
        let words = comment_words(alloc, text, *comment)?;
        let line = placed(alloc, text, "%", "", span.from)?;
        add_repeated(&mut remark, " ", line.len())?;
        add(&mut remark, &["  = ", words.as_str(), "\n"])?;
    }
    Ok(remark)
}
