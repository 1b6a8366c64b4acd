//! The lexer: from a text to its lexemes.

ghost use Rattle.std.specs.Prelude.{◌≡◌, ℕ, ◌+◌, ◌≤◌, ◌<◌, ◌↔◌, ◌∷◌, [], IsTrue, List, length, slice_index, All, IfOk, IfErr, IfSome, IfNone, IsCharBoundary};
ghost use Rattle.kahn_syntax.specs.{declared.lexeme.Lexeme.Lexeme, declared.lexeme.Sign.Sign, inner.Items.IsFormByte, inner.Items.IsItem, inner.Items.IsOfForm, inner.Items.form_end};
ghost use Rattle.kahn_syntax.specs.Texts.{IsBlank, IsDigit, IsLetter, IsWordByte, IsSign, HasForm, Closes, bytes_of_sign, IsWord, IsRun, IsLongest, IsFaultAt, IsLexFault, IsSlice, Lexed, most_bytes};

use crate::fault::SyntaxFault;
use crate::lexeme::{Class, Keyword, Lexeme, Sign};
use kahn_streams::Span;
use std::alloc::Global;

const MOST_BYTES: usize = 1_048_576;

const MOST_OF_NAME: usize = 64;

/// What is at a place: a lexeme, or a comment and the place after it.
#[derive(Clone, Copy)]
enum Item {
    Lexeme(Lexeme),
    Comment(usize),
}

/// A form that the text has at a place, with the place after it.
#[derive(Clone, Copy)]
pub enum LexemeForm {
    Word(usize),
    Run(usize),
    Sign(Sign, usize),
}

/// Reads the lexeme of a word, or the comment that it begins.
fn word_item(text: &str, span: Span) -> Result<Item, SyntaxFault>
    requires longest { IsLongest text.now span.from span.to }
    requires word { IsWord text.now span.from span.to }
    ensures item { IfOk result (IsItem text.now span.from) }
    ensures fault { IfErr result (IsFaultAt text.now span.from) }
{
    let bytes = text.as_bytes();
    let word = &bytes[span.from..span.to];
    if word.eq_ignore_ascii_case(b"comment") {
        return match comment_end(bytes, span.to) {
            Some(end) => Ok(Item::Comment(end)),
            None => Err(SyntaxFault::CommentOpen(span)),
        };
    }
    if let Some(keyword) = Keyword::named(word) {
        let what = Class::Word(keyword);
        return Ok(Item::Lexeme(Lexeme { span, what }));
    }
    if span.to - span.from > MOST_OF_NAME {
        return Err(SyntaxFault::NameTooLong(span));
    }
    let what = Class::Name;
    Ok(Item::Lexeme(Lexeme { span, what }))
}

fn number_item(text: &str, span: Span) -> Result<Item, SyntaxFault>
    requires longest { IsLongest text.now span.from span.to }
    requires run { IsRun text.now span.from span.to }
    ensures item { IfOk result (IsItem text.now span.from) }
    ensures fault { IfErr result (IsFaultAt text.now span.from) }
{
    match text[span.from..span.to].parse::<i64>() {
        Ok(value) => Ok(Item::Lexeme(Lexeme {
            span,
            what: Class::Number(value),
        })),
        Err(_) => Err(SyntaxFault::NumberTooLarge(span)),
    }
}

/// Reads what is at a place that isn't blank.
fn item_at(text: &str, from: usize) -> Result<Item, SyntaxFault>
    requires inside { from < length text.now }
    requires cut { IsCharBoundary text.now from }
    requires dark { ¬ (IsBlank (slice_index text.now from)) }
    ensures item { IfOk result (IsItem text.now from) }
    ensures fault { IfErr result (IsFaultAt text.now from) }
{
    match form_at(text.as_bytes(), from) {
        Some(LexemeForm::Word(to)) => word_item(text, Span { from, to }),
        Some(LexemeForm::Run(to)) => number_item(text, Span { from, to }),
        Some(LexemeForm::Sign(sign, to)) => {
            let span = Span { from, to };
            let what = Class::Sign(sign);
            Ok(Item::Lexeme(Lexeme { span, what }))
        }
        None => {
            let to = text.ceil_char_boundary(from + 1);
            Err(SyntaxFault::BadCharacter(Span { from, to }))
        }
    }
}

/// Splits a text into its lexemes, in order.
///
/// A text of more than 1,048,576 bytes is refused before all else, and then the first fault in the text.
#[tactic(auto, using(crate::proofs::Lexing::blank_next, crate::proofs::Lexing::comment_next, crate::proofs::Lexing::lexeme_next, crate::proofs::NoList::fault_inside, crate::proofs::NoList::no_list, std::proofs::lemmas::Result::err_from_is_err_and))]
pub fn lex(alloc: Global, text: &str) -> Result<Vec<Lexeme>, SyntaxFault>
    ensures lexed { IfOk result (λ v. (length text.now ≤ most_bytes) × Lexed text.now 0 (length text.now) v.items) }
    ensures slices { IfOk result (λ v. All (IsSlice text.now) v.items) }

    ensures fault { IfErr result (IsLexFault text.now) }

    // A text that has lexemes fails only if memory was refused.
    ensures only { IfErr result (λ e. (xs : List Lexeme) → length text.now ≤ most_bytes → Lexed text.now 0 (length text.now) xs → e ≡ SyntaxFault.NoMemory) }
{
    if text.len() > MOST_BYTES {
        return Err(SyntaxFault::TooLong);
    }
    let bytes = text.as_bytes();
    let mut found = Vec::new(alloc);
    let mut at = 0;
    'text: while at < bytes.len() {
        if is_blank(bytes[at]) {
            at += 1;
        } else {
            match item_at(text, at)? {
                Item::Comment(end) => at = end,
                Item::Lexeme(lexeme) => {
                    found.push(lexeme)?;
                    at = lexeme.span.to;
                }
            }
        }
    }
    Ok(found)
}

/// The law that a text has one list of lexemes.
#[tactic(auto, using(crate::proofs::OneList::same_lexemes))]
pub fn one_list()
    ensures { (text : List ℕ) (xs ys : List Lexeme) → Lexed text 0 (length text) xs → Lexed text 0 (length text) ys → xs ≡ ys }
{}

/// Whether it is a space, a tab, a CR or an LF.
pub fn is_blank(b: u8) -> bool
    ensures { IsTrue result ↔ IsBlank b }
{
    b == b' ' || b == b'\t' || b == b'\r' || b == b'\n'
}

fn is_digit(b: u8) -> bool
    ensures { IsTrue result ↔ IsDigit b }
{
    b'0' <= b && b <= b'9'
}

fn is_letter(b: u8) -> bool
    ensures { IsTrue result ↔ IsLetter b }
{
    b'A' <= b && b <= b'Z' || b'a' <= b && b <= b'z'
}

fn is_word_byte(b: u8) -> bool
    ensures { IsTrue result ↔ IsWordByte b }
{
    is_letter(b) || is_digit(b) || b == b'_'
}

// Whether a word, or else a number, goes on with this byte.
fn goes_on(word: bool, b: u8) -> bool
    ensures { IsTrue result ↔ IsFormByte word b }
{
    if word { is_word_byte(b) } else { is_digit(b) }
}

/// Returns where the bytes of a word end, or else the digits of a number.
fn bytes_end(text: &[u8], from: usize, word: bool) -> usize
    requires { from ≤ length text.now }
    ensures low { from ≤ result }
    ensures high { result ≤ length text.now }
    ensures bytes { (i : ℕ) → from ≤ i → i < result → IsFormByte word (slice_index text.now i) }
    ensures end { result < length text.now → IsFormByte word (slice_index text.now result) → ⊥ }
{
    let mut at = from;
    'bytes: while at < text.len() {
        if !goes_on(word, text[at]) {
            return at;
        }
        at += 1;
    }
    at
}

fn sign_of_two(first: u8, second: u8) -> Option<Sign>
    ensures some { IfSome result (λ s. bytes_of_sign s ≡ first ∷ second ∷ []) }
    ensures none { IfNone result ((s : Sign) → ¬ (bytes_of_sign s ≡ first ∷ second ∷ [])) }
{
    match (first, second) {
        (b':', b'=') => Some(Sign::Becomes),
        (b'<', b'>') => Some(Sign::Unequal),
        (b'<', b'=') => Some(Sign::AtMost),
        (b'>', b'=') => Some(Sign::AtLeast),
        (0xC2, 0xAC) => Some(Sign::Not),
        _ => None,
    }
}

fn sign_of_one(byte: u8) -> Option<Sign>
    ensures some { IfSome result (λ s. bytes_of_sign s ≡ byte ∷ []) }
    ensures none { IfNone result ((s : Sign) → ¬ (bytes_of_sign s ≡ byte ∷ [])) }
{
    match byte {
        b'(' => Some(Sign::Open),
        b')' => Some(Sign::Close),
        b',' => Some(Sign::Comma),
        b';' => Some(Sign::Semicolon),
        b'+' => Some(Sign::Plus),
        b'-' => Some(Sign::Minus),
        b'*' => Some(Sign::Times),
        b'=' => Some(Sign::Equal),
        b'<' => Some(Sign::Less),
        b'>' => Some(Sign::Greater),
        _ => None,
    }
}

/// Returns the longest sign that begins here, if one does, with the place after it.
fn sign_at(text: &[u8], from: usize) -> Option<(Sign, usize)>
    requires { from < length text.now }
    ensures inside { IfSome result (λ r. (from < r.1) × (r.1 ≤ length text.now)) }
    ensures sign { IfSome result (λ r. IsSign text.now r.0 from r.1) }
    ensures longest { IfSome result (λ r. (s : Sign) (n : ℕ) → r.1 < n → n ≤ length text.now → ¬ (IsSign text.now s from n)) }
    ensures none { IfNone result ((s : Sign) (n : ℕ) → n ≤ length text.now → ¬ (IsSign text.now s from n)) }
{
    if from + 1 < text.len() {
        if let Some(sign) = sign_of_two(text[from], text[from + 1]) {
            return Some((sign, from + 2));
        }
    }
    let sign = sign_of_one(text[from])?;
    Some((sign, from + 1))
}

/// Returns the longest form that begins here, if one does.
pub fn form_at(text: &[u8], from: usize) -> Option<LexemeForm>
    requires { from < length text.now }
    ensures some { IfSome result (λ f. IsLongest text.now from (form_end f) × IsOfForm text.now f from) }
    ensures none { IfNone result ((n : ℕ) → n ≤ length text.now → ¬ (HasForm text.now from n)) }
{
    let byte = text[from];
    if is_letter(byte) {
        return Some(LexemeForm::Word(bytes_end(text, from + 1, true)));
    }
    if is_digit(byte) {
        return Some(LexemeForm::Run(bytes_end(text, from + 1, false)));
    }
    let (sign, to) = sign_at(text, from)?;
    Some(LexemeForm::Sign(sign, to))
}

/// Returns where the comment ends whose word ends here, if it does: after the next semicolon.
pub fn comment_end(text: &[u8], from: usize) -> Option<usize>
    requires { from ≤ length text.now }
    ensures found { IfSome result (λ b. Closes text.now from b × (b ≤ length text.now)) }
    ensures none { IfNone result ((i : ℕ) → from ≤ i → i < length text.now → ¬ (slice_index text.now i ≡ 59)) }
{
    let mut at = from;
    'bytes: while at < text.len() {
        if text[at] == b';' {
            return Some(at + 1);
        }
        at += 1;
    }
    None
}
