//! The input text: the name of an entry, its values, its lines, and the input that all of them describe.

ghost use Rattle.std.specs.Prelude.{IfOk, MatchResult, ◌≡◌, ◌≤◌, length, ◌≢◌, ◌∷◌, ℕ, List, MatchOption, take, drop, not, IsTrue, ◌↔◌, All, true, ◌⊎◌, ℤ, ◌+◌, ◌<◌, ◌++◌, [], OnOk, map};
ghost use Rattle.kahn_streams.specs.{Network.network_of, Inputs.IsInputFor, declared.value.Value.Value, declared.value.Value.TheVariants.Integer, Inputs.entry_of};
ghost use Rattle.kahn_texts.specs.Formats.{IsInputTextFault, StandsFor, IsHead, IsHeadless, IsName, AreNoValues, AreValues, IsValue, AreBlanks, AreFirstEntries, IsEntry, IsLineFault, IsEntriesFault, IsReadLine, is_blank as blank, is_word_byte as word_byte, content as content_of};
ghost use Rattle.std.specs.List.{position, position_or_len};

use kahn_streams::{Input, InputFault, Network, Value};
use std::alloc::{AllocError, Global};
use std::str;
use thiserror::Error;

/// Why an input text is refused. Lines are counted from 1, skipped ones too.
#[derive(Clone, Copy, Debug, PartialEq, Eq, Drop, Error)]
pub enum TextFault {
    /// A line that isn't blank and doesn't begin with a name and a colon.
    #[error("input line {0}: not a name and a colon")]
    BadLine(usize),
    /// A line with something after its colon that is no value.
    #[error("input line {0}: not a value")]
    BadValue(usize),
    /// One of the text's entries, counted from 1 without skipped lines, doesn't fit the network. It is never `InputFault::NoMemory`.
    #[error("{0}")]
    Input(InputFault),
    /// The text has more than 16,777,216 bytes.
    #[error("input text is too long")]
    TooLong,
    /// Memory was refused.
    #[error("no memory")]
    NoMemory,
}

/// The most bytes of an input text.
pub const MOST_BYTES: usize = 16777216;

/// Why a line is no entry.
#[derive(Clone, Copy, Debug, PartialEq, Eq, Drop, Error)]
pub enum EntryFault {
    /// It doesn't begin with a name and a colon.
    #[error("not a name and a colon")]
    NoHead,
    /// A word after its colon is no value.
    #[error("not a value")]
    NoValues,
    /// Memory was refused.
    #[error("no memory")]
    NoMemory,
}

impl From<InputFault> for TextFault {
    ghost use Rattle.std.specs.Prelude.{◌≡◌};
    ghost use Rattle.kahn_texts.specs.Formats.{told_of_input};

    ghost from_gives = { λ fault told. told ≡ told_of_input fault };

    fn from(fault: InputFault) -> TextFault {
        match fault {
            InputFault::NoMemory => TextFault::NoMemory,
            fault => TextFault::Input(fault),
        }
    }
}

/// Reads the input of a network from an input text. A text that is too long is refused first, then the first line that is neither blank
/// nor an entry, and then the first entry that doesn't fit the network. Of more entries than it has channels only one more is kept.
#[tactic(auto, using(crate::proofs::Told::entries_told))]
pub fn read_input(alloc: Global, text: &str, network: &Network) -> Result<Input, TextFault>
    ensures read { MatchResult result (StandsFor network.now text.now) (IsInputTextFault network.now text.now) }
    ensures fits { IfOk result (IsInputFor (network_of network.now)) }
{
    let entries = read_entries(alloc, text, network.channels())?;
    Ok(Input::new(alloc, network, entries)?)
}

/// Whether a byte is a space or a tab.
pub fn is_blank(byte: u8) -> bool
    ensures { result ≡ blank byte }
{
    byte == b' ' || byte == b'\t'
}

/// Whether a name may contain a byte.
fn is_word_byte(byte: u8) -> bool
    ensures { result ≡ word_byte byte }
{
    byte.is_ascii_alphanumeric() || byte == b'_'
}

fn first_dark(bytes: &[u8]) -> Option<usize>
    ensures { result ≡ position (λ b. not (blank b)) bytes.now }
{
    bytes.iter().position(|byte| !is_blank(*byte))
}

fn first_apart(bytes: &[u8]) -> Option<usize>
    ensures { result ≡ position (λ b. not (word_byte b)) bytes.now }
{
    bytes.iter().position(|byte| !is_word_byte(*byte))
}

/// Returns how many blanks come first.
#[tactic(auto, using(crate::proofs::Scanned::stop_of))]
pub fn blanks(bytes: &[u8]) -> usize
    ensures within { result ≤ length bytes.now }
    ensures stop { result ≡ position_or_len (λ b. not (blank b)) bytes.now }
{
    first_dark(bytes).unwrap_or(bytes.len())
}

/// Returns how many of the first bytes a name may contain.
#[tactic(auto, using(crate::proofs::Scanned::stop_of))]
pub fn word_bytes(bytes: &[u8]) -> usize
    ensures within { result ≤ length bytes.now }
    ensures stop { result ≡ position_or_len (λ b. not (word_byte b)) bytes.now }
{
    first_apart(bytes).unwrap_or(bytes.len())
}

fn without_blanks(bytes: &[u8]) -> &[u8]
    ensures { result.now ≡ drop (position_or_len (λ b. not (blank b)) bytes.now) bytes.now }
{
    &bytes[blanks(bytes)..]
}

/// Splits off the first bytes that a name may contain, and returns them and what follows.
fn split_word(bytes: &[u8]) -> (&[u8], &[u8])
    ensures word { result.0.now ≡ take (position_or_len (λ b. not (word_byte b)) bytes.now) bytes.now }
    ensures rest { result.1.now ≡ drop (position_or_len (λ b. not (word_byte b)) bytes.now) bytes.now }
{
    bytes.split_at(word_bytes(bytes))
}

fn after_colon(bytes: &[u8]) -> Option<&[u8]>
    ensures { MatchOption result ((rest : List ℕ) → bytes.now ≢ 58 ∷ rest) (λ rest. bytes.now ≡ 58 ∷ rest.now) }
{
    match bytes.split_first() {
        Some((b':', rest)) => Some(rest),
        _ => None,
    }
}

fn is_name(word: &[u8]) -> bool
    requires { All (λ b. word_byte b ≡ true) word.now }
    ensures { IsTrue result ↔ IsName word.now }
{
    match word.first() {
        Some(byte) => byte.is_ascii_alphabetic() && word.len() <= 64,
        None => false,
    }
}

#[tactic(auto, using(crate::proofs::Words::named))]
fn name_of(word: &[u8]) -> Option<&str>
    requires { All (λ b. word_byte b ≡ true) word.now }
    ensures { MatchOption result (IsName word.now → ⊥) (λ name. IsName word.now × (name.now ≡ word.now)) }
{
    if is_name(word) {
        str::from_utf8(word).ok()
    } else {
        None
    }
}

/// Returns the name of a line and what comes after its colon.
fn head_of(line: &[u8]) -> Option<(&str, &[u8])>
    ensures { MatchOption result (IsHeadless line.now) (λ head. IsHead line.now head.0.now head.1.now) }
{
    let (word, after) = split_word(without_blanks(line));
    let rest = after_colon(without_blanks(after))?;
    let name = name_of(word)?;
    Some((name, rest))
}

/// Returns the number that a word spells: an optional minus and digits, in the range of 64 bits.
fn number_of(word: &[u8]) -> Option<i64>
    ensures { MatchOption result ((number : ℤ) → IsValue word.now (Integer number) → ⊥) (λ number. IsValue word.now (Integer number)) }
{
    if word.first() == Some(&b'+') {
        return None;
    }
    match str::from_utf8(word) {
        Ok(text) => text.parse::<i64>().ok(),
        Err(_) => None,
    }
}

/// Returns the value that a word spells.
pub fn value_of(word: &[u8]) -> Option<Value>
    ensures { MatchOption result ((value : Value) → IsValue word.now value → ⊥) (λ value. IsValue word.now value) }
{
    if word.eq_ignore_ascii_case(b"true") {
        return Some(Value::Logical(true));
    }
    if word.eq_ignore_ascii_case(b"false") {
        return Some(Value::Logical(false));
    }
    number_of(word).map(Value::Integer)
}

/// Reads the values between blanks. Fails with `NoValues` or `NoMemory`.
fn read_values(alloc: Global, text: &[u8]) -> Result<Vec<Value>, EntryFault>
    ensures { MatchResult result (λ values. AreValues text.now values.items) (λ f. (f ≡ EntryFault.NoMemory) ⊎ ((f ≡ EntryFault.NoValues) × AreNoValues text.now)) }
{
    let mut values = Vec::new(alloc);
    for word in text.split(|byte| *byte == b' ' || *byte == b'\t') {
        if !word.is_empty() {
            let Some(value) = value_of(word) else {
                return Err(EntryFault::NoValues);
            };
            if values.push(value).is_err() {
                return Err(EntryFault::NoMemory);
            }
        }
    }
    Ok(values)
}

/// Returns a line without one carriage return before its end.
fn content(line: &[u8]) -> &[u8]
    ensures { result.now ≡ content_of line.now }
{
    match line.last() {
        Some(b'\r') => &line[..line.len() - 1],
        _ => line,
    }
}

/// Whether a line has blanks alone, or nothing.
fn is_blank_line(line: &[u8]) -> bool
    ensures { IsTrue result ↔ AreBlanks line.now }
{
    line.iter().all(|byte| is_blank(*byte))
}

/// Reads a line of an input text, without its line feed: an entry, or nothing if it is blank. One carriage return at its end is dropped.
pub fn read_line(alloc: Global, line: &[u8]) -> Result<Option<(String, Vec<Value>)>, EntryFault>
    ensures { MatchResult result (IsReadLine (content_of line.now)) (IsLineFault (content_of line.now)) }
{
    let line = content(line);
    if is_blank_line(line) {
        return Ok(None);
    }
    let Some((name, rest)) = head_of(line) else {
        return Err(EntryFault::NoHead);
    };
    let values = match read_values(alloc, rest) {
        Ok(values) => values,
        Err(fault) => return Err(fault),
    };
    match String::from_str(alloc, name) {
        Ok(name) => Ok(Some((name, values))),
        Err(_) => Err(EntryFault::NoMemory),
    }
}

/// Keeps an entry, unless there are more than `channels` already.
fn keep(
    entries: &mut Vec<(String, Vec<Value>)>,
    channels: usize,
    entry: (String, Vec<Value>),
) -> Result<(), AllocError>
    ensures room { OnOk result (length entries.old.items ≤ channels → entries.new.items ≡ entries.old.items ++ entry ∷ []) }
    ensures full { OnOk result (channels < length entries.old.items → entries.new.items ≡ entries.old.items) }
{
    if entries.len() > channels {
        return Ok(());
    }
    entries.push(entry)?;
    Ok(())
}

/// Reads the entries of an input text for a network of `channels` channels: names of channels, and their values. If there are
/// more entries than channels, one is wrong, so only `channels` + 1 are kept. Never fails with `Input`.
#[tactic(auto, using(crate::proofs::Kept::none_read))]
pub fn read_entries(
    alloc: Global,
    text: &str,
    channels: usize,
) -> Result<Vec<(String, Vec<Value>)>, TextFault>
    ensures { MatchResult result (λ entries. AreFirstEntries text.now (channels + 1) (map entry_of entries.items)) (IsEntriesFault text.now) }
{
    if text.len() > MOST_BYTES {
        return Err(TextFault::TooLong);
    }
    let mut entries = Vec::new(alloc);
    let mut number = 0;
    for line in text.as_bytes().split(|byte| *byte == b'\n') {
        number += 1;
        match read_line(alloc, line) {
            Ok(None) => {}
            Ok(Some(entry)) => {
                if keep(&mut entries, channels, entry).is_err() {
                    return Err(TextFault::NoMemory);
                }
            }
            Err(EntryFault::NoHead) => return Err(TextFault::BadLine(number)),
            Err(EntryFault::NoValues) => return Err(TextFault::BadValue(number)),
            Err(EntryFault::NoMemory) => return Err(TextFault::NoMemory),
        }
    }
    Ok(entries)
}
