//! Why an input text is refused, as a note on the place.

ghost use Rattle.std.specs.Prelude.{◌≡◌, ◌+◌, ◌≤◌, IfOk, length};
ghost use Rattle.kahn_input_notes.specs.{Feeding.AreFirstGiven, Feeding.IsFaultSpan, Feeding.IsInputNote, Feeding.IsKindFor, Feeding.IsLineNote, Feeding.sought_of, Placed.AlwaysPlaced};

use crate::fitting::{
    FoundLine, find_line, first_named, lack_of, line_name, moved_by, name_span, part_of, unfit_span,
};
use crate::strange::{head_words, value_words};
use kahn_diagnostic::{Note, Other, Sort};
use kahn_program_notes::add_unknown_input;
use kahn_streams::{InputFault, Kind, Network, NoMemory, Role, Span, channel_named};
use kahn_texts::{TextFault, add};
use std::alloc::{AllocError, Global};
use std::str;

// What is said of a word that is no value, and of a second line for a channel.
const NO_VALUE: &str = "not a value: wanted a number of 64 bits, `true` or `false`";

const GIVEN_TWICE: &str = "given twice; all values of a channel stand on one line, once";

/// What is wanted in the place of a value of another kind than that of its channel.
pub(crate) fn kind_words(kind: Option<Kind>) -> &'static str {
    match kind {
        Some(Kind::Integer) => "; wanted a number",
        Some(Kind::Logical) => "; wanted `true` or `false`",
        None => "",
    }
}

pub(crate) fn kind_for(network: &Network, name: &[u8]) -> Option<Kind>
    ensures { IsKindFor network.now name.now result }
{
    let Ok(name) = str::from_utf8(name) else {
        return None;
    };
    match channel_named(network, name) {
        Some(channel) => Some(network.channel(channel).kind),
        None => None,
    }
}

/// The part of a line that is at fault, which is for a channel of this kind or none.
fn fault_span(line: &[u8], kind: Option<Kind>, fault: TextFault) -> Span
    ensures order { result.from ≤ result.to }
    ensures within { result.to ≤ length line.now }
    ensures span { IsFaultSpan line.now kind fault result }
{
    match fault {
        TextFault::BadLine(_) => lack_of(line).0,
        TextFault::BadValue(_) => unfit_span(None, line),
        TextFault::Input(InputFault::WrongKind(_)) => unfit_span(kind, line),
        TextFault::Input(InputFault::UnknownName(_))
        | TextFault::Input(InputFault::NotAnInput(_))
        | TextFault::Input(InputFault::GivenTwice(_))
        | TextFault::Input(InputFault::TooMany(_))
        | TextFault::Input(InputFault::NoMemory)
        | TextFault::TooLong
        | TextFault::NoMemory => name_span(line),
    }
}

/// Adds what a line looks like: one for the channel of this name, or else for the first one, of the input channels.
fn add_example(words: &mut String, network: &Network, name: &[u8]) -> Result<(), AllocError> {
    let mut found = None;
    for number in 0..network.channels() {
        let channel = network.channel(number);
        if channel.role == Role::Input && (found.is_none() || channel.name.as_bytes() == name) {
            found = Some(channel);
        }
    }
    if let Some(channel) = found {
        let is_number = channel.kind == Kind::Integer;
        let values = if is_number { ": 1 2`" } else { ": true false`" };
        add(words, &[", as in `", channel.name, values])?;
    }
    Ok(())
}

/// What is said of that part.
fn fault_words(
    alloc: Global,
    network: &Network,
    line: &[u8],
    part: &[u8],
    fault: TextFault,
) -> Result<String, AllocError> {
    let (mut words, name) = (String::new(alloc), line_name(line));
    let kind = kind_for(network, name);
    match fault {
        TextFault::BadLine(_) => {
            add(&mut words, &["not a name and a colon", lack_of(line).1])?;
            add_example(&mut words, network, name)?;
            words.push_str(head_words(name, kind, part))?;
        }
        TextFault::BadValue(_) => add(&mut words, &[NO_VALUE, value_words(kind, part)])?,
        TextFault::Input(InputFault::UnknownName(_)) => {
            words.push_str("no such channel")?;
            add_unknown_input(&mut words, alloc, network.program(), name)?;
        }
        TextFault::Input(InputFault::NotAnInput(_)) => {
            words.push_str("not an input channel")?;
            add_unknown_input(&mut words, alloc, network.program(), b"")?;
        }
        TextFault::Input(InputFault::WrongKind(_)) => {
            add(&mut words, &["kind does not agree", kind_words(kind)])?;
        }
        TextFault::Input(InputFault::GivenTwice(_)) => words.push_str(GIVEN_TWICE)?,
        _ => words.push_str("too many values; at most 1048576")?,
    }
    Ok(words)
}

/// The first entry of that name, where two entries are for one channel.
fn given_first(
    alloc: Global,
    text: &str,
    name: &[u8],
    fault: TextFault,
) -> Result<Vec<Other>, AllocError>
    ensures { IfOk result (λ others. AreFirstGiven text.now name.now fault others.items) }
{
    let mut others = Vec::new(alloc);
    if let TextFault::Input(InputFault::GivenTwice(_)) = fault {
        if let Some(span) = first_named(text, name) {
            let words = String::from_str(alloc, "given here first")?;
            others.push(Other { span, words })?;
        }
    }
    Ok(others)
}

/// The note on the fault of a line of a text.
fn line_note(
    alloc: Global,
    network: &Network,
    text: &str,
    found: FoundLine<'_>,
    fault: TextFault,
) -> Result<Note, NoMemory>
    requires { found.from + length found.line.now ≤ length text.now }
    ensures { IfOk result (IsLineNote network.now text.now found.entry.from found.entry.line.now fault) }
{
    let name = line_name(found.line);
    let kind = kind_for(network, name);
    let span = fault_span(found.line, kind, fault);
    let part = part_of(found.line, span);
    Ok(Note {
        sort: Sort::Error,
        span: moved_by(found.from, span),
        words: fault_words(alloc, network, found.line, part, fault)?,
        fix: None,
        below: Vec::new(alloc),
        others: given_first(alloc, text, name, fault)?,
    })
}

/// The line of a fault: whether entries alone count, and its number among them, from 0.
fn sought_of(fault: TextFault) -> Option<(bool, usize)>
    ensures { result ≡ sought_of fault }
{
    match fault {
        TextFault::BadLine(number) | TextFault::BadValue(number) => {
            Some((false, number.saturating_sub(1)))
        }
        TextFault::Input(
            InputFault::UnknownName(number)
            | InputFault::NotAnInput(number)
            | InputFault::GivenTwice(number)
            | InputFault::WrongKind(number)
            | InputFault::TooMany(number),
        ) => Some((true, number.saturating_sub(1))),
        TextFault::Input(InputFault::NoMemory) | TextFault::TooLong | TextFault::NoMemory => None,
    }
}

/// The note on why an input text is refused, where that has a place: the part of the line that is at fault, and what is wanted
/// there. It refuses only where memory was refused.
pub fn input_note(
    alloc: Global,
    network: &Network,
    text: &str,
    fault: TextFault,
) -> Result<Option<Note>, NoMemory>
    ensures { IfOk result (IsInputNote network.now text.now fault) }
{
    let Some(place) = sought_of(fault) else {
        return Ok(None);
    };
    match find_line(text, place.0, place.1) {
        Some(found) => Ok(Some(line_note(alloc, network, text, found, fault)?)),
        None => Ok(None),
    }
}

/// Of a fault that an input text has, other than that it is too long, there is always a note: its line is found.
pub fn always_placed()
    ensures { AlwaysPlaced }
{}
