//! For input that comes line by line: which part of a refused line is at fault, and what was expected there.

ghost use Rattle.std.specs.Prelude.{◌≡◌};
ghost use Rattle.kahn_texts.specs.Formats.{content as content_of};
ghost use Rattle.kahn_input_notes.specs.{Fitting.line_name, Refused.IsHeadPart, Refused.IsKindPart, Refused.IsValuePart};

use crate::feeding::{kind_for, kind_words};
use crate::fitting::{content, lack_of, line_name, part_of, unfit_span};
use crate::strange::{PARTS, first_words, strange_words, value_words, words_of};
use kahn_program_notes::add_unknown_input;
use kahn_streams::Network;
use std::alloc::{AllocError, Global};

/// A part of a line.
#[derive(Clone, Copy)]
pub struct RefusedPart<'a> {
    /// The part.
    pub word: &'a [u8],
    /// What is wanted there, behind a semicolon, or nothing.
    pub words: &'a str,
}

fn value_wanted(word: &[u8]) -> &'static str {
    if word.contains(&b':') {
        return "; a name stands before the values alone, and with --plain nowhere";
    }
    first_words(&[
        value_words(None, word),
        "; values are numbers, `true` and `false`",
    ])
}

/// Where a line doesn't begin with a name and a colon.
pub fn head_part(line: &[u8]) -> RefusedPart<'_>
    ensures { IsHeadPart (content_of line.now) result.word.now result.words.now }
{
    let line = content(line);
    let (span, wanted) = lack_of(line);
    let word = part_of(line, span);
    let words = first_words(&[strange_words(word), words_of(&PARTS, word), wanted]);
    RefusedPart { word, words }
}

/// The first word behind a line's colon that is no value.
pub fn value_part(line: &[u8]) -> RefusedPart<'_>
    ensures { IsValuePart (content_of line.now) result.word.now result.words.now }
{
    let line = content(line);
    let span = unfit_span(None, line);
    let word = part_of(line, span);
    let words = value_wanted(word);
    RefusedPart { word, words }
}

/// The name of a line, and these words.
pub fn name_part<'a>(line: &'a [u8], words: &'a str) -> RefusedPart<'a>
    ensures word { result.word.now ≡ line_name (content_of line.entry.now) }
    ensures words { result.words.now ≡ words.entry.now }
{
    let word = line_name(content(line));
    RefusedPart { word, words }
}

/// What is said of the name of a line which no channel has: the input channel whose name is nearest, or else which there are.
pub fn unknown_words(alloc: Global, network: &Network, line: &[u8]) -> Result<String, AllocError> {
    let mut words = String::new(alloc);
    let name = line_name(content(line));
    add_unknown_input(&mut words, alloc, network.program(), name)?;
    Ok(words)
}

/// What is said of the name of a line whose channel isn't an input channel: which input channels there are.
pub fn inputs_words(alloc: Global, network: &Network) -> Result<String, AllocError> {
    unknown_words(alloc, network, b"")
}

/// The first value of another kind than that of the line's channel.
pub fn kind_part<'l>(network: &Network, line: &'l [u8]) -> RefusedPart<'l>
    ensures { IsKindPart network.now (content_of line.entry.now) result.word.now result.words.now }
{
    let line = content(line);
    let kind = kind_for(network, line_name(line));
    let span = unfit_span(kind, line);
    let word = part_of(line, span);
    let words = kind_words(kind);
    RefusedPart { word, words }
}
