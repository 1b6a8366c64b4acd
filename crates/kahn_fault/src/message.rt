//! What the program says of a fault: one line.

ghost use Rattle.std.specs.Prelude.{◌≡◌, List, ℕ, Some, decimal};
ghost use Rattle.kahn_streams.specs.Written.{Writes};
ghost use Rattle.kahn_texts.specs.Flushes.{FlushesOnce};
ghost use Rattle.kahn_fault.specs.Message.{WritesCounted, numbered_line, between_line, placed_line, syntax_span, syntax_words, check_span, check_words, text_line, work_line, read_line, path_words, fault_text};
ghost use Rattle.kahn_fault.specs.inner.Said.{said_line};

use crate::fault::Fault;
use crate::work::WorkFault;
use itoa::Buffer;
use kahn_check::CheckFault;
use kahn_streams::InputFault::{GivenTwice, NotAnInput, TooMany, UnknownName, WrongKind};
use kahn_streams::{InputFault, RunFault, Span};
use kahn_syntax::{SyntaxFault, What};
use kahn_texts::{CallCount, ReadFault, TextFault, WriteFault, flush, put_line, uncounted};
use std::io::Write;
use thiserror::Error;

/// What a line says.
#[derive(Clone, Copy, Debug, Error)]
pub(crate) enum Says<'a> {
    /// Words, and a path or nothing; or a path and words.
    #[error("{0}{1}")]
    Words(&'a str, &'a str),
    /// A number between words.
    #[error("{0}{1}{2}")]
    Numbered(&'static str, usize, &'static str),
    /// A place in the program text, and words.
    #[error("{1}")]
    Placed(Span, &'static str),
}

fn put_between<'a, W: Write, C: CallCount>(
    writer: &mut W,
    before: &'a str,
    between: &'a str,
    after: &'a str,
    writes: &mut C,
) -> Result<(), WriteFault>
    ensures { WritesCounted W.contents C.count writer.old writer.new result writes.old writes.new (between_line before.now between.now after.now) }
{
    let (before, between, after) = (before.as_bytes(), between.as_bytes(), after.as_bytes());
    put_line(writer, &[b"kahn: ", before, between, after, b"\n"], writes)
}

/// Writes a line with two numbers before its words.
fn put_place<'a, W: Write, C: CallCount>(
    writer: &mut W,
    line: &'a str,
    column: &'a str,
    words: &'a str,
    writes: &mut C,
) -> Result<(), WriteFault>
    ensures { WritesCounted W.contents C.count writer.old writer.new result writes.old writes.new (numbered_line line.now column.now words.now) }
{
    let (line, column, words) = (line.as_bytes(), column.as_bytes(), words.as_bytes());
    put_line(
        writer,
        &[b"kahn: ", line, b":", column, b": ", words, b"\n"],
        writes,
    )
}

/// Writes a line; a place beyond the program text is reported as its end.
fn put_said<W: Write, C: CallCount>(
    writer: &mut W,
    program: &str,
    said: Says<'_>,
    writes: &mut C,
) -> Result<(), WriteFault>
    ensures { WritesCounted W.contents C.count writer.old writer.new result writes.old writes.new (said_line program.now said.entry) }
{
    let mut first = Buffer::new();
    let mut second = Buffer::new();
    match said {
        Says::Words(before, after) => put_between(writer, before, after, "", writes),
        Says::Numbered(before, number, after) => {
            put_between(writer, before, first.format(number), after, writes)
        }
        Says::Placed(place, words) => {
            let from = place.from.min(program.len());
            let (line, column) = Span { from, to: from }.place(program);
            put_place(
                writer,
                first.format(line),
                second.format(column),
                words,
                writes,
            )
        }
    }
}

/// Returns the place at which a text is no program, if it is one place, and why.
fn syntax_told(fault: SyntaxFault) -> (Option<Span>, &'static str)
    ensures place { result.0 ≡ syntax_span fault }
    ensures words { result.1.now ≡ syntax_words fault }
{
    match fault {
        SyntaxFault::TooLong => (None, "program text is too long"),
        SyntaxFault::BadCharacter(span) => (Some(span), "character is not of the language"),
        SyntaxFault::NumberTooLarge(span) => (Some(span), "number is too large"),
        SyntaxFault::CommentOpen(span) => (Some(span), "comment has no end"),
        SyntaxFault::NameTooLong(span) => (Some(span), "name is too long"),
        SyntaxFault::Expected(span, What::Other) => (Some(span), "this cannot stand here"),
        SyntaxFault::Expected(span, What::More) => (Some(span), "text ends too early"),
        SyntaxFault::Expected(span, What::Nothing) => (
            Some(span),
            "text goes on after the program",
        ),
        SyntaxFault::TooDeep(span) => (Some(span), "nesting is too deep"),
        SyntaxFault::NoMemory => (None, "no memory"),
    }
}

/// Returns the place at which a text is no program, if it is one place.
pub fn syntax_span(fault: SyntaxFault) -> Option<Span>
    ensures { result ≡ syntax_span fault }
{
    syntax_told(fault).0
}

/// Returns why a text is no program.
pub fn syntax_words(fault: SyntaxFault) -> &'static str
    ensures { result.now ≡ syntax_words fault }
{
    syntax_told(fault).1
}

/// Returns the place for which a program is refused, if it is one place, and why.
fn check_told(fault: CheckFault) -> (Option<Span>, &'static str)
    ensures place { result.0 ≡ check_span fault }
    ensures words { result.1.now ≡ check_words fault }
{
    match fault {
        CheckFault::DeclaredTwice(span) => (Some(span), "name is declared twice"),
        CheckFault::Unknown(span) => (Some(span), "name is not declared"),
        CheckFault::WrongKind(span) => (Some(span), "kind does not agree"),
        CheckFault::WrongCount(span) => (Some(span), "number of arguments does not agree"),
        CheckFault::ChannelExpected(span) => (Some(span), "a channel is expected"),
        CheckFault::ValueExpected(span) => (Some(span), "a value is expected"),
        CheckFault::WrongDirection(span) => (Some(span), "direction does not agree"),
        CheckFault::NoWriter(span) => (Some(span), "channel has no writer"),
        CheckFault::TwoWriters(span) => (Some(span), "channel has two writers"),
        CheckFault::NoReader(span) => (Some(span), "channel has no reader"),
        CheckFault::TwoReaders(span) => (Some(span), "channel has two readers"),
        CheckFault::TooMany(span) => (Some(span), "limit is exceeded"),
        CheckFault::NoMemory => (None, "no memory"),
    }
}

/// Returns the place for which a program is refused, if it is one place.
pub fn check_span(fault: CheckFault) -> Option<Span>
    ensures { result ≡ check_span fault }
{
    check_told(fault).0
}

/// Returns why a program is refused.
pub fn check_words(fault: CheckFault) -> &'static str
    ensures { result.now ≡ check_words fault }
{
    check_told(fault).1
}

fn text_said(fault: TextFault) -> Says<'static>
    ensures { (program : List ℕ) → said_line program result ≡ text_line fault }
{
    match fault {
        TextFault::BadLine(line) => Says::Numbered("input line ", line, ": not a name and a colon"),
        TextFault::BadValue(line) => Says::Numbered("input line ", line, ": not a value"),
        TextFault::Input(fault) => match fault {
            UnknownName(at) => Says::Numbered("input entry ", at, ": no such channel"),
            NotAnInput(at) => Says::Numbered("input entry ", at, ": not an input channel"),
            GivenTwice(at) => Says::Numbered("input entry ", at, ": given twice"),
            WrongKind(at) => Says::Numbered("input entry ", at, ": kind does not agree"),
            TooMany(at) => Says::Numbered("input entry ", at, ": too many values"),
            InputFault::NoMemory => Says::Words("no memory", ""),
        },
        TextFault::TooLong => Says::Words("input text is too long", ""),
        TextFault::NoMemory => Says::Words("no memory", ""),
    }
}

fn placed_said(place: Option<Span>, words: &'static str) -> Says<'static>
    ensures { (program : List ℕ) → said_line program result ≡ placed_line program place words.now }
{
    match place {
        Some(span) => Says::Placed(span, words),
        None => Says::Words(words, ""),
    }
}

fn work_said(fault: WorkFault) -> Says<'static>
    ensures { (program : List ℕ) → said_line program result ≡ work_line program fault }
{
    match fault {
        WorkFault::Syntax(fault) => placed_said(syntax_span(fault), syntax_words(fault)),
        WorkFault::Check(fault) => placed_said(check_span(fault), check_words(fault)),
        WorkFault::Text(fault) => text_said(fault),
        WorkFault::Run(RunFault::BadConfig) => Says::Words("configuration is out of range", ""),
        WorkFault::Run(RunFault::UnknownWatch) => {
            Says::Words("watched channel is not declared", "")
        }
        WorkFault::Run(RunFault::NoMemory) => Says::Words("no memory", ""),
        WorkFault::Run(RunFault::NoThread) => Says::Words("no thread", ""),
        WorkFault::Run(RunFault::Stalled) => Says::Words("workers stalled", ""),
        WorkFault::Write(_) => Says::Words("report could not be written", ""),
    }
}

/// Returns what is said of a text that wasn't read, by its path and what is said if it is too long.
pub(crate) fn read_said<'a>(path: &'a str, long: &'a str, fault: ReadFault) -> Says<'a>
    ensures { (program : List ℕ) → said_line program result ≡ read_line path.now long.now fault }
{
    match fault {
        ReadFault::Failed => Says::Words("cannot read ", path),
        ReadFault::TooLong => Says::Words(long, ""),
        ReadFault::NotUtf8 => Says::Words(path, " is not UTF-8"),
        ReadFault::NoMemory => Says::Words("no memory", ""),
    }
}

pub(crate) fn path_words(path: &Option<String>) -> &str
    ensures { result.now ≡ path_words path.now }
{
    match path {
        Some(path) => path.as_str(),
        None => "standard input",
    }
}

fn fault_said(fault: &Fault) -> Says<'_>
    ensures { (program : List ℕ) → said_line program result ≡ fault_text program fault.now }
{
    match fault {
        Fault::Open(path) => Says::Words("cannot read ", path.as_str()),
        Fault::Program(path, fault) => {
            read_said(path_words(path), "program text is too long", *fault)
        }
        Fault::InputText(path, fault) => read_said(path.as_str(), "input text is too long", *fault),
        Fault::Work(fault) => work_said(*fault),
    }
}

/// Writes the line of a fault as `fault_line` does, and counts its calls: at most one write for each byte of the line, and one flush.
pub fn line_counted<W: Write, C: CallCount, D: CallCount>(
    fault: &Fault,
    program: &str,
    writer: &mut W,
    writes: &mut C,
    flushes: &mut D,
) -> Result<(), WriteFault>
    ensures line { WritesCounted W.contents C.count writer.old writer.new result writes.old writes.new (fault_text program.now fault.now) }
    ensures once { FlushesOnce result (D.count flushes.old) (D.count flushes.new) }
{
    put_said(writer, program, fault_said(fault), writes)?;
    flush(writer, flushes)
}

/// Writes the line of a fault, and flushes. A span beyond the program text is reported as its end. Never allocates.
pub fn fault_line<W: Write>(fault: &Fault, program: &str, writer: &mut W) -> Result<(), WriteFault>
    ensures { Writes (W.contents writer.old) (W.contents writer.new) result (fault_text program.now fault.now) }
{
    line_counted(fault, program, writer, &mut uncounted(), &mut uncounted())
}
