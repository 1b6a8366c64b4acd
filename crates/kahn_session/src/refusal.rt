//! Messages of a run on lines: why a line isn't taken, where, in which words, and which part of the line.

ghost use Rattle.std.specs.Prelude.{◌≡◌, ◌++◌, ◌∷◌, []};
ghost use Rattle.kahn_session.specs.{Refusals.Says, Refusals.before_part, Refusals.behind_part, Refusals.failure_words, Refusals.is_want, Refusals.like_words, Refusals.origin, Refusals.refused_origin, Refusals.take_words};

use itoa::Buffer;
use kahn_streams::{Failure, FeedFault};
use kahn_texts::{WriteFault, shown_part, write_line};
use std::io::Write;
use thiserror::Error;

/// The number of each line of `--at-end`. No line of the input has it.
pub const AT_END: u64 = u64::MAX;

/// The place of a message, after the program's file.
#[derive(Clone, Copy)]
pub enum Origin {
    /// Nothing more.
    File,
    /// A name of `--plain`.
    Plain,
    /// The name of `--watch`.
    Watch,
    /// The line with this number. Lines of the input are counted from 1; number 0 is what comes before the first, and `AT_END` is
    /// each line of `--at-end`.
    Line(u64),
}

/// Why a line of input isn't taken. After each of these but `Write` the session continues with the next line.
#[derive(Clone, Copy, Debug, PartialEq, Eq, Drop, Error)]
pub enum TakeFault {
    /// The line has more than 16,777,216 bytes. Nothing changed.
    #[error("line is too long")]
    TooLong,
    /// The line isn't UTF-8. Nothing changed.
    #[error("not UTF-8")]
    NotUtf8,
    /// The line isn't blank and doesn't begin with a name and a colon. Nothing changed.
    #[error("not a name and a colon")]
    BadLine,
    /// A word after the colon isn't a value. Nothing changed.
    #[error("not a value")]
    BadValue,
    /// The line is a row, and hasn't one value for each of its channels. A session takes no rows, and never says so.
    #[error("not one value for each channel")]
    BadRow,
    /// The values aren't fed to the channel of the name. Nothing changed.
    #[error("{0}")]
    Feed(FeedFault),
    /// Memory was refused while the line was read. Nothing changed.
    #[error("no memory")]
    NoMemory,
    /// The part was run, and what is new couldn't be written whole. A prefix of it was, and the session is broken.
    #[error("news could not be written")]
    Write(WriteFault),
}

/// Whether memory was refused for a line.
pub fn is_want(fault: TakeFault) -> bool
    ensures { result ≡ is_want fault }
{
    matches!(
        fault,
        TakeFault::NoMemory | TakeFault::Feed(FeedFault::NoMemory)
    )
}

/// Why a line isn't taken.
pub fn take_words(fault: TakeFault) -> &'static str
    ensures { result.now ≡ take_words fault }
{
    match fault {
        TakeFault::TooLong => "line is too long",
        TakeFault::NotUtf8 => "not UTF-8",
        TakeFault::BadLine => "not a name and a colon",
        TakeFault::BadValue => "not a value",
        TakeFault::BadRow => "not one value for each channel",
        TakeFault::Feed(FeedFault::UnknownName) => "no such channel",
        TakeFault::Feed(FeedFault::NotAnInput) => "not an input channel",
        TakeFault::Feed(FeedFault::WrongKind) => "kind does not agree",
        TakeFault::Feed(FeedFault::TooMany) => "too many values",
        TakeFault::Feed(FeedFault::NoMemory) | TakeFault::NoMemory => "no memory",
        TakeFault::Write(_) => "news could not be written",
    }
}

/// Returns the words that follow the number of further lines that weren't taken for the same reason.
pub fn like_words(count: u64) -> &'static str
    ensures { result.now ≡ like_words count }
{
    if count == 1 {
        " line more like it"
    } else {
        " lines more like it"
    }
}

/// Returns the words for a process's fault, which follow its name.
pub fn failure_words(kind: Failure) -> &'static str
    ensures { result.now ≡ failure_words kind }
{
    match kind {
        Failure::Overflow => " has a fault: overflow",
        Failure::Division => " has a fault: division",
    }
}

/// Where a line comes from that isn't taken: one of number 0 is made of a name of `--plain`.
pub fn refused_origin(number: u64, fault: TakeFault) -> Origin
    ensures { result ≡ refused_origin number fault }
{
    if number == 0 && !is_want(fault) {
        Origin::Plain
    } else {
        Origin::Line(number)
    }
}

fn origin_words<'b>(room: &'b mut Buffer, from: Origin) -> (&'b str, &'b str)
    ensures { result.0.now ++ result.1.now ≡ origin from }
{
    match from {
        Origin::File => ("", ""),
        Origin::Plain => (": --plain", ""),
        Origin::Watch => (": --watch", ""),
        Origin::Line(number) => {
            if number == AT_END {
                (": --at-end", "")
            } else {
                (": input line ", room.format(number))
            }
        }
    }
}

fn around_part(part: &[u8], shown: usize) -> (&str, &str)
    ensures before { result.0.now ≡ before_part part.now }
    ensures behind { result.1.now ≡ behind_part part.now shown }
{
    if part.is_empty() {
        ("", "")
    } else if shown < part.len() {
        (": `", "..`")
    } else {
        (": `", "`")
    }
}

fn put<'a, W: Write>(
    out: &mut W,
    path: &'a str,
    from: &'a str,
    number: &'a str,
    words: &'a str,
    part: &'a [u8],
    first: &'a str,
    next: &'a str,
    last: &'a str,
) -> Result<(), WriteFault>
    ensures { Says (W.contents out.old) (W.contents out.new) result path.now (from.now ++ number.now) words.now part.now (first.now ∷ next.now ∷ last.now ∷ []) }
{
    let shown = shown_part(part);
    let (lead, tail) = around_part(part, shown.len());
    let (path, from, number) = (path.as_bytes(), from.as_bytes(), number.as_bytes());
    let (words, lead, tail) = (words.as_bytes(), lead.as_bytes(), tail.as_bytes());
    let (first, next, last) = (first.as_bytes(), next.as_bytes(), last.as_bytes());
    write_line(
        out,
        &[
            path, from, number, b": ", words, lead, shown, tail, first, next, last, b"\n",
        ],
    )
}

/// Writes a message after the program's file: its place, words, a part of a line as it is shown, and more words. It flushes.
/// After a fault of the writer a prefix of it has been written. Never allocates.
pub fn write_said<W: Write>(
    out: &mut W,
    path: &str,
    from: Origin,
    words: &str,
    part: &[u8],
    first: &str,
    next: &str,
    last: &str,
) -> Result<(), WriteFault>
    ensures { Says (W.contents out.old) (W.contents out.new) result path.now (origin from) words.now part.now (first.now ∷ next.now ∷ last.now ∷ []) }
{
    let mut room = Buffer::new();
    let (from, number) = origin_words(&mut room, from);
    put(out, path, from, number, words, part, first, next, last)
}
