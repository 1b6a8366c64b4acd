//! The lines of standard input, one at a time, and rows: lines that have one value for each of several channels.

ghost use Rattle.std.specs.Prelude.{◌≡◌, ◌==◌, ◌≤◌, ◌++◌, IfOk, length, option_copied, take, vec_len, not};
ghost use Rattle.std.specs.{List.list_any, List.position, List.position_or_len, Io.Buffered.reader_buffer};
ghost use Rattle.kahn_live.specs.{Lines.IsNextLine, Lines.fed_text, Lines.most_kept, Lines.unmarked, inner.Parts.IsLinePart, Rows.AreNumbered, Rows.IsRowTried, Rows.behind_word, Rows.bytes_in, Rows.row_line, Rows.first_word, Rows.is_row_gap, Rows.row_names, inner.Parts.IsTriedCell};

use kahn_session::{Session, TakeFault};
use kahn_streams::RunFault;
use kahn_texts::MOST_BYTES;
use std::alloc::{AllocError, Global};
use std::io::{BufRead, BufReader, ErrorKind, Read};

/// A byte order mark, which the first line may begin with.
const MARK: &[u8] = b"\xEF\xBB\xBF";

/// How many bytes of a line are kept: more than its limit, also after a byte order mark.
const MOST_KEPT: usize = MOST_BYTES + 4;

/// What was read.
pub(crate) enum Next {
    /// A line, which may be too long: then it is cut after its limit.
    Line,
    /// The end of the input.
    End,
    /// A read failed.
    Failed,
    /// Memory was refused for the line. It is passed over.
    NoMemory,
}

/// Whether the next line can be read without a wait: its line feed has come.
pub(crate) fn has_line<R: Read>(reader: &BufReader<R>) -> bool
    ensures { result ≡ list_any (λ b. b == 10) (reader_buffer reader.now) }
{
    reader.buffer().contains(&b'\n')
}

/// Reads the next line, without its line feed, into the empty `line`; the last line needs none. If memory is refused, the rest of
/// the line is skipped.
pub(crate) fn read_line<B: BufRead>(reader: &mut B, line: &mut Vec<u8>) -> Next
    requires { vec_len line.old ≡ 0 }
    ensures { IsNextLine (B.remaining reader.old) (B.remaining reader.new) line.new.items result }
{
    for _ in 0..u64::MAX {
        match read_part(reader, line) {
            None => {}
            Some(Next::Line) => return Next::Line,
            Some(Next::End) => {
                if line.is_empty() {
                    return Next::End;
                }
                return Next::Line;
            }
            Some(Next::Failed) => return Next::Failed,
            Some(Next::NoMemory) => match reader.skip_until(b'\n') {
                Ok(_) => return Next::NoMemory,
                Err(_) => return Next::Failed,
            },
        }
    }
    Next::Failed
}

/// Adds what is there of a line, or waits for it. Returns `None` if more may follow. If memory is refused, reads nothing.
fn read_part<B: BufRead>(reader: &mut B, line: &mut Vec<u8>) -> Option<Next>
    requires { vec_len line.old ≤ most_kept }
    ensures { IsLinePart (B.remaining reader.old) (B.remaining reader.new) line.old.items line.new.items result }
{
    let shown = match reader.fill_buf() {
        Ok(shown) => shown,
        Err(error) => {
            return if error.kind() == ErrorKind::Interrupted {
                None
            } else {
                Some(Next::Failed)
            };
        }
    };
    let length = shown.len();
    let end = length_before(shown);
    if length == 0 {
        return Some(Next::End);
    }
    if keep(line, &shown[..end]).is_err() {
        return Some(Next::NoMemory);
    }
    if end == length {
        reader.consume(length);
        return None;
    }
    reader.consume(end + 1);
    Some(Next::Line)
}

fn first_feed(bytes: &[u8]) -> Option<usize>
    ensures { result ≡ position (λ b. b == 10) bytes.now }
{
    bytes.iter().position(|byte| *byte == b'\n')
}

#[tactic(auto, using(kahn_texts::proofs::Scanned::stop_of))]
fn length_before(bytes: &[u8]) -> usize
    ensures within { result ≤ length bytes.now }
    ensures stop { result ≡ position_or_len (λ b. b == 10) bytes.now }
{
    first_feed(bytes).unwrap_or(bytes.len())
}

fn keep(line: &mut Vec<u8>, bytes: &[u8]) -> Result<(), AllocError>
    requires { vec_len line.old ≤ most_kept }
    ensures { IfOk result (λ _. line.new.items ≡ take most_kept (line.old.items ++ bytes.now)) }
{
    let room = MOST_KEPT - line.len();
    line.extend_from_slice(&bytes[..room.min(bytes.len())])
}

pub(crate) fn without_mark(line: &[u8], number: u64) -> &[u8]
    ensures { result.now ≡ unmarked number line.now }
{
    if number != 1 {
        return line;
    }
    line.strip_prefix(MARK).unwrap_or(line)
}

/// Returns the line to feed: `line` itself, or with a bare input `INPUT:LINE`, made in `room`.
pub(crate) fn fed_line<'a>(
    input: Option<&str>,
    line: &'a [u8],
    room: &'a mut Vec<u8>,
) -> Result<&'a [u8], AllocError>
    ensures { IfOk result (λ fed. fed.now ≡ fed_text (option_copied input.entry) line.entry.now) }
{
    let Some(input) = input else {
        return Ok(line);
    };
    room.clear();
    room.extend_from_slice(input.as_bytes())?;
    room.push(b':')?;
    room.extend_from_slice(line)?;
    Ok(room.as_slice())
}

pub(crate) fn is_several(names: &str) -> bool
    ensures { result ≡ list_any (λ b. b == 44) names.now }
{
    names.as_bytes().contains(&b',')
}

/// Returns the names of several channels, if there is a comma between them: then each line is a row.
pub(crate) fn row_names(input: Option<&str>) -> Option<&str>
    ensures { option_copied result ≡ row_names (option_copied input.entry) }
{
    input.filter(|names| is_several(names))
}

fn is_row_gap(byte: u8) -> bool
    ensures { result ≡ is_row_gap byte }
{
    byte == b' ' || byte == b'\t' || byte == b',' || byte == b'\r'
}

fn first_of_word(bytes: &[u8]) -> Option<usize>
    ensures { result ≡ position (λ b. not (is_row_gap b)) bytes.now }
{
    bytes.iter().position(|byte| !is_row_gap(*byte))
}

fn first_between(bytes: &[u8]) -> Option<usize>
    ensures { result ≡ position is_row_gap bytes.now }
{
    bytes.iter().position(|byte| is_row_gap(*byte))
}

#[tactic(auto, using(kahn_texts::proofs::Scanned::stop_of))]
fn word_start(bytes: &[u8]) -> usize
    ensures within { result ≤ length bytes.now }
    ensures stop { result ≡ position_or_len (λ b. not (is_row_gap b)) bytes.now }
{
    first_of_word(bytes).unwrap_or(bytes.len())
}

#[tactic(auto, using(kahn_texts::proofs::Scanned::stop_of))]
fn word_length(bytes: &[u8]) -> usize
    ensures within { result ≤ length bytes.now }
    ensures stop { result ≡ position_or_len is_row_gap bytes.now }
{
    first_between(bytes).unwrap_or(bytes.len())
}

fn first_word(bytes: &[u8]) -> &[u8]
    ensures { result.now ≡ first_word bytes.now }
{
    let bytes = &bytes[word_start(bytes)..];
    &bytes[..word_length(bytes)]
}

fn behind_word(bytes: &[u8]) -> &[u8]
    ensures { result.now ≡ behind_word bytes.now }
{
    let bytes = &bytes[word_start(bytes)..];
    &bytes[word_length(bytes)..]
}

fn cell_of(alloc: Global, name: &[u8], word: &[u8]) -> Result<Vec<u8>, AllocError>
    ensures { IfOk result (λ cell. bytes_in cell ≡ row_line name.now word.now) }
{
    let mut cell = Vec::new(alloc);
    cell.extend_from_slice(name)?;
    cell.push(b':')?;
    cell.extend_from_slice(word)?;
    Ok(cell)
}

/// Returns a line that feeds a row's value to the channel called `name`, if it is meant for it; else the line, or nothing, and the
/// fault.
fn tried_cell(
    alloc: Global,
    session: &Session<'_>,
    name: &[u8],
    word: &[u8],
) -> Result<Vec<u8>, (TakeFault, Vec<u8>)>
    ensures { IsTriedCell session.now (row_line name.now word.now) result }
{
    let Ok(cell) = cell_of(alloc, name, word) else {
        return Err((TakeFault::NoMemory, Vec::new(alloc)));
    };
    match session.try_line(&cell) {
        Ok(()) => Ok(cell),
        Err(fault) => Err((fault, cell)),
    }
}

/// Returns one line `NAME:VALUE` for each name of a row, all meant for input channels; or the fault, and the line that has it
/// (empty for the row itself).
pub(crate) fn row_cells(
    alloc: Global,
    session: &Session<'_>,
    names: &[u8],
    row: &[u8],
) -> Result<Vec<Vec<u8>>, (TakeFault, Vec<u8>)>
    ensures { IsRowTried session.now names.now row.now result }
{
    let blank = first_word(row).is_empty();
    let mut cells = Vec::new(alloc);
    let mut rest = names;
    let mut words = row;
    'names: while !first_word(rest).is_empty() {
        let word = first_word(words);
        if word.is_empty() != blank {
            return Err((TakeFault::BadRow, Vec::new(alloc)));
        }
        let cell = match tried_cell(alloc, session, first_word(rest), word) {
            Ok(cell) => cell,
            Err(refused) => return Err(refused),
        };
        if cells.push(cell).is_err() {
            return Err((TakeFault::NoMemory, Vec::new(alloc)));
        }
        rest = behind_word(rest);
        words = behind_word(words);
    }
    if cells.is_empty() {
        return Err((TakeFault::BadRow, Vec::new(alloc)));
    }
    if !first_word(words).is_empty() {
        return Err((TakeFault::BadRow, Vec::new(alloc)));
    }
    Ok(cells)
}

/// Returns the numbers of the streams of the channels with these names; `UnknownWatch` if there is no name, or a name has no
/// stream.
pub(crate) fn stream_numbers(
    alloc: Global,
    session: &Session<'_>,
    names: &[u8],
) -> Result<Vec<usize>, RunFault>
    ensures { AreNumbered session.now.flow.run names.now result }
{
    if first_word(names).is_empty() {
        return Err(RunFault::UnknownWatch);
    }
    let mut numbers = Vec::new(alloc);
    let mut rest = names;
    'names: while !first_word(rest).is_empty() {
        let word = first_word(rest);
        let Some(number) = session.stream_of(word) else {
            return Err(RunFault::UnknownWatch);
        };
        if numbers.push(number).is_err() {
            return Err(RunFault::NoMemory);
        }
        rest = behind_word(rest);
    }
    Ok(numbers)
}
