//! The report text, whose long lines are formatted by several threads.

ghost use Rattle.std.specs.Prelude.{◌≡◌, ◌<◌, ◌≤◌, ◌++◌, length, flat_map, All, IfSome, vec_len};
ghost use Rattle.kahn_streams.specs.Written.{Writes};
ghost use Rattle.kahn_texts.specs.{Formats.HasItsLines, Formats.IsLine, Formats.report_text, Formats.stream_text, inner.Pieces.ArePieceTexts, inner.Pieces.IsPieceText, inner.Pieces.IsTextAt, inner.Pieces.piece_text};

use crate::bytes::{WriteFault, put, uncounted};
use crate::write::{Layout, put_closing, put_head, put_line_values, put_values, write_closing};
use kahn_streams::{Answer, Network, Stream, Values};
use std::alloc::Global;
use std::io::Write;
use std::thread;
use std::thread::{Threads, available_parallelism};

/// A line of no more values is short: one thread writes it.
const SHORT: usize = 16384;

/// How many values a piece has at most. Its text has less than the 128 KiB from which on blocks are the system's: threads wait for these.
const TOGETHER: usize = 5000;

/// How many pieces are formatted at most before they are written. Threads are started anew then.
const AT_ONCE: usize = 1024;

/// Room for a piece, each value of 20 bytes at most and a space.
const ROOM: usize = 21 * TOGETHER;

/// So many places without a text, or fewer if memory is refused.
fn places(alloc: Global, count: usize) -> Vec<Option<Vec<u8>>>
    ensures { vec_len result ≤ count }
{
    let mut texts = Vec::new(alloc);
    for _ in 0..count {
        if texts.push(None).is_err() {
            return texts;
        }
    }
    texts
}

/// Formats a piece; None if memory was refused.
fn text_of(alloc: Global, piece: &Values<'_>) -> Option<Vec<u8>>
    ensures { IsPieceText piece.now result }
{
    let mut text = Vec::with_capacity(alloc, ROOM).ok()?;
    put_values(&mut text, Layout::Spaced, piece, &mut uncounted()).ok()?;
    Some(text)
}

/// Formats the first pieces, as many as there are texts, by at most `threads` threads.
fn format_texts<R: Threads + Sync>(
    rt: &R,
    alloc: Global,
    pieces: &[Values<'_>],
    threads: usize,
    texts: &mut [Option<Vec<u8>>],
)
    requires some { 0 < threads }
    requires within { length texts.old ≤ length pieces.now }
    ensures { ArePieceTexts pieces.now texts.new }
{
    thread::for_each_mut(
        rt,
        texts,
        threads,
        &|number: usize, text: &mut Option<Vec<u8>>|
            requires { number < length pieces.now }
            ensures { IsTextAt pieces.entry.now number text.exit.now }
        { *text = text_of(alloc, &pieces[number]) },
    );
}

/// Writes a piece, whose text may be at hand.
fn put_text<W: Write>(
    writer: &mut W,
    piece: &Values<'_>,
    text: Option<&Option<Vec<u8>>>,
) -> Result<(), WriteFault>
    requires { IfSome text (λ it. IsPieceText piece.now it.now) }
    ensures { Writes (W.contents writer.old) (W.contents writer.new) result (piece_text piece.now) }
{
    match text {
        Some(Some(bytes)) => put(writer, bytes, &mut uncounted()),
        _ => put_values(writer, Layout::Spaced, piece, &mut uncounted()),
    }
}

/// Writes pieces; the texts of the first ones are at hand.
fn put_texts<W: Write>(
    writer: &mut W,
    pieces: &[Values<'_>],
    texts: &[Option<Vec<u8>>],
) -> Result<(), WriteFault>
    requires { ArePieceTexts pieces.now texts.now }
    ensures { Writes (W.contents writer.old) (W.contents writer.new) result (flat_map piece_text pieces.now) }
{
    for (number, piece) in pieces.iter().enumerate() {
        put_text(writer, piece, texts.get(number))?;
    }
    Ok(())
}

/// Writes pieces, formatted by at most `threads` threads.
fn put_pieces<R: Threads + Sync, W: Write>(
    rt: &R,
    alloc: Global,
    writer: &mut W,
    pieces: &[Values<'_>],
    threads: usize,
) -> Result<(), WriteFault>
    requires { 0 < threads }
    ensures { Writes (W.contents writer.old) (W.contents writer.new) result (flat_map piece_text pieces.now) }
{
    for together in pieces.chunks(AT_ONCE) {
        let mut texts = places(alloc, together.len());
        format_texts(rt, alloc, together, threads, &mut texts);
        put_texts(writer, together, &texts)?;
    }
    Ok(())
}

/// Cuts values into pieces, and returns them and the values behind them: all that are left if memory is refused.
fn pieces_of<'a>(alloc: Global, values: Values<'a>) -> (Vec<Values<'a>>, Values<'a>)
    ensures { flat_map piece_text result.0.items ++ piece_text result.1 ≡ piece_text values.entry }
{
    let mut pieces = Vec::new(alloc);
    let mut rest = values;
    while rest.len() > TOGETHER {
        let (first, after) = rest.split_at(TOGETHER);
        if pieces.push(first).is_err() {
            return (pieces, rest);
        }
        rest = after;
    }
    (pieces, rest)
}

/// Writes a stream's line, formatted by at most `threads` threads if it is long.
fn put_stream_by<R: Threads + Sync, W: Write>(
    rt: &R,
    alloc: Global,
    writer: &mut W,
    network: &Network,
    stream: &Stream,
    threads: usize,
) -> Result<(), WriteFault>
    requires line { IsLine network.now stream.now.line }
    requires some { 0 < threads }
    ensures { Writes (W.contents writer.old) (W.contents writer.new) result (stream_text network.now stream.now) }
{
    let values = stream.tokens.values();
    let writes = &mut uncounted();
    if threads == 1 || values.len() <= SHORT {
        return put_line_values(writer, network, stream.line, &values, writes);
    }
    let (pieces, rest) = pieces_of(alloc, values);
    put_head(writer, network, stream.line, writes)?;
    put_pieces(rt, alloc, writer, &pieces, threads)?;
    put_closing(writer, &rest, writes)
}

/// Writes the lines of streams, those that are long formatted by at most `threads` threads.
fn put_streams_by<R: Threads + Sync, W: Write>(
    rt: &R,
    alloc: Global,
    writer: &mut W,
    network: &Network,
    streams: &[Stream],
    threads: usize,
) -> Result<(), WriteFault>
    requires lines { All (λ stream. IsLine network.now stream.line) streams.now }
    requires some { 0 < threads }
    ensures { Writes (W.contents writer.old) (W.contents writer.new) result (flat_map (stream_text network.now) streams.now) }
{
    for stream in streams {
        put_stream_by(rt, alloc, writer, network, stream, threads)?;
    }
    Ok(())
}

/// Writes what `write_report` writes, by `threads` threads: they format the values of long lines, and the caller's, which is one of them,
/// writes. If a thread can't be started the others do its part, and if memory is refused values are written as they come.
pub fn write_report_by<R: Threads + Sync, W: Write>(
    rt: &R,
    alloc: Global,
    writer: &mut W,
    network: &Network,
    answer: &Answer,
    threads: usize,
) -> Result<(), WriteFault>
    requires lines { HasItsLines network.now answer.now }
    requires some { 0 < threads }
    ensures { Writes (W.contents writer.old) (W.contents writer.new) result (report_text network.now answer.now) }
{
    put_streams_by(rt, alloc, writer, network, &answer.streams, threads)?;
    write_closing(writer, network, answer.verdict, &answer.ends, answer.events)
}

/// Returns how many threads write the report of a run by `workers` workers: no more than run side by side.
fn threads_for<R: Threads>(rt: &R, workers: u64) -> usize
    ensures { 0 < result }
{
    if workers <= 1 {
        return 1;
    }
    match available_parallelism(rt) {
        Ok(count) => count.get().min(workers as usize),
        Err(_) => workers as usize,
    }
}

/// Writes the report of a run by `workers` workers, by as many threads where it is long.
pub fn write_for<R: Threads + Sync, W: Write>(
    rt: &R,
    alloc: Global,
    writer: &mut W,
    network: &Network,
    answer: &Answer,
    workers: u64,
) -> Result<(), WriteFault>
    requires { HasItsLines network.now answer.now }
    ensures { Writes (W.contents writer.old) (W.contents writer.new) result (report_text network.now answer.now) }
{
    write_report_by(rt, alloc, writer, network, answer, threads_for(rt, workers))
}
