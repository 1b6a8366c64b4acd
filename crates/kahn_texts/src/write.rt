//! The report text, written piece by piece, and what goes out while a run goes on.

ghost use Rattle.std.specs.Prelude.{◌≡◌, ◌+◌, ◌<◌, ◌≤◌, ◌++◌, length, flat_map, All, ◌*◌, drop};
ghost use Rattle.kahn_streams.specs.Written.{Writes, line_feed, spaced_text, value_text};
ghost use Rattle.kahn_texts.specs.{Flushes.FlushesOnce, News.closing_text, Formats.report_text, Formats.line_head, Formats.values_line, Formats.stream_text, Formats.outcome_word, Formats.waited_name, Formats.end_words, Formats.end_text, Formats.ends_text, Formats.last_line, Formats.IsLine, Formats.HasItsLines, Formats.channel_name, Formats.process_name, News.more_text, News.plain_text, inner.Layouts.separated};
ghost use Rattle.std.specs.Fmt.{signed_decimal};

use crate::bytes::{CallCount, WriteFault, flush, put, put_all, put_line, uncounted};
use itoa::{Buffer, write_digits};
use kahn_streams::{Answer, End, Failure, Line, Network, Outcome, Stream, Value, Values, Verdict};
use std::io::Write;

/// How many values one write has.
const TOGETHER: usize = 32;

/// Room for these, each of 20 bytes at most and a space.
const ROOM: usize = 21 * TOGETHER;

/// How values are separated.
#[derive(Clone, Copy)]
pub(crate) enum Layout {
    /// A space before each.
    Spaced,
    /// Each on a line of its own.
    Lined,
}

/// Writes what a stream's line begins with.
pub(crate) fn put_head<W: Write, C: CallCount>(
    writer: &mut W,
    network: &Network,
    line: Line,
    writes: &mut C,
) -> Result<(), WriteFault>
    requires { IsLine network.now line }
    ensures text { Writes (W.contents writer.old) (W.contents writer.new) result (line_head network.now line) }
    ensures few { C.count writes.new ≤ C.count writes.old + length (line_head network.now line) }
{
    match line {
        Line::Channel(channel) => {
            let name = channel_name(network, channel).as_bytes();
            put_all(writer, &[name, b":"], writes)
        }
        Line::Print(instance) => {
            let mut buffer = Buffer::new();
            let number = buffer.format(instance + 1).as_bytes();
            let name = process_name(network, instance).as_bytes();
            put_all(writer, &[b"print ", number, b" ", name, b":"], writes)
        }
    }
}

/// Writes the last values of a line, and its end.
#[tactic(auto, using(crate::proofs::Writing::fails, crate::proofs::Writing::stops, crate::proofs::Writing::goes_on))]
pub(crate) fn put_closing<W: Write, C: CallCount>(
    writer: &mut W,
    values: &Values<'_>,
    writes: &mut C,
) -> Result<(), WriteFault>
    ensures text { Writes (W.contents writer.old) (W.contents writer.new) result (flat_map spaced_text values.now ++ line_feed) }
    ensures few { C.count writes.new ≤ C.count writes.old + length (flat_map spaced_text values.now ++ line_feed) }
{
    put_values(writer, Layout::Spaced, values, writes)?;
    put(writer, b"\n", writes)
}

#[tactic(auto, using(crate::proofs::Writing::fails, crate::proofs::Writing::stops, crate::proofs::Writing::goes_on))]
pub(crate) fn put_line_values<W: Write, C: CallCount>(
    writer: &mut W,
    network: &Network,
    line: Line,
    values: &Values<'_>,
    writes: &mut C,
) -> Result<(), WriteFault>
    requires { IsLine network.now line }
    ensures text { Writes (W.contents writer.old) (W.contents writer.new) result (values_line network.now line values.now) }
    ensures few { C.count writes.new ≤ C.count writes.old + length (values_line network.now line values.now) }
{
    put_head(writer, network, line, writes)?;
    put_closing(writer, values, writes)
}

/// Returns the word for an instance's state, and the name of the channel on which it waits, or nothing.
fn outcome_words(network: &Network, outcome: Outcome) -> (&'static str, &str)
    ensures word { result.0.now ≡ outcome_word outcome }
    ensures name { result.1.now ≡ waited_name network.now outcome }
{
    match outcome {
        Outcome::Ended => ("ended", ""),
        Outcome::Waits(channel) => ("waits on ", channel_name(network, channel)),
        Outcome::Faulted(Failure::Overflow) => ("fault overflow", ""),
        Outcome::Faulted(Failure::Division) => ("fault division", ""),
        Outcome::More => ("wants more", ""),
    }
}

fn put_end<W: Write, C: CallCount>(
    writer: &mut W,
    network: &Network,
    instance: usize,
    end: End,
    writes: &mut C,
) -> Result<(), WriteFault>
    requires { instance < usize.MAX }
    ensures text { Writes (W.contents writer.old) (W.contents writer.new) result (end_text network.now instance end) }
    ensures few { C.count writes.new ≤ C.count writes.old + length (end_text network.now instance end) }
{
    let mut first = Buffer::new();
    let mut second = Buffer::new();
    let number = first.format(instance + 1).as_bytes();
    let events = second.format(end.events).as_bytes();
    let name = process_name(network, instance).as_bytes();
    let (word, channel) = outcome_words(network, end.outcome);
    let (word, channel) = (word.as_bytes(), channel.as_bytes());
    put_words(writer, number, name, word, channel, events, writes)
}

/// Writes an instance's line of its parts.
fn put_words<'a, W: Write, C: CallCount>(
    writer: &mut W,
    number: &'a [u8],
    name: &'a [u8],
    word: &'a [u8],
    channel: &'a [u8],
    events: &'a [u8],
    writes: &mut C,
) -> Result<(), WriteFault>
    ensures text { Writes (W.contents writer.old) (W.contents writer.new) result (end_words number.now name.now word.now channel.now events.now) }
    ensures few { C.count writes.new ≤ C.count writes.old + length (end_words number.now name.now word.now channel.now events.now) }
{
    put_line(
        writer,
        &[
            b"end ", number, b" ", name, b": ", word, channel, b" after ", events, b"\n",
        ],
        writes,
    )
}

fn put_last<W: Write, C: CallCount>(
    writer: &mut W,
    verdict: Verdict,
    events: u64,
    writes: &mut C,
) -> Result<(), WriteFault>
    ensures text { Writes (W.contents writer.old) (W.contents writer.new) result (last_line verdict events) }
    ensures few { C.count writes.new ≤ C.count writes.old + length (last_line verdict events) }
{
    let mut buffer = Buffer::new();
    let events = buffer.format(events).as_bytes();
    let word: &[u8] = match verdict {
        Verdict::Finished => b"finished ",
        Verdict::Bound => b"stopped by bound ",
        Verdict::Memory => b"stopped by memory ",
    };
    put_line(writer, &[word, events, b"\n"], writes)
}

fn put_streams<W: Write, C: CallCount>(
    writer: &mut W,
    network: &Network,
    streams: &[Stream],
    writes: &mut C,
) -> Result<(), WriteFault>
    requires { All (λ stream. IsLine network.now stream.line) streams.now }
    ensures text { Writes (W.contents writer.old) (W.contents writer.new) result (flat_map (stream_text network.now) streams.now) }
    ensures few { C.count writes.new ≤ C.count writes.old + length (flat_map (stream_text network.now) streams.now) }
{
    for stream in streams {
        let values = stream.tokens.values();
        put_line_values(writer, network, stream.line, &values, writes)?;
    }
    Ok(())
}

fn put_ends<W: Write, C: CallCount>(
    writer: &mut W,
    network: &Network,
    ends: &[End],
    writes: &mut C,
) -> Result<(), WriteFault>
    ensures text { Writes (W.contents writer.old) (W.contents writer.new) result (ends_text network.now 0 ends.now) }
    ensures few { C.count writes.new ≤ C.count writes.old + length (ends_text network.now 0 ends.now) }
{
    for (instance, end) in ends.iter().enumerate() {
        put_end(writer, network, instance, *end, writes)?;
    }
    Ok(())
}

/// Writes the last lines of a report and flushes, and counts both.
pub(crate) fn closing_counted<W: Write, C: CallCount, D: CallCount>(
    writer: &mut W,
    network: &Network,
    verdict: Verdict,
    ends: &[End],
    events: u64,
    writes: &mut C,
    flushes: &mut D,
) -> Result<(), WriteFault>
    ensures text { Writes (W.contents writer.old) (W.contents writer.new) result (closing_text network.now verdict ends.now events) }
    ensures few { C.count writes.new ≤ C.count writes.old + length (closing_text network.now verdict ends.now events) }
    ensures once { FlushesOnce result (D.count flushes.old) (D.count flushes.new) }
{
    put_ends(writer, network, ends, writes)?;
    put_last(writer, verdict, events, writes)?;
    flush(writer, flushes)
}

/// Writes the report text and flushes, and counts both: at most one write for each byte, and one flush.
pub fn write_counted<W: Write, C: CallCount, D: CallCount>(
    writer: &mut W,
    network: &Network,
    answer: &Answer,
    writes: &mut C,
    flushes: &mut D,
) -> Result<(), WriteFault>
    requires { HasItsLines network.now answer.now }
    ensures text { Writes (W.contents writer.old) (W.contents writer.new) result (report_text network.now answer.now) }
    ensures few { C.count writes.new ≤ C.count writes.old + length (report_text network.now answer.now) }
    ensures once { FlushesOnce result (D.count flushes.old) (D.count flushes.new) }
{
    let (verdict, events) = (answer.verdict, answer.events);
    put_streams(writer, network, &answer.streams, writes)?;
    let ends = &answer.ends;
    closing_counted(writer, network, verdict, ends, events, writes, flushes)
}

/// Writes the report text of an answer of a network, and flushes. After a fault a prefix of it went out.
pub fn write_report<W: Write>(
    writer: &mut W,
    network: &Network,
    answer: &Answer,
) -> Result<(), WriteFault>
    requires { HasItsLines network.now answer.now }
    ensures { Writes (W.contents writer.old) (W.contents writer.new) result (report_text network.now answer.now) }
{
    write_counted(writer, network, answer, &mut uncounted(), &mut uncounted())
}

/// Returns the declared name of a channel, or nothing past the last. Never allocates.
pub fn channel_name(network: &Network, channel: usize) -> &str
    ensures { result.now ≡ channel_name network.now channel }
{
    if channel >= network.channels() {
        return "";
    }
    network.channel(channel).name
}

/// Returns the name of an instance's process, or nothing past the last. Never allocates.
pub fn process_name(network: &Network, instance: usize) -> &str
    ensures { result.now ≡ process_name network.now instance }
{
    match network.program().instances.get(instance) {
        Some(found) => found.process.text.as_str(),
        None => "",
    }
}

/// Writes a line with the heading of a stream, as in a report, and these new values, or nothing if there are none. It doesn't flush.
pub fn write_news<W: Write>(
    writer: &mut W,
    network: &Network,
    line: Line,
    values: &Values<'_>,
) -> Result<(), WriteFault>
    requires { IsLine network.now line }
    ensures { Writes (W.contents writer.old) (W.contents writer.new) result (more_text network.now line values.now) }
{
    if values.is_empty() {
        return Ok(());
    }
    put_line_values(writer, network, line, values, &mut uncounted())
}

/// Writes values, each on a line of its own. It doesn't flush, and never allocates.
pub fn write_plain<W: Write>(writer: &mut W, values: &Values<'_>) -> Result<(), WriteFault>
    ensures { Writes (W.contents writer.old) (W.contents writer.new) result (plain_text values.now) }
{
    put_values(writer, Layout::Lined, values, &mut uncounted())
}

/// Writes the last lines of a report, those of the ends and of the verdict with the sum of the events, and flushes.
pub fn write_closing<W: Write>(
    writer: &mut W,
    network: &Network,
    verdict: Verdict,
    ends: &[End],
    events: u64,
) -> Result<(), WriteFault>
    ensures { Writes (W.contents writer.old) (W.contents writer.new) result (closing_text network.now verdict ends.now events) }
{
    closing_counted(
        writer,
        network,
        verdict,
        ends,
        events,
        &mut uncounted(),
        &mut uncounted(),
    )
}

/// Places a text so that it ends at `end`, and returns where it begins.
#[inline(always)]
fn place(text: &[u8], room: &mut [u8], end: usize) -> usize
    requires { (length text.now ≤ end) × (end ≤ length room.old) }
    ensures begins { result + length text.now ≡ end }
    ensures placed { drop result room.new ≡ text.now ++ drop end room.old }
{
    let start = end - text.len();
    room[start..end].copy_from_slice(text);
    start
}

/// Places a number so that it ends at `end`, and returns where it begins.
#[inline(always)]
#[tactic(auto, using(crate::proofs::Writing::digits_within))]
fn place_number(number: i64, room: &mut [u8], end: usize) -> usize
    requires { (20 ≤ end) × (end ≤ length room.old) }
    ensures near { (result ≤ end) × (end ≤ result + 20) }
    ensures placed { drop result room.new ≡ signed_decimal number ++ drop end room.old }
{
    let start = write_digits(number.unsigned_abs(), room, end);
    if number < 0 {
        place(b"-", room, start)
    } else {
        start
    }
}

/// Places a value so that it ends at `end`, and returns where it begins.
#[inline(always)]
fn place_value(value: Value, room: &mut [u8], end: usize) -> usize
    requires { (20 ≤ end) × (end ≤ length room.old) }
    ensures near { (result ≤ end) × (end ≤ result + 20) }
    ensures placed { drop result room.new ≡ value_text value ++ drop end room.old }
{
    match value {
        Value::Integer(number) => place_number(number, room, end),
        Value::Logical(true) => place(b"true", room, end),
        Value::Logical(false) => place(b"false", room, end),
    }
}

/// Places a value and its separator so that they end at `end`, and returns where they begin.
#[inline(always)]
fn place_separated(layout: Layout, value: Value, room: &mut [u8], end: usize) -> usize
    requires { (21 ≤ end) × (end ≤ length room.old) }
    ensures near { (result ≤ end) × (end ≤ result + 21) }
    ensures placed { drop result room.new ≡ separated layout value ++ drop end room.old }
{
    match layout {
        Layout::Spaced => {
            let start = place_value(value, room, end);
            place(b" ", room, start)
        }
        Layout::Lined => {
            let start = place(b"\n", room, end);
            place_value(value, room, start)
        }
    }
}

/// Places values at the end of `room`, the last one first, as digits are made, and returns their text.
#[tactic(auto, using(crate::proofs::Cut::drop_on))]
fn place_values<'a>(layout: Layout, values: &Values<'_>, room: &'a mut [u8]) -> &'a [u8]
    requires { 21 * length values.now ≤ length room.old }
    ensures { result.now ≡ flat_map (separated layout) values.now }
{
    let mut start = room.len();
    let mut left = values.len();
    while left > 0 {
        left -= 1;
        let Some(value) = values.get(left) else {
            unreachable!()
        };
        start = place_separated(layout, value, room, start);
    }
    &room[start..]
}

/// Writes values, `TOGETHER` by one write.
pub(crate) fn put_values<W: Write, C: CallCount>(
    writer: &mut W,
    layout: Layout,
    values: &Values<'_>,
    writes: &mut C,
) -> Result<(), WriteFault>
    ensures text { Writes (W.contents writer.old) (W.contents writer.new) result (flat_map (separated layout) values.now) }
    ensures few { C.count writes.new ≤ C.count writes.old + length (flat_map (separated layout) values.now) }
{
    let mut room = [0; ROOM];
    let mut from = 0;
    while from < values.len() {
        let (_, left) = values.split_at(from);
        let (first, _) = left.split_at(TOGETHER.min(left.len()));
        put(writer, place_values(layout, &first, &mut room), writes)?;
        from += first.len();
    }
    Ok(())
}
