//! The whole work by one thread, which needs no handle, for texts that are bytes: the report of a run; for all channels of a run
//! how many values each had, what they were, and how many were taken; and why a run stopped, or a program or an input is refused.

ghost use Rattle.std.specs.Prelude.{◌≡◌, ◌<◌, IfOk, IfSome, Some, length, slice_get, MatchResult, codes, false};
ghost use Rattle.kahn_streams.specs.{Network.network_of, Written.Writes};
ghost use Rattle.kahn_texts.specs.Formats.{HasItsLines, IsInputTextFault};
ghost use Rattle.kahn_web.specs.{Whole.IsWholeText, Whole.flow_text, Whole.history_text, Whole.whole_text, Alone.alone, Page.IsAnswerAlone, Page.IsSaidAlone, Explained.IsReason, Explained.IsInputRefused, Explained.IsRunExplained};
ghost use Rattle.kahn_fault.specs.Work.{IsTextAnswer, IsUnanswered};
ghost use Rattle.kahn_explanation.specs.inner.Told.{IsAdmitted};

use crate::secret::PageSecret;
use itoa::Buffer;
use kahn_explanation::{Admitted, Came, admit, explained, refuse_input, write_both};
use kahn_fault::{Fault, WorkFault, checked, tell};
use kahn_sequential::{Recorded, run_one, run_recorded};
use kahn_streams::{Answer, Config, Line, Network, Verdict};
use kahn_texts::{
    ReadFault, TextFault, WriteFault, channel_name, read_input, write_line, write_news,
    write_report,
};
use std::alloc::Global;
use std::hash::RandomState;
use std::io::Write;

/// Writes how many values a channel had, and how many of them were taken.
fn put_count(
    written: &mut Vec<u8>,
    network: &Network,
    run: &Recorded,
    channel: usize,
) -> Result<(), WriteFault>
    ensures { Writes (Some written.old.items) (Some written.new.items) result (flow_text network.now channel (slice_get run.now.counts.items channel)) }
{
    let Some(count) = run.counts.get(channel) else {
        return Ok(());
    };
    let (mut first, mut second) = (Buffer::new(), Buffer::new());
    let sent = first.format(count.sent).as_bytes();
    let taken = second.format(count.taken).as_bytes();
    let name = channel_name(network, channel).as_bytes();
    write_line(written, &[b"count ", name, b": ", sent, b" ", taken, b"\n"])
}

/// Writes what was kept of a channel.
fn put_history(
    written: &mut Vec<u8>,
    network: &Network,
    run: &Recorded,
    channel: usize,
) -> Result<(), WriteFault>
    requires { channel < length (network_of network.now).channels }
    ensures { Writes (Some written.old.items) (Some written.new.items) result (history_text network.now channel (slice_get run.now.channels.items channel)) }
{
    match run.channels.get(channel) {
        Some(stream) => write_news(
            written,
            network,
            Line::Channel(channel),
            &stream.tokens.values(),
        ),
        None => Ok(()),
    }
}

/// The text of a run that kept all channels.
fn written(alloc: Global, network: &Network, run: &Recorded) -> Result<Vec<u8>, WriteFault>
    requires { HasItsLines network.now run.now.answer }
    ensures { IfOk result (λ text. text.items ≡ whole_text network.now run.now) }
{
    let mut written = Vec::new(alloc);
    for channel in 0..network.channels() {
        put_count(&mut written, network, run, channel)?;
        put_history(&mut written, network, run, channel)?;
    }
    write_report(&mut written, network, &run.answer)?;
    Ok(written)
}

/// Returns the counts and histories of all channels of a run with at most `quantum` events in a turn, and its report. Nothing if a
/// text is refused, if a number is beyond its limit, or if memory is refused.
pub fn kept(
    alloc: Global,
    secret: &PageSecret,
    program: &[u8],
    input: &[u8],
    quantum: u64,
    bound: u64,
) -> Option<Vec<u8>>
    ensures { IfSome result (λ text. IsWholeText program.now input.now quantum bound text.items) }
{
    let Ok(program) = std::str::from_utf8(program) else {
        return None;
    };
    let Ok(input) = std::str::from_utf8(input) else {
        return None;
    };
    let Ok(seed) = RandomState::new(secret) else {
        return None;
    };
    let Ok(network) = checked(alloc, seed, program) else {
        return None;
    };
    let Ok(input) = read_input(alloc, input, &network) else {
        return None;
    };
    let config = Config {
        workers: 1,
        quantum,
        bound,
        watch: None,
    };
    let Ok(run) = run_recorded(alloc, &network, input, config) else {
        return None;
    };
    match written(alloc, &network, &run) {
        Ok(text) => Some(text),
        Err(_) => None,
    }
}

pub(crate) fn answered(
    alloc: Global,
    network: &Network,
    text: &str,
    bound: u64,
) -> Result<Answer, WorkFault>
    ensures { MatchResult result (IsTextAnswer network.now text.now (alone bound)) (IsUnanswered network.now text.now (alone bound)) }
{
    let input = read_input(alloc, text, network)?;
    match run_one(alloc, network, input, bound) {
        Ok(answer) => Ok(answer),
        Err(fault) => Err(WorkFault::Run(fault)),
    }
}

/// Reads a program and an input, runs the program on the caller's thread, and writes the report of its answer.
fn work_alone<W: Write>(
    alloc: Global,
    seed: RandomState,
    program: &str,
    input: &str,
    bound: u64,
    writer: &mut W,
) -> Result<Verdict, Fault>
    ensures { IsAnswerAlone program.now input.now bound (W.contents writer.old) (W.contents writer.new) result }
{
    let network = match checked(alloc, seed, program) {
        Ok(network) => network,
        Err(fault) => return Err(Fault::Work(fault)),
    };
    let answer = match answered(alloc, &network, input, bound) {
        Ok(answer) => answer,
        Err(fault) => return Err(Fault::Work(fault)),
    };
    match write_report(writer, &network, &answer) {
        Ok(()) => Ok(answer.verdict),
        Err(fault) => Err(Fault::Work(WorkFault::Write(fault))),
    }
}

/// Runs a program on an input, both bytes. The writer gets the report, or the line of the fault. Returns the status. Without a
/// secret the program text counts as one that can't be read.
pub fn run_texts<W: Write>(
    alloc: Global,
    secret: &PageSecret,
    program: &[u8],
    input: &[u8],
    bound: u64,
    writer: &mut W,
) -> u8
    ensures { IsSaidAlone program.now input.now bound (W.contents writer.old) (W.contents writer.new) result }
{
    let Ok(text) = std::str::from_utf8(program) else {
        return tell(&Err(Fault::Program(None, ReadFault::NotUtf8)), "", writer).status;
    };
    let Ok(input) = std::str::from_utf8(input) else {
        let fault = Fault::InputText(String::new(alloc), ReadFault::NotUtf8);
        return tell(&Err(fault), text, writer).status;
    };
    let Ok(seed) = RandomState::new(secret) else {
        let fault = Fault::Program(None, ReadFault::Failed);
        return tell(&Err(fault), text, writer).status;
    };
    let answer = work_alone(alloc, seed, text, input, bound, writer);
    tell(&answer, text, writer).status
}

/// Returns why the input of a program is refused, as `kahn_explain program --input input` prints it.
fn refused(
    alloc: Global,
    seed: RandomState,
    program: &str,
    it: &Admitted,
    input: &str,
    fault: TextFault,
) -> Option<Vec<u8>>
    requires admitted { IsAdmitted (codes "program") program.now false it.now }
    requires fault { IsInputTextFault it.now.network input.now fault }
    ensures { IfSome result (λ text. IsInputRefused program.now input.now text.items) }
{
    let mut written = Vec::new(alloc);
    match refuse_input(alloc, seed, "input", program, input, fault, &mut written) {
        Ok(_) => Some(written),
        Err(_) => None,
    }
}

/// Returns the warnings on a program and then why its run stopped, as `kahn_explain program --input input --all` prints them.
fn stopped(
    alloc: Global,
    program: &str,
    it: &Admitted,
    input: &str,
    _bound: u64,
    answer: &Answer,
) -> Option<Vec<u8>>
    requires admitted { IsAdmitted (codes "program") program.now false it.now }
    requires run { IsTextAnswer it.now.network input.now (alone _bound) answer.now }
    ensures { IfSome result (λ text. IsRunExplained program.now input.now _bound text.items) }
{
    let Ok(fed) = read_input(alloc, input, &it.network) else {
        return None;
    };
    let fed = Some(&fed);
    let Ok(words) = explained(alloc, "program", program, &it.network, fed, answer, true) else {
        return None;
    };
    let (notes, came) = (it.notes.as_str(), Came::Stopped(words.told));
    let mut written = Vec::new(alloc);
    match write_both(notes, words.text.as_str(), came, &mut written) {
        Ok(_) => Some(written),
        Err(_) => None,
    }
}

/// Returns the warnings on a program, and why it is refused, or its input, or why its run for at most `bound` events stopped.
/// Nothing if a text isn't UTF-8, if the fault has no place, if the bound is beyond its limit, or if memory is refused.
pub fn reason(
    alloc: Global,
    secret: &PageSecret,
    program: &[u8],
    input: &[u8],
    bound: u64,
) -> Option<Vec<u8>>
    ensures { IfSome result (λ text. IsReason program.now input.now bound text.items) }
{
    let Ok(program) = std::str::from_utf8(program) else {
        return None;
    };
    let Ok(input) = std::str::from_utf8(input) else {
        return None;
    };
    let Ok(seed) = RandomState::new(secret) else {
        return None;
    };
    let mut written = Vec::new(alloc);
    let it = match admit(alloc, seed, "program", program, false, &mut written) {
        Ok(it) => it,
        Err(Ok(_came)) => return Some(written),
        Err(Err(_)) => return None,
    };
    match answered(alloc, &it.network, input, bound) {
        Ok(answer) => stopped(alloc, program, &it, input, bound, &answer),
        Err(WorkFault::Text(fault)) => refused(alloc, seed, program, &it, input, fault),
        Err(_) => None,
    }
}
