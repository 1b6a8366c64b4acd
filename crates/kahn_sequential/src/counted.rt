//! Runs on the caller's thread that count what each channel had, or keep all that is sent.

ghost use Rattle.kahn_sequential.specs.{Recordings.IsCountedRun, inner.Below.IsUnrun, inner.Below.Settles, inner.Below.inputs_of, inner.Below.network_of, inner.Recording.AreCountsOf, inner.Recording.HasGiven, inner.Recording.HasRecorded, inner.Recording.IsKeptAlone, inner.Recording.MayRecord, inner.Workbench.sight_of, Recordings.IsRecordedRun, inner.Below.given_of, inner.Recording.AreTurnShortOf, inner.Recording.AreOpenChannels, inner.Recording.AreRecordedOf, inner.Recording.AreTokensOf, inner.Recording.HasOthers, inner.Recording.IsKeptFrom, inner.Recording.IsRecorded, inner.Recording.IsTurnRecording, inner.Recording.IsTurnShort, inner.Recording.IsWithinQueue, inner.Recording.TakesTurns};
ghost use Rattle.std.specs.Prelude.{◌≡◌, ◌<◌, ◌≤◌, ◌^◌, [], IfOk, MatchResult, length, vec_capacity, false, slice_get, OnOk};

use crate::bench::Sequential;
use crate::laws;
use crate::one::{plan_of, run_until_wide};
use crate::streams::{opening_stream, room_for_answer};
use kahn_code::{CodeFault, Plain};
use kahn_streams::{
    Answer, Config, Input, Line, Network, NoMemory, Open, Plan, Role, RunFault, Stream, Tokens,
};
use std::alloc::Global;
use std::marker::Brand;
use std::sync::ledger::Blank;

/// How many values a channel has had, by its writer or by the input, and how many of them were taken by its reader. No process takes those
/// of an output.
#[derive(Clone, Copy, Debug, PartialEq, Eq)]
pub struct Count {
    pub sent: u64,
    pub taken: u64,
}

/// The answer of a run, and the count of each channel, by its number.
#[derive(Drop)]
pub struct Counted {
    pub answer: Answer,
    pub counts: Vec<Count>,
}

/// The answer of a run that kept all that was sent, and of each channel, by its number, its count and its stream. The stream of an output
/// channel has no tokens here: they are in the answer.
#[derive(Drop)]
pub struct Recorded {
    pub answer: Answer,
    pub counts: Vec<Count>,
    pub channels: Vec<Stream>,
}

fn sent_on(network: &Network, input: &Input, bench: &Sequential<'_>, channel: usize) -> u64
    requires names { (bench.now.network ≡ network.now) × (bench.now.input ≡ input.now) }
    requires here { channel < length (network_of network.now).channels }
    ensures { HasGiven (sight_of bench.now) channel result }
{
    match network.writer(channel) {
        Some(side) => bench.sent_by(side),
        None => input.count(channel) as u64,
    }
}

// The counts of all channels of a bench. The list that is given has room for all. Never allocates.
fn counts_of(
    network: &Network,
    input: &Input,
    bench: &Sequential<'_>,
    room: Vec<Count>,
) -> Vec<Count>
    requires names { (bench.now.network ≡ network.now) × (bench.now.input ≡ input.now) }
    requires room { (room.items ≡ []) × (length (network_of network.now).channels ≤ vec_capacity room) }
    ensures { AreCountsOf (sight_of bench.now) result.items (length (network_of network.now).channels) }
{
    bench.stood();
    let mut counts = room;
    for channel in 0..network.channels() {
        let sent = sent_on(network, input, bench, channel);
        let taken = bench.queues().taken(channel);
        counts.push_reserved(Count { sent, taken });
    }
    counts
}

/// Runs a network on the caller's thread over plain queues, and counts at the end. If there is a stream for each channel, the run
/// is recorded.
/// Fails only if memory is refused before the first event. If it is refused for what is recorded, no stream stays.
pub(crate) fn run_kept(
    alloc: Global,
    network: &Network,
    input: &Input,
    plan: Plan,
    recording: &mut Option<Vec<Stream>>,
) -> Result<Counted, CodeFault>
    requires quantum { 0 < plan.quantum }
    requires bound { plan.bound < 2 ^ 48 }
    requires opened { MayRecord network.now input.now plan.quantum recording.old }
    ensures { IfOk result (λ x. IsKeptAlone network.now input.now plan.watch plan.bound x recording.new) }
{
    let ends = Vec::with_capacity(alloc, network.instances())?;
    let room = Vec::with_capacity(alloc, network.channels())?;
    let mut bench = Sequential::new(alloc, network, input, Some(input), plan.watch)?;
    let (streams, kept) = room_for_answer(alloc, network, input, plan.watch)?;
    bench.stood();
    let blank = Blank::new(1);
    let run = run_until_wide::<Open, Brand>(blank, &mut bench, &Open, false, ends, plan, recording);
    let Ok(part) = run else { unreachable!() };
    let counts = counts_of(network, input, &bench, room);
    bench.stood();
    let answer = Answer {
        verdict: part.verdict,
        streams: bench.into_streams(streams, kept),
        events: plan.bound - part.left,
        ends: part.ends,
    };
    Ok(Counted { answer, counts })
}

/// Runs a network with an input that fits it, as `run` does with one worker at an open gate, and counts what each channel had. Its answer is
/// right, whatever number of workers the configuration has. Fails as `run` does, but that it starts no thread.
pub fn run_counted(
    alloc: Global,
    network: &Network,
    input: Input,
    config: Config,
) -> Result<Counted, RunFault>
    ensures told { MatchResult result (IsCountedRun network.now input config) (IsUnrun network.now config) }
    ensures exact { IfOk result (λ x. Settles (network_of network.now) (inputs_of input) config.bound x.answer.verdict) }
{
    let plan = plan_of(network, &config)?;
    laws::finished_exactly();
    Ok(run_kept(alloc, network, &input, plan, &mut None)?)
}

fn is_own(network: &Network, channel: usize) -> bool
    requires { channel < length (network_of network.now).channels }
    ensures { result ≡ false → HasOthers (network_of network.now) channel }
{
    let Some(writer) = network.writer(channel) else {
        return false;
    };
    let Some(reader) = network.reader(channel) else {
        return false;
    };
    writer.instance == reader.instance
}

// The most events of a turn: one, if a process reads a channel that it writes.
fn quantum_for(network: &Network, quantum: u64) -> u64
    requires { 0 < quantum }
    ensures some { 0 < result }
    ensures turns { TakesTurns (network_of network.now) result }
{
    for channel in 0..network.channels() {
        if is_own(network, channel) {
            return 1;
        }
    }
    quantum
}

fn channel_streams(alloc: Global, network: &Network, input: &Input) -> Result<Vec<Stream>, NoMemory>
    ensures { IfOk result (λ streams. AreOpenChannels network.now input.now streams.items (length (network_of network.now).channels)) }
{
    let mut streams = Vec::with_capacity(alloc, network.channels())?;
    for channel in 0..network.channels() {
        let line = Line::Channel(channel);
        streams.push_reserved(opening_stream(alloc, network, input, line)?);
    }
    Ok(streams)
}

fn add_new(queues: &Plain<Global>, channel: usize, tokens: &mut Tokens) -> Result<(), NoMemory>
    requires within { IsWithinQueue (slice_get queues.now.queues channel) (length tokens.old.items) }
    requires right { AreTokensOf queues.now.network queues.now.input channel tokens.old.items }
    ensures right { OnOk result (AreTokensOf queues.now.network queues.now.input channel tokens.new.items) }
    ensures all { OnOk result (length tokens.new.items ≡ given_of (slice_get queues.now.queues channel)) }
{
    let first = tokens.len() - queues.taken(channel) as usize;
    for number in first..queues.waiting(channel) {
        let token = queues.token(channel, number);
        tokens.push(token)?;
    }
    Ok(())
}

// Adds what was sent since on a channel, if processes write and read it.
fn add_sent_on(
    network: &Network,
    queues: &Plain<Global>,
    channel: usize,
    stream: &mut Stream,
) -> Result<(), NoMemory>
    requires here { channel < length (network_of network.now).channels }
    requires short { IsTurnShort network.now queues.now channel stream.old }
    ensures { OnOk result (IsRecorded network.now queues.now channel stream.new) }
{
    if network.channel(channel).role != Role::Inner {
        return Ok(());
    }
    add_new(queues, channel, &mut stream.tokens)
}

fn add_sent(
    network: &Network,
    queues: &Plain<Global>,
    streams: &mut Vec<Stream>,
) -> Result<(), NoMemory>
    requires { AreTurnShortOf network.now queues.now streams.old.items }
    ensures { OnOk result (AreRecordedOf network.now queues.now streams.new.items) }
{
    for channel in 0..network.channels() {
        add_sent_on(network, queues, channel, &mut streams[channel])?;
    }
    Ok(())
}

/// Records what was sent in a turn, if anything is recorded. If memory is refused nothing is any more.
pub(crate) fn keep_sent(bench: &Sequential<'_>, recording: &mut Option<Vec<Stream>>)
    requires { IsTurnRecording bench.now recording.old }
    ensures recorded { HasRecorded bench.now recording.new }
    ensures kept { IsKeptFrom recording.old recording.new }
{
    let Some(mut streams) = recording.take() else {
        return;
    };
    if add_sent(bench.network(), bench.queues(), &mut streams).is_err() {
        return;
    }
    *recording = Some(streams);
}

/// Runs a network with an input that fits it, as `run` does with one worker at an open gate, and keeps all that is sent, on every
/// channel.
/// Its answer is right for any number of workers in the configuration, and the streams of the channels are the answer's histories:
/// whole if it has finished. If a process reads a channel that it writes, each turn is one event.
///
/// Fails as `run` does, except that it starts no thread: with `NoMemory` if memory is refused before the first event or for what is
/// kept.
pub fn run_recorded(
    alloc: Global,
    network: &Network,
    input: Input,
    config: Config,
) -> Result<Recorded, RunFault>
    ensures told { MatchResult result (IsRecordedRun network.now input config) (IsUnrun network.now config) }
    ensures exact { IfOk result (λ x. Settles (network_of network.now) (inputs_of input) config.bound x.answer.verdict) }
{
    let plan = plan_of(network, &config)?;
    laws::finished_exactly();
    let turns = Plan {
        quantum: quantum_for(network, plan.quantum),
        ..plan
    };
    let mut recording = Some(channel_streams(alloc, network, &input)?);
    let counted = run_kept(alloc, network, &input, turns, &mut recording)?;
    let Some(channels) = recording else {
        return Err(RunFault::NoMemory);
    };
    Ok(Recorded {
        answer: counted.answer,
        counts: counted.counts,
        channels,
    })
}
