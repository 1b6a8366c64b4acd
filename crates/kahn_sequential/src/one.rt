//! A run on the caller's thread, and the plan of a run.

ghost use Rattle.kahn_sequential.specs.{inner.Bench.all_events, inner.Recording.HasRecorded, inner.Recording.IsRecording, inner.Workbench.HasWorked, inner.Workbench.MayGoOn, inner.Workbench.sight_of, inner.Below.IsCutShort, inner.Below.IsRight, inner.Below.Settles, inner.Below.inputs_of, inner.Below.network_of, HeldRuns.IsRefusedRun, inner.FlowBench.IsPartEnd, inner.Workbench.AreStreamsReady, inner.Workbench.AreWhole, inner.Workbench.IsRightAlone, inner.Workbench.IsWide, inner.Below.IsAllowed, inner.Below.IsUndeclared, inner.Below.IsUnrun, inner.Below.IsWatched, inner.Below.UnknownWatch, HeldRuns.IsUnstarted, inner.Below.Reads, inner.Below.actual_at, inner.Below.instance_at};
ghost use Rattle.std.specs.Prelude.{◌≡◌, ◌≤◌, ◌+◌, false, true, ◌<◌, ◌^◌, length, IfOk, IfErr, None, vec_capacity, MatchResult, ℕ, Some};

use crate::bench::Sequential;
use crate::laws;
use crate::rounds::{Driver, PartEnd, Round};
use crate::streams::room_for_answer;
use kahn_code::{Code, CodeFault, Kept, Steps};
use kahn_streams::{
    Answer, Config, End, Gate, Input, MOST_BOUND, Network, Open, Plan, RunFault, Stream,
    channel_named,
};
use std::alloc::Global;
use std::marker::Brand;
use std::sync::ledger::{Blank, Ledger};

/// How many events a process may do before the next one is run.
pub const QUANTUM: u64 = 1000;

/// Runs the processes of a bench on one thread for as many events as the plan's bound, each for at most its quantum at a time, and
/// records what they send. Before each quantum the gate is entered.
/// If the run may be left and there is work for several workers, it returns what is left, from which the run can continue. Steps
/// are counted on a ledger of its own. The list of ends has room for each instance. Allocates only for what is recorded.
pub fn run_until_wide<G: Gate, L: Ledger>(
    blank: Blank,
    bench: &mut Sequential<'_>,
    gate: &G,
    may_leave: bool,
    ends: Vec<End>,
    plan: Plan,
    recording: &mut Option<Vec<Stream>>,
) -> Result<PartEnd, Round>
    requires blank { (blank.name ≡ L.name) × (blank.parts ≡ L.parts) × (0 < blank.parts) }
    requires quantum { 0 < plan.quantum }
    requires bound { all_events (sight_of bench.old) + plan.bound < 2 ^ 48 }
    requires room { length (sight_of bench.old).network.instances ≤ vec_capacity ends }
    requires recorded { IsRecording bench.old plan.quantum recording.old }
    ensures concluded { IfOk result (IsPartEnd bench.new (all_events (sight_of bench.old) + plan.bound)) }
    ensures wide { IfErr result (λ r. (may_leave ≡ true) × MayGoOn bench.old bench.new plan.bound r) }
    ensures calm { IfErr result (λ r. r.memory ≡ false) }
    ensures room { IfOk result (λ r. length (sight_of bench.new).network.instances ≤ vec_capacity r.ends) }
    ensures worked { HasWorked bench.old bench.new }
    ensures recorded { HasRecorded bench.new recording.new }
{
    let mut driver = Driver {
        steps: Steps::<L>::open(blank),
        gate,
        may_leave,
    };
    let first = Round::new(bench, plan.quantum, plan.bound, ends);
    bench.note_bound(plan.bound);
    driver.to_end(bench, first, recording)
}

/// Returns the answer of a run on a bench that ended so. There is room for all that it needs.
pub fn answered(
    bench: Sequential<'_>,
    part: PartEnd,
    streams: Vec<Stream>,
    kept: Vec<Kept>,
    bound: u64,
) -> Answer
    requires ended { IsPartEnd bench bound part }
    requires whole { AreWhole (length (network_of bench.network).instances) bench.gone }
    requires ready { AreStreamsReady bench.network bench.input bench.watch streams.items kept.items (vec_capacity kept) }
    ensures { IsRightAlone bench.entry.network bench.entry.input bench.entry.watch bound result }
{
    Answer {
        verdict: part.verdict,
        streams: bench.into_streams(streams, kept),
        events: bound - part.left,
        ends: part.ends,
    }
}

/// Runs a network on the caller's thread over plain queues, with a watched channel or none, each process for at most the quantum of
/// events before the next one.
/// Before each quantum the gate is entered. Fails only if memory is refused before the first event.
pub fn run_watched<G: Gate>(
    alloc: Global,
    gate: &G,
    network: &Network,
    input: &Input,
    plan: Plan,
) -> Result<Answer, CodeFault>
    requires quantum { 0 < plan.quantum }
    requires bound { plan.bound < 2 ^ 48 }
    ensures { IfOk result (IsRightAlone network.now input.now plan.watch plan.bound) }
{
    let ends = Vec::with_capacity(alloc, network.instances())?;
    let bench = Sequential::new(alloc, network, input, Some(input), plan.watch)?;
    let (streams, kept) = room_for_answer(alloc, network, input, plan.watch)?;
    let round = Round::new(&bench, plan.quantum, plan.bound, ends);
    Ok(run_on_alone(gate, bench, round, streams, kept, plan))
}

/// Returns the answer of a run that was left there, after running it to its end on the caller's thread. The plan has the bound of
/// the whole run.
pub fn run_on_alone<G: Gate>(
    gate: &G,
    mut bench: Sequential<'_>,
    round: Round,
    streams: Vec<Stream>,
    kept: Vec<Kept>,
    plan: Plan,
) -> Answer
    requires quantum { 0 < plan.quantum }
    requires bound { plan.bound < 2 ^ 48 }
    requires wide { IsWide bench plan.bound round }
    requires ready { AreStreamsReady bench.network bench.input bench.watch streams.items kept.items (vec_capacity kept) }
    ensures { IsRightAlone bench.entry.network bench.entry.input bench.entry.watch plan.bound result }
{
    let rest = Plan {
        bound: round.left,
        ..plan
    };
    let blank = Blank::new(1);
    let ends = round.ends;
    let run = run_until_wide::<G, Brand>(blank, &mut bench, gate, false, ends, rest, &mut None);
    let Ok(part) = run else { unreachable!() };
    answered(bench, part, streams, kept, plan.bound)
}

/// Runs a network on the caller's thread over plain queues, without a watched channel, for at most `bound` events. The input fits
/// the network.
///
/// Fails with `BadConfig` exactly if the bound is 2^48 or more, and with `NoMemory` if memory is refused before the first event.
/// Memory that is refused later stops the run: its answer has the verdict `Memory`, only if an instance has a next event and the
/// bound isn't used up. Else the verdict is `Finished` exactly if the size of the solution is at most the bound.
pub fn run_one(
    alloc: Global,
    network: &Network,
    input: Input,
    bound: u64,
) -> Result<Answer, RunFault>
    requires fits { length input ≡ length (network_of network.now).channels }
    ensures right { IfOk result (IsRight (network_of network.now) (inputs_of input) bound None) }
    ensures exact { IfOk result (λ a. Settles (network_of network.now) (inputs_of input) bound a.verdict) }
    ensures short { IfOk result (IsCutShort bound) }
    ensures refused { IfErr result (IsRefusedRun bound) }
    ensures answered { IfOk result (λ _. bound < 2 ^ 48) }
{
    if bound > MOST_BOUND {
        return Err(RunFault::BadConfig);
    }
    laws::finished_exactly();
    let plan = Plan {
        watch: None,
        workers: 1,
        quantum: QUANTUM,
        bound,
    };
    Ok(run_watched(alloc, &Open, network, &input, plan)?)
}

fn watched(network: &Network, name: &Option<String>) -> Result<Option<usize>, RunFault>
    ensures { MatchResult result (IsWatched network.now name.now) (λ f. (f ≡ UnknownWatch) × IsUndeclared network.now name.now) }
{
    match name {
        None => Ok(None),
        Some(name) => match channel_named(network, name.as_str()) {
            Some(channel) => Ok(Some(channel)),
            None => Err(RunFault::UnknownWatch),
        },
    }
}

/// Returns the plan of a run with this configuration. Fails with `BadConfig` if a number is beyond its limit, then with
/// `UnknownWatch` if no channel has the name that is to be watched.
pub fn plan_of(network: &Network, config: &Config) -> Result<Plan, RunFault>
    ensures allowed { IfOk result (λ _. IsAllowed config.now) }
    ensures watched { IfOk result (λ p. IsWatched network.now config.now.watch p.watch) }
    ensures workers { IfOk result (λ p. p.workers ≡ config.now.workers) }
    ensures rest { IfOk result (λ p. (p.quantum ≡ config.now.quantum) × (p.bound ≡ config.now.bound)) }
    ensures unstarted { IfErr result (IsUnstarted network.now config.now) }
    ensures unrun { IfErr result (IsUnrun network.now config.now) }
{
    if !config.is_in_range() {
        return Err(RunFault::BadConfig);
    }
    Ok(Plan {
        watch: watched(network, &config.watch)?,
        workers: config.workers as usize,
        quantum: config.quantum,
        bound: config.bound,
    })
}

/// The channel that a parameter reads.
pub fn channel_read(code: &Code, instance: usize, parameter: usize) -> usize
    requires { (c : ℕ) × (actual_at (instance_at (network_of code.now.network.value) instance) parameter ≡ Reads c) }
    ensures { actual_at (instance_at (network_of code.now.network.value) instance) parameter ≡ Reads result }
{
    match code.channel(instance, parameter) {
        Some(channel) => channel,
        None => unreachable!(),
    }
}
