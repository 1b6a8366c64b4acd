//! Runs of a network, and how a run on one thread becomes a run by several workers.

ghost use Rattle.kahn_pool.specs.{inner.Below.IsCrew, inner.Below.IsCutShort, inner.Below.IsRight, inner.Below.IsRightRun, inner.Below.IsUnrun, inner.Below.Settles, inner.Below.inputs_of, inner.Below.network_of, inner.Holding.IsHandRoomFor, inner.Below.IsAsConfigured, inner.Below.cells_of, inner.Holding.AreHeldBy, inner.Holding.IsWholeAnswer, inner.Holding.HasEnded, inner.Below.AreJobsAt, inner.Below.HaveSettled, inner.Below.rows_of, inner.Holding.AreHeld};
ghost use Rattle.kahn_sequential.specs.{declared.rounds.Round.Round as RoundOf, HeldRuns.IsWant, inner.Workbench.MayRun, inner.Workbench.sight_of, inner.Workbench.AreKeptOf, inner.Workbench.AreStreamsReady, inner.Workbench.IsBenchOf, inner.Workbench.IsWide, inner.Bench.all_events, inner.Bench.events_at, inner.Workbench.AreWhole, inner.Workbench.IsLaid, inner.Workbench.vacant_of};
ghost use Rattle.std.specs.Prelude.{◌≡◌, ◌<◌, ◌^◌, length, IfOk, MatchResult, ◌≤◌, [], vec_capacity, ◌+◌, ℕ};

use crate::held::{PartRoom, Stopped, run_part, run_settled};
use crate::plan::RunPart;
use kahn_code::{Kept, Tap};
use kahn_crew::{CrewFault, Crewing};
use kahn_job::{Idle, jobs_at, seat, unseat};
use kahn_sequential::{
    QUANTUM, Round, Sequential, Vacant, answered, fill, finished_exactly, plan_of, room_for_answer,
    run_on_alone, run_until_wide, run_watched,
};
use kahn_streams::{Answer, Config, Gate, Input, Network, NoMemory, RunFault, Stream};
use std::alloc::Global;
use std::marker::Brand;
use std::sync::Wait;
use std::sync::ledger::Blank;
use std::thread::{Threads, available_parallelism};

/// The memory that passing a run to several workers needs: jobs whose state is the bench's, room for what a part needs, and room
/// for taps, if the bench takes its processes back.
#[derive(Drop)]
pub(crate) struct HandRoom {
    pub(crate) idles: Vec<Idle>,
    pub(crate) part: PartRoom,
    pub(crate) taps: Vec<Tap>,
}

fn hand_room(
    alloc: Global,
    network: &Network,
    input: &Input,
    bench: &Sequential<'_>,
) -> Result<HandRoom, NoMemory>
    requires names { (bench.now.network ≡ network.now) × (bench.now.input ≡ input.now) }
    requires may { (r : RoundOf) × MayRun (sight_of bench.now) r }
    ensures { IfOk result (IsHandRoomFor bench.now) }
{
    let part = PartRoom::new(alloc, network.instances())?;
    let taps = Vec::with_capacity(alloc, network.instances())?;
    Ok(HandRoom {
        idles: lanes(bench, alloc, input)?,
        part,
        taps,
    })
}

// Runs a network at an open gate by no more workers than instances, or threads that may run side by side. Nobody can tell the quantum
// there, so it is that of `run_one`. It begins on the caller's thread alone, over plain queues. If there is work for several, they go on from
// there, as many as have work. If memory is refused for that, the run goes on alone.
fn run_open<R: Threads + Wait + Sync, G: Gate + Sync>(
    rt: &R,
    alloc: Global,
    network: &Network,
    input: &Input,
    crew: Crewing,
    bound: u64,
    gate: &G,
) -> Result<Answer, RunFault>
    requires fits { length input.now ≡ length (network_of network.now).channels }
    requires crew { IsCrew crew × (bound < 2 ^ 48) }
    ensures { MatchResult result (IsRight (network_of network.now) (inputs_of input.now) bound crew.watch) (IsWant crew.workers) }
{
    let processors = match available_parallelism(rt) {
        Ok(count) => count.get(),
        Err(_) => usize::MAX,
    };
    let side_by_side = network.instances().min(processors);
    let most = crew.at_open_gate(gate, side_by_side, QUANTUM);
    let plan = most.plan(bound);
    if plan.workers == 1 {
        return Ok(run_watched(alloc, gate, network, input, plan)?);
    }
    let Ok(ends) = Vec::with_capacity(alloc, network.instances()) else {
        return Err(RunFault::NoMemory);
    };
    let mut bench = Sequential::new(alloc, network, input, Some(input), most.watch)?;
    let (streams, kept) = room_for_answer(alloc, network, input, most.watch)?;
    let blank = Blank::new(1);
    let run = run_until_wide::<G, Brand>(blank, &mut bench, gate, true, ends, plan, &mut None);
    let round = match run {
        Ok(part) => return Ok(answered(bench, part, streams, kept, bound)),
        Err(round) => round,
    };
    let crew = most.at_open_gate(gate, bench.wide(), QUANTUM);
    match hand_room(alloc, network, input, &bench) {
        Err(_) => Ok(run_on_alone(gate, bench, round, streams, kept, plan)),
        Ok(room) => run_on_workers(
            rt, alloc, network, input, bench, round, streams, kept, room, crew, bound, gate,
        ),
    }
}

/// Runs a network with an input that fits it. Its answer is right for any number of workers and any quantum.
/// If its verdict isn't `Memory`, it is `Finished` exactly if the size of the solution is at most the bound: so neither of them
/// changes a verdict. A finished answer is the same for all of them and for every bound. If a run was stopped, which events were
/// done may depend on them, but never which value is at a place of a stream.
///
/// Fails:
/// - with `BadConfig` if a number of the configuration is beyond its limit;
/// - then with `UnknownWatch` if no channel has the name that is to be watched;
/// - with `NoMemory` if memory is refused before the first event;
/// - with `NoThread` if a thread can't be started and the gate isn't open.
/// One worker starts none: it has the caller's thread, on which it runs one process after another over plain queues. Each further
/// worker has a thread of its own.
/// If the gate is open, several workers begin as one does, and start threads once there is work for two: as many as have work, and
/// no more than run side by side. If a thread can't be started there, or memory is refused for them, the run is left to the threads
/// that were started, or to one worker.
/// Memory that is refused later stops the run: its answer has the verdict `Memory`, by one worker only if an instance has a next
/// event and the bound isn't used up. Before each quantum of an instance a gate that isn't open is entered.
pub fn run<R: Threads + Wait + Sync, G: Gate + Sync>(
    rt: &R,
    alloc: Global,
    network: &Network,
    input: Input,
    config: Config,
    gate: &G,
) -> Result<Answer, RunFault>
    requires fits { length input ≡ length (network_of network.now).channels }
    ensures told { MatchResult result (IsRightRun network.now input config) (IsUnrun network.now config) }
    ensures exact { IfOk result (λ a. Settles (network_of network.now) (inputs_of input) config.bound a.verdict) }
    ensures short { IfOk result (λ a. config.workers ≡ 1 → IsCutShort config.bound a) }
{
    let plan = plan_of(network, &config)?;
    finished_exactly();
    if plan.workers == 1 {
        return Ok(run_watched(alloc, gate, network, &input, plan)?);
    }
    let crew = Crewing::of(&config, plan.watch);
    if gate.is_open() {
        return run_open(rt, alloc, network, &input, crew, plan.bound, gate);
    }
    run_workers(rt, alloc, network, &input, crew, plan.bound, gate)
}

fn all_kept(idles: Vec<Idle>, mut kept: Vec<Kept>) -> Vec<Kept>
    requires empty { kept.items ≡ [] }
    requires room { length idles.items ≤ vec_capacity kept }
    ensures { AreKeptOf (cells_of idles.items) result.items }
{
    for idle in idles {
        kept.push_reserved(idle.into_lists());
    }
    kept
}

fn answer_of(
    part: &RunPart<'_>,
    stopped: Stopped,
    mut streams: Vec<Stream>,
    kept: Vec<Kept>,
) -> Result<Answer, CrewFault>
    requires held { AreHeldBy part.now stopped.idles.items stopped.budget }
    requires ended { HasEnded part.now.network.now part.now.input.now part.now.crew.watch part.now.crew.workers part.now.bound stopped }
    requires ready { AreStreamsReady part.now.network.now part.now.input.now part.now.crew.watch streams.items kept.items (vec_capacity kept) }
    ensures { IsWholeAnswer part.now result }
{
    match stopped.outcome {
        Ok(verdict) => {
            let mut kept = all_kept(stopped.idles, kept);
            fill(part.network, &mut streams, &mut kept);
            Ok(Answer {
                verdict,
                streams,
                ends: stopped.ends,
                events: part.bound - stopped.budget,
            })
        }
        Err(fault) => Err(fault),
    }
}

/// Runs a network by the workers that were asked for, one in the caller's thread and each other in one of its own, and returns a
/// right answer.
/// Fails only if memory is refused before the first event, or if a thread can't be started for one of several.
pub(crate) fn run_workers<R: Threads + Wait + Sync, G: Gate + Sync>(
    rt: &R,
    alloc: Global,
    network: &Network,
    input: &Input,
    crew: Crewing,
    bound: u64,
    gate: &G,
) -> Result<Answer, RunFault>
    requires asked { IsAsConfigured crew }
    requires crew { IsCrew crew × (bound < 2 ^ 48) }
    ensures { MatchResult result (IsRight (network_of network.now) (inputs_of input.now) bound crew.watch) (IsWant crew.workers) }
{
    let (vacant, idles) = first_jobs(alloc, network, input, crew.watch)?;
    let (streams, kept) = room_for_answer(alloc, network, input, crew.watch)?;
    let room = PartRoom::new(alloc, network.instances())?;
    let part = RunPart {
        network,
        input,
        code: vacant.code(),
        crew,
        bound,
        left: bound,
    };
    let stopped = run_part(rt, alloc, &part, idles, room, gate);
    Ok(answer_of(&part, stopped, streams, kept)?)
}

/// Returns the answer of a run that was left there: several workers continue it from where its processes are, or one if memory is
/// refused before their first event.
/// The bound is the whole run's. Fails only if a thread can't be started.
pub(crate) fn run_on_workers<R: Threads + Wait + Sync, G: Gate + Sync>(
    rt: &R,
    alloc: Global,
    network: &Network,
    input: &Input,
    bench: Sequential<'_>,
    round: Round,
    streams: Vec<Stream>,
    kept: Vec<Kept>,
    room: HandRoom,
    crew: Crewing,
    bound: u64,
    gate: &G,
) -> Result<Answer, RunFault>
    requires crew { IsCrew crew × (bound < 2 ^ 48) }
    requires names { IsBenchOf bench network.now input.now crew.watch }
    requires wide { IsWide bench bound round }
    requires room { IsHandRoomFor bench room }
    requires ready { AreStreamsReady network.now input.now crew.watch streams.items kept.items (vec_capacity kept) }
    ensures { MatchResult result (IsRight (network_of network.now) (inputs_of input.now) bound crew.watch) (IsWant crew.workers) }
{
    let (vacant, idles) = hand_over(bench, room.idles);
    let part = RunPart {
        network,
        input,
        code: vacant.code(),
        crew,
        bound,
        left: round.left,
    };
    let stopped = run_settled(rt, alloc, &part, idles, room.part, gate);
    if let Err(CrewFault::NoMemory) = stopped.outcome {
        let taps = unseat(stopped.idles, room.taps);
        let bench = vacant.with_taps(taps);
        let plan = crew.plan(bound);
        return Ok(run_on_alone(gate, bench, round, streams, kept, plan));
    }
    Ok(answer_of(&part, stopped, streams, kept)?)
}

/// Returns jobs for `hand_over`, whose state is the state of a bench's queues, with copies of the tokens that wait there. The bench
/// stays as it is. Fails only if memory is refused.
pub(crate) fn lanes(
    bench: &Sequential<'_>,
    alloc: Global,
    input: &Input,
) -> Result<Vec<Idle>, NoMemory>
    requires input { bench.now.input ≡ input.now }
    requires few { (p : ℕ) → events_at (sight_of bench.now) p < 2 ^ 48 }
    ensures { IfOk result (λ idles. AreJobsAt bench.now.network bench.now.input bench.now.queues.queues idles.items) }
{
    bench.stood();
    bench.sized();
    jobs_at(
        alloc,
        bench.network(),
        input,
        bench.code(),
        bench.watch(),
        bench.queues(),
    )
}

/// Returns the bench without its processes, and jobs that continue from where these are. They have dropped nothing. The jobs in
/// `idles` get their cells. Never allocates.
pub(crate) fn hand_over<'n>(bench: Sequential<'n>, mut idles: Vec<Idle>) -> (Vacant<'n>, Vec<Idle>)
    requires whole { AreWhole (length (network_of bench.network).instances) bench.gone }
    requires jobs { AreJobsAt bench.network bench.input bench.queues.queues idles.items }
    ensures laid { IsLaid bench.entry }
    ensures vacant { result.0 ≡ vacant_of bench.entry }
    ensures cells { cells_of result.1.items ≡ bench.entry.cells }
    ensures held { (left : ℕ) → AreHeld bench.entry.network bench.entry.input bench.entry.watch (left + all_events (sight_of bench.entry)) result.1.items left }
    ensures settled { HaveSettled bench.entry.network bench.entry.input (rows_of result.1.items) }
{
    bench.stood();
    let (vacant, taps) = bench.into_taps();
    seat(&mut idles, taps);
    (vacant, idles)
}

/// Returns the jobs of all processes at their openings, and the bench that had them. Fails only if memory is refused.
pub(crate) fn first_jobs<'n>(
    alloc: Global,
    network: &'n Network,
    input: &Input,
    watch: Option<usize>,
) -> Result<(Vacant<'n>, Vec<Idle>), NoMemory>
    ensures code { IfOk result (λ r. r.0.code ≡ network.now) }
    ensures held { IfOk result (λ r. (bound : ℕ) → AreHeld network.now input.now watch bound r.1.items bound) }
{
    let Ok(bench) = Sequential::new(alloc, network, input, None, watch) else {
        return Err(NoMemory);
    };
    let idles = lanes(&bench, alloc, input)?;
    Ok(hand_over(bench, idles))
}
