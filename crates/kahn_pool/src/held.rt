//! Runs that are cut into parts: between two parts a run is held, more events may be allowed and more values fed.

ghost use Rattle.std.specs.Prelude.{◌≡◌, ◌↔◌, ◌+◌, Some, length, sum_by, IfOk, IsTrue, MatchResult, ◌<◌, ℕ, slice_get, ◌≤◌, [], Err, Ok, map, true, vec_capacity, IfErr, OnOk};
ghost use Rattle.kahn_pool.specs.{inner.Below.cells_of, inner.Below.network_of, inner.Holding.IsHeldAs, inner.Holding.planned, inner.Holding.run_of, inner.Below.IsWithinInput, inner.Below.Tasked, inner.Below.end_at, inner.Rested.IsLentTo, inner.Rested.IsSettledTask, inner.Rested.SettlesTo, inner.Below.HaveSettled, inner.Below.IsAsConfigured, inner.Below.IsLack, inner.Below.IsOver, inner.Below.rows_of, inner.Holding.AreHeldBy, inner.Holding.HasEnded, inner.Holding.HasStoppedPart, inner.Holding.HaveAllLeft, inner.Holding.IsHeldPart, inner.Holding.IsRoomFor, inner.Holding.cell_for, inner.Rested.cell_of, inner.Below.AreAll, inner.Rested.AreEndsOfTasks, inner.Rested.AreTold, inner.Rested.IsDryOf, inner.Rested.IsDryTold, inner.Rested.IsEndOf};
ghost use Rattle.kahn_sequential.specs.{HeldRuns.HasFed, HeldRuns.HasStarted, HeldRuns.IsAnswerOf, HeldRuns.IsResumed, HeldRuns.IsUnfed, HeldRuns.IsUnresumed, HeldRuns.IsUnstarted, HeldRuns.seen_events, HeldRuns.HeldRun, inner.Workbench.AreKeptOf, inner.Streams.HaveChanged};
ghost use Rattle.std.specs.Coded.{codes};
ghost use Rattle.kahn_pool.specs.inner.Below.{Verdict as VerdictOf, NoMemory as Refused, CrewFault as Fault};
ghost use Rattle.kahn_streams.specs.contracts.tree.Action as action;
ghost use Rattle.kahn_streams.specs.contracts.tree.Form as form;
ghost use Rattle.kahn_job.specs.declared.task.TaskStanding.TheVariants as standing;
ghost use Rattle.kahn_streams.specs.declared.answer.Verdict.TheVariants as verdict;

use crate::plan::RunPart;
use crate::running::first_jobs;
use kahn_code::{Code, Kept, Steps, compile};
use kahn_crew::{CrewFault, Crewing, Left, rest_all, run_tasks, wake_all};
use kahn_job::{Idle, Task, TaskStanding, meet, settle};
use kahn_sequential::{HeldFault, channel_read, fill, opening_streams, plan_of, verdict_of};
use kahn_streams::{
    Answer, Config, End, FeedFault, Gate, Input, MOST_BOUND, Network, NoMemory, Outcome, RunFault,
    Value, Verdict,
};
use std::alloc::Global;
use std::marker::{Brand, Model};
use std::mem;
use std::sync::Wait;
use std::sync::ledger::{Blank, Ledger};
use std::thread::Threads;

/// A run between its parts: a network, its input so far, the sum of its bounds so far, and where each process is.
///
/// Whatever its calls return, what was sent on a stream stays, and no process has fewer events. So each stream is a prefix of the
/// same stream in every later answer.
#[derive(Drop)]
pub struct Held<'n> {
    alloc: Global,
    network: &'n Network,
    input: Input,
    crew: Crewing,
    bound: u64,
    budget: u64,
    code: Code,
    idles: Vec<Idle>,
    ends: Vec<End>,
    verdict: Option<Verdict>,
}

/// Room for the tasks of a part of a run, for the jobs that they leave, and for their ends.
#[derive(Drop)]
pub(crate) struct PartRoom {
    pub(crate) tasks: Vec<Task>,
    pub(crate) idles: Vec<Idle>,
    pub(crate) ends: Vec<End>,
}

/// How a part of a run stopped: its jobs at rest, what is left of the bound, the end of each instance, and the verdict.
/// Without a verdict the ends mean nothing.
#[derive(Drop)]
pub(crate) struct Stopped {
    pub(crate) idles: Vec<Idle>,
    pub(crate) budget: u64,
    pub(crate) ends: Vec<End>,
    pub(crate) outcome: Result<Verdict, CrewFault>,
}

impl<'n> Model for Held<'n> {
    ghost Value = { HeldRun };

    ghost coded = { Prim.hlevel (codes, action.the_row.coded, form.the_row.coded) };

    ghost view = { λ h. run_of h.network.now h.input (planned h.crew h.bound) h.idles.items h.verdict };

    ghost invariant = { λ h. IsHeldAs h.network.now h.code.network.value h.input h.crew h.bound h.idles.items h.budget h.ends.items h.verdict };
}

fn copied_lists(alloc: Global, idles: &[Idle]) -> Result<Vec<Kept>, NoMemory>
    ensures { IfOk result (λ lists. AreKeptOf (cells_of idles.now) lists.items) }
{
    let mut lists = Vec::with_capacity(alloc, idles.len())?;
    for instance in 0..idles.len() {
        lists.push_reserved(idles[instance].lists(alloc)?);
    }
    Ok(lists)
}

impl<'n> Held<'n> {
    /// Returns a run of a network with an input that fits it, before its first event. It keeps the allocator for its later calls.
    /// The bound of the configuration is the first one: `resume(0)` runs for that many events.
    ///
    /// Fails with `BadConfig` if a number of the configuration is beyond its limit, then with `UnknownWatch` if no channel has the
    /// name that is to be watched, and with `NoMemory` if memory is refused.
    pub fn start(
        alloc: Global,
        network: &'n Network,
        input: Input,
        config: Config,
    ) -> Result<Held<'n>, RunFault>
        requires fits { length input ≡ length (network_of network.now).channels }
        ensures { MatchResult result (HasStarted network.now input config) (IsUnstarted network.now config) }
    {
        let plan = plan_of(network, &config)?;
        let code = compile(alloc, network)?;
        let crew = Crewing::of(&config, plan.watch);
        let (_, idles) = first_jobs(alloc, network, &input, crew.watch)?;
        Ok(Held {
            alloc,
            network,
            input,
            crew,
            bound: plan.bound,
            budget: plan.bound,
            code,
            idles,
            ends: Vec::new(alloc),
            verdict: None,
        })
    }

    /// Allows `more` events, and runs by the workers of the configuration until the sum of all bounds is used up, or every process
    /// has ended or waits on a channel whose tokens it has all taken, or memory is refused.
    /// Before each quantum of an instance the gate is entered.
    ///
    /// Fails with `BadMore` if the sum of all bounds would pass 2^48 - 1, and with `NoMemory` if memory is refused before the first
    /// event: both leave all as it was.
    /// Fails with `NoThread` if a thread can't be started, and one worker starts none: the `more` events are allowed then, each
    /// process is where the workers left it, and the run can continue.
    pub fn resume<R: Threads + Wait + Sync, G: Gate + Sync>(
        &mut self,
        rt: &R,
        more: u64,
        gate: &G,
    ) -> Result<Verdict, HeldFault>
        ensures { MatchResult result (IsResumed more self.old self.new) (IsUnresumed more self.old self.new) }
    {
        if MOST_BOUND - self.bound < more {
            return Err(HeldFault::BadMore);
        }
        let room = PartRoom::new(self.alloc, self.network.instances())?;
        let idles = mem::replace(&mut self.idles, Vec::new(self.alloc));
        let _program = self.network.program();
        let bound = self.bound + more;
        let part = RunPart {
            network: self.network,
            input: &self.input,
            code: &self.code,
            crew: self.crew,
            bound,
            left: self.budget + more,
        };
        let stopped = run_part(rt, self.alloc, &part, idles, room, gate);
        self.idles = stopped.idles;
        if let Err(CrewFault::NoMemory) = stopped.outcome {
            return Err(HeldFault::NoMemory);
        }
        self.bound = bound;
        self.budget = stopped.budget;
        self.ends = stopped.ends;
        match stopped.outcome {
            Ok(verdict) => {
                self.verdict = Some(verdict);
                Ok(verdict)
            }
            Err(_) => {
                self.verdict = None;
                Err(HeldFault::NoThread)
            }
        }
    }

    /// Appends values to the list of an input channel. No process runs before the next part, and there isn't an answer until then,
    /// even if there are no values.
    ///
    /// Fails, in this order:
    /// - with `UnknownName` if no channel has the name;
    /// - with `NotAnInput` if the channel isn't an input;
    /// - with `WrongKind` if a value isn't of its kind;
    /// - with `TooMany` if its list would have more than 1,048,576 values;
    /// - with `NoMemory` if memory is refused.
    /// A refusal leaves all as it was.
    pub fn feed(&mut self, channel: &str, values: Vec<Value>) -> Result<(), FeedFault>
        ensures { MatchResult result (λ _. HasFed (channel.now, values.items) self.old self.new) (IsUnfed (channel.now, values.items) self.old self.new) }
    {
        let _program = self.network.program();
        self.input.extend(self.network, channel, values)?;
        self.verdict = None;
        Ok(())
    }

    /// How many events more the sum of all bounds so far allows.
    pub fn budget(&self) -> u64
        ensures { result + sum_by seen_events self.now.cells ≡ self.now.bound }
    {
        self.budget
    }

    /// Whether the last call that changed anything was a `resume` that answered. Then there is an answer.
    pub fn settled(&self) -> bool
        ensures { IsTrue result ↔ ((v : VerdictOf) × (self.now.verdict ≡ Some v)) }
    {
        self.verdict.is_some()
    }

    /// A copy of the answer, right for the input so far and the bound so far. May be called only if the run is settled.
    /// Fails only if memory was refused.
    pub fn answer(&self) -> Result<Answer, NoMemory>
        requires { (v : VerdictOf) × (self.now.verdict ≡ Some v) }
        ensures { IfOk result (IsAnswerOf self.now) }
    {
        let Some(verdict) = self.verdict else {
            unreachable!()
        };
        let _program = self.network.program();
        let mut streams = opening_streams(self.alloc, self.network, &self.input, self.crew.watch)?;
        let mut lists = copied_lists(self.alloc, &self.idles)?;
        fill(self.network, &mut streams, &mut lists);
        let ends = Vec::from_slice(self.alloc, &self.ends)?;
        Ok(Answer {
            verdict,
            streams,
            ends,
            events: self.bound - self.budget,
        })
    }
}

// Says that of an input channel no more is ready than its list has. For the prover only.
fn fed(task: &Task)
    ensures { (q : ℕ) → IsWithinInput (end_at task.now.work.ends q) }
{
    for parameter in 0..task.parameters() {
        task.fed(parameter);
    }
}

fn keep(task: &Task)
    requires { task.now.standing ≡ standing.Going → ⊥ }
    ensures { IsSettledTask task.now }
{
    let _standing = task.standing();
    let _parameters = task.parameters();
    fed(task);
}

// Asks a task that may go on what comes next. No event is done, and it never allocates.
fn ask<L: Ledger>(blank: Blank, task: &mut Task, part: &RunPart<'_>)
    requires blank { (blank.name ≡ L.name) × (blank.parts ≡ L.parts) × (0 < blank.parts) }
    requires going { task.old.standing ≡ standing.Going }
    requires lent { IsLentTo part.now task.old }
    ensures { SettlesTo task.old task.new }
{
    let mut steps = Steps::<L>::open(blank);
    let _pause = task.run(part.code, 0, &mut steps, part.network, part.input);
    let _parameters = task.parameters();
    fed(task);
}

fn settle_task(task: &mut Task, part: &RunPart<'_>)
    requires { IsLentTo part.now task.old }
    ensures { SettlesTo task.old task.new }
{
    if task.standing() == TaskStanding::Going {
        ask::<Brand>(Blank::new(1), task, part);
    } else {
        keep(task);
    }
}

/// Asks each task that can run what comes next.
pub(crate) fn settle_all(tasks: &mut Vec<Task>, part: &RunPart<'_>)
    requires { (p : ℕ) (x : Tasked) → slice_get tasks.old.items p ≡ Some x → IsLentTo part.now x }
    ensures { HaveChanged SettlesTo tasks.old.items tasks.new.items }
{
    for instance in 0..tasks.len() {
        settle_task(&mut tasks[instance], part);
    }
}

impl PartRoom {
    pub(crate) fn new(alloc: Global, instances: usize) -> Result<PartRoom, NoMemory>
        ensures { IfOk result (IsRoomFor instances) }
    {
        let tasks = Vec::with_capacity(alloc, instances)?;
        let idles = Vec::with_capacity(alloc, instances)?;
        let ends = Vec::with_capacity(alloc, instances)?;
        Ok(PartRoom { tasks, idles, ends })
    }
}

// The jobs, the ends and the verdict of a run that is over, or the jobs of one that was given up. The verdict is `Memory` exactly if the run
// was halted, and it was halted only if memory was refused to a worker. The lists that are given have room for the jobs and for the ends.
// Never allocates.
fn conclude(
    part: &RunPart<'_>,
    outcome: Result<(), CrewFault>,
    mut left: Left,
    idles: Vec<Idle>,
    ends: Vec<End>,
) -> Stopped
    requires left { HaveAllLeft part.now left }
    requires over { OnOk outcome (IsOver part.now.network.now part.now.input.now left.tasks.items left.budget left.halted) }
    requires cause { OnOk outcome (left.halted ≡ true ↔ left.wanted ≡ true) }
    requires lack { IfErr outcome (IsLack part.now.crew.workers) }
    requires idles { (idles.items ≡ []) × (length (network_of part.now.network.now).instances ≤ vec_capacity idles) }
    requires ends { length (network_of part.now.network.now).instances ≤ vec_capacity ends }
    ensures held { AreHeldBy part.now result.idles.items result.budget }
    ensures cells { cells_of result.idles.items ≡ map cell_of left.tasks.items }
    ensures ended { HasEnded part.now.network.now part.now.input.now part.now.crew.watch part.now.crew.workers part.now.bound result }
    ensures verdict { OnOk outcome (result.outcome ≡ Ok verdict.Memory ↔ left.halted ≡ true) }
    ensures refused { (f : Fault) → (result.outcome ≡ Err f ↔ outcome ≡ Err f) }
    ensures budget { result.budget ≡ left.budget }
{
    let _program = part.network.program();
    settle_all(&mut left.tasks, part);
    let ends = ends_of(part, &left.tasks, ends);
    let verdict = verdict_of(left.halted, &ends);
    Stopped {
        idles: meet(part.network, rest_all(left.tasks, idles)),
        budget: left.budget,
        ends,
        outcome: outcome.and(Ok(verdict)),
    }
}

/// Runs idle jobs whose ends are ready for the input so far. If memory is refused before the first event, each job is as it was,
/// for this input.
pub(crate) fn run_settled<R: Threads + Wait + Sync, G: Gate + Sync>(
    rt: &R,
    alloc: Global,
    part: &RunPart<'_>,
    idles: Vec<Idle>,
    room: PartRoom,
    gate: &G,
) -> Stopped
    requires part { IsHeldPart part.now idles.items }
    requires settled { HaveSettled part.now.network.now part.now.input.now (rows_of idles.items) }
    requires room { IsRoomFor (length (network_of part.now.network.now).instances) room }
    ensures stopped { HasStoppedPart part.now idles.items result }
    ensures untouched { result.outcome ≡ Err Refused → cells_of result.idles.items ≡ map (cell_for part.now.input.now) (cells_of idles.items) }
{
    let (network, input) = (part.network, part.input);
    let _program = network.program();
    let tasks = wake_all(network, input, idles, room.tasks);
    let (outcome, left) = run_tasks(
        rt, alloc, network, input, part.code, part.crew, part.left, tasks, gate,
    );
    conclude(part, outcome, left, room.idles, room.ends)
}

/// Runs idle jobs for as many events as are left for the part, by the workers and the quantum that were asked for.
/// If memory is refused before the first event, each job is as it was. If a thread can't be started, the ones that were started are
/// halted and gathered, and the jobs are where they were left.
pub(crate) fn run_part<R: Threads + Wait + Sync, G: Gate + Sync>(
    rt: &R,
    alloc: Global,
    part: &RunPart<'_>,
    mut idles: Vec<Idle>,
    room: PartRoom,
    gate: &G,
) -> Stopped
    requires asked { IsAsConfigured part.now.crew }
    requires part { IsHeldPart part.now idles.items }
    requires room { IsRoomFor (length (network_of part.now.network.now).instances) room }
    ensures { HasStoppedPart part.now idles.items result }
{
    let settled = settle(part.network, part.input, &mut idles);
    if settled.is_err() {
        return Stopped {
            idles,
            budget: part.left,
            ends: room.ends,
            outcome: Err(CrewFault::NoMemory),
        };
    }
    run_settled(rt, alloc, part, idles, room, gate)
}

// How many tokens were given to a channel: its writer sent them, or the input has them.
fn given(part: &RunPart<'_>, tasks: &[Task], channel: usize) -> u64
    requires here { channel < length (network_of part.now.network.now).channels }
    requires told { AreTold part.now.network.now tasks.now }
    ensures { AreAll part.now.network.now part.now.input.now tasks.now channel result }
{
    let _program = part.network.program();
    match part.network.writer(channel) {
        Some(side) => {
            let task = &tasks[side.instance];
            let _parameters = task.parameters();
            task.sent(side.parameter)
        }
        None => part.input.count(channel) as u64,
    }
}

fn dry_outcome(part: &RunPart<'_>, tasks: &[Task], instance: usize, parameter: usize) -> Outcome
    requires here { instance < length tasks.now }
    requires told { AreTold part.now.network.now tasks.now }
    requires reads { IsDryOf part.now.network.now instance parameter }
    ensures { IsDryTold part.now tasks.now instance parameter result }
{
    let channel = channel_read(part.code, instance, parameter);
    let task = &tasks[instance];
    let _program = part.network.program();
    let _parameters = task.parameters();
    let taken = task.taken(parameter);
    if taken == given(part, tasks, channel) {
        Outcome::Waits(channel)
    } else {
        Outcome::More
    }
}

fn end_of(part: &RunPart<'_>, tasks: &[Task], instance: usize) -> End
    requires here { instance < length tasks.now }
    requires told { AreTold part.now.network.now tasks.now }
    ensures { (x : Tasked) → slice_get tasks.now instance ≡ Some x → IsEndOf part.now.network.now part.now.input.now tasks.now x result }
{
    let task = &tasks[instance];
    let outcome = match task.standing() {
        TaskStanding::Going => Outcome::More,
        TaskStanding::Ended => Outcome::Ended,
        TaskStanding::Faulted(failure) => Outcome::Faulted(failure),
        TaskStanding::Dry(parameter) => dry_outcome(part, tasks, instance, parameter),
    };
    let events = task.events();
    End { outcome, events }
}

/// The ends of all instances. The list that is given has room for all.
pub(crate) fn ends_of(part: &RunPart<'_>, tasks: &[Task], mut ends: Vec<End>) -> Vec<End>
    requires told { AreTold part.now.network.now tasks.now }
    requires room { length tasks.now ≤ vec_capacity ends }
    ensures { AreEndsOfTasks part.now.network.now part.now.input.now tasks.now result.items (length tasks.now) }
{
    ends.clear();
    for instance in 0..tasks.len() {
        ends.push_reserved(end_of(part, tasks, instance));
    }
    ends
}
