//! How a run begins and ends: its tasks, the board on which they are, in boxes, what its workers are lent and leave. Also hints:
//! the numbers of instances that may be ready.

ghost use Rattle.std.specs.Prelude.{◌≡◌, ◌+◌, ◌<◌, ◌≤◌, ◌^◌, ◌++◌, [], length, reverse, IfOk, IfErr, vec_capacity, false, true};
ghost use Rattle.kahn_crew.specs.{inner.Words.ℕ, inner.Words.Option, inner.Words.All, inner.Words.map, inner.Words.network_of, inner.Words.events_told, inner.Words.opening_view, inner.Words.AreIdle, inner.Words.HaveSettled, inner.Words.IsJob, inner.Words.rows_of, inner.Words.woken_task, inner.Left.run_fault, inner.Tasks.AreReadyTasks, inner.Tasks.HasBegun, inner.Tasks.IsNumber, inner.Tasks.told_tale, inner.Tasks.work_of, inner.Tasks.FitTogether, declared.opening.Order.TheVariants.Last};
ghost use Rattle.kahn_board.specs.Wires.{wires};
ghost use Rattle.crossbeam_deque.specs.Handles.{worker_index};

use crate::crew::Crewing;
use crossbeam_deque::protocol::Free;
use crossbeam_deque::{Steal, Stealer, Worker};
use kahn_board::{Board, Reports, Seat};
use kahn_code::Code;
use kahn_job::{Idle, Task};
use kahn_streams::{Input, Network, NoMemory, Role, RunFault};
use std::alloc::Global;
use std::marker::Model;

/// What is left once all workers have left: the tasks of all instances in order; how many events of the bound; whether the run was
/// halted, since memory or a thread was refused; and whether memory was refused to a worker.
#[derive(Drop)]
pub struct Left {
    pub tasks: Vec<Task>,
    pub budget: u64,
    pub halted: bool,
    pub wanted: bool,
}

/// Why a network isn't run.
#[derive(Clone, Copy, Debug, PartialEq, Eq, Drop)]
pub enum CrewFault {
    /// Memory was refused before the first event.
    NoMemory,
    /// A thread couldn't be started.
    NoThread,
}

/// A task in a box of its own, so that it moves as one pointer. Contracts see the task.
#[derive(Drop)]
pub struct Boxed {
    pub(crate) task: Box<Task>,
}

/// The board on which the tasks are, their network, its input and its code, and how many events a task may do before the worker
/// looks for another one, at least 1.
#[derive(Drop)]
pub struct Run<'b> {
    pub board: &'b Board<Boxed>,
    pub network: &'b Network,
    pub input: &'b Input,
    pub code: &'b Code,
    pub quantum: u64,
    ghost fits: { FitTogether board.now.table.shared.key network.now code.now.network.value input.now },
    ghost some: { 0 < quantum },
}

// One of this many hints that a worker takes from its own is the oldest in any case, so that each comes.
const CHAIN: usize = 64;

/// When a hint comes among a worker's own: before all others, or after them.
#[derive(Clone, Copy)]
pub(crate) enum Order {
    Next,
    Last,
}

/// The hints of one worker: its own, and the others' hints, which it may steal. A hint that is out of date does no harm.
/// The newest reader of what the worker sent is kept next to the deque. It comes next, while its tokens are in this processor's
/// cache, and needs no step on a word that others see. Others steal the oldest hint.
#[derive(Drop)]
pub struct Hints {
    next: Option<usize>,
    taken: usize,
    own: Worker<usize>,
    others: Vec<Stealer<usize>>,
    // Whether memory was refused to the worker: for a hint, an event or a segment.
    pub(crate) wanted: bool,
}

impl From<CrewFault> for RunFault {
    ghost from_gives = { λ f e. e ≡ run_fault f };

    fn from(fault: CrewFault) -> RunFault {
        match fault {
            CrewFault::NoMemory => RunFault::NoMemory,
            CrewFault::NoThread => RunFault::NoThread,
        }
    }
}

/// Returns the tasks of idle jobs that continue with an input for which their ends have settled. The list `tasks` has room for all.
/// Never allocates.
pub fn wake_all(
    network: &Network,
    input: &Input,
    idles: Vec<Idle>,
    mut tasks: Vec<Task>,
) -> Vec<Task>
    requires room { (tasks.items ≡ []) × (length idles.items ≤ vec_capacity tasks) }
    requires idle { AreIdle network.now input.now idles.items }
    requires settled { HaveSettled network.now input.now (rows_of idles.items) }
    ensures { result.items ≡ map (woken_task input.now) idles.items }
{
    for idle in idles {
        tasks.push_reserved(Task::woken(idle, input));
    }
    tasks
}

/// The jobs of tasks on which nobody works any more. The list that is given has room for all. Never allocates.
pub fn rest_all(tasks: Vec<Task>, mut idles: Vec<Idle>) -> Vec<Idle>
    requires room { (idles.items ≡ []) × (length tasks.items ≤ vec_capacity idles) }
    ensures same { result.items ≡ map work_of tasks.items }
    ensures jobs { All IsJob result.items }
{
    for task in tasks {
        idles.push_reserved(task.rest());
    }
    idles
}

// How many tokens of a channel are published at the start: the whole list of an input, and of another one what its writer sent.
fn number(network: &Network, input: &Input, tasks: &[Task], channel: usize) -> u64
    requires here { channel < length (network_of network.now).channels }
    requires ready { (watch : Option ℕ) × AreReadyTasks network.now input.now watch tasks.now }
    requires few { events_told told_tale tasks.now < 2 ^ 48 }
    ensures { IsNumber network.now input.now tasks.now channel result }
{
    let _program = network.program();
    if let Role::Input = network.channel(channel).role {
        return input.count(channel) as u64;
    }
    let Some(writer) = network.writer(channel) else {
        return 0;
    };
    let task = &tasks[writer.instance];
    let _parameters = task.parameters();
    task.sent(writer.parameter)
}

/// Returns the board of a run, its first seat, the hints of all workers, and a list with room for the tasks that are left. All that
/// was sent on a channel is published, and all instances are ready. If memory is refused, it returns the tasks.
pub(crate) fn open_board(
    alloc: Global,
    network: &Network,
    input: &Input,
    crewing: Crewing,
    bound: u64,
    tasks: Vec<Task>,
) -> Result<(Board<Boxed>, Seat<Boxed>, Vec<Hints>, Vec<Task>), Vec<Task>>
    requires some { 0 < crewing.come }
    requires ready { AreReadyTasks network.now input.now crewing.watch tasks.items }
    requires few { bound + events_told told_tale tasks.items < 2 ^ 48 }
    ensures seat { IfOk result (λ r. (r.1.seat.table_id ≡ r.0.table.shared.table_id) × (r.1.seat.me ≡ (opening_view (wires network.now), []))) }
    ensures begun { IfOk result (λ r. HasBegun network.now input.now crewing.watch r.0.table.shared.key) }
    ensures key { IfOk result (λ r. (r.0.table.shared.key.bound ≡ bound) × (r.0.table.shared.key.cells.value.items ≡ tasks.items)) }
    ensures hints { IfOk result (λ r. length r.2.items ≡ crewing.come) }
    ensures room { IfOk result (λ r. (r.3.items ≡ []) × (length (network_of network.now).instances ≤ vec_capacity r.3)) }
    ensures refused { IfErr result (λ given. given.items ≡ tasks.items) }
{
    let _program = network.program();
    let Ok(mut numbers) = Vec::with_capacity(alloc, network.channels()) else {
        return Err(tasks);
    };
    for channel in 0..network.channels() {
        numbers.push_reserved(number(network, input, &tasks, channel));
    }
    let Ok(hints) = first_hints(alloc, crewing.plan(bound).workers, network.instances()) else {
        return Err(tasks);
    };
    let (boxes, room) = box_all(alloc, tasks)?;
    match Board::new(alloc, network, &numbers, boxes, bound) {
        Ok((board, seat)) => Ok((board, seat, hints, room)),
        Err((_fault, boxes)) => Err(unbox_all(boxes, room)),
    }
}

impl Model for Boxed {
    ghost use Rattle.kahn_streams.specs.contracts.tree.Action as action;
    ghost use Rattle.kahn_streams.specs.contracts.tree.Form as form;
    ghost use Rattle.kahn_crew.specs.inner.Words.{codes, Tasked};

    ghost Value = { Tasked };

    ghost coded = { Prim.hlevel (codes, action.the_row.coded, form.the_row.coded) };

    ghost view = { λ b. b.task.value };
}

impl Reports for Boxed {
    ghost use Rattle.kahn_crew.specs.inner.Tasks.{IsLater, told_tale};

    ghost told = { told_tale };

    ghost after = { IsLater };
}

/// Returns each task in a box, and the room of their list. If memory is refused, it returns them as they were.
pub(crate) fn box_all(
    alloc: Global,
    mut tasks: Vec<Task>,
) -> Result<(Vec<Boxed>, Vec<Task>), Vec<Task>>
    ensures boxed { IfOk result (λ r. r.0.items ≡ tasks.items) }
    ensures room { IfOk result (λ r. (r.1.items ≡ []) × (length tasks.items ≤ vec_capacity r.1)) }
    ensures refused { IfErr result (λ given. given.items ≡ tasks.items) }
{
    let Ok(mut boxes) = Vec::with_capacity(alloc, tasks.len()) else {
        return Err(tasks);
    };
    tasks.reverse();
    while let Some(task) = tasks.pop() {
        match Box::new(alloc, task) {
            Ok(task) => boxes.push_reserved(Boxed { task }),
            Err(refused) => {
                tasks.push_reserved(refused.value);
                return Err(unbox_all(boxes, tasks));
            }
        }
    }
    Ok((boxes, tasks))
}

/// Returns the tasks out of their boxes, and after them the tasks of a list that is the other way round and has room for all.
pub(crate) fn unbox_all(mut boxes: Vec<Boxed>, mut tasks: Vec<Task>) -> Vec<Task>
    requires { length boxes.items + length tasks.items ≤ vec_capacity tasks }
    ensures { result.items ≡ boxes.items ++ reverse tasks.items }
{
    while let Some(boxed) = boxes.pop() {
        tasks.push_reserved(Box::into_inner(boxed.task));
    }
    tasks.reverse();
    tasks
}

impl Hints {
    /// One hint more. False if memory was refused, which stays noted.
    pub(crate) fn push(&mut self, instance: usize, order: Order) -> bool
        ensures told { result ≡ true → self.new.wanted ≡ self.old.wanted }
        ensures noted { result ≡ false → self.new.wanted ≡ true }
        ensures more { result ≡ true → order ≡ Last → worker_index self.old.own < worker_index self.new.own }
    {
        let last = match order {
            Order::Last => instance,
            Order::Next => match self.next.replace(instance) {
                Some(last) => last,
                None => return true,
            },
        };
        if self.own.push_as::<Free>(last).is_err() {
            self.wanted = true;
            return false;
        }
        true
    }

    /// A hint: one of its own, that comes next or is the oldest, or one that it steals.
    pub(crate) fn find(&mut self, steals: bool) -> Option<usize>
        ensures { self.new.wanted ≡ self.old.wanted }
    {
        if steals {
            return self.steal();
        }
        self.taken = self.taken.wrapping_add(1);
        if self.taken % CHAIN == 0 {
            if let Some(oldest) = self.own.pop() {
                return Some(oldest);
            }
        }
        match self.next.take() {
            Some(instance) => Some(instance),
            None => self.own.pop(),
        }
    }

    fn steal(&self) -> Option<usize> {
        for other in self.others.iter() {
            if let Steal::Success(instance) = other.steal() {
                return Some(instance);
            }
        }
        None
    }
}

// Hints for each worker, each with room for a hint of every instance.
fn bare_hints(alloc: Global, workers: usize, instances: usize) -> Result<Vec<Hints>, NoMemory>
    ensures { IfOk result (λ v. length v.items ≡ workers) }
{
    let mut all = Vec::with_capacity(alloc, workers)?;
    for _ in 0..workers {
        all.push_reserved(Hints {
            next: None,
            taken: 0,
            own: Worker::new_fifo(alloc, instances)?,
            others: Vec::with_capacity(alloc, workers)?,
            wanted: false,
        });
    }
    Ok(all)
}

/// The hints of all workers, which name each instance once. Neighbours, which often send to one another, begin with one worker. Fails only
/// if memory was refused.
pub(crate) fn first_hints(
    alloc: Global,
    workers: usize,
    instances: usize,
) -> Result<Vec<Hints>, NoMemory>
    requires { 0 < workers }
    ensures { IfOk result (λ v. length v.items ≡ workers) }
{
    let mut all = bare_hints(alloc, workers, instances)?;
    for worker in 0..workers {
        for other in 0..workers {
            if other != worker {
                let stealer = all[other].own.stealer()?;
                all[worker].others.push(stealer)?;
            }
        }
    }
    let share = instances.div_ceil(workers).max(1);
    for instance in 0..instances {
        if !all[instance / share % workers].push(instance, Order::Last) {
            return Err(NoMemory);
        }
    }
    Ok(all)
}
