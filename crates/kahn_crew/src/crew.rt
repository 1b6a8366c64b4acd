//! A crew: all workers of a run, the first in the caller's thread and each other in one of its own; how many start, and for how
//! long.

ghost use Rattle.std.specs.Prelude.{◌≡◌, ◌↔◌, ◌+◌, ◌<◌, ◌≤◌, ◌^◌, ◌⊎◌, max, min};
ghost use Rattle.kahn_crew.specs.{inner.Words.[], inner.Words.true, inner.Words.false, inner.Words.Err, inner.Words.length, inner.Words.map, inner.Words.All, inner.Words.IfErr, inner.Words.OnOk, inner.Words.vec_capacity, inner.Words.events_told, inner.Words.IsLoneSeat, inner.Words.parts_of, inner.Words.raised_of, inner.Turns.HasCause, inner.Turns.HasGone, inner.Turns.HasSeat, inner.Turns.WantsNone, inner.Turns.seat_of, inner.Turns.table_id_of, inner.Planned.IsCrew, inner.Left.AreUntouched, inner.Left.IsLack, inner.Left.IsLeftOf, inner.Left.IsOver, inner.Tasks.AreReadyTasks, inner.Tasks.told_tale, inner.Planned.crew_of, inner.Planned.plan_of_crew, inner.Turns.AllWent, inner.Turns.HaveWorked, inner.Turns.OneWent};
ghost use Rattle.kahn_crew.specs.declared.opening.CrewFault.TheVariants.{NoMemory as NoMemoryFault, NoThread as NoThreadFault};

use crate::opening::{Boxed, CrewFault, Hints, Left, Run, open_board, unbox_all};
use crate::worker::{Worker, turns};
use kahn_board::{Seat, join_all, split_all};
use kahn_code::Code;
use kahn_job::Task;
use kahn_streams::{Config, Gate, Input, Network, Plan};
use std::alloc::Global;
use std::marker::Brand;
use std::snapshot::Snapshot;
use std::sync::Wait;
use std::sync::ledger::Blank;
use std::thread;
use std::thread::{Promise, Scope, Threads};

#[derive(Drop)]
struct Shared<'b, 'c, R, G> {
    rt: &'b R,
    run: &'b Run<'c>,
    gate: &'b G,
}

/// The workers of a run and their quantum, as a configuration has them: nothing else makes one.
/// At an open gate, where nobody can see who works, fewer workers may start than are asked for, and turns may have another length.
#[derive(Clone, Copy)]
pub struct Crewing {
    /// The number of the channel that is watched, if any.
    pub watch: Option<usize>,
    workers: usize,
    quantum: u64,
    // How many workers come, and the most events of a turn.
    come: usize,
    turn: u64,
}

// What a thread promises: one that has done its work.
#[derive(Drop)]
struct Promised<'c, C, T> {
    shared: &'c C,
    worker: Snapshot<T>,
}

// A worker at each seat, with hints of its own, and the list of the seats, which is empty.
fn workers_at(
    mut seats: Vec<Seat<Boxed>>,
    mut hints: Vec<Hints>,
    mut workers: Vec<Worker>,
) -> (Vec<Worker>, Vec<Seat<Boxed>>)
    requires hints { length hints.items ≡ length seats.items }
    requires room { (workers.items ≡ []) × (length seats.items ≤ vec_capacity workers) }
    ensures seats { map seat_of result.0.items ≡ seats.items }
    ensures calm { All WantsNone result.0.items }
    ensures room { (result.1.items ≡ []) × (length seats.items ≤ vec_capacity result.1) }
{
    seats.reverse();
    while let Some(seat) = seats.pop() {
        let mut own = hints.pop().unwrap();
        own.wanted = false;
        workers.push_reserved(Worker {
            seat,
            hints: own,
            start: hints.len(),
        });
    }
    (workers, seats)
}

fn seats_of(workers: Vec<Worker>, mut seats: Vec<Seat<Boxed>>) -> (Vec<Seat<Boxed>>, bool)
    requires { (seats.items ≡ []) × (length workers.items ≤ vec_capacity seats) }
    ensures seats { result.0.items ≡ map seat_of workers.items }
    ensures wanted { All HasCause workers.items → (0 < raised_of (map seat_of workers.items) ↔ result.1 ≡ true) }
{
    let mut wanted = false;
    for worker in workers {
        wanted |= worker.hints.wanted;
        seats.push_reserved(worker.seat);
    }
    (seats, wanted)
}

impl<'b, 'c, R: Wait + Sync, G: Gate + Sync> Parallel<Shared<'b, 'c, R, G>> for Worker {
    ghost use Rattle.kahn_crew.specs.inner.Turns.{HasGone, HasQuit, HasSeat, Heeds};

    ghost may = { λ s w. HasSeat s.run.now w };

    ghost did = { λ s old new. HasGone s.run.now new × Heeds old new };

    ghost quit = { λ s old new. HasQuit s.run.now old new };

    // Where nobody can tell who works, the run is left to those that came.
    fn may_wait(shared: &Shared<'b, 'c, R, G>) -> bool {
        shared.gate.is_open()
    }

    fn halt(mut self, shared: &Shared<'b, 'c, R, G>) -> Worker {
        self.seat.halt(shared.run.board);
        self
    }

    fn run(mut self, shared: &Shared<'b, 'c, R, G>) -> Worker {
        turns::<R, G, Brand>(shared.rt, shared.run, shared.gate, &mut self, Blank::new(1));
        self
    }
}

// All work at the same time, each until it has left. If a thread can't be started for a worker, and the gate isn't open, the run is
// halted.
fn work_all<R: Threads + Wait + Sync, G: Gate + Sync>(
    rt: &R,
    run: &Run<'_>,
    gate: &G,
    workers: Vec<Worker>,
) -> (Vec<Worker>, bool)
    requires each { All (HasSeat run.now) workers.items }
    ensures count { length result.0.items ≡ length workers.items }
    ensures each { All (HasGone run.now) result.0.items }
    ensures sums { parts_of (map seat_of result.0.items) ≡ parts_of (map seat_of workers.items) }
    ensures several { result.1 ≡ true → 1 < length workers.items }
    ensures halted { result.1 ≡ true → 0 < raised_of (map seat_of result.0.items) }
    ensures cause { result.1 ≡ false → raised_of (map seat_of workers.items) ≡ 0 → All HasCause result.0.items }
{
    run_all(rt, &Shared { rt, run, gate }, workers)
}

// The board's one seat, once as many workers as come have worked by turns of that length and left, and whether memory was refused to
// one of them. Both come with a fault too: `NoMemory` before anybody worked, `NoThread` once those have left that were started.
fn run_workers<R: Threads + Wait + Sync, G: Gate + Sync>(
    rt: &R,
    alloc: Global,
    _crewing: Crewing,
    run: &Run<'_>,
    gate: &G,
    seat: Seat<Boxed>,
    hints: Vec<Hints>,
) -> (Result<(), CrewFault>, Seat<Boxed>, bool)
    requires seat { IsLoneSeat (table_id_of run.now) seat }
    requires calm { seat.seat.me.0.raised ≡ 0 }
    requires asked { (run.now.quantum ≡ _crewing.turn) × (length hints.items ≡ _crewing.come) }
    requires few { (1 ≤ length hints.items) × (length hints.items ≤ 16) }
    ensures seat { IsLoneSeat (table_id_of run.now) result.1 }
    ensures left { OnOk result.0 (result.1.seat.me.0.stage ≡ 1) }
    // The run was halted only because memory was refused to a worker, or a thread couldn't be started.
    ensures cause { OnOk result.0 (0 < result.1.seat.me.0.raised ↔ result.2 ≡ true) }
    ensures lack { IfErr result.0 (IsLack (length hints.items)) }
    ensures halted { result.0 ≡ Err NoThreadFault → 0 < result.1.seat.me.0.raised }
    // If memory was refused, nobody worked.
    ensures idle { result.0 ≡ Err NoMemoryFault → result.1.seat.me.0.done ≡ seat.seat.me.0.done }
{
    let Ok(room) = Vec::with_capacity(alloc, hints.len()) else {
        return (Err(CrewFault::NoMemory), seat, false);
    };
    match split_all(alloc, run.board, seat, hints.len()) {
        Ok(seats) => {
            let (workers, room) = workers_at(seats, hints, room);
            let (workers, refused) = work_all(rt, run, gate, workers);
            let (seats, wanted) = seats_of(workers, room);
            let seat = join_all(run.board, seats);
            if refused {
                (Err(CrewFault::NoThread), seat, wanted)
            } else {
                (Ok(()), seat, wanted)
            }
        }
        Err((_fault, seat)) => (Err(CrewFault::NoMemory), seat, false),
    }
}

/// Runs tasks that can run by as many workers as start, with turns of this length, until every worker has left:
/// - the run was halted, since memory was refused to a worker;
/// - or `bound` events are done;
/// - or every instance has ended or waits on a channel whose tokens it has all taken.
/// One worker has the caller's thread, each other one a thread of its own.
///
/// Fails with `NoMemory` only if memory is refused before the first event: each process is then as it was, and nothing of the bound
/// is used.
/// If a thread can't be started, which one worker never needs, and the gate is open, the run is left to the threads that were
/// started. Else it fails with `NoThread`: the threads that were started are halted, and it returns once they have left. The tasks
/// come back in both cases, as they were left.
pub fn run_tasks<R: Threads + Wait + Sync, G: Gate + Sync>(
    rt: &R,
    alloc: Global,
    network: &Network,
    input: &Input,
    code: &Code,
    crewing: Crewing,
    bound: u64,
    tasks: Vec<Task>,
    gate: &G,
) -> (Result<(), CrewFault>, Left)
    requires code { code.now.network.value ≡ network.now }
    requires crew { IsCrew crewing }
    requires ready { AreReadyTasks network.now input.now crewing.watch tasks.items }
    requires total { bound + events_told told_tale tasks.items < 2 ^ 48 }
    ensures gone { IsLeftOf network.now input.now crewing.watch bound tasks.items result.1 }
    ensures over { OnOk result.0 (IsOver network.now input.now result.1.tasks.items result.1.budget result.1.halted) }
    ensures cause { OnOk result.0 (result.1.halted ≡ true ↔ result.1.wanted ≡ true) }
    ensures wants { IfErr result.0 (IsLack crewing.workers) }
    ensures halted { result.0 ≡ Err NoThreadFault → result.1.halted ≡ true }
    ensures untouched { result.0 ≡ Err NoMemoryFault → AreUntouched bound tasks.items result.1.tasks.items result.1.budget }
{
    let _program = network.program();
    let (board, seat, hints, room) = match open_board(
        alloc, network, input, crewing, bound, tasks,
    ) {
        Ok(opened) => opened,
        Err(tasks) => {
            let left = Left {
                tasks,
                budget: bound,
                halted: false,
                wanted: false,
            };
            return (Err(CrewFault::NoMemory), left);
        }
    };
    let run = Run {
        board: &board,
        network,
        input,
        code,
        quantum: crewing.plan(bound).quantum,
    };
    let (outcome, seat, wanted) = run_workers(rt, alloc, crewing, &run, gate, seat, hints);
    let closed = board.close(seat);
    let left = Left {
        tasks: unbox_all(closed.cells, room),
        budget: closed.budget,
        halted: closed.halted,
        wanted,
    };
    (outcome, left)
}

impl Crewing {
    /// Returns the crewing of a configuration. `watch` is the number of the channel that it watches.
    pub fn of(config: &Config, watch: Option<usize>) -> Crewing
        ensures { result ≡ crew_of config.now watch }
    {
        Crewing {
            watch,
            workers: config.workers as usize,
            quantum: config.quantum,
            come: config.workers as usize,
            turn: config.quantum,
        }
    }

    /// At an open gate no more than `most` workers come, with turns of `turn` events. At another gate it stays.
    pub fn at_open_gate<G: Gate>(self, gate: &G, most: usize, turn: u64) -> Crewing
        requires { IsCrew self × (0 < turn) }
        ensures few { (result ≡ self) ⊎ (result ≡ record self { come = min self.come (max most 1); turn = turn }) }
        ensures crew { IsCrew result }
        ensures same { (result.watch ≡ self.watch) × (result.workers ≡ self.workers) }
    {
        if !gate.is_open() {
            return self;
        }
        Crewing {
            come: self.come.min(most.max(1)),
            turn,
            ..self
        }
    }

    /// What those go by that come, for a bound.
    pub fn plan(&self, bound: u64) -> Plan
        ensures { result ≡ plan_of_crew self.now bound }
    {
        Plan {
            watch: self.watch,
            workers: self.come,
            quantum: self.turn,
            bound,
        }
    }
}

/// One of several workers, with what they share.
pub(crate) trait Parallel<C> {
    /// What must hold of what they share, and of one before its work.
    ghost may: { C → Self → Type 0 };

    /// What is true of one before and after its work.
    ghost did: { C → Self → Self → Type 0 };

    /// What is true of one before and after, if it made all leave before its work.
    ghost quit: { C → Self → Self → Type 0 };

    /// Whether the work of one may be done in another's thread, after the other's, if no thread can be started for it.
    fn may_wait(shared: &C) -> bool;

    /// Tells all to leave their work.
    fn halt(self, shared: &C) -> Self
        requires { Self.may shared.now self }
        ensures may { Self.may shared.now result }
        ensures quit { (w : Self) → Self.did shared.now result w → Self.quit shared.now self w };

    /// Its whole work.
    fn run(self, shared: &C) -> Self
        requires { Self.may shared.now self }
        ensures { Self.did shared.now self result };
}

impl<'c, C, T: Parallel<C>> Promise<T> for Promised<'c, C, T> {
    ghost kept_by = { λ p r. T.did p.shared.now p.worker.value r };
}

// All leave: each tells so before its work, which is done in this thread.
fn halt_all<C, T: Parallel<C>>(shared: &C, mut workers: Vec<T>) -> Vec<T>
    requires { All (T.may shared.now) workers.items }
    ensures room { vec_capacity result ≡ vec_capacity workers }
    ensures count { length result.items ≡ length workers.items }
    ensures each { AllWent (T.quit shared.now) workers.items result.items }
{
    let Some(worker) = workers.pop() else {
        return workers;
    };
    let mut left = halt_all(shared, workers);
    left.push_reserved(worker.halt(shared).run(shared));
    left
}

// All work, the first in this thread and each other in one of its own. One for which no thread can be started works in this thread after
// the others, if it may; else this thread tells all to leave.
fn run_from<'s, E, R: Threads, C: Sync + 's, T: Parallel<C> + Send + Drop + 's>(
    rt: &R,
    scope: &'s Scope<'s, E>,
    shared: &'s C,
    mut workers: Vec<T>,
) -> (Vec<T>, bool)
    requires { All (T.may shared.now) workers.items }
    ensures room { vec_capacity result.0 ≡ vec_capacity workers }
    ensures worked { HaveWorked (T.did shared.now) (T.quit shared.now) workers.items result.0.items result.1 }
    ensures quits { result.1 ≡ true → OneWent (T.quit shared.now) workers.items result.0.items }
{
    let Some(worker) = workers.pop() else {
        return (workers, false);
    };
    if workers.is_empty() {
        workers.push_reserved(worker.run(shared));
        return (workers, false);
    }
    let promise = Promised {
        shared,
        worker: Snapshot::of(&worker),
    };
    let work = move || -> T
        requires { T.may shared.now worker }
        ensures { T.did shared.entry.now worker result }
    { worker.run(shared) };
    match scope.spawn_with(promise, work) {
        Ok(thread) => {
            let (mut workers, refused) = run_from(rt, scope, shared, workers);
            workers.push_reserved(thread.join(rt));
            (workers, refused)
        }
        Err(alone) => {
            if !T::may_wait(shared) {
                let mut workers = halt_all(shared, workers);
                workers.push_reserved((alone.value)());
                return (workers, true);
            }
            let (mut workers, refused) = run_from(rt, scope, shared, workers);
            workers.push_reserved((alone.value)());
            (workers, refused)
        }
    }
}

/// All work at the same time, one of them in this thread and each other in a thread of its own. If a thread can't be started:
/// - for one that may wait, it works in this thread after the others;
/// - for one that may not, all are asked to leave, and what is left of the work is done in this thread.
/// It takes no memory of an allocator. Returns all after their work, and whether a thread was missed, which only several need.
pub(crate) fn run_all<R: Threads + Wait + Sync, C: Sync, T: Parallel<C> + Send + Drop>(
    rt: &R,
    shared: &C,
    workers: Vec<T>,
) -> (Vec<T>, bool)
    requires { All (T.may shared.now) workers.items }
    ensures room { vec_capacity result.0 ≡ vec_capacity workers }
    ensures worked { HaveWorked (T.did shared.now) (T.quit shared.now) workers.items result.0.items result.1 }
    ensures quits { result.1 ≡ true → OneWent (T.quit shared.now) workers.items result.0.items }
{
    thread::scope(
        thread::scope_env(),
        rt,
        move |scope| -> (Vec<T>, bool)
            requires { All (T.may shared.now) workers.items }
            ensures room { vec_capacity result.0 ≡ vec_capacity workers }
            ensures worked { HaveWorked (T.did shared.entry.now) (T.quit shared.entry.now) workers.items result.0.items result.1 }
            ensures quits { result.1 ≡ true → OneWent (T.quit shared.entry.now) workers.items result.0.items }
        { run_from(rt, scope, shared, workers) },
    )
}
