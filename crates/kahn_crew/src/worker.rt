//! A worker: it takes one instance after another, until there is a reason to leave, and rests while none is ready.
//! In a turn instances are run for a draw of events, and each is set down where it is then. The board is told what each flushed, so
//! that the readers that wait for it can run.

ghost use Rattle.std.specs.Prelude.{◌≡◌, ◌<◌, ◌⊎◌, ◌+◌, ◌-◌, ◌≤◌, ◌≢◌};
ghost use Rattle.kahn_crew.specs.{inner.Words.ℕ, inner.Words.false, inner.Words.true, inner.Words.IfSome, inner.Words.IfNone, inner.Words.IsBetweenTurns, inner.Words.IsSeatOf, inner.Turns.HasPicked, inner.Turns.HasTask, inner.Turns.Heeds, inner.Turns.IsSameWorker, inner.Turns.SitsWith, inner.Turns.WasNotReady, inner.Words.OnErr, inner.Words.OnOk, inner.Words.wired, inner.Words.IsDelivered, inner.Tasks.IsPublished, inner.Turns.CanRest, inner.Turns.IsDue, inner.Turns.IsLeftHinted, inner.Turns.IsSetDown, inner.Turns.IsShare, inner.Turns.MayBegin, inner.Turns.IsAtWork, inner.Turns.IsTaskIn, inner.Turns.SitsIn, inner.Turns.StandsStill, inner.Words.length, inner.Words.network_of, inner.Words.instance_at, inner.Words.actual_at, inner.Words.count, inner.Words.SeesMore, inner.Words.width_of, inner.Tasks.written_by, inner.Turns.IsHinted, declared.opening.Order.TheVariants.Last};
ghost use Rattle.kahn_crew.specs.inner.Words.{NoMemory as IsWant, Going as IsGoing};

use crate::opening::{Boxed, Hints, Order, Run};
use crossbeam_utils::Backoff;
use kahn_board::{
    Draw, Seat, claim, draw_some, go_on, publish, reader_of, rest_dry, rest_over, rest_ready,
};
use kahn_code::{Code, Pause, Steps};
use kahn_job::{Task, TaskStanding};
use kahn_streams::{Gate, GateEntry, Network, NoMemory, Role, enter_gate};
use std::sync::Wait;
use std::sync::ledger::{Blank, Ledger};
use std::thread::Parker;
use std::time::Duration;

// For how many looks in a row an instance is to look ready, before a worker that didn't wake it takes it.
const LONG: usize = 8;

/// A worker: its seat at the board, its hints, and the instance at which it begins to look if it has none.
#[derive(Drop)]
pub struct Worker {
    pub seat: Seat<Boxed>,
    pub hints: Hints,
    pub start: usize,
}

// How often a worker without hints of its own pauses before it looks elsewhere: for some tens of microseconds.
const PAUSES: usize = 64;

// How long a worker sleeps that has found nothing, in microseconds: at least and at most this, since the end of a run waits for those who
// sleep, and between the two a fraction of the time that it has slept since it found something.
const SHORTEST: u64 = 50;

const LONGEST: u64 = 4000;

const PARTS: u64 = 8;

/// How long a worker has rested since it last found an instance. First it pauses, and then it sleeps: longer each time.
#[derive(Drop)]
pub(crate) struct Idling {
    backoff: Backoff,
    parker: Parker,
    slept: u64,
}

/// How an instance is to be set down.
#[derive(Clone, Copy)]
pub(crate) enum Due {
    Ready,
    Over,
    /// It waits on the channel, from which it took this many tokens.
    Waits(usize, u64),
}

// Whether there is an instance of that number that looks ready, and is taken if it `claims`. It looks first, since a claim writes a word.
fn pick_one(run: &Run<'_>, seat: &mut Seat<Boxed>, p: usize, claims: bool) -> bool
    requires { (n : ℕ) × SitsWith run.now n seat.old }
    ensures same { IsSeatOf seat.old seat.new }
    ensures picked { result ≡ true → claims ≡ true → (n : ℕ) → SitsWith run.now n seat.old → HasTask run.now p n seat.new }
    ensures looked { claims ≡ false → (n : ℕ) → SitsWith run.now n seat.old → SitsWith run.now n seat.new }
    ensures missed { result ≡ false → (n : ℕ) → SitsWith run.now n seat.old → SitsWith run.now n seat.new }
    ensures late { result ≡ false → p < run.now.board.now.instances → WasNotReady run.now seat.old p }
{
    if p >= run.board.instances {
        return false;
    }
    if !seat.looks_ready(run.board, p) {
        return false;
    }
    if !claims {
        return true;
    }
    claim(seat, run.board, p)
}

/// Picks an instance that a hint names: one of the worker's own, or one that it steals.
pub(crate) fn pick_hinted(run: &Run<'_>, worker: &mut Worker, steals: bool) -> Option<usize>
    requires { (n : ℕ) × SitsWith run.now n worker.old.seat }
    ensures same { IsSameWorker worker.old worker.new }
    ensures picked { IfSome result (λ p. (n : ℕ) → SitsWith run.now n worker.old.seat → HasTask run.now p n worker.new.seat) }
    ensures left { IfNone result ((n : ℕ) → SitsWith run.now n worker.old.seat → SitsWith run.now n worker.new.seat) }
{
    for _ in 0..run.board.instances {
        let Some(p) = worker.hints.find(steals) else {
            return None;
        };
        if pick_one(run, &mut worker.seat, p, true) {
            return Some(p);
        }
    }
    None
}

// An instance that looks ready, and is taken if it `claims`: it looks at each once, from the worker's start on.
fn look_round(run: &Run<'_>, worker: &mut Worker, claims: bool) -> Option<usize>
    requires { SitsWith run.now 0 worker.old.seat }
    ensures same { IsSameWorker worker.old worker.new }
    ensures found { claims ≡ true → HasPicked run.now result worker.old worker.new }
    ensures looked { claims ≡ false → SitsWith run.now 0 worker.new.seat }
{
    let (count, start) = (run.board.instances, worker.start);
    for step in 0..count {
        let p = (start % count + step) % count;
        if pick_one(run, &mut worker.seat, p, claims) {
            return Some(p);
        }
    }
    None
}

// Waits a little, until an instance has looked ready for some time: it is seldom taken from the worker that woke it then.
fn wait_a_little(run: &Run<'_>, worker: &mut Worker, rest: &Idling)
    requires { SitsWith run.now 0 worker.old.seat }
    ensures { IsSameWorker worker.old worker.new × SitsWith run.now 0 worker.new.seat }
{
    let mut last = None;
    let mut since = 0;
    // A worker that slept since it found something looks at once.
    let pauses = if rest.slept > 0 { 0 } else { PAUSES };
    for look in 0..pauses {
        rest.backoff.snooze();
        let found = look_round(run, worker, false);
        if found != last {
            last = found;
            since = look;
        }
        if found.is_some() && look.saturating_sub(since) >= LONG {
            return;
        }
    }
}

// Picks an instance: one that a hint of its own names, or another's hint, or else any that is ready.
fn pick_next(run: &Run<'_>, worker: &mut Worker, rest: &Idling) -> Option<usize>
    requires { SitsWith run.now 0 worker.old.seat }
    ensures same { IsSameWorker worker.old worker.new }
    ensures found { HasPicked run.now result worker.old worker.new }
{
    if let Some(p) = pick_hinted(run, worker, false) {
        return Some(p);
    }
    wait_a_little(run, worker, rest);
    if let Some(p) = pick_hinted(run, worker, true) {
        return Some(p);
    }
    look_round(run, worker, true)
}

/// Does turn after turn, until the run is halted, or no instance can run, or the budget is empty.
pub(crate) fn turns<R: Wait, G: Gate, L: Ledger>(
    rt: &R,
    run: &Run<'_>,
    gate: &G,
    worker: &mut Worker,
    blank: Blank,
)
    requires idle { SitsWith run.now 0 worker.old.seat }
    requires blank { (blank.name ≡ L.name) × (blank.parts ≡ L.parts) × (0 < blank.parts) }
    ensures same { Heeds worker.old worker.new }
    ensures left { IsBetweenTurns worker.new.seat × (worker.new.seat.seat.me.0.stage ≡ 1) }
{
    let mut steps = Steps::<L>::open(blank);
    let mut rest = Idling {
        backoff: Backoff::new(),
        parker: Parker::new(),
        slept: 0,
    };
    for _ in rt.forever() {
        if !go_on(&mut worker.seat, run.board) {
            return;
        }
        match pick_next(run, worker, &rest) {
            Some(p) => {
                rest.backoff.reset();
                rest.slept = 0;
                turn(run, gate, worker, p, &mut steps);
            }
            None => rest.sleep(rt),
        }
    }
}

impl Idling {
    /// Sleeps, if nothing was found anywhere.
    pub(crate) fn sleep<R: Wait>(&mut self, rt: &R) {
        let time = (self.slept / PARTS).max(SHORTEST).min(LONGEST);
        self.parker.park_timeout(rt, Duration::from_micros(time));
        self.slept = self.slept.saturating_add(time);
    }
}

fn due_of(run: &Run<'_>, task: &Task, p: usize) -> Due
    requires { IsTaskIn run.now p task.now }
    ensures { IsDue (wired run.now.board.now.table.shared.key) p task.now result }
{
    task.parameters();
    let _program = run.network.program();
    match task.standing() {
        TaskStanding::Going => Due::Ready,
        TaskStanding::Ended | TaskStanding::Faulted(_) => Due::Over,
        TaskStanding::Dry(parameter) => match run.code.channel(p, parameter) {
            Some(channel) => Due::Waits(channel, task.taken(parameter)),
            None => unreachable!(),
        },
    }
}

// If memory was refused, for an event or for a segment, the run is to stop. Otherwise the seat stays as it is.
fn heed(run: &Run<'_>, worker: &mut Worker, pause: Pause, flushed: Result<(), NoMemory>)
    requires { SitsIn run.now worker.old.seat }
    ensures same { Heeds worker.old worker.new }
    ensures still { StandsStill worker.old.seat worker.new.seat }
    ensures refused { OnErr flushed (worker.new.seat.seat.me.0.seen ≡ 2) }
    ensures wanted { pause ≡ IsWant → worker.new.seat.seat.me.0.seen ≡ 2 }
    ensures stays { OnOk flushed ((pause ≡ IsWant → ⊥) → (worker.new.seat ≡ worker.old.seat) × (worker.new.hints.wanted ≡ worker.old.hints.wanted)) }
{
    if flushed.is_ok() && !matches!(pause, Pause::NoMemory) {
        return;
    }
    worker.hints.wanted = true;
    worker.seat.halt(run.board);
}

// Runs the task of an instance, whose gate was entered, for at most `drawn` events, and flushes and publishes what it sent. Returns how
// many events it did. If memory was refused, the run is to stop.
fn run_task<L: Ledger>(
    run: &Run<'_>,
    worker: &mut Worker,
    task: &mut Task,
    p: usize,
    _entry: GateEntry,
    drawn: u64,
    steps: &mut Steps<L>,
) -> u64
    requires gate { _entry.instance ≡ p }
    requires works { IsAtWork run.now p drawn 0 task.old worker.old.seat }
    ensures same { Heeds worker.old worker.new }
    ensures works { IsAtWork run.now p drawn result task.new worker.new.seat }
    ensures delivered { (worker.new.seat.seat.me.0.seen ≡ 2) ⊎ IsDelivered task.new.work }
    ensures published { (r : ℕ) → IsPublished task.new r }
    // A task that may go on did all the events, or the run is to stop.
    ensures spent { task.new.standing ≡ IsGoing → (task.new.work.cell.events ≡ task.old.work.cell.events + drawn) ⊎ (worker.new.seat.seat.me.0.seen ≡ 2) }
{
    let before = task.events();
    let pause = task.run(run.code, drawn, steps, run.network, run.input);
    let flushed = task.flush();
    heed(run, worker, pause, flushed);
    publish_all(run, worker, task, p);
    task.events() - before
}

fn rest(run: &Run<'_>, worker: &mut Worker, p: usize, due: Due)
    requires { CanRest run.now p due worker.old.seat }
    ensures same { Heeds worker.old worker.new }
    ensures rests { SitsWith run.now worker.old.seat.seat.me.0.drawn worker.new.seat }
    ensures set_down { IsSetDown run.now p due worker.old.seat worker.new.seat }
{
    match due {
        Due::Ready => {
            rest_ready(&mut worker.seat, run.board, p);
            hint(run, worker, Some(p), Order::Last);
        }
        Due::Over => rest_over(&mut worker.seat, run.board, p),
        Due::Waits(channel, taken) => {
            if !rest_dry(&mut worker.seat, run.board, p, channel, taken) {
                hint(run, worker, Some(p), Order::Last);
            }
        }
    }
}

// Runs an instance, whose gate was entered, for at most `drawn` events, and sets it down. Returns how many it did.
fn spend<L: Ledger>(
    run: &Run<'_>,
    worker: &mut Worker,
    p: usize,
    entry: GateEntry,
    drawn: u64,
    steps: &mut Steps<L>,
) -> u64
    requires gate { entry.instance ≡ p }
    requires has { HasTask run.now p drawn worker.old.seat }
    requires may { MayBegin run.now drawn worker.old }
    ensures same { Heeds worker.old worker.new }
    ensures rests { (result ≤ drawn) × SitsWith run.now (drawn - result) worker.new.seat }
{
    let _program = run.network.program();
    let mut boxed = worker.seat.take_cell(run.board, p);
    let done = run_task(run, worker, &mut boxed.task, p, entry, drawn, steps);
    let due = due_of(run, &boxed.task, p);
    worker.seat.put_back(run.board, p, boxed);
    worker.seat.report_done(run.board, done);
    rest(run, worker, p, due);
    done
}

// Runs one instance after another for the events that were drawn, as long as more than seven eighths of a quantum are left,
// so that each has about as many as a draw of its own, own hints name one that is ready, and no memory was refused to it. Returns how
// many are left.
fn spend_all<G: Gate, L: Ledger>(
    run: &Run<'_>,
    gate: &G,
    worker: &mut Worker,
    first: usize,
    drawn: u64,
    steps: &mut Steps<L>,
) -> u64
    requires has { HasTask run.now first drawn worker.old.seat }
    requires share { IsShare run.now drawn }
    ensures same { Heeds worker.old worker.new }
    ensures rests { SitsWith run.now result worker.new.seat }
{
    let mut p = first;
    let mut left = drawn;
    loop {
        let done = spend(run, worker, p, enter_gate(gate, p), left, steps);
        left -= done;
        if done == 0 || worker.hints.wanted || left <= run.quantum / 8 * 7 {
            return left;
        }
        let Some(next) = pick_hinted(run, worker, false) else {
            return left;
        };
        p = next;
    }
}

/// Does the turn of an instance that was picked. It is run for a part of the budget, if some is left that other workers don't take
/// first, and set down. So are the instances that it woke, while the part lasts.
/// An instance that lost each of its draws is set down ready with a hint, so that it isn't forgotten.
pub(crate) fn turn<G: Gate, L: Ledger>(
    run: &Run<'_>,
    gate: &G,
    worker: &mut Worker,
    p: usize,
    steps: &mut Steps<L>,
)
    requires { HasTask run.now p 0 worker.old.seat }
    ensures same { Heeds worker.old worker.new }
    ensures idle { IsBetweenTurns worker.new.seat }
    ensures aside { IsLeftHinted run.now worker.old worker.new }
{
    let _program = run.network.program();
    match draw_some(&mut worker.seat, run.board, p, run.quantum) {
        Draw::Got(drawn) => {
            let left = spend_all(run, gate, worker, p, drawn, steps);
            worker.seat.give_back(run.board, left);
        }
        Draw::Lost => {
            rest_ready(&mut worker.seat, run.board, p);
            hint(run, worker, Some(p), Order::Last);
        }
        Draw::Empty => rest_ready(&mut worker.seat, run.board, p),
    }
}

// The channel between processes that a parameter writes.
fn target(network: &Network, code: &Code, instance: usize, parameter: usize) -> Option<usize>
    requires code { code.now.network.value ≡ network.now }
    requires inside { instance < length (network_of network.now).instances }
    ensures { result ≡ written_by (network_of network.now) (actual_at (instance_at (network_of network.now) instance) parameter) }
{
    let _program = network.program();
    let channel = code.channel(instance, parameter)?;
    if network.channel(channel).role == Role::Output {
        return None;
    }
    let side = network.writer(channel)?;
    if side.instance == instance && side.parameter == parameter {
        Some(channel)
    } else {
        None
    }
}

// Publishes what was flushed on a parameter, if it is more than before. Returns its reader, which may have waited for it or not.
pub(crate) fn publish_one(
    run: &Run<'_>,
    seat: &mut Seat<Boxed>,
    task: &mut Task,
    p: usize,
    parameter: usize,
) -> Option<usize>
    requires works { (n : ℕ) × (k : ℕ) × IsAtWork run.now p n k task.old seat.old }
    requires inside { parameter < width_of task.old.work }
    ensures same { IsSeatOf seat.old seat.new }
    ensures works { (n k : ℕ) → IsAtWork run.now p n k task.old seat.old → IsAtWork run.now p n k task.new seat.new }
    ensures seen { SeesMore seat.old.seat.me.0.seen seat.new.seat.me.0.seen }
    ensures task { (task.new.work ≡ task.old.work) × (task.new.standing ≡ task.old.standing) }
    ensures published { IsPublished task.new parameter }
    ensures others { (r : ℕ) → r ≢ parameter → count task.new.published r ≡ count task.old.published r }
{
    let _program = run.network.program();
    task.parameters();
    let count = task.flushed(parameter);
    if count == task.published(parameter) {
        return None;
    }
    let channel = target(run.network, run.code, p, parameter)?;
    task.mark(parameter, count);
    publish(seat, run.board, p, channel, count);
    reader_of(run.network, channel)
}

/// Hints at an instance that may be ready, if there is one. If memory is refused, the run is to stop.
pub(crate) fn hint(run: &Run<'_>, worker: &mut Worker, instance: Option<usize>, order: Order)
    requires { SitsIn run.now worker.old.seat }
    ensures same { Heeds worker.old worker.new }
    ensures still { StandsStill worker.old.seat worker.new.seat }
    // Nothing is halted if no hint was to be given, and the run is if memory was refused for one.
    ensures none { IfNone instance (worker.new.seat ≡ worker.old.seat) }
    ensures refused { (worker.new.hints.wanted ≡ worker.old.hints.wanted) ⊎ (worker.new.seat.seat.me.0.seen ≡ 2) }
    ensures given { order ≡ Last → IfSome instance (λ _. IsHinted worker.old worker.new) }
{
    let Some(instance) = instance else { return };
    if worker.hints.push(instance, order) {
        return;
    }
    worker.seat.halt(run.board);
}

/// Publishes all that was flushed on each parameter, and hints at its readers. They come next, since what they read is in this
/// processor's cache.
pub(crate) fn publish_all(run: &Run<'_>, worker: &mut Worker, task: &mut Task, p: usize)
    requires works { (n : ℕ) × (k : ℕ) × IsAtWork run.now p n k task.old worker.old.seat }
    ensures same { Heeds worker.old worker.new }
    ensures works { (n k : ℕ) → IsAtWork run.now p n k task.old worker.old.seat → IsAtWork run.now p n k task.new worker.new.seat }
    ensures seen { SeesMore worker.old.seat.seat.me.0.seen worker.new.seat.seat.me.0.seen }
    ensures task { (task.new.work ≡ task.old.work) × (task.new.standing ≡ task.old.standing) }
    ensures all { (r : ℕ) → IsPublished task.new r }
{
    for parameter in 0..task.parameters() {
        let reader = publish_one(run, &mut worker.seat, task, p, parameter);
        hint(run, worker, reader, Order::Next);
    }
}
