//! What workers call: how seats are split off for them and joined again, and the calls of a turn in their order, from the claim of an
//! instance until it is set down; and what a board keeps of its network.

ghost use Rattle.std.specs.Prelude.{◌≡◌, ◌≢◌, ℕ, ◌+◌, ◌-◌, ◌*◌, ◌^◌, ◌<◌, slice_index, true, false, Option, Some, ◌≤◌, List, length, [], IfOk, map, All, IfErr};
ghost use Rattle.kahn_board.specs.{Rule.wired, Wires.TellsEnd, Wires.TellsWait, Calls.IsAtBoard, Calls.Was, Calls.Looks, declared.seat.Look.Look, declared.seat.Look.TheVariants.Go, inner.Turn.DrawsAgain, inner.Turn.FitsDraw, inner.Turn.drawn_of, inner.Turn.BeginsTurn, inner.Turn.EndsTurn, inner.Turn.IsBetween, inner.Turn.IsBetweenTurns, inner.Turn.IsSeatOf, inner.Turn.HoldsInTurn, inner.Turn.Knows, inner.Turn.HasPublished, inner.Turn.SetsLate, inner.Turn.SetsReady, inner.Turn.SetsStill, inner.Turn.AreFirstWords, inner.Turn.IsWiringOf, Wires.wires, Rule.all_parts, inner.Turn.AddUp, inner.Turn.IsDoneAt, inner.Turn.IsLoneSeat, inner.Turn.SitsAt, inner.Turn.parts_of, inner.Turn.done_of, inner.Turn.raised_of, Final.CountStaysZero, Final.StepsQuietly, Rule.St, Rule.holds, Rule.up_count, declared.board.Terms.Terms};
ghost use Rattle.std.specs.{Vec.vec_capacity, VecDeque.deque_capacity};

use crate::board::{Board, Reports};
use crate::seat::{Draw, Look, Rest, Seat};
use crate::view::SeatView;
use atomic_table::{Join, Split};
use kahn_streams::{Network, NoMemory};
use std::alloc::{AllocError, Global};
use std::collections::VecDeque;

// How often it draws at most when other workers come between.
const DRAWS: usize = 64;

/// How many instances and channels a network has, and who reads each channel.
#[derive(Drop)]
pub struct Wiring {
    pub instances: usize,
    pub channels: usize,
    pub readers: Vec<Option<usize>, Global>,
}

// All that a board allocates but its table: the first words, the list of a seat, and the slots.
pub(crate) type Reserved<T> = (
    Wiring,
    Vec<u64, Global>,
    VecDeque<usize, Global>,
    Vec<Option<T>, Global>,
);

/// How a seat's view is split: the second part is an unused seat.
pub struct SplitsSeat;

/// How the views of two seats are joined: the second is spent.
pub struct Both;

/// What a closed board returns.
#[derive(Drop)]
pub struct Closed<T> {
    pub cells: Vec<T, Global>,
    pub budget: u64,
    pub halted: bool,
}

/// Claims the instance, if it is ready, for what is left of a draw. False if it isn't, since another worker has it, or it
/// waits, or it is over: its word was not 0 then.
pub fn claim<T: Reports>(seat: &mut Seat<T>, board: &Board<T>, p: usize) -> bool
    requires board { IsAtBoard board.now seat.old }
    requires rests { (n : ℕ) × IsBetween n seat.old }
    requires inside { p < board.now.instances }
    ensures same { IsSeatOf seat.old seat.new }
    ensures picked { result ≡ true → (n : ℕ) → IsBetween n seat.old → BeginsTurn T.told T.after board.now.table.shared.key p n seat.new }
    ensures few { result ≡ true → slice_index seat.new.seat.me.0.events_when_got p + seat.new.seat.me.0.drawn < 2 ^ 48 }
    ensures missed { result ≡ false → (n : ℕ) → IsBetween n seat.old → IsBetween n seat.new }
    ensures late { result ≡ false → (r : ℕ) × (r ≢ 0) × Was T.told T.after board.now.table.shared.key seat.old seat.old.seat.me.0 (8 * p) r }
{
    seat.claim(board, p).is_some()
}

/// Draws events from the budget, again if another worker comes between: the smaller of `quantum` and the budget at that
/// moment. `Empty` if the budget was 0, `Lost` if another worker came between 64 times.
pub fn draw_some<T: Reports>(seat: &mut Seat<T>, board: &Board<T>, p: usize, quantum: u64) -> Draw
    requires board { IsAtBoard board.now seat.old }
    requires holds { (x : Option T) × HoldsInTurn p 0 0 x seat.old }
    requires some { 0 < quantum }
    ensures same { IsSeatOf seat.old seat.new }
    ensures knows { Knows (wired board.now.table.shared.key) p seat.old.seat.me.0 seat.new.seat.me.0 }
    ensures draws { DrawsAgain T.told T.after board.now.table.shared.key 64 quantum seat.old seat.new result }
    ensures fits { FitsDraw quantum (slice_index seat.new.seat.me.0.events_when_got p) result }
    ensures drawn { (x : Option T) → HoldsInTurn p 0 0 x seat.old → HoldsInTurn p (drawn_of result) 0 x seat.new }
{
    for _ in 1..DRAWS {
        match seat.draw(board, quantum) {
            Draw::Got(n) => return Draw::Got(n),
            Draw::Empty => return Draw::Empty,
            Draw::Lost => {}
        }
    }
    seat.draw(board, quantum)
}

/// Publishes `count` tokens of the channel. If its reader waited on the channel, it is ready again.
pub fn publish<T: Reports>(
    seat: &mut Seat<T>,
    board: &Board<T>,
    p: usize,
    channel: usize,
    count: u64,
)
    requires board { IsAtBoard board.now seat.old }
    requires holds { (n : ℕ) × (l : ℕ) × (x : Option T) × HoldsInTurn p n l x seat.old }
    requires writes { (channel < board.now.channels) × ((wired board.now.table.shared.key).writer channel ≡ Some p) × (count < 2 ^ 48) }
    ensures same { IsSeatOf seat.old seat.new }
    ensures holds { (n l : ℕ) (x : Option T) → HoldsInTurn p n l x seat.old → HoldsInTurn p n l x seat.new }
    ensures tells { HasPublished (wired board.now.table.shared.key) p channel count seat.old.seat.me.0 seat.new.seat.me.0 }
{
    let Some(reader) = seat.publish(board, channel, count) else {
        return;
    };
    seat.count_up(board);
    seat.set_down(board, reader, Rest::Ready);
}

/// Sets the instance down, ready for another turn.
pub fn rest_ready<T: Reports>(seat: &mut Seat<T>, board: &Board<T>, p: usize)
    requires board { IsAtBoard board.now seat.old }
    requires holds { EndsTurn T.told T.after board.now.table.shared.key p (λ y. Unit {0}) seat.old }
    ensures same { IsSeatOf seat.old seat.new }
    ensures rests { IsBetween seat.old.seat.me.0.drawn seat.new }
    ensures ready { SetsReady T.told seat.old seat.old.seat.me.0 seat.new p }
{
    seat.set_down(board, p, Rest::Ready);
}

/// Sets down the instance, which has ended.
pub fn rest_over<T: Reports>(seat: &mut Seat<T>, board: &Board<T>, p: usize)
    requires board { IsAtBoard board.now seat.old }
    requires holds { EndsTurn T.told T.after board.now.table.shared.key p (λ y. TellsEnd (T.told y)) seat.old }
    ensures same { IsSeatOf seat.old seat.new }
    ensures rests { IsBetween seat.old.seat.me.0.drawn seat.new }
    ensures over { SetsStill T.told T.after board.now.table.shared.key seat.old seat.new p }
{
    seat.set_down(board, p, Rest::Over);
    seat.count_down(board);
}

/// Parks the instance on the channel, of which it took `taken` tokens. False if another number was published: then it is
/// ready for another turn.
pub fn rest_dry<T: Reports>(
    seat: &mut Seat<T>,
    board: &Board<T>,
    p: usize,
    channel: usize,
    taken: u64,
) -> bool
    requires board { IsAtBoard board.now seat.old }
    requires reads { (channel < board.now.channels) × ((wired board.now.table.shared.key).reader channel ≡ Some p) × (taken < 2 ^ 48) }
    requires holds { EndsTurn T.told T.after board.now.table.shared.key p (λ y. TellsWait (T.told y) channel taken) seat.old }
    ensures same { IsSeatOf seat.old seat.new }
    ensures rests { IsBetween seat.old.seat.me.0.drawn seat.new }
    ensures parked { result ≡ true → SetsStill T.told T.after board.now.table.shared.key seat.old seat.new p }
    ensures late { result ≡ false → SetsLate T.told T.after board.now.table.shared.key channel taken seat.old seat.new p }
{
    if !seat.park(board, p, channel, taken) {
        rest_ready(seat, board, p);
        return false;
    }
    seat.count_down(board);
    true
}

/// Whether another turn comes. False if it saw that the run is halted, that no instance can go on, or that the budget is
/// empty: then it has left.
pub fn go_on<T: Reports>(seat: &mut Seat<T>, board: &Board<T>) -> bool
    requires board { IsAtBoard board.now seat.old }
    requires idle { IsBetweenTurns seat.old }
    ensures same { IsSeatOf seat.old seat.new }
    ensures idle { IsBetweenTurns seat.new }
    ensures goes { result ≡ true → Looks T.told T.after board.now.table.shared.key seat.old seat.new Go }
    ensures left { result ≡ false → (seat.new.seat.me.0.stage ≡ 1) × ((k : Look) × (k ≢ Go) × Looks T.told T.after board.now.table.shared.key seat.old seat.new k) }
{
    matches!(seat.look(board), Look::Go)
}

/// Returns the instance that reads the channel, if one does; none reads an output channel. Never allocates.
pub fn reader_of(network: &Network, channel: usize) -> Option<usize>
    requires { channel < (wires network.now).channels }
    ensures { result ≡ (wires network.now).reader channel }
{
    Some(network.reader(channel)?.instance)
}

// Lays the first words, eight apart: 0 for each instance, twice the number published for each channel, the bound, the
// number of instances, and 0.
fn lay_words(
    alloc: Global,
    instances: usize,
    published: &[u64],
    bound: u64,
) -> Result<Vec<u64>, AllocError>
    requires { (instances ≤ 256) × (length published.now ≤ 1024) × ((c : ℕ) → c < length published.now → slice_index published.now c < 2 ^ 48) }
    ensures { IfOk result (λ v. AreFirstWords instances bound published.now v.items) }
{
    let hot = 8 * (instances + published.len());
    let mut words = Vec::from_elem(alloc, 0, hot + 24)?;
    words[hot] = bound;
    words[hot + 8] = instances as u64;
    for c in 0..published.len() {
        words[8 * (instances + c)] = 2 * published[c];
    }
    Ok(words)
}

// Moves the cells into slots, and returns their empty list.
pub(crate) fn into_slots<T>(
    mut cells: Vec<T, Global>,
    mut slots: Vec<Option<T>, Global>,
) -> (Vec<T, Global>, Vec<Option<T>, Global>)
    requires { (slots.items ≡ []) × (length cells.items ≤ vec_capacity slots) }
    ensures { (result.0.items ≡ []) × (vec_capacity result.0 ≡ vec_capacity cells) × (result.1.items ≡ map Some cells.items) }
{
    cells.reverse();
    while let Some(cell) = cells.pop() {
        slots.push_reserved(Some(cell));
    }
    (cells, slots)
}

// Moves the cells back into their list.
pub(crate) fn out_of_slots<T>(
    mut slots: Vec<Option<T>, Global>,
    mut cells: Vec<T, Global>,
) -> Vec<T, Global>
    requires full { (xs : List T) × (slots.items ≡ map Some xs) }
    requires room { (cells.items ≡ []) × (length slots.items ≤ vec_capacity cells) }
    ensures { slots.items ≡ map Some result.items }
{
    while let Some(slot) = slots.pop() {
        let Some(cell) = slot else { unreachable!() };
        cells.push_reserved(cell);
    }
    slots.destroy_empty();
    cells.reverse();
    cells
}

pub(crate) fn reserved<T>(
    alloc: Global,
    network: &Network,
    published: &[u64],
    bound: u64,
) -> Result<Reserved<T>, NoMemory>
    requires { (length published.now ≡ (wires network.now).channels) × ((c : ℕ) → c < length published.now → slice_index published.now c < 2 ^ 48) }
    ensures wiring { IfOk result (λ w. IsWiringOf network.now w.0) }
    ensures words { IfOk result (λ w. AreFirstWords w.0.instances bound published.now w.1.items) }
    ensures held { IfOk result (λ w. (w.2.items ≡ []) × (w.0.instances ≤ deque_capacity w.2)) }
    ensures slots { IfOk result (λ w. (w.3.items ≡ []) × (w.0.instances ≤ vec_capacity w.3)) }
{
    let _program = network.program();
    let instances = network.instances();
    let channels = network.channels();
    let mut readers = Vec::with_capacity(alloc, channels)?;
    for channel in 0..channels {
        readers.push_reserved(reader_of(network, channel));
    }
    let words = lay_words(alloc, instances, published, bound)?;
    let held = VecDeque::with_capacity(alloc, instances)?;
    let slots = Vec::with_capacity(alloc, instances)?;
    let wiring = Wiring {
        instances,
        channels,
        readers,
    };
    Ok((wiring, words, held, slots))
}

impl Split<SeatView> for SplitsSeat {
    ghost use Rattle.kahn_board.specs.Calls.{after_splitting, split_off};

    ghost left = { after_splitting };

    ghost right = { split_off };
}

impl Join<SeatView> for Both {
    ghost use Rattle.kahn_board.specs.Calls.{after_joining};
    ghost use Rattle.kahn_board.specs.Rule.{spent};

    ghost both = { after_joining };

    ghost spent = { spent };
}

/// Splits one seat into `count`. `NoMemory` comes with the one seat.
pub fn split_all<T: Reports>(
    alloc: Global,
    board: &Board<T>,
    seat: Seat<T>,
    count: usize,
) -> Result<Vec<Seat<T>, Global>, (NoMemory, Seat<T>)>
    requires lone { IsLoneSeat board.now.table.shared.table_id seat }
    requires few { (1 ≤ count) × (count ≤ 16) }
    ensures counted { IfOk result (λ v. length v.items ≡ count) }
    ensures each { IfOk result (λ v. All (SitsAt board.now.table.shared.table_id) v.items) }
    ensures sums { IfOk result (λ v. (parts_of v.items ≡ all_parts) × (done_of v.items ≡ seat.seat.me.0.done)) }
    // Nobody halts the run.
    ensures raised { IfOk result (λ v. raised_of v.items ≡ seat.seat.me.0.raised) }
    ensures refused { IfErr result (λ e. IsLoneSeat board.now.table.shared.table_id e.1) }
    ensures calm { IfErr result (λ e. (e.1.seat.me.0.done ≡ seat.seat.me.0.done) × (e.1.seat.me.0.raised ≡ seat.seat.me.0.raised)) }
{
    let Ok(mut seats) = Vec::with_capacity(alloc, count) else {
        return Err((NoMemory, seat));
    };
    let mut first = seat;
    for _ in 1..count {
        match board.split(alloc, first) {
            Ok((kept, second)) => {
                first = kept;
                seats.push_reserved(second);
            }
            Err((fault, kept)) => return Err((fault, join_rest(board, kept, seats))),
        }
    }
    seats.push_reserved(first);
    Ok(seats)
}

fn join_rest<T: Reports>(
    board: &Board<T>,
    first: Seat<T>,
    mut others: Vec<Seat<T>, Global>,
) -> Seat<T>
    requires first { SitsAt board.now.table.shared.table_id first }
    requires others { All (SitsAt board.now.table.shared.table_id) others.items }
    ensures same { SitsAt board.now.table.shared.table_id result }
    ensures sums { AddUp first others.items result }
    ensures left { All (λ s. s.seat.me.0.stage ≤ 1) others.items → first.seat.me.0.stage ≡ 1 → result.seat.me.0.stage ≡ 1 }
{
    let mut seat = first;
    while let Some(other) = others.pop() {
        seat = board.join(seat, other);
    }
    others.destroy_empty();
    seat
}

/// Joins all seats, each of which has left.
pub fn join_all<T: Reports>(board: &Board<T>, mut seats: Vec<Seat<T>, Global>) -> Seat<T>
    requires some { 0 < length seats.items }
    requires each { All (IsDoneAt board.now.table.shared.table_id) seats.items }
    ensures left { IsDoneAt board.now.table.shared.table_id result }
    ensures sums { (result.seat.me.0.parts ≡ parts_of seats.items) × (result.seat.me.0.done ≡ done_of seats.items) }
    ensures raised { result.seat.me.0.raised ≡ raised_of seats.items }
{
    let first = seats.pop().unwrap();
    join_rest(board, first, seats)
}

/// A quiet run stays so: while the count is 0, no kind of step changes another word than those of the budget and of the halt, whichever seat
/// makes it; and after any step that keeps the rule the count is 0.
pub fn quiet_is_final<T: Reports>()
    ensures steps { (key : Terms T) (s : St T) → holds T.told T.after key s → up_count (wired key) s.words ≡ 0 → StepsQuietly key s }
    ensures stays { (key : Terms T) (s : St T) → holds T.told T.after key s → up_count (wired key) s.words ≡ 0 → CountStaysZero T.told T.after key s }
{}
