//! The two ends of a lane, and the rule of its deque.
//!
//! A lane is a ruled deque of segments, each a run of tokens at consecutive places. The writer fills an open segment
//! and then pushes it; the reader steals one and takes its tokens out. Each end carries a pass, a value without
//! bytes in which contracts read what that end knows: the writer's how many tokens were flushed, the reader's how
//! many were stolen. The rule, which each step keeps, says that the deque has just the tokens of the places between
//! the two numbers, in order. So the token that comes out next always stands at the place that is the number of
//! those taken: none is skipped, and none comes twice.
//!
//! The rule of a deque is fixed before any network or input is there, so it can't name them. A lane learns them from
//! a first segment, without tokens, which its maker pushes and takes out again before the ends are parted.

ghost use Rattle.std.specs.Prelude.{◌≡◌, ◌+◌, ◌≤◌, ◌^◌, is_some, true, false, Some, vec_len, vec_capacity, length, [], ◌++◌};
ghost use Rattle.crossbeam_deque.specs.Handles.{view, worker_view, worker_flavor, stealer_deque, stealer_flavor, worker_index, worker_capacity};
ghost use Rattle.kahn_lane.specs.{Places.IsOn, Places.IsOn-prop, Places.StandFrom, Places.Placed-prop, Places.tag_name, Places.name-prop, Places.stage-prop, Places.opening_mark, Places.spent_mark, Places.owner, Places.writing_mark, Places.reading, Places.both, declared.segments.Stage.TheVariants.Running, inner.LaneRule.Laned, inner.LaneRule.TellsName, inner.LaneRule.Flushes, inner.LaneRule.Steals, inner.LaneRule.Empties, Places.lane_name-prop, Places.moved_to, inner.RelayRule.log, inner.RelayRule.Relayed};

use crate::name::{LaneName, Tag};
use crossbeam_deque::protocol::{Join, Lesson, Outcome, Protocol, Split};
use crossbeam_deque::{Pass, Stealer, Worker};
use kahn_streams::{Carried, Line};
use std::alloc::{Allocator, Global};
use std::collections::LinkedList;

/// A run of tokens at consecutive places: one alone, which needs no list, or those of a list. The first segment of a lane
/// says what the tokens are of, and has none.
#[derive(Drop)]
pub struct Segment<A: Allocator = Global> {
    pub(crate) tag: Option<Tag>,
    pub(crate) alone: Option<Carried>,
    pub(crate) tokens: Vec<Carried, A>,
}

/// How far the making of a lane has come: it has no name yet, its name is in the deque, or it is known to both ends.
#[derive(Clone, Copy)]
pub enum Stage {
    Opening,
    Telling,
    Running,
}

/// What a pass may do (flush, steal), what the tokens are of, as far as it knows, and how many tokens it knows to have
/// been flushed by it, stolen by it, and flushed when the ends last met. Only contracts use it: no value of it is made.
pub struct Mark {
    pub stage: Stage,
    pub writes: bool,
    pub reads: bool,
    pub writes_on: Option<LaneName>,
    pub reads_on: Option<LaneName>,
    pub flushed: u64,
    pub stolen: u64,
    pub known: u64,
}

/// The rule of a lane: tokens come out in the order of their places.
pub struct InPlaces;

/// The first segment says what the tokens are of.
pub struct Telling;

/// The first segment is taken out again, and the lane begins. It can't be missing.
pub struct Starting;

/// The right to steal or to take goes to another pass, or comes back.
pub struct Sides;

/// A pass without rights comes, or goes.
pub struct Bare;

/// A segment is flushed.
pub struct Flushed;

/// A segment is stolen. An empty deque shows that all that is known to have been flushed was stolen.
pub struct Stolen;

/// A pass with both rights takes a segment out. An empty deque shows that all that was flushed was taken out.
pub struct Emptied;

/// A pass with both rights sees that no more was stolen than was flushed, of the same name.
pub struct Behind;

/// The deque of a lane, as its owner sees it.
pub(crate) type LaneWorker<A> = Worker<Segment<A>, A, Mark, InPlaces>;

/// The deque of a lane, as the reader sees it.
pub(crate) type LaneStealer<A> = Stealer<Segment<A>, A, Mark, InPlaces>;

/// The writer's end of a lane, with its open segment. Its tag says what the tokens are of.
#[derive(Drop)]
pub struct Sender<A: Allocator = Global> {
    pub(crate) worker: LaneWorker<A>,
    pub(crate) tag: Tag,
    pub(crate) current: Vec<Carried, A>,
    pub(crate) flushed: u64,
    ghost stage: { (worker_view worker).stage ≡ Running } by { stage-prop (worker_view worker).stage Running },
    ghost in_order: { worker_flavor worker ≡ 0 },
    ghost writes: { (worker_view worker).writes ≡ true },
    ghost named: { (worker_view worker).writes_on ≡ Some (tag_name tag) } by { name-prop (worker_view worker).writes_on (Some (tag_name tag)) },
    ghost counted: { (worker_view worker).flushed ≡ flushed },
    ghost placed: { StandFrom (worker_view worker).writes_on flushed current.items } by { Placed-prop (worker_view worker).writes_on flushed current.items },
    ghost short: { vec_len current ≤ 64 },
    ghost limited: { flushed + vec_len current ≤ 2 ^ 48 },
}

/// The reader's end of a lane: the line of its tokens, and its open segment with the place of the first of its tokens
/// and how many of them were taken.
#[derive(Drop)]
pub struct Receiver<A: Allocator = Global> {
    pub(crate) stealer: LaneStealer<A>,
    pub(crate) pass: Pass<Segment<A>, Mark, A>,
    pub(crate) line: Line,
    pub(crate) from: u64,
    pub(crate) current: Vec<Carried, A>,
    pub(crate) used: usize,
    ghost rows: { pass.rows ≡ (stealer_deque stealer).0 },
    ghost heap: { pass.heap ≡ (stealer_deque stealer).1 },
    ghost hand: { is_some pass.me.hand ≡ false },
    ghost spare: { is_some pass.me.spare ≡ false },
    ghost in_order: { stealer_flavor stealer ≡ 0 },
    ghost stage: { (view pass).stage ≡ Running } by { stage-prop (view pass).stage Running },
    ghost reads: { (view pass).reads ≡ true },
    ghost on: { IsOn line (view pass).reads_on } by { IsOn-prop line (view pass).reads_on },
    ghost counted: { (view pass).stolen ≡ from + vec_len current },
    ghost placed: { StandFrom (view pass).reads_on from current.items } by { Placed-prop (view pass).reads_on from current.items },
    ghost within: { used ≤ vec_len current },
    ghost roomy: { 1 ≤ vec_capacity current },
    ghost limited: { from + vec_len current ≤ 2 ^ 48 },
}

/// Tokens at consecutive places that were of one input and are lifted to another.
#[derive(Drop)]
pub(crate) struct Lifted<A: Allocator = Global> {
    // What they were of, and what they are of now.
    pub(crate) from: Tag,
    pub(crate) to: Tag,
    // The place of the first of them.
    pub(crate) first: u64,
    pub(crate) tokens: Vec<Carried, A>,
    ghost moved: { tag_name to ≡ moved_to to.input.value (tag_name from) } by { lane_name-prop (tag_name to) (moved_to to.input.value (tag_name from)) },
    ghost placed: { StandFrom (Some (tag_name to)) first tokens.items } by { Placed-prop (Some (tag_name to)) first tokens.items },
}

/// What a pass may do (push, take), what it has given and taken, and how many items it knows to have been given. Only
/// contracts use it: no value of it is made.
pub struct Log<T> {
    pub pushes: bool,
    pub pops: bool,
    pub known: u64,
    pub given: LinkedList<T>,
    pub taken: LinkedList<T>,
}

/// The rule of a relay: items are taken in the order in which they were given.
pub struct InOrder;

/// A push adds its item to those given.
pub struct Sent;

/// A steal adds its item to those taken. An empty deque shows that all that is known to have been given was taken.
pub struct Got;

/// A pass with both rights sees the whole: what was given is what was taken, and then what the deque holds.
pub struct Total;

/// The end of a relay that puts items in.
#[derive(Drop)]
pub struct Giver<T, A: Allocator = Global> {
    pub(crate) worker: Worker<T, A, Log<T>, InOrder>,
    ghost gives: { (worker_view worker).pushes ≡ true },
    ghost counted: { worker_index worker ≡ length (worker_view worker).given },
    ghost roomy: { 1 ≤ worker_capacity worker },
}

/// The end of a relay that takes them out.
#[derive(Drop)]
pub struct Taker<T, A: Allocator = Global> {
    pub(crate) stealer: Stealer<T, A, Log<T>, InOrder>,
    pub(crate) pass: Pass<T, Log<T>, A>,
    ghost rows: { pass.rows ≡ (stealer_deque stealer).0 },
    ghost heap: { pass.heap ≡ (stealer_deque stealer).1 },
    ghost hand: { is_some pass.me.hand ≡ false },
    ghost spare: { is_some pass.me.spare ≡ false },
    ghost takes: { (view pass).pops ≡ true },
    ghost in_order: { stealer_flavor stealer ≡ 0 },
}

impl<A: Allocator> Protocol<Segment<A>, Mark> for InPlaces {
    ghost holds = { Laned };

    ghost first = { opening_mark };

    ghost guest = { spent_mark };
}

impl<A: Allocator> Outcome<Segment<A>, Mark> for Telling {
    ghost then = { λ _. TellsName };
}

impl<A: Allocator> Outcome<Segment<A>, Mark> for Starting {
    ghost then = { λ v _ w. w ≡ owner v.writes_on v.flushed };

    ghost empty = { λ _. ⊥ };
}

impl Split<Mark> for Sides {
    ghost left = { λ v. writing_mark v.writes_on v.flushed };

    ghost right = { λ v. reading v.reads_on v.stolen v.flushed };
}

impl Join<Mark> for Sides {
    ghost both = { λ v w. both v.writes_on w.reads_on v.flushed w.stolen w.known };

    ghost spent = { spent_mark };
}

impl Split<Mark> for Bare {
    ghost left = { λ v. v };

    ghost right = { λ _. spent_mark };
}

impl Join<Mark> for Bare {
    ghost both = { λ v _. v };

    ghost spent = { spent_mark };
}

impl<A: Allocator> Outcome<Segment<A>, Mark> for Flushed {
    ghost then = { Flushes };
}

impl<A: Allocator> Outcome<Segment<A>, Mark> for Stolen {
    ghost then = { Steals };

    ghost empty = { λ v. v.known ≤ v.stolen };
}

impl<A: Allocator> Outcome<Segment<A>, Mark> for Emptied {
    ghost then = { Empties };

    ghost empty = { λ v. v.stolen ≡ v.flushed };
}

impl<A: Allocator> Lesson<Segment<A>, Mark> for Behind {
    ghost fact = { λ v _. (v.stolen ≤ v.flushed) × (v.writes_on ≡ v.reads_on) };
}

impl<T> Protocol<T, Log<T>> for InOrder {
    ghost holds = { Relayed };

    ghost first = { log true true 0 [] [] };

    ghost guest = { log false false 0 [] [] };
}

impl<T> Split<Log<T>> for Sides {
    ghost left = { λ v. log true false 0 v.given [] };

    ghost right = { λ v. log false true (length v.given) [] v.taken };
}

impl<T> Join<Log<T>> for Sides {
    ghost both = { λ v w. log true true w.known v.given w.taken };

    ghost spent = { log false false 0 [] [] };
}

impl<T> Split<Log<T>> for Bare {
    ghost left = { λ v. v };

    ghost right = { λ _. log false false 0 [] [] };
}

impl<T> Join<Log<T>> for Bare {
    ghost both = { λ v _. v };

    ghost spent = { log false false 0 [] [] };
}

impl<T> Outcome<T, Log<T>> for Sent {
    ghost then = { λ v xs w. w ≡ log v.pushes v.pops v.known (v.given ++ xs) v.taken };
}

impl<T> Outcome<T, Log<T>> for Got {
    ghost then = { λ v xs w. w ≡ log v.pushes v.pops v.known v.given (v.taken ++ xs) };

    ghost empty = { λ v. v.known ≤ length v.taken };
}

impl<T> Lesson<T, Log<T>> for Total {
    ghost fact = { λ v items. v.given ≡ v.taken ++ items };
}
