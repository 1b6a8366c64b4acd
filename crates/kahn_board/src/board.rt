//! The board and its rule. No other file reaches its table, and each step on a word counts in the view of the seat that makes it.

ghost use Rattle.std.specs.Prelude.{◌≡◌, ℕ, ◌+◌, ◌-◌, ◌*◌, ◌%◌, ◌^◌, ◌<◌, ◌≤◌, ◌==◌, [], ◌∷◌, length, Option, slice_index, slice_index_or, None, Some, IfOk, IfErr};
ghost use Rattle.std.specs.Vec.{vec_capacity};
ghost use Rattle.kahn_board.specs.{Rule.holds, Rule.wired, Rule.channel_at, Rule.budget_at, Rule.count_at, Rule.halted_at, Wires.Summary, Plays.becomes, Plays.after_step};

use crate::seat::{Seat, TableSeat};
use crate::turn::{Both, Closed, SplitsSeat, into_slots, out_of_slots, reserved};
use crate::view::SeatView;
use atomic_table::{Play, Refused, Table, TableRule};
use kahn_streams::{Network, NoMemory};
use std::alloc::Global;
use std::collections::VecDeque;
use std::marker::{Brand, PhantomData};
use std::snapshot::Snapshot;

/// Where the cells of a network are kept.
pub struct Board<T: Reports> {
    table: Table<Option<T>, SeatView, Terms<T>, Rule<T>, Global>,
    pub instances: usize,
    pub channels: usize,
    pub readers: Vec<Option<usize>, Global>,
    // The memory of the list that `close` returns.
    room: Vec<T, Global>,
    ghost sized: { (table.shared.table_id.words ≡ 8 * (instances + channels) + 24) × (table.shared.table_id.slots ≡ instances) },
    ghost counts: { ((wired table.shared.key).instances ≡ instances) × ((wired table.shared.key).channels ≡ channels) },
    ghost limits: { (instances ≤ 256) × (channels ≤ 1024) },
    ghost roomy: { (room.items ≡ []) × (instances ≤ vec_capacity room) },
    ghost read: { (length readers.items ≡ channels) × ((c : ℕ) → c < channels → slice_index_or readers.items c None ≡ (wired table.shared.key).reader c) },
}

/// What a board was made of: the network, the first words, the cells and the bound. Only contracts read the first
/// three, which have no bytes.
#[derive(Drop)]
pub struct Terms<T> {
    pub network: Snapshot<Network>,
    pub words: Snapshot<Vec<u64, Global>>,
    pub cells: Snapshot<Vec<T, Global>>,
    pub bound: u64,
}

/// The rule of a board's table, which holds between any two steps of any seats.
pub struct Rule<T> {
    cells: PhantomData<T>,
}

pub(crate) struct Notes;

impl<T: Reports> Board<T> {
    ghost use prog.Atomic.{either};
    ghost use Rattle.atomic_table.specs.Table.{rest};
    ghost use Rattle.kahn_board.specs.Plays.{HasPlayed, HasLearnt, MayStep};

    // A load: the word had this value at some moment of the call. The number is for its play alone.
    pub(crate) fn load<P>(&self, seat: &mut TableSeat<T>, word: usize, _number: u64) -> u64
    where
        P: Play<Option<T>, SeatView>,
        requires { MayStep (holds T.told T.after self.now.table.shared.key) self.now.table.shared.table_id seat.old word 0 0 (λ n. n) P.then }
        ensures { HasPlayed (holds T.told T.after self.now.table.shared.key) self.now.table.shared.table_id seat.old seat.new word 0 0 P.then result }
    {
        self.table.shared.load::<Brand>(seat, word)
    }

    // A compare-and-exchange: the word had the value found at some moment of the call.
    pub(crate) fn compare_exchange<P>(
        &self,
        seat: &mut TableSeat<T>,
        word: usize,
        old: u64,
        new: u64,
    ) -> u64
    where
        P: Play<Option<T>, SeatView>,
        requires { MayStep (holds T.told T.after self.now.table.shared.key) self.now.table.shared.table_id seat.old word old new (λ n. either (n == old) new n) P.then }
        ensures { HasPlayed (holds T.told T.after self.now.table.shared.key) self.now.table.shared.table_id seat.old seat.new word old new P.then result }
    {
        let shared = &self.table.shared;
        shared.compare_exchange::<Brand>(seat, word, old, new)
    }

    pub(crate) fn store<P>(&self, seat: &mut TableSeat<T>, word: usize, new: u64)
    where
        P: Play<Option<T>, SeatView>,
        requires { MayStep (holds T.told T.after self.now.table.shared.key) self.now.table.shared.table_id seat.old word new 0 (λ _. new) (λ st m _. P.then st m new) }
        ensures { HasLearnt self.now.table.shared.table_id seat.old seat.new word new 0 P.then new }
    {
        self.table.shared.store::<P>(seat, word, new)
    }

    pub(crate) fn swap<P>(&self, seat: &mut TableSeat<T>, word: usize, new: u64) -> u64
    where
        P: Play<Option<T>, SeatView>,
        requires { MayStep (holds T.told T.after self.now.table.shared.key) self.now.table.shared.table_id seat.old word new 0 (λ _. new) P.then }
        ensures { HasLearnt self.now.table.shared.table_id seat.old seat.new word new 0 P.then result }
    {
        self.table.shared.swap::<P>(seat, word, new)
    }

    pub(crate) fn fetch_add<P>(&self, seat: &mut TableSeat<T>, word: usize, k: u64) -> u64
    where
        P: Play<Option<T>, SeatView>,
        requires { MayStep (holds T.told T.after self.now.table.shared.key) self.now.table.shared.table_id seat.old word k 0 (λ n. (n + k) % 2 ^ 64) P.then }
        ensures { HasLearnt self.now.table.shared.table_id seat.old seat.new word k 0 P.then result }
    {
        self.table.shared.fetch_add::<P>(seat, word, k)
    }

    pub(crate) fn fetch_sub<P>(&self, seat: &mut TableSeat<T>, word: usize, k: u64) -> u64
    where
        P: Play<Option<T>, SeatView>,
        requires { MayStep (holds T.told T.after self.now.table.shared.key) self.now.table.shared.table_id seat.old word k 0 (λ n. (n + (2 ^ 64 - k)) % 2 ^ 64) P.then }
        ensures { HasLearnt self.now.table.shared.table_id seat.old seat.new word k 0 P.then result }
    {
        self.table.shared.fetch_sub::<P>(seat, word, k)
    }

    // Puts `new` into the slot that the seat took last, and returns what it held. No word is touched.
    pub(crate) fn exchange(&self, seat: &mut TableSeat<T>, slot: usize, new: Option<T>) -> Option<T>
        requires { (seat.old.table_id ≡ self.now.table.shared.table_id) × ((old : Option T) × (seat.old.me.1 ≡ (slot, old) ∷ rest seat.old.me.1)) }
        ensures same { (seat.new.table_id ≡ seat.old.table_id) × (seat.new.id ≡ seat.old.id) }
        ensures slots { (seat.old.me.1 ≡ (slot, result) ∷ rest seat.old.me.1) × (seat.new.me ≡ (seat.old.me.0, (slot, new) ∷ rest seat.old.me.1)) }
    {
        self.table.shared.exchange(seat, slot, new)
    }

    #[inline(always)]
    pub(crate) fn channel_word(&self, channel: usize) -> usize
        requires { channel < self.now.channels }
        ensures { result ≡ channel_at (wired self.now.table.shared.key) channel }
    {
        8 * (self.instances + channel)
    }

    #[inline(always)]
    pub(crate) fn budget_word(&self) -> usize
        ensures { result ≡ budget_at (wired self.now.table.shared.key) }
    {
        8 * (self.instances + self.channels)
    }

    #[inline(always)]
    pub(crate) fn count_word(&self) -> usize
        ensures { result ≡ count_at (wired self.now.table.shared.key) }
    {
        self.budget_word() + 8
    }

    #[inline(always)]
    pub(crate) fn halted_word(&self) -> usize
        ensures { result ≡ halted_at (wired self.now.table.shared.key) }
    {
        self.budget_word() + 16
    }
}

impl<T: Reports> Board<T> {
    ghost use Rattle.kahn_board.specs.Calls.{IsAtBoard, IsSameSeat, AreCut, IsFree, after_joining};
    ghost use Rattle.kahn_board.specs.Opening.{ClosesBoard, Opens};
    ghost use Rattle.kahn_board.specs.Rule.{all_parts, belongs, dealt, opening_view};
    ghost use Rattle.kahn_board.specs.Wires.{wires};

    /// Makes a board and its first seat. All instances are ready, `published[c]` tokens of channel c are published, the
    /// budget is the bound and the count is the number of instances. `NoMemory` comes with the cells.
    pub fn new(
        alloc: Global,
        network: &Network,
        published: &[u64],
        cells: Vec<T, Global>,
        bound: u64,
    ) -> Result<(Board<T>, Seat<T>), (NoMemory, Vec<T, Global>)>
        requires { Opens T.told T.after (wires network.now) bound published.now cells.items }
        ensures seat { IfOk result (λ t. (t.1.seat.table_id ≡ t.0.table.shared.table_id) × (t.1.seat.me ≡ (opening_view (wires network.now), []))) }
        ensures board { IfOk result (λ t. let key = t.0.table.shared.key in (key.network.value ≡ network.now) × (key.bound ≡ bound) × (key.cells.value ≡ cells)) }
        ensures published { IfOk result (λ t. (c : ℕ) → c < length published.now → (dealt T.told t.0.table.shared.key).published c ≡ slice_index published.now c) }
        ensures refused { IfErr result (λ e. e.1.items ≡ cells.items) }
    {
        let Ok((wiring, words, held, slots)) = reserved(alloc, network, published, bound) else {
            return Err((NoMemory, cells));
        };
        let terms = Terms {
            network: Snapshot::of(network),
            words: Snapshot::of(&words),
            cells: Snapshot::of(&cells),
            bound,
        };
        let (cells, slots) = into_slots(cells, slots);
        match Table::new(alloc, words.as_slice(), slots, &terms) {
            Err(Refused { slots }) => Err((NoMemory, out_of_slots(slots, cells))),
            Ok((table, seat)) => {
                let board = Board {
                    table,
                    instances: wiring.instances,
                    channels: wiring.channels,
                    readers: wiring.readers,
                    room: cells,
                };
                Ok((board, Seat { seat, held }))
            }
        }
    }

    /// Splits off a second seat, with one part of the first.
    pub fn split(
        &self,
        alloc: Global,
        mut seat: Seat<T>,
    ) -> Result<(Seat<T>, Seat<T>), (NoMemory, Seat<T>)>
        requires { IsAtBoard self.now seat × (1 < seat.seat.me.0.parts) × IsFree seat.seat.me.0 }
        ensures made { IfOk result (λ t. AreCut seat t.0 t.1) }
        ensures refused { IfErr result (λ e. e.1 ≡ seat) }
    {
        let Ok(held) = VecDeque::with_capacity(alloc, self.instances) else {
            return Err((NoMemory, seat));
        };
        let second = self.table.shared.split_seat::<SplitsSeat>(&mut seat.seat);
        Ok((seat, Seat { seat: second, held }))
    }

    /// Joins two seats to one.
    pub fn join(&self, mut seat: Seat<T>, other: Seat<T>) -> Seat<T>
        requires { IsAtBoard self.now seat × IsAtBoard self.now other × IsFree other.seat.me.0 }
        ensures { IsSameSeat seat result × (result.seat.me ≡ (after_joining seat.seat.me.0 other.seat.me.0, seat.seat.me.1)) }
    {
        let shared = &self.table.shared;
        shared.join_seat::<Both>(&mut seat.seat, other.seat);
        seat
    }

    /// Returns each cell, in order, the budget, and whether the run was halted.
    pub fn close(self, seat: Seat<T>) -> Closed<T>
        requires { IsAtBoard self seat × (seat.seat.me.0.parts ≡ all_parts) × IsFree seat.seat.me.0 }
        ensures { ClosesBoard T.told (belongs T.after self.table.shared.key) (wired self.table.shared.key) (dealt T.told self.table.shared.key) result seat.seat.me.0 }
    {
        let budget_word = self.budget_word();
        let halted_word = self.halted_word();
        let Board {
            table,
            instances,
            channels: _,
            readers: _,
            room: mut cells,
        } = self;
        let mut closed = table.close_with(seat.seat);
        let budget = closed.word(budget_word);
        let halted = closed.word(halted_word);
        for i in 0..instances {
            cells.push_reserved(closed.take(i).unwrap());
        }
        closed.free();
        Closed {
            cells,
            budget,
            halted: halted != 0,
        }
    }
}

/// What a cell reports to contracts: its events, what it took, sent and flushed, and whether it has ended or waits. A
/// cell that reports nothing meets every condition.
pub trait Reports {
    ghost told: { Self → Option Summary };

    /// The second is a later state of the first. The board requires no law of it.
    ghost after: { Self → Self → Type 0 };
}

impl<T: Reports> TableRule<Option<T>, SeatView, Terms<T>> for Rule<T> {
    ghost use Rattle.kahn_board.specs.Rule.{opening_view, holds, wired};

    ghost holds = { holds T.told T.after };

    ghost first = { λ key. opening_view (wired key) };
}

// What a step tells of cells, of the network or of a moment is chosen where the step is made.
impl<T> Play<Option<T>, SeatView> for Brand {
    ghost then = { λ _ _ _ _. Unit {0} };
}

impl<T> Play<Option<T>, SeatView> for Notes {
    ghost then = { becomes (λ _. after_step) };
}
