//! The calls of a relay: items pass between two threads one by one, in order, and any number of them may be under
//! way. A taker that finds nothing returns at once. No call ever blocks.

ghost use Rattle.std.specs.Prelude.{◌≡◌, ◌+◌, ◌<◌, ◌≤◌, List, [], ◌∷◌, ◌++◌, length, IfOk, MatchResult, MatchOption, OnErr, true};
ghost use Rattle.kahn_lane.specs.RelayEnds.{giver_relay, taker_relay, relay_capacity, given, got, known_given, ComesBack, SameRelay, WasEmpty};
ghost use Rattle.kahn_lane.specs.inner.RelayRule.{log};
ghost use Rattle.crossbeam_deque.specs.Handles.{worker_capacity, worker_deque, worker_flavor, worker_index, worker_view};

use crate::segments::{Bare, Giver, Got, InOrder, Log, Sent, Sides, Taker, Total};
use crossbeam_deque::protocol::Protocol;
use crossbeam_deque::{Steal, Worker};
use kahn_streams::{NoMemory, Steps};
use std::alloc::{AllocError, Allocator};
use std::marker::Brand;
use std::mem;
use std::sync::ledger::{Blank, Ledger};
use thiserror::Error;

// How often a steal that met another one is tried again. Clauses of relays and lanes count this.
pub(crate) const TRIES: usize = 64;

/// Why a lane or a relay couldn't be made.
#[derive(PartialEq, Eq, Debug, Drop, Error)]
pub enum LaneFault {
    /// Memory was refused.
    #[error("no memory")]
    NoMemory,
}

/// Makes a relay with memory for one item. Its two ends may go to different threads. Nothing was given or taken yet.
#[tactic(auto, using(crate::proofs::RelayMoves::begins, crate::proofs::RelayMoves::forks))]
pub fn relay<T: Drop, A: Allocator + Clone + Drop>(
    alloc: A,
) -> Result<(Giver<T, A>, Taker<T, A>), LaneFault>
    ensures one { IfOk result (λ r. giver_relay r.0 ≡ taker_relay r.1) }
    ensures start { IfOk result (λ r. (given r.0 ≡ []) × (got r.1 ≡ []) × (known_given r.1 ≡ 0)) }
{
    parted(small_deque::<T, A, Log<T>, InOrder>(alloc)?)
}

// The two ends of a relay, whose deque was made with memory for one item.
#[tactic(auto, using(crate::proofs::RelayMoves::begins, crate::proofs::RelayMoves::forks))]
fn parted<T: Drop, A: Allocator + Clone + Drop>(
    made: Worker<T, A, Log<T>, InOrder>,
) -> Result<(Giver<T, A>, Taker<T, A>), LaneFault>
    requires small { worker_capacity made ≡ 1 }
    requires first { (worker_flavor made ≡ 0) × (worker_index made ≡ 0) × (worker_view made ≡ log true true 0 [] []) }
    ensures made { IfOk result (λ r. giver_relay r.0 ≡ worker_deque made) }
    ensures one { IfOk result (λ r. giver_relay r.0 ≡ taker_relay r.1) }
    ensures start { IfOk result (λ r. (given r.0 ≡ []) × (got r.1 ≡ []) × (known_given r.1 ≡ 0)) }
{
    let mut worker = made;
    let stealer = worker.stealer()?;
    let pass = worker.another::<Sides>();
    Ok((Giver { worker }, Taker { stealer, pass }))
}

impl<T, A: Allocator> Giver<T, A> {
    /// Gives an item. If memory is refused, the item comes back and nothing was given. Fails only if as many items were given as the relay
    /// has memory for, so never for the first.
    pub fn give(&mut self, item: T) -> Result<(), (NoMemory, T)>
        ensures same { giver_relay self.new ≡ giver_relay self.old }
        ensures rule { MatchResult result (λ _. given self.new ≡ given self.old ++ item ∷ []) (λ e. ComesBack self.old self.new item e.1) }
        ensures full { OnErr result (relay_capacity self.old ≤ length (given self.old)) }
    {
        match self.worker.push_as::<Sent>(item) {
            Ok(()) => Ok(()),
            Err(item) => Err((NoMemory, item)),
        }
    }
}

impl<T, A: Allocator> Taker<T, A> {
    /// Returns the next item. `None` only if the deque was empty at some moment of the call, so that all that is known
    /// to have been given was taken, or after 64 steals that each met another one: then 64 items have left the deque
    /// that this end didn't know to have left it. Never allocates.
    pub fn take(&mut self) -> Option<T>
        ensures same { (taker_relay self.new ≡ taker_relay self.old) × (known_given self.new ≡ known_given self.old) }
        ensures rule { MatchOption result ((got self.new ≡ got self.old) × WasEmpty self.old self.new) (λ x. got self.new ≡ got self.old ++ x ∷ []) }
    {
        self.take_counted::<Brand>(Blank::new(1))
    }

    fn take_counted<L: Ledger>(&mut self, blank: Blank) -> Option<T>
        requires { (blank.name ≡ L.name) × (blank.parts ≡ L.parts) × (0 < blank.parts) }
        ensures same { (taker_relay self.new ≡ taker_relay self.old) × (known_given self.new ≡ known_given self.old) }
        ensures rule { MatchOption result ((got self.new ≡ got self.old) × WasEmpty self.old self.new) (λ x. got self.new ≡ got self.old ++ x ∷ []) }
    {
        let mut tries = Steps::<L>::open(blank);
        self.steal_next(&mut tries)
    }

    #[tactic(auto, using(crate::proofs::RelayMoves::gets, crate::proofs::RelayMoves::finds))]
    fn steal_next<L: Ledger>(&mut self, tries: &mut Steps<L>) -> Option<T>
        ensures same { (taker_relay self.new ≡ taker_relay self.old) × (known_given self.new ≡ known_given self.old) }
        ensures rule { MatchOption result ((got self.new ≡ got self.old) × WasEmpty self.old self.new) (λ x. got self.new ≡ got self.old ++ x ∷ []) }
        ensures few { tries.new ≤ tries.old + 64 }
    {
        for _ in 0..TRIES {
            tries.tick();
            match self.stealer.steal_as::<Got>(&mut self.pass) {
                Steal::Success(item) => return Some(item),
                Steal::Empty => return None,
                Steal::Retry => {}
            }
        }
        None
    }

    /// Returns, with both ends in one thread, how many items were given and not taken. What was taken is a prefix of
    /// what was given. Never allocates.
    #[tactic(auto, using(crate::proofs::RelayMoves::forks_blank, crate::proofs::RelayMoves::merges, crate::proofs::RelayMoves::totals, crate::proofs::RelayMoves::forks, crate::proofs::RelayMoves::merges_blank))]
    pub fn meet(&mut self, giver: &mut Giver<T, A>) -> u64
        requires { giver_relay giver.old ≡ taker_relay self.old }
        ensures same { SameRelay giver.old giver.new self.old self.new }
        ensures rule { (items : List T) × (given giver.old ≡ got self.old ++ items) × (length items ≡ result) }
        ensures known { known_given self.new ≡ length (given giver.old) }
    {
        let blank = giver.worker.another::<Bare>();
        let pass = mem::replace(&mut self.pass, blank);
        giver.worker.absorb::<Sides>(pass);
        let count = giver.worker.len_as::<Total>();
        let pass = giver.worker.another::<Sides>();
        let blank = mem::replace(&mut self.pass, pass);
        giver.worker.absorb::<Bare>(blank);
        count as u64
    }
}

/// A new deque, with memory for one item, whose items are stolen in the order in which they were pushed.
pub(crate) fn small_deque<T: Drop, A: Allocator + Clone + Drop, V, P: Protocol<T, V>>(
    alloc: A,
) -> Result<Worker<T, A, V, P>, AllocError>
    requires { P.holds [] (P.first ∷ []) }
    ensures small { IfOk result (λ w. worker_capacity w ≡ 1) }
    ensures first { IfOk result (λ w. (worker_flavor w ≡ 0) × (worker_index w ≡ 0) × (worker_view w ≡ P.first)) }
{
    Worker::<T, A, V, P>::fifo_as(alloc, 1)
}

impl From<AllocError> for LaneFault {
    fn from(_error: AllocError) -> LaneFault {
        LaneFault::NoMemory
    }
}
