//! The search for what a value needs, by demand: the writer of the value acts until it has sent it; where it waits for a value, the writer of
//! that one acts. So nothing is done that isn't needed.

ghost use Rattle.std.specs.Prelude.{◌≡◌, ◌↔◌, ◌<◌, ◌≤◌, true, MatchResult, length, ◌+◌, IfOk};
ghost use Rattle.kahn_streams.specs.{Network.Written, Network.network_of, Solution.source, declared.value.Line.TheVariants.Channel};
ghost use Rattle.kahn_code.specs.declared.progress.Pause.TheVariants.{Spent};
ghost use Rattle.kahn_needs.specs.Finding.{IsNetworkLine, events_total};
ghost use Rattle.kahn_needs.specs.declared.search.Sought.TheVariants.{Ring};
ghost use Rattle.kahn_needs.specs.declared.search.Turn.TheVariants.{Waits};
ghost use Rattle.kahn_needs.specs.inner.Bench.{AreSeatsOf};
ghost use Rattle.kahn_needs.specs.inner.Finding.{AreDemands, AreForced, HasCome, HasEndedWith, HasSearched, IsAwaited, IsDemand, IsEndOfSearch, IsPausedAt, IsTurnTold, IsWaitChain, acted_by};

use crate::bench::Bench;
use kahn_code::{Pause, Steps};
use kahn_streams::{Line, MOST_BOUND};
use std::alloc::Global;
use std::sync::ledger::{Blank, Ledger};

/// A value that is wanted, by its line and its place.
#[derive(Clone, Copy, PartialEq, Eq)]
pub(crate) struct Demand {
    pub(crate) line: Line,
    pub(crate) place: u64,
}

/// A value that is wanted, and one from which so many waits lead to it.
#[derive(Clone, Copy)]
pub(crate) struct Chain {
    pub(crate) demand: Demand,
    pub(crate) mark: Demand,
    pub(crate) waits: usize,
}

/// What a turn for a demand did.
#[derive(Clone, Copy)]
pub(crate) enum Turn {
    Sent,
    Acted,
    /// Its writer waits for a value of this channel.
    Waits(usize),
    /// It is never sent.
    Over,
    /// Its writer has done as many events as one may.
    Bound,
    NoMemory,
}

/// How a search ended.
#[derive(Clone, Copy)]
pub(crate) enum Sought {
    Come,
    Never,
    /// Those that it waits for wait on one another.
    Ring,
    /// An instance has done as many events as one may.
    Bound,
    /// As many events were done as the search may do.
    Spent,
    NoMemory,
}

fn told(bench: &Bench<'_>, root: Demand, demand: Demand, instance: usize, pause: Pause) -> Turn
    requires demanded { IsDemand bench.now root.line root.place demand.line demand.place }
    requires writer { source (network_of bench.now.network) demand.line ≡ Written instance }
    requires here { instance < length (network_of bench.now.network).instances }
    requires paused { IsPausedAt bench.now instance pause }
    requires unspent { pause ≡ Spent → ⊥ }
    ensures told { IsTurnTold bench.now root.line root.place demand.line demand.place result }
    ensures still { acted_by result ≡ 0 }
{
    bench.laid();
    if bench.sent(demand.line) > demand.place {
        return Turn::Sent;
    }
    match pause {
        Pause::Dry(parameter) => Turn::Waits(bench.channel(instance, parameter)),
        Pause::Ended => Turn::Over,
        Pause::Fault(_) => Turn::Over,
        Pause::NoMemory => Turn::NoMemory,
        // It never is: no event was done.
        Pause::Spent => Turn::Bound,
    }
}

fn act<L: Ledger>(bench: &mut Bench<'_>, root: Demand, demand: Demand, steps: &mut Steps<L>) -> Turn
    requires demanded { IsDemand bench.old root.line root.place demand.line demand.place }
    requires forced { AreForced bench.old root.line root.place }
    ensures { HasSearched bench.old bench.new root.line root.place demand.line demand.place result }
{
    bench.laid();
    let Some(instance) = bench.writer(demand.line) else {
        return Turn::Over;
    };
    if bench.sent(demand.line) > demand.place {
        return Turn::Sent;
    }
    let before = bench.events(instance);
    let most = MOST_BOUND;
    if before >= most {
        return Turn::Bound;
    }
    let pause = bench.act(instance, steps);
    bench.laid();
    if bench.events(instance) > before {
        return Turn::Acted;
    }
    told(bench, root, demand, instance, pause)
}

fn begun(bench: &Bench<'_>, root: Demand, demand: Demand) -> Chain
    requires { IsDemand bench.now root.line root.place demand.line demand.place }
    ensures { IsWaitChain bench.now root.line root.place result }
{
    bench.laid();
    Chain {
        demand,
        mark: demand,
        waits: 0,
    }
}

fn awaited(bench: &Bench<'_>, root: Demand, chain: Chain, channel: usize) -> Demand
    requires { IsTurnTold bench.now root.line root.place chain.demand.line chain.demand.place (Waits channel) }
    ensures { IsAwaited bench.now root.line root.place chain result }
{
    Demand {
        line: Line::Channel(channel),
        place: bench.taken_from(channel),
    }
}

// The chain with the value for which the writer of its last one waits. After so many waits as there are instances it begins anew, so the mark
// of a ring comes to be in it.
fn longer(bench: &Bench<'_>, root: Demand, chain: Chain, demand: Demand) -> Chain
    requires chain { IsWaitChain bench.now root.line root.place chain }
    requires awaited { IsAwaited bench.now root.line root.place chain demand }
    ensures { IsWaitChain bench.now root.line root.place result }
{
    if chain.waits >= bench.instances() {
        return begun(bench, root, demand);
    }
    Chain {
        demand,
        mark: chain.mark,
        waits: chain.waits + 1,
    }
}

fn is_same(first: Demand, second: Demand) -> bool
    ensures { result ≡ true ↔ first ≡ second }
{
    first == second
}

fn is_ring(bench: &Bench<'_>, root: Demand, chain: Chain, demand: Demand) -> bool
    requires chain { IsWaitChain bench.now root.line root.place chain }
    requires awaited { IsAwaited bench.now root.line root.place chain demand }
    ensures found { result ≡ true → IsEndOfSearch bench.now root.line root.place Ring }
    ensures every { chain.mark ≡ demand → result ≡ true }
{
    bench.laid();
    is_same(chain.mark, demand)
}

// The chain with the value of a channel for which the writer of its last one waits; or that this closes a ring. The last one is kept, to go back
// to.
fn waited(
    bench: &Bench<'_>,
    root: Demand,
    chain: Chain,
    channel: usize,
    waiting: &mut Vec<Demand>,
) -> Result<Chain, Sought>
    requires chain { IsWaitChain bench.now root.line root.place chain }
    requires told { IsTurnTold bench.now root.line root.place chain.demand.line chain.demand.place (Waits channel) }
    requires waiting { AreDemands bench.now root.line root.place waiting.old.items }
    ensures chain { MatchResult result (IsWaitChain bench.now root.line root.place) (IsEndOfSearch bench.now root.line root.place) }
    ensures waiting { IfOk result (λ _. AreDemands bench.now root.line root.place waiting.new.items) }
{
    let demand = awaited(bench, root, chain, channel);
    if is_ring(bench, root, chain, demand) {
        return Err(Sought::Ring);
    }
    match waiting.push(chain.demand) {
        Ok(()) => Ok(longer(bench, root, chain, demand)),
        Err(_) => Err(Sought::NoMemory),
    }
}

// The chain once a value was sent: of what its reader wants that waited for it, or of the root, unless that has come.
fn back(bench: &Bench<'_>, root: Demand, waiting: &mut Vec<Demand>) -> Result<Chain, Sought>
    requires root { IsDemand bench.now root.line root.place root.line root.place }
    requires waiting { AreDemands bench.now root.line root.place waiting.old.items }
    ensures chain { MatchResult result (IsWaitChain bench.now root.line root.place) (IsEndOfSearch bench.now root.line root.place) }
    ensures waiting { IfOk result (λ _. AreDemands bench.now root.line root.place waiting.new.items) }
{
    match waiting.pop() {
        Some(demand) => Ok(begun(bench, root, demand)),
        None if has_come(bench, root) => Err(Sought::Come),
        None => Ok(begun(bench, root, root)),
    }
}

// The chain after a turn, or how the search ends.
fn next_chain(
    bench: &Bench<'_>,
    root: Demand,
    chain: Chain,
    turn: Turn,
    waiting: &mut Vec<Demand>,
) -> Result<Chain, Sought>
    requires root { IsDemand bench.now root.line root.place root.line root.place }
    requires chain { IsWaitChain bench.now root.line root.place chain }
    requires told { IsTurnTold bench.now root.line root.place chain.demand.line chain.demand.place turn }
    requires waiting { AreDemands bench.now root.line root.place waiting.old.items }
    ensures chain { MatchResult result (IsWaitChain bench.now root.line root.place) (IsEndOfSearch bench.now root.line root.place) }
    ensures waiting { IfOk result (λ _. AreDemands bench.now root.line root.place waiting.new.items) }
{
    match turn {
        Turn::Sent => back(bench, root, waiting),
        Turn::Acted => Ok(chain),
        Turn::Over => Err(Sought::Never),
        Turn::Bound => Err(Sought::Bound),
        Turn::NoMemory => Err(Sought::NoMemory),
        Turn::Waits(channel) => waited(bench, root, chain, channel, waiting),
    }
}

// How many events are left after a turn.
fn left_after(left: u64, turn: Turn) -> u64
    requires { 0 < left }
    ensures { left ≡ result + acted_by turn }
{
    match turn {
        Turn::Acted => left - 1,
        Turn::Sent | Turn::Waits(_) | Turn::Over | Turn::Bound | Turn::NoMemory => left,
    }
}

fn has_come(bench: &Bench<'_>, demand: Demand) -> bool
    requires { IsNetworkLine (network_of bench.now.network) demand.line }
    ensures { result ≡ true → HasCome bench.now demand.line demand.place }
{
    match bench.writer(demand.line) {
        Some(_) => bench.sent(demand.line) > demand.place,
        None => false,
    }
}

/// Processes act until the value of a demand was sent, or it is known that it never is, for as many events as are left. All that they do is
/// needed. It remembers who waits for whom, so a wait is looked at once for each value. Fails only if memory was refused.
pub(crate) fn search<L: Ledger>(
    alloc: Global,
    blank: Blank,
    bench: &mut Bench<'_>,
    root: Demand,
    left: &mut u64,
) -> Sought
    requires blank { (blank.name ≡ L.name) × (blank.parts ≡ L.parts) × (0 < blank.parts) }
    requires root { IsDemand bench.old root.line root.place root.line root.place }
    requires forced { AreForced bench.old root.line root.place }
    ensures same { AreSeatsOf bench.old.network bench.old.input bench.old.watch bench.new }
    ensures forced { AreForced bench.new root.line root.place }
    ensures sought { HasEndedWith bench.new root.line root.place left.new result }
    ensures left { left.new ≤ left.old }
    ensures counted { left.new + events_total bench.new.done ≡ left.old + events_total bench.old.done }
{
    let mut steps = Steps::<L>::open(blank);
    let mut waiting = Vec::new(alloc);
    let mut chain = begun(bench, root, root);
    for _ in 0..u64::MAX {
        if *left == 0 {
            return Sought::Spent;
        }
        let turn = act(bench, root, chain.demand, &mut steps);
        *left = left_after(*left, turn);
        chain = match next_chain(bench, root, chain, turn, &mut waiting) {
            Ok(next) => next,
            Err(end) => return end,
        };
    }
    // No search takes so many turns.
    Sought::NoMemory
}
