//! Runs on one thread that are fed as they run, and drop what they kept.

ghost use Rattle.std.specs.Prelude.{◌≡◌, ◌∷◌, ℕ, ◌+◌, ◌++◌, ◌<◌, ◌≤◌, ◌^◌, [], Some, length, map, slice_get, sum_by, false, true, vec_capacity, IfOk, MatchResult, OnOk, IsTrue};
ghost use Rattle.kahn_sequential.specs.{inner.Below.Holds, inner.Below.Names, inner.Below.inputs_of, inner.Below.is_watched, inner.Below.network_of, inner.Below.role_at, inner.Below.stream_lines, inner.Below.token_value, HeldRuns.IsLineOf, HeldRuns.IsRightSoFar, HeldRuns.IsUnstarted, HeldRuns.seen_events, Flows.AreNew, Flows.HasFlowed, Flows.HasLetGo, Flows.HasPouredIn, Flows.IsNotRun, Flows.IsRunOn, Flows.IsStale, Flows.IsUnpoured, inner.Bench.all_events, inner.FlowBench.IsPartEnd, inner.Noted.AreAtRest, inner.Noted.AreNoted, inner.Noted.AreNotedBut, inner.Noted.AreSpent, inner.Workbench.HasAdvanced, inner.Workbench.HasWorked, inner.Workbench.MayRun, inner.Workbench.sight_of};
ghost use Rattle.kahn_sequential.specs.inner.Below.{Input as InputRole, Value as ValueOf, Verdict as VerdictOf};

use crate::bench::Sequential;
use crate::one::plan_of;
use crate::rounds::{Driver, PartEnd, Round};
use crate::streams::{given_first, lines_of};
use crate::taps::{NumberRange, Woken, least_of, numbers_of};
use kahn_code::Steps;
use kahn_streams::{
    Config, End, FeedFault, Gate, Input, Line, MOST_BOUND, Network, NoMemory, Outcome, Plan,
    RunFault, Token, Tokens, Value, Verdict, Word, channel_meant,
};
use std::alloc::Global;
use std::marker::{Brand, Model};
use std::mem;
use std::sync::ledger::{Blank, Ledger};
use thiserror::Error;

// Of more instances that had turns all are asked what they keep.
const MOST_TURNED: usize = 16;

/// A run on one thread that is fed between its parts, and that drops what it kept of its streams: a network, the sum of its bounds
/// so far, and where each process is.
/// Only contracts see what it dropped, and the input that was taken.
///
/// Whatever its calls return, what was sent on a stream stays as contracts see it, and no process has fewer events.
#[derive(Drop)]
pub struct Flow<'n> {
    alloc: Global,
    network: &'n Network,
    bench: Sequential<'n>,
    plan: Plan,
    budget: u64,
    ends: Vec<End>,
    // Which of the ends may have changed since.
    woken: Woken,
    // Which instances may keep something.
    turned: Woken,
    // Between which numbers the streams are that an instance writes.
    numbers: Vec<NumberRange>,
    verdict: Option<Verdict>,
    // Of a watched input channel, the tokens that weren't let go of.
    given: Tokens,
}

// How many turns, for each instance, those that were woken have at most before rounds of all.
const WOKEN_TURNS: usize = 4;

/// Why a part of a held run has no verdict. The first of these that holds is returned.
#[derive(Clone, Copy, Debug, PartialEq, Eq, Drop, Error)]
pub enum HeldFault {
    /// The sum of all bounds would pass 2^48 - 1.
    #[error("bound is out of range")]
    BadMore,
    /// Memory was refused before the first event.
    #[error("no memory")]
    NoMemory,
    /// A thread couldn't be started. Those that were are halted and gathered.
    #[error("no thread")]
    NoThread,
    /// The workers left, and the run neither finished nor reached its bound nor was refused memory.
    #[error("workers stalled")]
    Stalled,
}

impl<'n> Model for Flow<'n> {
    ghost use Rattle.kahn_streams.specs.contracts.tree.Action as action;
    ghost use Rattle.kahn_streams.specs.contracts.tree.Form as form;
    ghost use Rattle.std.specs.Coded.{codes};
    ghost use Rattle.std.specs.Prelude.{length, vec_capacity as room};
    ghost use Rattle.kahn_sequential.specs.Flows.{Flowing};
    ghost use Rattle.kahn_sequential.specs.inner.FlowBench.{IsFlowOf, flow_of};

    ghost Value = { Flowing };

    ghost coded = { Prim.hlevel (codes, action.the_row.coded, form.the_row.coded) };

    ghost view = { λ f. flow_of f.bench f.plan f.verdict (length f.given.items) };

    ghost invariant = { λ f. IsFlowOf f.network.now f.plan f.bench f.budget (room f.ends) f.ends.items f.woken f.turned f.numbers.items f.verdict f.given.items };
}

fn room_for_ends(alloc: Global, network: &Network) -> Result<Vec<End>, NoMemory>
    ensures { IfOk result (λ ends. length (network_of network.now).instances ≤ vec_capacity ends) }
{
    Ok(Vec::with_capacity(alloc, network.instances())?)
}

// The values of which tokens are lent: all of a watched channel, and none of another one.
fn lent_of(watch: Option<usize>, channel: usize, values: &[Value]) -> &[Value]
    ensures all { is_watched watch channel ≡ true → result.now ≡ values.now }
    ensures none { is_watched watch channel ≡ false → result.now ≡ [] }
    ensures few { length result.now ≤ length values.now }
{
    if watch == Some(channel) { values } else { &[] }
}

fn make_room(tokens: &mut Tokens, count: usize) -> Result<(), NoMemory>
    ensures items { tokens.new.items ≡ tokens.old.items }
    ensures room { OnOk result (count ≤ tokens.new.spare) }
{
    tokens.reserve(count)?;
    Ok(())
}

#[tactic(auto, using(crate::proofs::Added::added, crate::proofs::Added::room_after))]
fn add_one(tokens: &mut Tokens, token: Token)
    requires { 0 < tokens.old.spare }
    ensures items { tokens.new.items ≡ tokens.old.items ++ token ∷ [] }
    ensures room { tokens.old.spare ≤ tokens.new.spare + 1 }
{
    let _pushed = tokens.push(token);
}

// The token of a value that stands there, for the names of what is at hand.
fn token_for(_bench: &Sequential<'_>, channel: usize, place: u64, value: Word) -> Token
    ghost names: { Names }
    requires { Holds names.network names.input (Line.Channel channel) place value }
    ensures { result.value ≡ value }
{
    Token::of_word(Line::Channel(channel), place, value)
}

fn input_token(bench: &Sequential<'_>, channel: usize, place: u64, value: Value) -> Token
    requires role { role_at (network_of bench.now.network) channel ≡ InputRole }
    requires here { slice_get (inputs_of bench.now.input channel) place ≡ Some value }
    ensures { result.value ≡ value }
{
    token_for(bench, channel, place, Word::of(value))
}

// Adds the tokens of values that stand in the list of an input channel, from this place on. There is room for them.
fn lend(bench: &Sequential<'_>, tokens: &mut Tokens, channel: usize, place: u64, values: &[Value])
    requires role { role_at (network_of bench.now.network) channel ≡ InputRole }
    requires here { (k : ℕ) (v : ValueOf) → slice_get values.now k ≡ Some v → slice_get (inputs_of bench.now.input channel) (place + k) ≡ Some v }
    requires few { place + length values.now < 2 ^ 64 }
    requires room { length values.now ≤ tokens.old.spare }
    ensures { map token_value tokens.new.items ≡ map token_value tokens.old.items ++ values.now }
{
    for number in 0..values.len() {
        let token = input_token(bench, channel, place + number as u64, values[number]);
        add_one(tokens, token);
    }
}

impl<'n> Flow<'n> {
    /// Returns a run of a network with an input, before its first event. It keeps the allocator for its later calls.
    /// The bound of the configuration is the first one: `resume(0)` runs for that many events. It runs only on the caller's thread,
    /// for any number of workers in the configuration.
    ///
    /// Fails with `BadConfig` if a number of the configuration is beyond its limit, then with `UnknownWatch` if no channel has the
    /// name that is to be watched, and with `NoMemory` if memory is refused.
    pub fn start(
        alloc: Global,
        network: &'n Network,
        input: Input,
        config: Config,
    ) -> Result<Flow<'n>, RunFault>
        ensures { MatchResult result (HasFlowed network.now input config) (IsUnstarted network.now config) }
    {
        let plan = plan_of(network, &config)?;
        let ends = room_for_ends(alloc, network)?;
        let woken = Woken::new(alloc, network.instances())?;
        let turned = Woken::new(alloc, MOST_TURNED)?;
        let lines = lines_of(alloc, network, plan.watch)?;
        let numbers = numbers_of(alloc, network, &lines)?;
        let given = given_first(alloc, network, &input, plan.watch)?;
        let bench = Sequential::new(alloc, network, &input, None, plan.watch)?;
        Ok(Flow {
            alloc,
            network,
            bench,
            plan,
            budget: plan.bound,
            ends,
            woken,
            turned,
            numbers,
            verdict: None,
            given,
        })
    }

    /// Allows `more` events, and runs until the sum of all bounds is used up, or every process has ended or waits on a channel
    /// whose tokens it has all taken, or memory is refused. Before each quantum of an instance the gate is entered.
    ///
    /// Fails only with `BadMore`, if the sum of all bounds would pass 2^48 - 1, and then nothing changes.
    pub fn resume<G: Gate>(&mut self, more: u64, gate: &G) -> Result<Verdict, HeldFault>
        ensures { MatchResult result (IsRunOn more self.old self.new) (IsNotRun more self.old self.new) }
    {
        if MOST_BOUND - self.plan.bound < more {
            return Err(HeldFault::BadMore);
        }
        let ends = mem::replace(&mut self.ends, Vec::new(self.alloc));
        let bound = self.budget + more;
        let plan = Plan { bound, ..self.plan };
        self.bench.stood();
        let blank = Blank::new(1);
        let woken = &mut self.woken;
        let turned = &mut self.turned;
        let part = run_on::<G, Brand>(blank, &mut self.bench, gate, ends, woken, turned, plan);
        self.bench.stood();
        self.plan.bound += more;
        self.budget = part.left;
        self.ends = part.ends;
        self.verdict = Some(part.verdict);
        Ok(part.verdict)
    }

    /// Appends values to the list of an input channel. No process runs before the next part, and there isn't a verdict until then,
    /// even if there are no values.
    ///
    /// Fails, in this order:
    /// - with `UnknownName` if no channel has the name;
    /// - with `NotAnInput` if the channel isn't an input;
    /// - with `WrongKind` if a value isn't of its kind;
    /// - with `TooMany` if more than 1,048,576 values would wait there, or a place would be 2^48 or more;
    /// - with `NoMemory` if memory is refused.
    /// A refusal leaves all as it was.
    pub fn feed(&mut self, channel: &str, values: &[Value]) -> Result<(), FeedFault>
        ensures { MatchResult result (λ _. HasPouredIn (channel.now, values.now) self.old self.new) (IsUnpoured (channel.now, values.now) self.old self.new) }
    {
        let number = channel_meant(self.network, channel, values)?;
        self.bench.stood();
        let Some(place) = self.bench.next_place(number, values.len()) else {
            return Err(FeedFault::TooMany);
        };
        let lent = lent_of(self.plan.watch, number, values);
        make_room(&mut self.given, lent.len())?;
        let poured = self.bench.pour(number, values);
        self.bench.stood();
        poured?;
        lend(&self.bench, &mut self.given, number, place, lent);
        self.bench.wake_at(number, &mut self.woken);
        self.verdict = None;
        Ok(())
    }

    /// Lets go of all that it kept of its streams. Never allocates.
    pub fn forget(&mut self)
        ensures { HasLetGo self.old self.new }
    {
        self.bench.forget(&mut self.turned);
        self.given.clear();
    }

    /// Returns what is new on the stream of `line` since it last dropped tokens, in place order, for a line of `lines`. Never
    /// allocates.
    pub fn fresh(&self, line: Line) -> &Tokens
        requires { IsLineOf self.now.run line }
        ensures { AreNew self.now line result.now.items }
    {
        self.bench.stood();
        match line {
            Line::Channel(channel) => match self.network.writer(channel) {
                Some(side) => self.bench.fresh(side.instance, side.parameter),
                None => &self.given,
            },
            Line::Print(instance) => self.bench.fresh_prints(instance),
        }
    }

    /// Returns a stream number of at least `from`, such that no stream from `from` up to it has anything new. Never allocates.
    pub fn next_fresh(&self, from: usize) -> usize
        ensures from { from ≤ result }
        ensures stale { (j : ℕ) → from ≤ j → j < result → IsStale self.now j }
    {
        if !self.turned.known || !self.given.is_empty() {
            return from;
        }
        least_of(&self.numbers, &self.turned.instances, from)
    }

    /// How many events more the sum of all bounds so far allows.
    pub fn budget(&self) -> u64
        ensures { result + sum_by seen_events self.now.run.cells ≡ self.now.run.bound }
    {
        self.budget
    }

    /// The verdict of the last part, if nothing changed since. Never allocates.
    pub fn verdict(&self) -> Option<Verdict>
        ensures { result ≡ self.now.run.verdict }
    {
        self.verdict
    }

    /// The events of all parts so far. Never allocates.
    pub fn events(&self) -> u64
        ensures { result ≡ sum_by seen_events self.now.run.cells }
    {
        self.plan.bound - self.budget
    }

    /// The lines of its streams, in order. Fails only if memory was refused.
    pub fn lines(&self) -> Result<Vec<Line>, NoMemory>
        ensures { IfOk result (λ lines. lines.items ≡ stream_lines (network_of self.now.run.network) self.now.run.watch) }
    {
        lines_of(self.alloc, self.network, self.plan.watch)
    }

    /// Returns how each instance ended or what it waits for, for the input and the bound so far. Only if the run is settled. Never
    /// allocates.
    pub fn ends(&self) -> &[End]
        requires { (v : VerdictOf) × (self.now.run.verdict ≡ Some v) }
        ensures { (v : VerdictOf) → self.now.run.verdict ≡ Some v → IsRightSoFar self.now.run v result.now }
    {
        &self.ends
    }
}

impl<'g, L: Ledger, G: Gate> Driver<'g, L, G> {
    // The turn of an instance that was woken, which wakes the readers of what it wrote. Whether it is at rest then.
    fn settle_one(
        &mut self,
        bench: &mut Sequential<'_>,
        round: &mut Round,
        woken: &mut Woken,
        turned: &mut Woken,
        instance: usize,
    ) -> bool
        requires may { MayRun (sight_of bench.old) round.old }
        requires noted { AreNotedBut (λ p. p ≡ instance) (sight_of bench.old) woken.old round.old.ends.items }
        requires spent { AreSpent bench.old turned.old }
        ensures advanced { HasAdvanced bench.old bench.new round.old round.new }
        ensures noted { IsTrue result → AreNoted (sight_of bench.new) woken.new round.new.ends.items }
        ensures spent { AreSpent bench.new turned.new }
    {
        if instance >= bench.instance_count() {
            return false;
        }
        let end = self.visit(bench, round, instance, true);
        turned.add_once(instance);
        if matches!(end.outcome, Outcome::More) || instance >= round.ends.len() {
            return false;
        }
        bench.stood();
        round.ends[instance] = end;
        bench.wake_readers(instance, woken);
        true
    }

    // Turns of those that were woken, until all are at rest. Whether they are, and nothing more than that was to be done.
    fn settle(
        &mut self,
        bench: &mut Sequential<'_>,
        round: &mut Round,
        woken: &mut Woken,
        turned: &mut Woken,
    ) -> bool
        requires may { MayRun (sight_of bench.old) round.old }
        requires noted { AreNoted (sight_of bench.old) woken.old round.old.ends.items }
        requires spent { AreSpent bench.old turned.old }
        ensures advanced { HasAdvanced bench.old bench.new round.old round.new }
        ensures rest { IsTrue result → AreAtRest (sight_of bench.new) round.new }
        ensures spent { AreSpent bench.new turned.new }
    {
        for _ in 0..bench.instance_count().saturating_mul(WOKEN_TURNS) {
            let Some(instance) = woken.take() else {
                return woken.known && !round.memory;
            };
            if !self.settle_one(bench, round, woken, turned, instance) {
                return false;
            }
        }
        false
    }
}

/// Runs the processes of a bench on one thread for as many events as the plan's bound, each for at most its quantum at a time.
/// Before each quantum the gate is entered.
/// The list of ends has room for each instance. If it is known which instances were woken since their ends were noted, the other
/// ends stay. Steps are counted on a ledger of its own. Never allocates.
pub(crate) fn run_on<G: Gate, L: Ledger>(
    blank: Blank,
    bench: &mut Sequential<'_>,
    gate: &G,
    ends: Vec<End>,
    woken: &mut Woken,
    turned: &mut Woken,
    plan: Plan,
) -> PartEnd
    requires blank { (blank.name ≡ L.name) × (blank.parts ≡ L.parts) × (0 < blank.parts) }
    requires quantum { 0 < plan.quantum }
    requires bound { all_events (sight_of bench.old) + plan.bound < 2 ^ 48 }
    requires room { length (sight_of bench.old).network.instances ≤ vec_capacity ends }
    requires noted { AreNoted (sight_of bench.old) woken.old ends.items }
    requires spent { AreSpent bench.old turned.old }
    ensures concluded { IsPartEnd bench.new (all_events (sight_of bench.old) + plan.bound) result }
    ensures room { length (sight_of bench.new).network.instances ≤ vec_capacity result.ends }
    ensures worked { HasWorked bench.old bench.new }
    ensures noted { AreNoted (sight_of bench.new) woken.new result.ends.items }
    ensures spent { AreSpent bench.new turned.new }
{
    let mut driver = Driver {
        steps: Steps::<L>::open(blank),
        gate,
        may_leave: false,
    };
    let mut round = Round::new(bench, plan.quantum, plan.bound, ends);
    if driver.settle(bench, &mut round, woken, turned) {
        bench.stood();
        return PartEnd {
            verdict: Verdict::Finished,
            ends: round.ends,
            left: round.left,
        };
    }
    turned.clear(false);
    driver.may_leave = false;
    let Ok(part) = driver.to_end(bench, round, &mut None) else {
        unreachable!()
    };
    woken.clear(matches!(part.verdict, Verdict::Finished));
    part
}

impl From<NoMemory> for HeldFault {
    ghost use Rattle.std.specs.Prelude.{◌≡◌};
    ghost use Rattle.kahn_sequential.specs.declared.flow.HeldFault.TheVariants.{NoMemory as Wants};

    ghost from_gives = { λ _ e. e ≡ Wants };

    fn from(_error: NoMemory) -> HeldFault {
        HeldFault::NoMemory
    }
}
