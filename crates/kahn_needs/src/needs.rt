//! What a value needs.

ghost use Rattle.std.specs.Prelude.{◌≡◌, ◌≤◌, ◌+◌, IfOk, Some, slice_get};
ghost use Rattle.kahn_streams.specs.{Inputs.inputs_of, Network.Given, Network.network_of, Solution.source, Network.Schema, Solution.Inputs, declared.token.Token.Token};
ghost use Rattle.kahn_needs.specs.Example.{SecondDoubled};
ghost use Rattle.kahn_needs.specs.Finding.{AreNeedsFound, IsFoundBy, IsNetworkLine, IsSeeking, events_total};
ghost use Rattle.kahn_needs.specs.Laws.{AreDone, AreEnough, AreExact, AreInOrder, AreOneCut, AreParts, AreRunsNeeds, AreSameNeeds, AreTight, GoBack, HaveNeeds};
ghost use Rattle.kahn_needs.specs.inner.Finding.{AreForced, AreOfDone, HasCome, watch_of};

use crate::bench::Bench;
use crate::search::{Demand, Sought, search};
use kahn_code::CodeFault;
use kahn_streams::{Input, Line, Network, Tokens, Value};
use std::alloc::Global;
use std::marker::{Brand, Model};
use std::sync::ledger::Blank;

fn kept_of(line: Line) -> Option<usize>
    ensures { result ≡ watch_of line }
{
    match line {
        Line::Channel(channel) => Some(channel),
        Line::Print(_) => None,
    }
}

fn copied(alloc: Global, counts: &Vec<u64>) -> Result<Vec<u64>, CodeFault>
    ensures { IfOk result (λ v. v.items ≡ counts.now.items) }
{
    let mut list = Vec::with_capacity(alloc, counts.len())?;
    list.extend_from_slice(counts)?;
    Ok(list)
}

pub(crate) fn value_at(tokens: &Tokens, place: u64) -> Value
    ensures { (t : Token) → slice_get tokens.now.items place ≡ Some t → result ≡ t.value }
{
    match tokens.values().get(place as usize) {
        Some(value) => value,
        None => Value::Integer(0),
    }
}

fn told(alloc: Global, bench: &Bench<'_>, line: Line, place: u64) -> Result<Found, CodeFault>
    requires line { IsNetworkLine (network_of bench.now.network) line }
    requires watch { bench.now.watch ≡ watch_of line }
    requires come { HasCome bench.now line place }
    requires forced { AreForced bench.now line place }
    ensures found { IfOk result (AreNeedsFound (network_of bench.now.network) (inputs_of bench.now.input) line place) }
    ensures needs { IfOk result (AreOfDone bench.now.done) }
{
    bench.laid();
    let value = bench.value(line, place);
    let values = copied(alloc, bench.taken())?;
    let events = copied(alloc, bench.done())?;
    Ok(Found::Needs(Needs {
        value,
        values,
        events,
    }))
}

/// A search for what the values of a line need, from one place on to the next.
#[derive(Drop)]
pub struct Seeker<'n> {
    bench: Bench<'n>,
    line: Line,
    next: u64,
    left: u64,
}

impl<'n> Model for Seeker<'n> {
    ghost use Rattle.kahn_streams.specs.contracts.tree.Action as action;
    ghost use Rattle.kahn_streams.specs.contracts.tree.Form as form;
    ghost use Rattle.std.specs.Coded.{codes};
    ghost use Rattle.kahn_needs.specs.Finding.{Seeking};
    ghost use Rattle.kahn_needs.specs.inner.Finding.{IsSearchState, seeking_of};

    ghost Value = { Seeking };

    ghost coded = { Prim.hlevel (codes, action.the_row.coded, form.the_row.coded) };

    ghost view = { λ s. seeking_of s.bench s.line s.next s.left };

    ghost invariant = { λ s. IsSearchState s.bench s.line s.next };
}

impl<'n> Seeker<'n> {
    /// A search on a line that an instance sends on, which may do `bound` events. It refuses only if memory was refused.
    pub fn new(
        alloc: Global,
        network: &'n Network,
        input: &'n Input,
        line: Line,
        bound: u64,
    ) -> Result<Seeker<'n>, CodeFault>
        requires line { IsNetworkLine (network_of network.now) line }
        requires written { source (network_of network.now) line ≡ Given → ⊥ }
        ensures seeking { IfOk result (IsSeeking network.now input.now line 0) }
        ensures left { IfOk result (λ s. s.left ≡ bound) }
        ensures none { IfOk result (λ s. events_total s.done ≡ 0) }
    {
        let bench = Bench::new(alloc, network, input, kept_of(line))?;
        Ok(Seeker {
            bench,
            line,
            next: 0,
            left: bound,
        })
    }

    /// Begins anew on another line, for as many events as are left. Fails only if memory was refused.
    pub fn turned(self, alloc: Global, line: Line) -> Result<Seeker<'n>, CodeFault>
        requires line { IsNetworkLine (network_of self.network) line }
        requires written { source (network_of self.network) line ≡ Given → ⊥ }
        ensures seeking { IfOk result (IsSeeking self.entry.network self.entry.input line 0) }
        ensures left { IfOk result (λ s. s.left ≡ self.entry.left) }
        ensures none { IfOk result (λ s. events_total s.done ≡ 0) }
    {
        let left = self.left;
        let bench = self.bench.reopened(alloc, kept_of(line))?;
        Ok(Seeker {
            bench,
            line,
            next: 0,
            left,
        })
    }

    /// What the value at a place needs, counted from 0, or that there is none. No place is before the last call's. All calls together
    /// do at most the events that the search may do, and none that isn't needed. It refuses only if memory was refused.
    pub fn find(&mut self, alloc: Global, place: u64) -> Result<Found, CodeFault>
        requires { self.old.next ≤ place }
        ensures same { IsSeeking self.old.network self.old.input self.old.line place self.new }
        ensures left { self.new.left ≤ self.old.left }
        ensures counted { self.new.left + events_total self.new.done ≡ self.old.left + events_total self.old.done }
        ensures by { IfOk result (IsFoundBy self.new) }
        ensures found { IfOk result (AreNeedsFound (network_of self.old.network) (inputs_of self.old.input) self.old.line place) }
    {
        self.next = place;
        let line = self.line;
        let root = Demand { line, place };
        let blank = Blank::new(1);
        match search::<Brand>(alloc, blank, &mut self.bench, root, &mut self.left) {
            Sought::Come => told(alloc, &self.bench, line, place),
            Sought::Never => Ok(Found::Never),
            Sought::Ring => Ok(Found::Ring),
            Sought::Bound => Ok(Found::Bound),
            Sought::Spent => Ok(Found::Bound),
            Sought::NoMemory => Err(CodeFault::NoMemory),
        }
    }

    /// How many events the next calls may do.
    pub fn left(&self) -> u64
        ensures { result ≡ self.now.left }
    {
        self.left
    }
}

/// The needs of a value.
#[derive(Drop)]
pub struct Needs {
    /// The value itself.
    pub value: Value,
    /// Of each channel, how many values are taken for it: of an input so many are needed.
    pub values: Vec<u64>,
    /// Of each instance, how many events are needed.
    pub events: Vec<u64>,
}

/// What was found.
#[derive(Drop)]
pub enum Found {
    /// The value stands, and has these needs.
    Needs(Needs),
    /// No value ever stands there: waits lead from it to a value that an input hasn't, or whose writer has ended or has a fault.
    Never,
    /// No value ever stands there: waits lead from it to one that waits for itself.
    Ring,
    /// The bound was used up before, or an instance has done as many events as one may.
    Bound,
}

/// The laws of needs, each by its name. The function does nothing: its clauses are the laws.
#[tactic(auto, using(crate::proofs::Told::parts, crate::proofs::Told::have_needs, crate::proofs::Back::go_back, crate::proofs::Doubled::second_doubled))]
pub fn laws_of_needs()
    // A larger cut holds longer histories, and each of them begins the solution's.
    ensures parts { (N : Schema) (I : Inputs) → AreParts N I }
    // A value that stands has needs.
    ensures have_needs { (N : Schema) (I : Inputs) → HaveNeeds N I }
    // Its needs are one cut.
    ensures one_cut { (N : Schema) (I : Inputs) → AreOneCut N I }
    // With inputs that begin with the values told it stands.
    ensures enough { (N : Schema) → AreEnough N }
    // On shorter inputs it stands just where each has the number of values told.
    ensures exact { (N : Schema) → AreExact N }
    // Inputs that begin with the values told have the same needs.
    ensures same { (N : Schema) → AreSameNeeds N }
    // A run that has made the value has done its needs; and what a run had and did is enough for each value that it has made.
    ensures runs { (N : Schema) (I : Inputs) → AreRunsNeeds N I }
    // In a right answer with the value each instance has done the events told.
    ensures done { (N : Schema) (I : Inputs) → AreDone N I }
    // A cut that suffices, and doesn't with one event or value fewer, is the least.
    ensures tight { (N : Schema) (I : Inputs) → AreTight N I }
    // Needs are found by going back: a value of an input wants so many values, and one that an instance sends wants the events of its shortest
    // run to it, and what each value wants that this run takes.
    ensures go_back { (N : Schema) (I : Inputs) → GoBack N I }
    // A value needs all that those before it on its line need.
    ensures in_order { (N : Schema) (I : Inputs) → AreInOrder N I }
    // The needs of the second doubled value.
    ensures second_doubled { SecondDoubled }
{}
