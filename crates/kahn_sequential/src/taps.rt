//! The taps of all processes of a network, the instances that were woken or had turns, and the numbers of the streams that each writes.

ghost use Rattle.kahn_sequential.specs.{inner.Below.AreCounts, inner.Below.HasForgotten, inner.Below.Lists, inner.Below.Tapped, inner.Below.network_of, inner.Noted.AreSpentBut, inner.Streams.HaveChanged, inner.Workbench.AreOpeningCells, inner.Workbench.AreWhole, inner.Workbench.HasSpent, inner.Workbench.IsSameTap, inner.Workbench.IsLeft, inner.Workbench.IsSpentTap, inner.Workbench.StandsAsTold, inner.Workbench.gone_in, inner.Workbench.told_in, inner.Noted.HasWoken, inner.Noted.IsTakenFrom, inner.Numbers.HoldNumbers, inner.Numbers.HasNumber, inner.Numbers.IsLeast, inner.Numbers.IsLineWriter, inner.Numbers.IsNumberOf, inner.Numbers.is_in, inner.Streams.IsDeclared};
ghost use Rattle.std.specs.Prelude.{◌≡◌, ◌<◌, ◌≤◌, ℕ, [], Some, length, map, slice_get, true, vec_capacity, IfOk, false, IfSome};

use kahn_code::{Code, CodeFault, Kept, Tap};
use kahn_streams::{Input, Line, Network, NoMemory};
use std::alloc::Global;

/// The instances that were woken since their ends were noted, or had turns since they last dropped tokens, if that is known.
#[derive(Drop)]
pub(crate) struct Woken {
    pub(crate) instances: Vec<usize>,
    pub(crate) known: bool,
}

/// The first and the last number of a stream that an instance writes.
#[derive(Clone, Copy, Drop)]
pub(crate) struct NumberRange {
    first: usize,
    last: usize,
}

pub(crate) fn named_taps(
    alloc: Global,
    network: &Network,
    code: &Code,
    _input: &Input,
    watch: Option<usize>,
) -> Result<Vec<Tap>, CodeFault>
    ghost input: { Lists }
    requires code { code.now.network.value ≡ network.now }
    ensures opening { IfOk result (λ taps. AreOpeningCells network.now input watch (map told_in taps.items) (length (network_of network.now).instances)) }
    ensures whole { IfOk result (λ taps. AreWhole (length (network_of network.now).instances) (map gone_in taps.items)) }
{
    let mut taps = Vec::new(alloc);
    for instance in 0..network.instances() {
        taps.push(Tap::new(alloc, code, instance, watch)?)?;
    }
    Ok(taps)
}

fn forget_all(taps: &mut Vec<Tap>)
    ensures { HaveChanged HasForgotten taps.old.items taps.new.items }
{
    for instance in 0..taps.len() {
        taps[instance].forget();
    }
}

fn forget_at(taps: &mut Vec<Tap>, instance: usize)
    ensures stays { HaveChanged IsSameTap taps.old.items taps.new.items }
    ensures here { (x : Tapped) → slice_get taps.new.items instance ≡ Some x → IsSpentTap x }
    ensures others { (p : ℕ) → (p ≡ instance → ⊥) → slice_get taps.new.items p ≡ slice_get taps.old.items p }
{
    if instance >= taps.len() {
        return;
    }
    taps[instance].forget();
}

/// Makes all taps drop what they keep. As far as `turned` knows, only its instances keep anything.
pub(crate) fn forget_turned(taps: &mut Vec<Tap>, turned: &mut Woken)
    requires { turned.old.known ≡ true → AreSpentBut turned.old taps.old.items }
    ensures { HaveChanged HasSpent taps.old.items taps.new.items }
{
    if !turned.known {
        forget_all(taps);
        turned.clear(true);
        return;
    }
    'turned: while let Some(instance) = turned.take() {
        forget_at(taps, instance);
    }
}

/// States that each process is where its tap says. For the prover only.
pub(crate) fn all_stood(network: &Network, taps: &[Tap])
    requires { (p : ℕ) (x : Tapped) → slice_get taps.now p ≡ Some x → x.told.network ≡ network.now }
    ensures { (p : ℕ) (x : Tapped) → slice_get taps.now p ≡ Some x → StandsAsTold network.now x }
{
    for instance in 0..taps.len() {
        taps[instance].stood(network);
    }
}

/// Says that no tap counted more tokens than events. For the prover only.
pub(crate) fn all_sized(taps: &[Tap])
    ensures { (p : ℕ) (x : Tapped) → slice_get taps.now p ≡ Some x → AreCounts x.told }
{
    for instance in 0..taps.len() {
        taps[instance].sized();
    }
}

/// What is there of what each tap kept. The list that is given has room for all.
pub(crate) fn all_kept(taps: Vec<Tap>, mut kept: Vec<Kept>) -> Vec<Kept>
    requires empty { kept.items ≡ [] }
    requires room { length taps.items ≤ vec_capacity kept }
    ensures { HaveChanged IsLeft taps.items result.items }
{
    for tap in taps {
        kept.push_reserved(tap.into_lists());
    }
    kept
}

impl Woken {
    pub(crate) fn new(alloc: Global, room: usize) -> Result<Woken, NoMemory>
        ensures { IfOk result (λ w. w.known ≡ false) }
    {
        Ok(Woken {
            instances: Vec::with_capacity(alloc, room)?,
            known: false,
        })
    }

    /// This instance is woken as well. Without room for it nothing is known any more.
    pub(crate) fn add(&mut self, instance: usize)
        ensures { HasWoken (λ p. p ≡ instance) self.old self.new }
    {
        if self.instances.len() == self.instances.capacity() {
            self.instances.clear();
            self.known = false;
            return;
        }
        self.instances.push_reserved(instance);
    }

    /// This instance is woken as well, if it isn't there already.
    pub(crate) fn add_once(&mut self, instance: usize)
        ensures { HasWoken (λ p. p ≡ instance) self.old self.new }
    {
        if self.instances.contains(&instance) {
            return;
        }
        self.add(instance);
    }

    pub(crate) fn take(&mut self) -> Option<usize>
        ensures taken { IsTakenFrom self.old result self.new }
        ensures fewer { IfSome result (λ _. length self.new.instances.items < length self.old.instances.items) }
    {
        match self.instances.pop() {
            Some(instance) => Some(instance),
            None => None,
        }
    }

    pub(crate) fn clear(&mut self, known: bool)
        ensures { self.new.known ≡ known }
    {
        self.instances.clear();
        self.known = known;
    }
}

fn writer_of(network: &Network, line: Line) -> Option<usize>
    requires { IsDeclared (network_of network.now) line }
    ensures { IsLineWriter (network_of network.now) line result }
{
    match line {
        Line::Channel(channel) => Some(network.writer(channel)?.instance),
        Line::Print(instance) => Some(instance),
    }
}

fn add_number(network: &Network, spans: &mut Vec<NumberRange>, line: Line, number: usize)
    requires declared { IsDeclared (network_of network.now) line }
    requires count { length spans.old.items ≡ length (network_of network.now).instances }
    ensures count { length spans.new.items ≡ length spans.old.items }
    ensures numbered { HasNumber (network_of network.now) line number spans.old.items spans.new.items }
{
    let Some(instance) = writer_of(network, line) else {
        return;
    };
    let span = spans[instance];
    spans[instance] = NumberRange {
        first: span.first.min(number),
        last: span.last.max(number),
    };
}

/// Returns, for each instance, the numbers among these lines of the streams that it writes. Fails only if memory is refused.
pub(crate) fn numbers_of(
    alloc: Global,
    network: &Network,
    lines: &[Line],
) -> Result<Vec<NumberRange>, NoMemory>
    requires { (j : ℕ) (c : Line) → slice_get lines.now j ≡ Some c → IsDeclared (network_of network.now) c }
    ensures { IfOk result (λ spans. HoldNumbers (network_of network.now) lines.now spans.items) }
{
    let none = NumberRange {
        first: usize::MAX,
        last: 0,
    };
    let mut spans = vec![in alloc; none; network.instances()]?;
    for number in 0..lines.len() {
        add_number(network, &mut spans, lines[number], number);
    }
    Ok(spans)
}

fn least_in(spans: &[NumberRange], instance: usize, most: usize, from: usize) -> usize
    ensures { IsLeast (IsNumberOf spans.now instance) from most result }
{
    match spans.get(instance) {
        Some(span) if from <= span.last => span.first.max(from).min(most),
        _ => most,
    }
}

/// Returns the least number of these instances that isn't less than another one's.
pub(crate) fn least_of(spans: &[NumberRange], instances: &[usize], from: usize) -> usize
    ensures from { from ≤ result }
    ensures least { (p j : ℕ) → is_in instances.now p → IsNumberOf spans.now p j → from ≤ j → result ≤ j }
{
    let mut least = usize::MAX;
    for instance in instances {
        least = least_in(spans, *instance, least, from);
    }
    least
}
