//! Sessions: what a line of input makes of a run, and what is written after it.

ghost use Rattle.std.specs.Prelude.{◌≡◌, ◌↔◌, ◌&&◌, not, Some, false, map, IsTrue, MatchResult, is_err, option_copied};
ghost use Rattle.std.specs.List.{list_any, position};
ghost use Rattle.kahn_streams.specs.{Network.network_of, declared.answer.Verdict.Verdict as VerdictOf};
ghost use Rattle.kahn_chain.specs.Chain.{AreStandings, stands};
ghost use Rattle.kahn_sequential.specs.{Flows.Flowing, HeldRuns.IsRightSoFar};
ghost use Rattle.kahn_texts.specs.Formats.{IsReadLine, channel_name, content};
ghost use Rattle.kahn_session.specs.{Live.HasOpened, Live.IsClosed, Live.IsDeafNow, Live.IsFedBy, Live.IsFirstFault, Live.IsFirstInput, Live.IsMeantLine, Live.IsOtherInput, Live.HasVerdict, Live.IsRinged, Live.HasFedLine, Live.IsPartShown, Live.IsTakenLine, Live.IsText, Live.IsUnfedBy, Live.IsUnopened, Live.breaks, Live.first_faulted, Live.has_left, Live.is_finished, Live.is_input, Live.bears_name, Live.is_other_input, Live.stream_of, Live.waits_on_input, Live.wants_input, Pace.MayBeSlow};

use crate::pace::{Paced, begun, is_uneven, let_go, row_count, show};
use crate::refusal::TakeFault;
use kahn_chain::has_ring;
use kahn_streams::{
    Config, End, Failure, Gate, Input, Line, Network, Outcome, Role, RunFault, Value, Verdict,
    channel_meant,
};
use kahn_texts::{EntryFault, MOST_BYTES, WriteFault, channel_name, read_line, write_closing};
use std::alloc::Global;
use std::io::Write;
use std::marker::Model;
use std::str;

/// A run that is fed line by line. It drops what it has written of its streams.
#[derive(Drop)]
pub struct Session<'n> {
    alloc: Global,
    network: &'n Network,
    paced: Paced<'n>,
    input: Option<&'n str>,
    // Whether a write failed, after which nothing tells what went out.
    broken: bool,
    // The numbers of the streams whose values alone are shown; where there are none, all streams are.
    columns: Vec<usize>,
    // How many rows went out of what waits and of what wasn't let go of.
    shown: usize,
    ring: RingHint,
}

/// Whether processes may wait on one another in a cycle, and after how many events that is looked at again. No clause speaks of it.
#[derive(Drop)]
struct RingHint {
    seen: bool,
    from: u64,
    // Of each process the number from 1 of the first one whose waits led to it.
    walked: Vec<usize>,
}

impl<'n> Model for Session<'n> {
    ghost use Rattle.kahn_streams.specs.contracts.tree.Action as action;
    ghost use Rattle.kahn_streams.specs.contracts.tree.Form as form;
    ghost use Rattle.std.specs.Coded.{codes};
    ghost use Rattle.std.specs.Prelude.{option_copied};
    ghost use Rattle.kahn_session.specs.Live.{Live};
    ghost use Rattle.kahn_session.specs.inner.Kept.{AreKept};

    ghost Value = { Live };

    ghost coded = { Prim.hlevel (codes, action.the_row.coded, form.the_row.coded) };

    ghost view = { λ s. record { flow = s.paced.flow; step = s.paced.step; broken = s.broken; columns = s.columns.items; waits = s.paced.waits; shown = s.shown } };

    ghost invariant = { λ s. AreKept s.paced.flow.run s.network.now (option_copied s.input) };
}

fn entry_of_line(alloc: Global, line: &[u8]) -> Result<Option<(String, Vec<Value>)>, TakeFault>
    ensures { MatchResult result (λ read. IsText line.now × IsReadLine (content line.now) read) (λ f. (h : Flowing) → IsUnfedBy line.now h f) }
{
    if line.len() > MOST_BYTES {
        return Err(TakeFault::TooLong);
    }
    let Ok(_text) = str::from_utf8(line) else {
        return Err(TakeFault::NotUtf8);
    };
    match read_line(alloc, line) {
        Ok(entry) => Ok(entry),
        Err(EntryFault::NoHead) => Err(TakeFault::BadLine),
        Err(EntryFault::NoValues) => Err(TakeFault::BadValue),
        Err(EntryFault::NoMemory) => Err(TakeFault::NoMemory),
    }
}

fn feed_line(alloc: Global, paced: &mut Paced<'_>, line: &[u8]) -> Result<(), TakeFault>
    ensures fed { MatchResult result (λ _. IsFedBy line.now paced.old.flow paced.new.flow) (λ f. (paced.new ≡ paced.old) × IsUnfedBy line.now paced.old.flow f) }
    ensures rest { paced.new ≡ record paced.old { flow = paced.new.flow } }
{
    match entry_of_line(alloc, line) {
        Ok(None) => Ok(()),
        Ok(Some((name, values))) => match paced.feed(name.as_str(), &values) {
            Ok(()) => Ok(()),
            Err(fault) => Err(TakeFault::Feed(fault)),
        },
        Err(fault) => Err(fault),
    }
}

fn bears_name(network: &Network, name: &[u8], line: Line) -> bool
    ensures { result ≡ bears_name network.now name.now line }
{
    match line {
        Line::Channel(channel) => channel_name(network, channel).as_bytes() == name,
        Line::Print(_) => false,
    }
}

fn line_of(network: &Network, lines: &[Line], name: &[u8]) -> Option<usize>
    ensures { result ≡ position (bears_name network.now name.now) lines.now }
{
    lines
        .iter()
        .position(|line| bears_name(network, name, *line))
}

fn first_fault(ends: &[End]) -> Option<(usize, Failure)>
    ensures { result ≡ first_faulted 1 ends.now }
{
    let mut number = 0;
    let mut rest = ends;
    'ends: while let Some((end, behind)) = rest.split_first() {
        number += 1;
        if let Outcome::Faulted(kind) = end.outcome {
            return Some((number, kind));
        }
        rest = behind;
    }
    None
}

fn is_input(role: Role) -> bool
    ensures { result ≡ is_input role }
{
    matches!(role, Role::Input)
}

fn is_other_input(role: Role, channel: &str, but: Option<&str>) -> bool
    ensures { result ≡ is_other_input (option_copied but.entry) role channel.now }
{
    is_input(role) && but != Some(channel)
}

fn other_input<'t>(network: &'t Network, but: Option<&str>) -> Option<&'t str>
    ensures { IsOtherInput network.now (option_copied but.entry) (option_copied result) }
{
    for number in 0..network.channels() {
        let channel = network.channel(number);
        if is_other_input(channel.role, channel.name, but) {
            return Some(channel.name);
        }
    }
    None
}

fn wants_input(network: &Network, outcome: Outcome) -> bool
    ensures { result ≡ wants_input (network_of network.now) outcome }
{
    match outcome {
        Outcome::Waits(channel) => {
            channel < network.channels() && is_input(network.channel(channel).role)
        }
        Outcome::Ended | Outcome::Faulted(_) | Outcome::More => false,
    }
}

fn has_input_wait(network: &Network, ends: &[End]) -> bool
    ensures { result ≡ list_any (waits_on_input (network_of network.now)) ends.now }
{
    ends.iter().any(|end| wants_input(network, end.outcome))
}

fn is_over(network: &Network, verdict: Verdict, ends: &[End]) -> bool
    ensures { result ≡ (is_finished verdict && not (list_any (waits_on_input (network_of network.now)) ends.now)) }
{
    matches!(verdict, Verdict::Finished) && !has_input_wait(network, ends)
}

impl<'n> Session<'n> {
    /// Returns a session of a network before its first part, whose input channels have no values. The bound of the configuration is
    /// how many events each part may take.
    /// Fails with `BadConfig` if a number of the configuration is beyond its limit, with `UnknownWatch` if no channel has the name
    /// that is to be watched, and with `NoMemory` if memory is refused.
    pub fn start(
        alloc: Global,
        network: &'n Network,
        config: Config,
    ) -> Result<Session<'n>, RunFault>
        ensures { MatchResult result (HasOpened network.now config) (IsUnopened network.now config) }
    {
        let input = Input::none(alloc, network)?;
        let paced = Paced::start(alloc, network, input, config)?;
        Ok(Session {
            alloc,
            network,
            paced,
            input: other_input(network, None),
            broken: false,
            columns: Vec::new(alloc),
            shown: 0,
            ring: RingHint {
                seen: false,
                from: 0,
                walked: Vec::new(alloc),
            },
        })
    }

    /// Returns the number of the stream of the channel called `channel`, or nothing if it has none.
    pub fn stream_of(&self, channel: &[u8]) -> Option<usize>
        ensures { result ≡ stream_of self.now.flow.run channel.now }
    {
        line_of(self.network, self.paced.lines(), channel)
    }

    /// From now on writes only the values of the streams `columns` (numbers as in a report, from 0), without names: one a line for
    /// one stream; for several, rows with commas, each once all its values exist. An unknown number is a stream without values.
    /// Call it only before the first part.
    pub fn show_columns(&mut self, columns: Vec<usize>)
        ensures { self.new ≡ record self.old { columns = columns.items } }
    {
        self.columns = columns;
    }

    /// Whether the values of a line of input are meant for an input channel, or why `take` would refuse it now. That too many values
    /// would wait isn't asked. A blank line has no values.
    pub fn try_line(&self, line: &[u8]) -> Result<(), TakeFault>
        ensures { MatchResult result (λ _. IsMeantLine line.now self.now.flow.run.network) (IsUnfedBy line.now self.now.flow) }
    {
        match entry_of_line(self.alloc, line) {
            Ok(None) => Ok(()),
            Ok(Some((name, values))) => {
                match channel_meant(self.network, name.as_str(), &values) {
                    Ok(_) => Ok(()),
                    Err(fault) => Err(TakeFault::Feed(fault)),
                }
            }
            Err(fault) => Err(fault),
        }
    }

    /// Feeds the values of a line of input, which comes without its line feed. No process runs before the next part. A blank line feeds
    /// nothing. Fails with `TooLong`, `NotUtf8`, `BadLine`, `BadValue`, `Feed` and `NoMemory`, in this order: then nothing changed.
    pub fn feed(&mut self, line: &[u8]) -> Result<(), TakeFault>
        ensures { MatchResult result (λ _. HasFedLine line.now self.old self.new) (λ f. (self.new ≡ self.old) × IsUnfedBy line.now self.old.flow f) }
    {
        feed_line(self.alloc, &mut self.paced, line)
    }

    /// Runs a part, and writes what is new: a line for each stream that has grown, its heading as in a report and then its new
    /// values. After `show_columns` it writes only the values of its streams. The caller flushes.
    /// The part runs until no process can run, or until it took as many events as each part may, or memory is refused. If a write
    /// fails, a prefix of what is new has been written: the session is broken, and takes no more.
    pub fn run<G: Gate, W: Write>(
        &mut self,
        gate: &G,
        writer: &mut W,
    ) -> Result<Verdict, WriteFault>
        requires { self.old.broken ≡ false }
        ensures shown { IsPartShown self.old self.new (W.contents writer.old) (W.contents writer.new) result }
        ensures broken { self.new.broken ≡ is_err result }
    {
        let _program = self.network.program();
        let verdict = self.paced.part(gate);
        let ends = self.paced.ends();
        self.ring.ask(self.network, self.paced.events(), ends);
        begun(&self.paced, self.paced.lines());
        let count = row_count(&self.paced, &self.columns);
        let run = &self.paced;
        if let Err(fault) = show(writer, self.network, run, &self.columns, self.shown, count) {
            self.broken = true;
            return Err(fault);
        }
        let shown = let_go(self.alloc, &mut self.paced, &self.columns, count);
        self.shown = shown;
        Ok(verdict)
    }

    /// Feeds a line of input, as `feed` does, and runs a part, as `run` does. If the line is refused, nothing changed and nothing was
    /// written. Fails with `Write` if a write failed after the part.
    #[tactic(auto, using(crate::proofs::Taking::refused, crate::proofs::Taking::unbroken))]
    pub fn take<G: Gate, W: Write>(
        &mut self,
        line: &[u8],
        gate: &G,
        writer: &mut W,
    ) -> Result<Verdict, TakeFault>
        requires { self.old.broken ≡ false }
        ensures taken { IsTakenLine line.now self.old self.new (W.contents writer.old) (W.contents writer.new) result }
        ensures broken { MatchResult result (λ _. self.new.broken ≡ false) (λ f. self.new.broken ≡ breaks f) }
    {
        if let Err(fault) = self.feed(line) {
            return Err(fault);
        }
        match self.run(gate, writer) {
            Ok(verdict) => Ok(verdict),
            Err(fault) => Err(TakeFault::Write(fault)),
        }
    }

    /// Returns the verdict of the last part, if nothing changed since. With one, and if no write failed, the session is settled: it
    /// may be closed.
    pub fn verdict(&self) -> Option<Verdict>
        ensures { result ≡ self.now.flow.run.verdict }
    {
        self.paced.flow.verdict()
    }

    /// The number from 1 of the first process that has a fault of arithmetic, and which one. Only a settled session is asked.
    pub fn first_fault(&self) -> Option<(usize, Failure)>
        requires { HasVerdict self.now }
        ensures { IsFirstFault self.now.flow.run result }
    {
        first_fault(self.paced.ends())
    }

    /// Whether no line can change the run any more: the session is settled, the run has finished, and no process waits on an input channel.
    pub fn is_deaf(&self) -> bool
        ensures { IsDeafNow self.now result }
    {
        if self.broken {
            return false;
        }
        let Some(verdict) = self.verdict() else {
            return false;
        };
        is_over(self.network, verdict, self.paced.ends())
    }

    /// Returns how each process ended or what it waits for. Call it only if the session is settled.
    pub fn ends(&self) -> &[End]
        requires { HasVerdict self.now }
        ensures stood { AreStandings (network_of self.now.flow.run.network) (map stands result.now) }
        ensures right { (v : VerdictOf) → self.now.flow.run.verdict ≡ Some v → IsRightSoFar self.now.flow.run v result.now }
    {
        let _program = self.network.program();
        self.paced.ends()
    }

    /// Whether processes wait on one another in a cycle. Call it only if the session is settled. Never allocates.
    pub fn has_ring(&self) -> bool
        requires { HasVerdict self.now }
        ensures { IsRinged self.now.flow.run result }
    {
        has_ring(self.network, self.ends())
    }

    /// Whether it seems that processes wait on one another in a cycle since a part. It is a hint, and costs nothing.
    pub fn may_have_ring(&self) -> bool {
        self.ring.seen
    }

    /// Whether the next part may take long: each part may have more than a million events, or the last one had more than ten
    /// thousand.
    pub fn may_be_slow(&self) -> bool
        ensures { IsTrue result ↔ MayBeSlow self.now.step self.now.flow.run }
    {
        let (step, left) = (self.paced.step, self.paced.flow.budget());
        step > 1_000_000 || left < step.saturating_sub(10_000)
    }

    /// Returns the name of the first input channel, if there is one.
    pub fn first_input(&self) -> Option<&str>
        ensures { IsFirstInput self.now.flow.run.network (option_copied result) }
    {
        self.input
    }

    /// Returns the name of the first input channel that isn't called `name`, if there is one.
    pub fn other_input(&self, name: &str) -> Option<&str>
        ensures { IsOtherInput self.now.flow.run.network (Some name.now) (option_copied result) }
    {
        other_input(self.network, Some(name))
    }

    /// Whether values are left that wait for the others of their row.
    pub fn has_left(&self) -> bool
        ensures { result ≡ has_left self.now }
    {
        is_uneven(&self.paced, &self.columns, self.shown)
    }

    /// The network that is run.
    pub fn network(&self) -> &Network
        ensures { result.now ≡ self.now.flow.run.network }
    {
        self.network
    }

    /// Writes the last lines of a report, and flushes: how each process ended, and the verdict. Call it only if the session is
    /// settled. Never allocates. After a fault of the writer a prefix of the lines has been written.
    pub fn close<W: Write>(&self, writer: &mut W) -> Result<Verdict, WriteFault>
        requires { HasVerdict self.now }
        ensures { IsClosed self.now.flow.run (W.contents writer.old) (W.contents writer.new) result }
    {
        let Some(verdict) = self.verdict() else {
            unreachable!()
        };
        let ends = self.paced.ends();
        let events = self.paced.events();
        match write_closing(writer, self.network, verdict, ends, events) {
            Ok(()) => Ok(verdict),
            Err(fault) => Err(fault),
        }
    }
}

fn awaited(network: &Network, ends: &[End], instance: usize) -> Option<usize> {
    match ends.get(instance)?.outcome {
        Outcome::Waits(channel) if channel < network.channels() => {
            Some(network.writer(channel)?.instance)
        }
        _ => None,
    }
}

impl RingHint {
    /// Whether the waits from `first` run into a cycle that this call found, and not into processes that an earlier one visited.
    fn leads_back(&mut self, network: &Network, ends: &[End], first: usize) -> bool {
        let number = first.saturating_add(1);
        let mut at = first;
        for _ in 0..ends.len().saturating_add(1) {
            let Some(walk) = self.walked.get_mut(at) else {
                return false;
            };
            if *walk > 0 {
                return *walk == number;
            }
            *walk = number;
            let Some(next) = awaited(network, ends, at) else {
                return false;
            };
            at = next;
        }
        false
    }

    /// Looks for a cycle of waits after a part. With more than 8 processes, only once as many events were done as there are
    /// processes.
    fn ask(&mut self, network: &Network, events: u64, ends: &[End]) {
        if self.seen || (ends.len() > 8 && events < self.from) {
            return;
        }
        self.from = events.saturating_add(ends.len() as u64);
        self.walked.clear();
        if self.walked.resize(ends.len(), 0).is_err() {
            return;
        }
        for instance in 0..ends.len() {
            self.seen = self.seen || self.leads_back(network, ends, instance);
        }
    }
}
