//! The processes of a network over its plain queues, run by single events.

ghost use Rattle.std.specs.Prelude.{◌≡◌, ◌<◌, length, ◌+◌, ◌^◌, ℕ, IfOk, IfSome, MatchOption, slice_get, slice_index_or};
ghost use Rattle.kahn_streams.specs.Inputs.{Lists};
ghost use Rattle.kahn_streams.specs.Network.{Given, Reads, Written, actual_at, instance_at, network_of};
ghost use Rattle.kahn_streams.specs.Solution.{source};
ghost use Rattle.kahn_streams.specs.declared.value.Line.TheVariants.{Channel};
ghost use Rattle.kahn_needs.specs.Finding.{IsNetworkLine, events_total};
ghost use Rattle.kahn_needs.specs.inner.Bench.{AreSeatsOf, AreUnmoved, HasActed, HaveNotMoved, HaveSeats, events_seen, seats_of};
ghost use Rattle.kahn_needs.specs.inner.Finding.{HasCome, HasSentSoMany, HasValue, watch_of};

use crate::needs::value_at;
use crate::tally::{Tally, zeros};
use kahn_code::{Cell, Code, CodeFault, Pause, Steps, compile};
use kahn_streams::{Input, Line, Network, Value};
use std::alloc::Global;
use std::marker::Model;
use std::sync::ledger::Ledger;

/// The processes of a network over its plain queues. What each took and did is counted as it does it.
#[derive(Drop)]
pub(crate) struct Bench<'n> {
    network: &'n Network,
    input: &'n Input,
    watch: Option<usize>,
    code: Code,
    cells: Vec<Cell>,
    ports: Tally<'n>,
    // How many events each instance did.
    done: Vec<u64>,
}

impl<'n> Model for Bench<'n> {
    ghost use Rattle.kahn_streams.specs.contracts.tree.Action as action;
    ghost use Rattle.kahn_streams.specs.contracts.tree.Form as form;
    ghost use Rattle.std.specs.Coded.{codes};
    ghost use Rattle.kahn_needs.specs.inner.Bench.{Seats, HaveSeats, seats_of};

    ghost Value = { Seats };

    ghost coded = { Prim.hlevel (codes, action.the_row.coded, form.the_row.coded) };

    ghost view = { λ b. seats_of b.network.now b.input.now b.watch b.code.network.value b.cells.items b.ports b.done.items };

    ghost invariant = { λ b. HaveSeats (seats_of b.network.now b.input.now b.watch b.code.network.value b.cells.items b.ports b.done.items) };
}

fn named_cells(
    alloc: Global,
    network: &Network,
    code: &Code,
    _input: &Input,
    watch: Option<usize>,
) -> Result<Vec<Cell>, CodeFault>
    ghost input: { Lists }
    requires { code.now.network.value ≡ network.now }
    ensures { IfOk result (λ cells. AreUnmoved network.now input watch cells.items (length (network_of network.now).instances)) }
{
    let mut cells = Vec::new(alloc);
    for instance in 0..network.instances() {
        cells.push(Cell::new(alloc, code, instance, watch)?)?;
    }
    Ok(cells)
}

impl<'n> Bench<'n> {
    /// Returns all processes at their openings. They keep what is sent on the channel `watch`, on output channels and on print streams. Fails
    /// only if memory was refused.
    pub(crate) fn new(
        alloc: Global,
        network: &'n Network,
        input: &'n Input,
        watch: Option<usize>,
    ) -> Result<Bench<'n>, CodeFault>
        ensures names { IfOk result (AreSeatsOf network.now input.now watch) }
        ensures idle { IfOk result (λ b. HaveNotMoved b.cells) }
        ensures none { IfOk result (λ b. events_total b.done ≡ 0) }
    {
        let code = compile(alloc, network)?;
        Bench::opened(alloc, network, input, watch, code)
    }

    /// Returns the same processes at their openings again, which keep what is sent on another channel. They aren't compiled anew.
    pub(crate) fn reopened(
        self,
        alloc: Global,
        watch: Option<usize>,
    ) -> Result<Bench<'n>, CodeFault>
        ensures names { IfOk result (AreSeatsOf self.entry.network self.entry.input watch) }
        ensures idle { IfOk result (λ b. HaveNotMoved b.cells) }
        ensures none { IfOk result (λ b. events_total b.done ≡ 0) }
    {
        self.laid();
        Bench::opened(alloc, self.network, self.input, watch, self.code)
    }

    fn opened(
        alloc: Global,
        network: &'n Network,
        input: &'n Input,
        watch: Option<usize>,
        code: Code,
    ) -> Result<Bench<'n>, CodeFault>
        requires { code.network.value ≡ network.now }
        ensures names { IfOk result (AreSeatsOf network.now input.now watch) }
        ensures idle { IfOk result (λ b. HaveNotMoved b.cells) }
        ensures none { IfOk result (λ b. events_total b.done ≡ 0) }
    {
        let cells = named_cells(alloc, network, &code, input, watch)?;
        let ports = Tally::new(alloc, network, input)?;
        ports.counted();
        let done = zeros(alloc, network.instances())?;
        let _program = network.program();
        Ok(Bench::named(network, input, watch, code, cells, ports, done))
    }

    fn named(
        network: &'n Network,
        input: &'n Input,
        watch: Option<usize>,
        code: Code,
        cells: Vec<Cell>,
        ports: Tally<'n>,
        done: Vec<u64>,
    ) -> Bench<'n>
        requires { HaveSeats (seats_of network.now input.now watch code.network.value cells.items ports done.items) }
        ensures { result ≡ seats_of network.now input.now watch code.network.value cells.items ports.entry done.items }
    {
        Bench {
            network,
            input,
            watch,
            code,
            cells,
            ports,
            done,
        }
    }

    /// Runs a process for one event, if it has one.
    pub(crate) fn act<L: Ledger>(&mut self, instance: usize, steps: &mut Steps<L>) -> Pause
        requires here { instance < length (network_of self.old.network).instances }
        requires bound { events_seen (slice_get self.old.cells instance) + 1 < 2 ^ 48 }
        ensures { HasActed self.old self.new instance result }
    {
        self.ports.at(instance);
        let cell = &mut self.cells[instance];
        let pause = cell.run(&self.code, 1, &mut self.ports, steps);
        self.done[instance] = cell.events();
        self.ports.counted();
        pause
    }

    pub(crate) fn events(&self, instance: usize) -> u64
        requires { instance < length (network_of self.now.network).instances }
        ensures { result ≡ events_seen (slice_get self.now.cells instance) }
    {
        self.cells[instance].events()
    }

    /// Of each channel, how many values were taken.
    pub(crate) fn taken(&self) -> &Vec<u64>
        ensures { result.now.items ≡ self.now.taken }
    {
        &self.ports.taken
    }

    /// Of each instance, how many events were done.
    pub(crate) fn done(&self) -> &Vec<u64>
        ensures { result.now.items ≡ self.now.done }
    {
        &self.done
    }

    /// How many values were taken from a channel.
    pub(crate) fn taken_from(&self, channel: usize) -> u64
        requires { channel < length (network_of self.now.network).channels }
        ensures { result ≡ slice_index_or self.now.taken channel 0 }
    {
        self.ports.taken_from(channel)
    }

    pub(crate) fn channel(&self, instance: usize, parameter: usize) -> usize
        requires here { instance < length (network_of self.now.network).instances }
        requires reads { (c : ℕ) × (actual_at (instance_at (network_of self.now.network) instance) parameter ≡ Reads c) }
        ensures { actual_at (instance_at (network_of self.now.network) instance) parameter ≡ Reads result }
    {
        match self.code.channel(instance, parameter) {
            Some(channel) => channel,
            None => unreachable!(),
        }
    }

    /// Says how all stand: its contract is what it does.
    pub(crate) fn laid(&self)
        ensures { HaveSeats self.now }
    {
        let _watch = self.watch;
    }

    pub(crate) fn instances(&self) -> usize
        ensures { result ≡ length (network_of self.now.network).instances }
    {
        self.network.instances()
    }

    /// The instance that sends on a line; none on an input.
    pub(crate) fn writer(&self, line: Line) -> Option<usize>
        requires { IsNetworkLine (network_of self.now.network) line }
        ensures writer { MatchOption result (source (network_of self.now.network) line ≡ Given) (λ p. source (network_of self.now.network) line ≡ Written p) }
        ensures here { IfSome result (λ p. p < length (network_of self.now.network).instances) }
    {
        match line {
            Line::Channel(channel) => match self.network.writer(channel) {
                Some(side) => Some(side.instance),
                None => None,
            },
            Line::Print(instance) => Some(instance),
        }
    }

    pub(crate) fn sent(&self, line: Line) -> u64
        requires { IsNetworkLine (network_of self.now.network) line }
        ensures { HasSentSoMany self.now line result }
    {
        match line {
            Line::Channel(channel) => self.sent_on(channel),
            Line::Print(instance) => self.cells[instance].printed().len() as u64,
        }
    }

    fn sent_on(&self, channel: usize) -> u64
        requires { channel < length (network_of self.now.network).channels }
        ensures { HasSentSoMany self.now (Channel channel) result }
    {
        match self.network.writer(channel) {
            Some(side) => {
                let cell = &self.cells[side.instance];
                cell.sized();
                cell.sent(side.parameter)
            }
            None => 0,
        }
    }

    pub(crate) fn value(&self, line: Line, place: u64) -> Value
        requires line { IsNetworkLine (network_of self.now.network) line }
        requires watch { self.now.watch ≡ watch_of line }
        ensures { HasCome self.now line place → HasValue self.now line place result }
    {
        match line {
            Line::Channel(channel) => match self.network.writer(channel) {
                Some(side) => {
                    let cell = &self.cells[side.instance];
                    let _parameters = cell.parameters();
                    cell.sized();
                    value_at(cell.kept(side.parameter), place)
                }
                None => Value::Integer(0),
            },
            Line::Print(instance) => value_at(self.cells[instance].printed(), place),
        }
    }
}
