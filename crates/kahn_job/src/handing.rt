//! Ends are given to parameters and taken back, a channel's ends go to the parameters that have it as argument, and both ends of a
//! channel move on together.

ghost use Rattle.std.specs.Prelude.{◌≡◌, ◌<◌, ◌≤◌, vec_capacity};
ghost use Rattle.kahn_code.specs.inner.Opening.{IsOpening};
ghost use Rattle.kahn_job.specs.{inner.Words.ℕ, inner.Words.Tapped, inner.Words.nothing_gone, inner.Words.[], inner.Words.length, inner.Words.map, inner.Words.replicate, inner.Words.slice_get, inner.Words.IfOk, inner.Words.IfSome, inner.Words.Some, inner.Words.Lists, inner.Words.network_of, inner.Words.instance_at, inner.Idles.cells_of, inner.Idles.rows_of, inner.Idles.AreEndsAt, inner.Idles.AreJobsAt, inner.Idles.HaveFewTokens, inner.Idles.HaveNoEnds, inner.Idles.AreSamePlaces, inner.Idles.placed, inner.Idles.tolds_of, inner.Berths.HasPlace, inner.Berths.end_of_side, inner.Ways.no_end, inner.Words.OnOk, inner.Words.props, inner.Berths.AreServed, inner.Berths.HaveFlushed, inner.Berths.Serves-prop, inner.Berths.end_at, inner.Ends.IsFlushed, inner.Idles.HaveMet, inner.Idles.HaveSettled, inner.Berths.AreBehindOn, inner.Settling.GoesOrStays, inner.Settling.AreResting, inner.Settling.AreSettled, inner.Settling.CanFeed, inner.Settling.CanSettle, inner.Settling.HasExchanged, inner.Settling.HaveExchanged, inner.Settling.HaveStood};

use crate::port::TaskPort;
use crate::task::Idle;
use kahn_code::{Cell, Code, Plain, Ports, Tap};
use kahn_lane::lane_at;
use kahn_streams::{Input, Network, NoMemory, Role, Side, Token};
use std::alloc::Global;

/// The ends of the channels of an instance while it runs, one for each parameter. What the instance reads it takes from a lane or
/// from the list of an input channel; what it writes goes into a lane. Nothing is put on an output channel.
#[derive(Drop)]
pub(crate) struct Ends<'a> {
    pub(crate) network: &'a Network,
    pub(crate) input: &'a Input,
    pub(crate) instance: usize,
    pub(crate) ports: &'a mut Vec<TaskPort>,
    ghost served: { AreServed network.now input.now instance ports.now.items } by { Prim.hlevel (props, Serves-prop) },
}

/// Replaces the end of a parameter, and returns the one it had.
#[tactic(auto, using(crate::proofs::Idles::cells_exchanged, crate::proofs::Idles::row_at, crate::proofs::Idles::rows_exchanged))]
pub(crate) fn exchange(idles: &mut Vec<Idle>, side: Side, port: TaskPort) -> TaskPort
    requires { HasPlace (rows_of idles.old.items) side }
    ensures port { result ≡ end_of_side (rows_of idles.old.items) side }
    ensures rows { rows_of idles.new.items ≡ placed (rows_of idles.old.items) (Some side) port }
    ensures cells { cells_of idles.new.items ≡ cells_of idles.old.items }
{
    idles[side.instance].replace(side.parameter, port)
}

#[tactic(auto, using(crate::proofs::Exchanged::else_at))]
pub(crate) fn exchange_two(
    idles: &mut Vec<Idle>,
    writer: Side,
    reader: Side,
    ports: (TaskPort, TaskPort),
) -> (TaskPort, TaskPort)
    requires places { HasPlace (rows_of idles.old.items) writer × HasPlace (rows_of idles.old.items) reader }
    requires apart { writer ≡ reader → ⊥ }
    ensures ends { (result.0 ≡ end_of_side (rows_of idles.old.items) writer) × (result.1 ≡ end_of_side (rows_of idles.old.items) reader) }
    ensures rows { rows_of idles.new.items ≡ placed (placed (rows_of idles.old.items) (Some writer) ports.0) (Some reader) ports.1 }
    ensures cells { cells_of idles.new.items ≡ cells_of idles.old.items }
{
    let sender = exchange(idles, writer, ports.0);
    let receiver = exchange(idles, reader, ports.1);
    (sender, receiver)
}

fn place(idles: &mut Vec<Idle>, side: Option<Side>, port: TaskPort)
    requires { IfSome side (HasPlace (rows_of idles.old.items)) }
    ensures rows { rows_of idles.new.items ≡ placed (rows_of idles.old.items) side port }
    ensures cells { cells_of idles.new.items ≡ cells_of idles.old.items }
{
    if let Some(side) = side {
        let _none = exchange(idles, side, port);
    }
}

// Makes the ends of a channel, the writer's and the reader's, which stand where its queue stands: those of a lane with copies of the
// tokens that wait there, if the channel is an inner one.
fn ends_at(
    alloc: Global,
    network: &Network,
    input: &Input,
    channel: usize,
    queues: &Plain<Global>,
) -> Result<(TaskPort, TaskPort), NoMemory>
    requires here { channel < length (network_of network.now).channels }
    requires queues { (queues.now.network ≡ network.now) × (queues.now.input ≡ input.now) }
    requires few { HaveFewTokens network.now queues.now.queues }
    ensures { IfOk result (λ r. AreEndsAt network.now input.now queues.now.queues channel r.0 r.1) }
{
    let taken = queues.taken(channel);
    match network.channel(channel).role {
        Role::Inner => {
            let Ok((mut sender, receiver)) = lane_at(alloc, network, input, channel, taken) else {
                return Err(NoMemory);
            };
            for number in 0..queues.waiting(channel) {
                sender.room()?;
                sender.put(queues.token(channel, number));
            }
            let _flushed = sender.flush()?;
            Ok((TaskPort::puts(sender), TaskPort::takes(receiver)))
        }
        Role::Input => Ok((
            TaskPort::nothing(),
            TaskPort::feeds(network, input, channel, taken),
        )),
        Role::Output => Ok((TaskPort::nothing(), TaskPort::nothing())),
    }
}

// Makes the job of an instance before its first event, for the input that the caller names. Its parameters have no ends yet.
fn bare_job(
    alloc: Global,
    network: &Network,
    _input: &Input,
    code: &Code,
    instance: usize,
    watch: Option<usize>,
) -> Result<Idle, NoMemory>
    ghost input: { Lists }
    requires code { code.now.network.value ≡ network.now }
    requires here { instance < length (network_of network.now).instances }
    ensures cell { IfOk result (λ w. IsOpening network.now input watch instance w.cell) }
    ensures ends { IfOk result (λ w. w.ends ≡ replicate (length (instance_at (network_of network.now) instance).actuals) no_end) }
{
    let Ok(cell) = Cell::new(alloc, code, instance, watch) else {
        return Err(NoMemory);
    };
    let parameters = cell.parameters();
    let mut ports = Vec::with_capacity(alloc, parameters)?;
    for _ in 0..parameters {
        ports.push_reserved(TaskPort::nothing());
    }
    Ok(Idle {
        cell,
        instance,
        ports,
        numbers: vec![in alloc; 0; parameters]?,
    })
}

// Makes the jobs of all instances before their first events, in order. Their parameters have no ends yet.
fn bare_jobs(
    alloc: Global,
    network: &Network,
    input: &Input,
    code: &Code,
    watch: Option<usize>,
) -> Result<Vec<Idle>, NoMemory>
    requires { code.now.network.value ≡ network.now }
    ensures { IfOk result (λ idles. HaveNoEnds network.now input.now watch idles.items) }
{
    let mut idles = Vec::new(alloc);
    for instance in 0..network.instances() {
        idles.push(bare_job(alloc, network, input, code, instance, watch)?)?;
    }
    Ok(idles)
}

/// Makes jobs of all instances, in order, whose ends are in the state of these queues. Their cells are still at their openings.
/// Each inner channel has a new lane with copies of the tokens that wait in its queue. Fails only if memory is refused.
pub fn jobs_at(
    alloc: Global,
    network: &Network,
    input: &Input,
    code: &Code,
    watch: Option<usize>,
    queues: &Plain<Global>,
) -> Result<Vec<Idle>, NoMemory>
    requires code { code.now.network.value ≡ network.now }
    requires queues { (queues.now.network ≡ network.now) × (queues.now.input ≡ input.now) }
    requires few { HaveFewTokens network.now queues.now.queues }
    ensures { IfOk result (λ idles. AreJobsAt network.now input.now queues.now.queues idles.items) }
{
    let _program = network.program();
    let mut idles = bare_jobs(alloc, network, input, code, watch)?;
    for channel in 0..network.channels() {
        let (writer, reader) = ends_at(alloc, network, input, channel, queues)?;
        place(&mut idles, network.writer(channel), writer);
        place(&mut idles, network.reader(channel), reader);
    }
    Ok(idles)
}

/// Gives each job the cell of its tap, which is of the same instance and has dropped nothing. Never allocates.
#[tactic(auto, using(crate::proofs::Seated::cells_more, crate::proofs::Seated::place, crate::proofs::Seated::rows_stay, crate::proofs::Seated::same_more))]
pub fn seat(idles: &mut Vec<Idle>, taps: Vec<Tap>)
    requires count { length taps.items ≡ length idles.old.items }
    requires places { AreSamePlaces (cells_of idles.old.items) (tolds_of taps.items) }
    requires whole { (p : ℕ) (x : Tapped) → slice_get taps.items p ≡ Some x → x.gone ≡ nothing_gone }
    ensures rows { rows_of idles.new.items ≡ rows_of idles.old.items }
    ensures cells { cells_of idles.new.items ≡ tolds_of taps.items }
{
    let mut instance = 0;
    for tap in taps {
        idles[instance].seat(tap.into_cell());
        instance += 1;
    }
}

/// Returns the taps of the jobs' cells, which have dropped nothing, in the list `taps`, which has room for all. Never allocates.
pub fn unseat(idles: Vec<Idle>, mut taps: Vec<Tap>) -> Vec<Tap>
    requires room { (taps.items ≡ []) × (length idles.items ≤ vec_capacity taps) }
    ensures tolds { tolds_of result.items ≡ cells_of idles.items }
    ensures whole { map (λ x. x.gone) result.items ≡ replicate (length idles.items) nothing_gone }
{
    for idle in idles {
        taps.push_reserved(Tap::of(idle.cell));
    }
    taps
}

impl<'a> Ports for Ends<'a> {
    ghost use Rattle.std.specs.Prelude.{ℕ, List};
    ghost use Rattle.kahn_job.specs.inner.Berths.{end_at, identities};
    ghost use Rattle.kahn_job.specs.inner.Ends.{Identity, IsReady, IsDry, HasRoom};

    ghost site = { λ s. record { network = s.network.now; input = s.input.now; instance = s.instance } };

    ghost next = { λ s q. (end_at s.ports.now.items q).next };

    ghost others = { λ s p q. 0 };

    // also from which borrow they are lent
    ghost Identity = { ℕ × List Identity };

    ghost which = { λ s. (s.ports.ghost_name, identities s.ports.now.items) };

    ghost delivered = { λ s q. (end_at s.ports.now.items q).flushed };

    ghost is_ready = { λ s q. IsReady (end_at s.ports.now.items q) };

    ghost is_dry = { λ s q. IsDry (end_at s.ports.now.items q) };

    ghost has_room = { λ s q. HasRoom (end_at s.ports.now.items q) };

    fn ready(&mut self, parameter: usize, _channel: usize) -> bool {
        let ports = &mut *self.ports;
        ports[parameter].ready(self.network, self.input)
    }

    fn take(&mut self, parameter: usize, _channel: usize) -> Option<Token> {
        let ports = &mut *self.ports;
        ports[parameter].take(self.network, self.input)
    }

    fn room(&mut self, parameter: usize, _channel: usize) -> Result<(), NoMemory> {
        let ports = &mut *self.ports;
        ports[parameter].room()
    }

    fn put(&mut self, parameter: usize, _channel: usize, token: Token) {
        let ports = &mut *self.ports;
        ports[parameter].put(token);
    }
}

pub(crate) fn flush_all(ports: &mut [TaskPort]) -> Result<(), NoMemory>
    ensures each { HaveFlushed ports.old ports.new }
    ensures all { OnOk result ((q : ℕ) → IsFlushed (end_at ports.new q)) }
{
    for parameter in 0..ports.len() {
        ports[parameter].flush()?;
    }
    Ok(())
}

#[tactic(auto, using(crate::proofs::Exchanged::exchanged))]
fn settle_lane(
    idles: &mut Vec<Idle>,
    writer: Side,
    reader: Side,
    input: &Input,
) -> Result<(), NoMemory>
    requires places { HasPlace (rows_of idles.old.items) writer × HasPlace (rows_of idles.old.items) reader }
    requires apart { writer ≡ reader → ⊥ }
    requires lane { CanSettle input.now (end_of_side (rows_of idles.old.items) writer) (end_of_side (rows_of idles.old.items) reader) }
    ensures ends { GoesOrStays result (HaveExchanged input.now writer reader) (rows_of idles.old.items) (rows_of idles.new.items) }
    ensures cells { cells_of idles.new.items ≡ cells_of idles.old.items }
{
    let none = (TaskPort::nothing(), TaskPort::nothing());
    let (sender, receiver) = exchange_two(idles, writer, reader, none);
    let (ports, settled) = sender.settle(receiver, input);
    let _none = exchange_two(idles, writer, reader, ports);
    settled
}

fn settle_feed(idles: &mut Vec<Idle>, reader: Side, input: &Input)
    requires place { HasPlace (rows_of idles.old.items) reader }
    requires feed { CanFeed input.now (end_of_side (rows_of idles.old.items) reader) }
    ensures ends { HasExchanged input.now reader (rows_of idles.old.items) (rows_of idles.new.items) }
    ensures cells { cells_of idles.new.items ≡ cells_of idles.old.items }
{
    let mut port = exchange(idles, reader, TaskPort::nothing());
    port.regrow(input);
    let _none = exchange(idles, reader, port);
}

// Moves the ends of a channel on to the input. If memory is refused, they stay as they are.
#[tactic(auto, using(crate::proofs::Settles::can_feed, crate::proofs::Settles::can_settle, crate::proofs::Settles::feed_settled, crate::proofs::Settles::lane_or, crate::proofs::Settles::output_settled))]
fn settle_channel(
    network: &Network,
    input: &Input,
    idles: &mut Vec<Idle>,
    channel: usize,
) -> Result<(), NoMemory>
    requires here { channel < length (network_of network.now).channels }
    requires resting { AreResting network.now input.now (rows_of idles.old.items) }
    ensures ends { GoesOrStays result (AreSettled network.now input.now channel) (rows_of idles.old.items) (rows_of idles.new.items) }
    ensures cells { cells_of idles.new.items ≡ cells_of idles.old.items }
{
    let _program = network.program();
    match network.reader(channel) {
        None => Ok(()),
        Some(reader) => match network.writer(channel) {
            Some(writer) => settle_lane(idles, writer, reader, input),
            None => {
                settle_feed(idles, reader, input);
                Ok(())
            }
        },
    }
}

/// Moves the ends of all channels to an input whose lists begin with their own input's lists. Each stays at its place, and all that
/// was put is flushed. If memory is refused, the ends that have moved look the same to every call.
#[tactic(auto, using(crate::proofs::Idles::all_settled, crate::proofs::Settles::going_first, crate::proofs::Settles::alike_stayed, crate::proofs::Settles::going_on, crate::proofs::Settles::rests_met, crate::proofs::Settles::stood_still, crate::proofs::Settles::stood_then))]
pub fn settle(network: &Network, input: &Input, idles: &mut Vec<Idle>) -> Result<(), NoMemory>
    requires { AreResting network.now input.now (rows_of idles.old.items) }
    ensures settled { OnOk result (HaveSettled network.now input.now (rows_of idles.new.items)) }
    ensures resting { AreResting network.now input.now (rows_of idles.new.items) }
    ensures stood { HaveStood (rows_of idles.old.items) (rows_of idles.new.items) }
    ensures cells { cells_of idles.new.items ≡ cells_of idles.old.items }
{
    let _program = network.program();
    for channel in 0..network.channels() {
        settle_channel(network, input, idles, channel)?;
    }
    Ok(())
}

fn meet_on(network: &Network, idles: &mut Vec<Idle>, channel: usize)
    requires here { channel < length (network_of network.now).channels }
    requires resting { (lists : Lists) × AreResting network.now lists (rows_of idles.old.items) }
    ensures met { HaveMet idles.old.items idles.new.items }
    ensures behind { AreBehindOn (network_of network.now) (rows_of idles.old.items) channel }
{
    let _program = network.program();
    if let Some(writer) = network.writer(channel) {
        if let Some(reader) = network.reader(channel) {
            let none = (TaskPort::nothing(), TaskPort::nothing());
            let (sender, receiver) = exchange_two(idles, writer, reader, none);
            let _none = exchange_two(idles, writer, reader, sender.meet(receiver));
        }
    }
}

/// Lets the two ends of each channel meet, which shows that no reader took more than was flushed. The jobs stay as they are,
/// but for what their ends know. Never allocates.
#[tactic(auto, using(crate::proofs::Idles::met_self, crate::proofs::Idles::met_then, crate::proofs::Settles::behind_before, crate::proofs::Settles::below_or, crate::proofs::Settles::rests_met))]
pub fn meet(network: &Network, mut idles: Vec<Idle>) -> Vec<Idle>
    requires { (lists : Lists) × AreResting network.now lists (rows_of idles.items) }
    ensures met { HaveMet idles.items result.items }
    ensures behind { (c : ℕ) → AreBehindOn (network_of network.now) (rows_of idles.items) c }
{
    let _program = network.program();
    for channel in 0..network.channels() {
        meet_on(network, &mut idles, channel);
    }
    idles
}
