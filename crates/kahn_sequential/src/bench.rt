//! The processes of a network over its plain queues.

ghost use Rattle.kahn_sequential.specs.inner.Below.{AreCounts, AreQueued, IsWithin, Input as InputRole, IsPoured, Lists, Reads, actual_at, inputs_of, instance_at, network_of, role_at, stream_lines, CellView};
ghost use Rattle.kahn_sequential.specs.{inner.Bench.AreStreams, inner.Bench.HasRunCell, inner.Bench.all_events, inner.Bench.events_at, inner.Gathered.view_at, inner.Noted.AreSpent, inner.Noted.HasWoken, inner.Noted.IsOnlyReader, inner.Noted.IsReaderOf, inner.Noted.IsReadyBehind, inner.Noted.IsReadyBy, inner.Recording.StoodIn};
ghost use Rattle.kahn_sequential.specs.inner.Workbench.{AllStandBy, AreStreamsReady, AreWhole, HasEmptied, HasFresh, HasFreshPrints, HasTakenIn, HasWorked, IsCrowded, IsLaid, IsNextPlace, gone_in, seated_with, sight_of, table_of, told_in, vacant_of};
ghost use Rattle.std.specs.Prelude.{◌≡◌, ◌<◌, ◌+◌, ◌^◌, ℕ, [], Some, length, map, slice_get, vec_capacity, IfOk, IfErr, IfSome, MatchOption, SomeIff};

use crate::awake::{Awake, Looks, sent_on};
use crate::one::channel_read;
use crate::streams::fill;
use crate::taps::{Woken, all_kept, all_sized, all_stood, forget_turned, named_taps};
use kahn_code::{Code, CodeFault, Kept, Pause, Plain, Steps, Tap, compile, regrow_taps};
use kahn_streams::{Input, MOST_BOUND, Network, NoMemory, Outcome, Side, Stream, Tokens, Value};
use std::alloc::Global;
use std::marker::Model;
use std::sync::ledger::Ledger;

// The most values that wait on an input channel.
const MOST_WAITING: usize = 1_048_576;

/// The processes of a network over its plain queues. They drop what they keep when they are asked to.
#[derive(Drop)]
pub struct Sequential<'n> {
    network: &'n Network,
    watch: Option<usize>,
    code: Code,
    taps: Vec<Tap>,
    queues: Plain<'n, Global>,
    awake: Awake,
    looks: Looks,
}

/// A bench whose processes went to jobs. Its queues stay as they were.
#[derive(Drop)]
pub struct Vacant<'n> {
    network: &'n Network,
    watch: Option<usize>,
    code: Code,
    queues: Plain<'n, Global>,
    awake: Awake,
    looks: Looks,
}

impl<'n> Model for Sequential<'n> {
    ghost use Rattle.kahn_streams.specs.contracts.tree.Action as action;
    ghost use Rattle.kahn_streams.specs.contracts.tree.Form as form;
    ghost use Rattle.std.specs.Coded.{codes};
    ghost use Rattle.kahn_sequential.specs.inner.Workbench.{Table, IsLaid, table_of};

    ghost Value = { Table };

    ghost coded = { Prim.hlevel (codes, action.the_row.coded, form.the_row.coded) };

    ghost view = { λ b. table_of b.network.now b.queues.input b.watch b.code.network.value b.taps.items b.queues };

    ghost invariant = { λ b. IsLaid (table_of b.network.now b.queues.input b.watch b.code.network.value b.taps.items b.queues) };
}

impl<'n> Sequential<'n> {
    /// Returns all processes at their openings. The values of an input that is lent are read in place. Fails only if memory is
    /// refused.
    pub fn new(
        alloc: Global,
        network: &'n Network,
        input: &Input,
        lent: Option<&'n Input>,
        watch: Option<usize>,
    ) -> Result<Sequential<'n>, CodeFault>
        requires { IfSome lent (λ i. i.now ≡ input.now) }
        ensures names { IfOk result (λ b. (b.network ≡ network.now) × (b.input ≡ input.now) × (b.watch ≡ watch)) }
        ensures fresh { IfOk result (λ b. all_events (sight_of b) ≡ 0) }
        ensures whole { IfOk result (λ b. AreWhole (length (network_of network.now).instances) b.gone) }
    {
        let code = compile(alloc, network)?;
        let taps = named_taps(alloc, network, &code, input, watch)?;
        let queues = Plain::new(alloc, network, input, lent)?;
        let awake = Awake::new(alloc, network)?;
        let looks = Looks::new(alloc, network, &code)?;
        let _program = network.program();
        Ok(Sequential {
            network,
            watch,
            code,
            taps,
            queues,
            awake,
            looks,
        })
    }

    /// How many instances the network has, each with a tap.
    pub fn instance_count(&self) -> usize
        ensures count { result ≡ length (sight_of self.now).network.instances }
        ensures known { length (sight_of self.now).cells ≡ length (sight_of self.now).network.instances }
    {
        self.network.instances()
    }

    /// Runs a process for at most `quantum` events. `M` names the loop of instructions; `far` says whether turns of a source may come
    /// before it.
    #[inline(always)]
    pub fn run<L: Ledger, M>(
        &mut self,
        instance: usize,
        far: bool,
        quantum: u64,
        steps: &mut Steps<L>,
    ) -> Pause
        requires here { instance < length (sight_of self.old).network.instances }
        requires bound { events_at (sight_of self.old) instance + quantum < 2 ^ 48 }
        ensures { HasRunCell (sight_of self.old) (sight_of self.new) instance quantum result × HasWorked self.old self.new }
    {
        self.queues.at(instance);
        let pause = self.taps[instance].run::<Plain<'n, Global>, L, M>(
            &self.code,
            far,
            quantum,
            &mut self.queues,
            steps,
        );
        self.queues.counted();
        pause
    }

    pub(crate) fn may_feed(&self, instance: usize) -> bool
        requires { instance < length (sight_of self.now).network.instances }
    {
        self.taps[instance].may_feed(&self.code)
    }

    /// How many events an instance has done.
    pub fn events(&self, instance: usize) -> u64
        requires { instance < length (sight_of self.now).network.instances }
        ensures { result ≡ events_at (sight_of self.now) instance }
    {
        self.taps[instance].events()
    }

    /// The channel that a parameter reads.
    pub fn channel(&self, instance: usize, parameter: usize) -> usize
        requires { (c : ℕ) × (actual_at (instance_at (sight_of self.now).network instance) parameter ≡ Reads c) }
        ensures { actual_at (instance_at (sight_of self.now).network instance) parameter ≡ Reads result }
    {
        channel_read(&self.code, instance, parameter)
    }

    /// Whether a turn of `done` events is brief, and did something.
    #[inline(always)]
    pub(crate) fn is_brief(&self, done: u64) -> bool {
        done.wrapping_sub(1) < self.looks.most
    }

    /// Notes that `left` events are left at the beginning of a part.
    pub(crate) fn note_bound(&mut self, left: u64)
        ensures { self.new ≡ self.old }
    {
        self.looks.left = left;
    }

    /// Notes for `wide` a turn of `done` events that isn't brief, after which `left` events are left.
    pub(crate) fn note_turn(&mut self, instance: usize, done: u64, left: u64)
        ensures { self.new ≡ self.old }
    {
        if self.looks.note_turn(instance, done, left) {
            let sent = sent_on(self.network, &self.queues);
            self.looks.turn(sent);
        }
    }

    pub(crate) fn is_ahead(&self, instance: usize) -> bool {
        self.awake.is_ahead(instance, &self.queues)
    }

    pub(crate) fn wake_all(&mut self)
        ensures { self.new ≡ self.old }
    {
        self.awake.wake_all();
    }

    /// Notes for `next` the state of an instance after a turn of `done` events, and that what it sent has arrived.
    pub(crate) fn note_left(&mut self, instance: usize, outcome: Outcome, done: u64)
        ensures { self.new ≡ self.old }
    {
        self.awake.note_status(instance, outcome, &self.queues);
        self.awake.wake_readers(instance, done, &self.queues);
    }

    /// Returns an instance that can run, as far as is known.
    pub fn next(&mut self) -> Option<usize>
        ensures same { self.new ≡ self.old }
        ensures here { IfSome result (λ p. p < length (sight_of self.new).network.instances) }
    {
        match self.awake.next(&self.queues) {
            Some(instance) if instance < self.network.instances() => Some(instance),
            _ => None,
        }
    }

    /// How many instances have work, if there is work for several workers, as far as is known; else 0.
    pub fn wide(&self) -> usize {
        self.looks.wide
    }

    /// Continues for a longer input, in which these values come after the earlier ones of an input channel; they wait there.
    /// Fails only if memory is refused, and then all continues as before. The caller names the input only for contracts.
    pub fn pour(&mut self, channel: usize, values: &[Value]) -> Result<(), NoMemory>
        ghost input: { Lists }
        requires role { role_at (network_of self.old.network) channel ≡ InputRole }
        requires lists { IsPoured self.old.input channel values.now input }
        requires few { length (inputs_of input channel) < 2 ^ 64 }
        ensures poured { IfOk result (λ _. HasTakenIn channel (length values.now) input self.old self.new) }
        ensures refused { IfErr result (λ _. HasTakenIn channel 0 self.old.input self.old self.new) }
    {
        match self.queues.pour(channel, values) {
            Ok(()) => {
                regrow_taps(&mut self.taps, &self.queues);
                Ok(())
            }
            Err(fault) => Err(fault),
        }
    }

    /// Makes the processes drop all that they kept. As far as `turned` knows, only its instances keep anything. Never allocates.
    pub(crate) fn forget(&mut self, turned: &mut Woken)
        requires { AreSpent self.old turned.old }
        ensures { HasEmptied self.old self.new }
    {
        forget_turned(&mut self.taps, turned);
    }

    /// States where all processes are. For the prover only.
    pub fn stood(&self)
        ensures laid { IsLaid self.now }
        ensures counted { AreQueued self.now.queues }
        ensures each { AllStandBy self.now.network self.now.watch self.now.cells }
    {
        self.queues.counted();
        all_stood(self.network, &self.taps);
    }

    /// States its layout, and where one of its processes is. For the prover only.
    pub fn stood_at(&self, instance: usize)
        requires { instance < length (sight_of self.now).network.instances }
        ensures laid { IsLaid self.now }
        ensures stood { StoodIn (sight_of self.now) instance }
    {
        self.taps[instance].stood(self.network);
    }

    fn reader_of(&self, channel: usize) -> Option<usize>
        ensures { IsOnlyReader (sight_of self.now).network channel result }
    {
        if channel >= self.network.channels() {
            return None;
        }
        match self.network.reader(channel) {
            Some(side) => Some(side.instance),
            None => None,
        }
    }

    pub(crate) fn wake_at(&self, channel: usize, woken: &mut Woken)
        ensures { HasWoken (IsReaderOf (sight_of self.now).network channel) woken.old woken.new }
    {
        let Some(reader) = self.reader_of(channel) else {
            return;
        };
        woken.add(reader);
    }

    /// Wakes the reader of the channel of a parameter, but the instance itself, if something waits there.
    pub(crate) fn wake_behind(&self, instance: usize, parameter: usize, woken: &mut Woken)
        requires { instance < length (sight_of self.now).network.instances }
        ensures { HasWoken (IsReadyBy self.now instance parameter) woken.old woken.new }
    {
        let Some(channel) = self.code.channel(instance, parameter) else {
            return;
        };
        if self.queues.waiting(channel) == 0 {
            return;
        }
        let Some(reader) = self.reader_of(channel) else {
            return;
        };
        if reader == instance {
            return;
        }
        woken.add(reader);
    }

    /// Wakes the readers of what an instance wrote, where something waits, but the instance itself.
    pub(crate) fn wake_readers(&self, instance: usize, woken: &mut Woken)
        requires { instance < length (sight_of self.now).network.instances }
        ensures { HasWoken (IsReadyBehind self.now instance) woken.old woken.new }
    {
        let count = self.taps[instance].parameters();
        for parameter in 0..count {
            self.wake_behind(instance, parameter, woken);
        }
    }

    /// Its queues.
    pub fn queues(&self) -> &Plain<'n, Global>
        ensures { result.now ≡ self.now.queues }
    {
        &self.queues
    }

    /// How many tokens an instance sent on a parameter.
    pub fn sent_by(&self, side: Side) -> u64
        requires { IsWithin (sight_of self.now).network side }
        ensures { result ≡ (view_at (sight_of self.now).cells side.instance).sent side.parameter }
    {
        let tap = &self.taps[side.instance];
        let _count = tap.parameters();
        tap.sent(side.parameter)
    }

    /// Returns what an instance sent on a kept parameter since it last dropped tokens.
    pub fn fresh(&self, instance: usize, parameter: usize) -> &Tokens
        requires here { instance < length (network_of self.now.network).instances }
        requires parameter { parameter < length (instance_at (network_of self.now.network) instance).actuals }
        ensures { HasFresh self.now instance parameter result.now.items }
    {
        let tap = &self.taps[instance];
        let _count = tap.parameters();
        tap.fresh(parameter)
    }

    /// Returns what an instance printed since it last dropped tokens.
    pub fn fresh_prints(&self, instance: usize) -> &Tokens
        requires { instance < length (network_of self.now.network).instances }
        ensures { HasFreshPrints self.now instance result.now.items }
    {
        self.taps[instance].fresh_prints()
    }

    /// How many values the list of an input channel has; nothing if that is 2^64 or more.
    pub fn given(&self, channel: usize) -> Option<u64>
        requires { role_at (network_of self.now.network) channel ≡ InputRole }
        ensures { SomeIff result (length (inputs_of self.now.input channel) < 2 ^ 64) (length (inputs_of self.now.input channel)) }
    {
        self.queues.counted();
        let taken = self.queues.taken(channel);
        taken.checked_add(self.queues.waiting(channel) as u64)
    }

    /// Returns the place of the next value of an input channel, if `count` more may be poured: at most 1,048,576 may wait, and
    /// places are below 2^48.
    pub fn next_place(&self, channel: usize, count: usize) -> Option<u64>
        requires { role_at (network_of self.now.network) channel ≡ InputRole }
        ensures { MatchOption result (IsCrowded self.now channel count) (IsNextPlace self.now channel count) }
    {
        if count > MOST_WAITING || self.queues.waiting(channel) > MOST_WAITING - count {
            return None;
        }
        let place = self.given(channel)?;
        if place > MOST_BOUND || MOST_BOUND - place < count as u64 {
            return None;
        }
        Some(place)
    }

    /// Its network.
    pub fn network(&self) -> &'n Network
        ensures { result.now ≡ self.now.network }
    {
        self.network
    }

    /// Its code.
    pub fn code(&self) -> &Code
        ensures { result.now.network.value ≡ self.now.code }
    {
        &self.code
    }

    /// The channel that is watched, if any.
    pub fn watch(&self) -> Option<usize>
        ensures { result ≡ self.now.watch }
    {
        self.watch
    }

    /// Says that no process counted more tokens than events. For the prover only.
    pub fn sized(&self)
        ensures { (p : ℕ) (c : CellView) → slice_get self.now.cells p ≡ Some c → AreCounts c }
    {
        all_sized(&self.taps);
    }

    /// The bench without its processes, and their taps, in order. Never allocates.
    pub fn into_taps(self) -> (Vacant<'n>, Vec<Tap>)
        ensures vacant { result.0 ≡ vacant_of self.entry }
        ensures cells { map told_in result.1.items ≡ self.entry.cells }
        ensures gone { map gone_in result.1.items ≡ self.entry.gone }
    {
        let vacant = Vacant {
            network: self.network,
            watch: self.watch,
            code: self.code,
            queues: self.queues,
            awake: self.awake,
            looks: self.looks,
        };
        (vacant, self.taps)
    }

    /// Returns the streams of an answer: what the writers kept, if nothing was dropped. There is room for what each kept. Never
    /// allocates.
    pub fn into_streams(self, mut streams: Vec<Stream>, kept: Vec<Kept>) -> Vec<Stream>
        requires whole { AreWhole (length (network_of self.network).instances) self.gone }
        requires ready { AreStreamsReady self.network self.input self.watch streams.items kept.items (vec_capacity kept) }
        ensures { AreStreams (sight_of self.entry) result.items (stream_lines (sight_of self.entry).network (sight_of self.entry).watch) }
    {
        let mut kept = all_kept(self.taps, kept);
        fill(self.network, &mut streams, &mut kept);
        streams
    }
}

impl<'n> Model for Vacant<'n> {
    ghost use Rattle.kahn_streams.specs.contracts.tree.Action as action;
    ghost use Rattle.kahn_streams.specs.contracts.tree.Form as form;
    ghost use Rattle.std.specs.Coded.{codes};
    ghost use Rattle.std.specs.Prelude.{[]};
    ghost use Rattle.kahn_sequential.specs.inner.Workbench.{Table, table_of};

    ghost Value = { Table };

    ghost coded = { Prim.hlevel (codes, action.the_row.coded, form.the_row.coded) };

    ghost view = { λ b. table_of b.network.now b.queues.input b.watch b.code.network.value [] b.queues };
}

impl<'n> Vacant<'n> {
    /// Its code.
    pub fn code(&self) -> &Code
        ensures { result.now.network.value ≡ self.now.code }
    {
        &self.code
    }

    /// Returns the bench with these taps, which have dropped nothing. Never allocates.
    pub fn with_taps(self, taps: Vec<Tap>) -> Sequential<'n>
        requires laid { IsLaid (seated_with self (map told_in taps.items)) }
        requires whole { AreWhole (length taps.items) (map gone_in taps.items) }
        ensures { result ≡ seated_with self.entry (map told_in taps.items) }
    {
        Sequential {
            network: self.network,
            watch: self.watch,
            code: self.code,
            taps,
            queues: self.queues,
            awake: self.awake,
            looks: self.looks,
        }
    }
}
