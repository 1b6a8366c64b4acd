//! Every channel of a network in a plain queue, for a run on one thread.

ghost use Rattle.std.specs.Prelude.{◌≡◌, ◌<◌, ◌+◌, ◌^◌, IfOk, IfSome, MatchResult, length, slice_get, ◌≢◌, ℕ, IfNone, IsSome, IsTrue, IsFalse, OnOk, OnErr, IsOk};
ghost use Rattle.kahn_code.specs.{Common.Input as InputRole, Common.Channel, Common.IsOf, Common.network_of, Common.role_at, Common.IsWellWired, Common.Lists, Common.inputs_of, Common.Names, Common.action_row, Common.form_row, Common.codes, Lines.AreFirst, Lines.AreQueued, Lines.HasPoured, Lines.IsPoured, Lines.Lines, Lines.actual_here, Lines.next_at, Lines.place_at, Lines.queue_of, Lines.spare_of, Lines.taken_of, Lines.waiting_of, Common.Holds, Standing.Site, Standing.DoesRead, Standing.DoesWrite, Standing.IsNext, Standing.Stays, Standing.StaySo, Standing.Moved, Standing.LeavesOthers, Standing.Grows};

use crate::code::CodeFault;
use crate::queue::{Queue, first_queues, give_all, regrow_all};
use kahn_streams::{About, Input, Line, Network, NoMemory, Token, Value, Word};
use std::alloc::Allocator;
use std::marker::Model;

/// The plain queues of all channels. They are the ports of one instance at a time.
#[derive(Drop)]
pub struct Plain<'i, A: Allocator> {
    network: About<Network>,
    input: About<Input>,
    instance: usize,
    queues: Vec<Queue<'i, A>, A>,
}

impl<'i, A: Allocator> Model for Plain<'i, A> {
    ghost Value = { Lines };

    ghost coded = { Prim.hlevel (codes, action_row.coded, form_row.coded) };

    ghost view = { λ s. record { network = s.network.value; input = s.input.value; instance = s.instance; queues = s.queues.items } };

    ghost invariant = { λ s. AreQueued (record { network = s.network.value; input = s.input.value; instance = s.instance; queues = s.queues.items }) };
}

impl<'i, A: Allocator + Copy + Drop> Plain<'i, A> {
    /// The queues of a network before anything was taken or put: each input channel has its whole list, which is read where an input that
    /// is lent has it. Fails only if memory was refused.
    pub fn new(
        alloc: A,
        network: &Network,
        input: &Input,
        lent: Option<&'i Input>,
    ) -> Result<Plain<'i, A>, CodeFault>
        requires { IfSome lent (λ i. i.now ≡ input.now) }
        ensures names { IfOk result (λ p. (p.network ≡ network.now) × (p.input ≡ input.now)) }
        ensures first { IfOk result (λ p. AreFirst network.now input.now p.queues) }
    {
        let queues = first_queues(alloc, network, input, lent)?;
        let _program = network.program();
        Ok(Plain::named(queues, network, input))
    }

    #[tactic(auto, using(crate::proofs::Queued::queued))]
    fn named(queues: Vec<Queue<'i, A>, A>, _network: &Network, _input: &Input) -> Plain<'i, A>
        ghost names: { Names }
        requires queues { AreFirst names.network names.input queues.items }
        requires wired { IsWellWired names.network }
        ensures { (result.network ≡ names.network) × (result.input ≡ names.input) × (result.queues ≡ queues.entry.items) }
    {
        Plain {
            network: About::named(),
            input: About::named(),
            instance: 0,
            queues,
        }
    }
}

impl<'i, A: Allocator> Plain<'i, A> {
    /// Makes them the ports of this instance.
    pub fn at(&mut self, instance: usize)
        ensures { self.new ≡ record self.old { instance = instance } }
    {
        self.instance = instance;
    }

    /// Says that the queues are all there, and how much was put on the input channels. For the prover only.
    pub fn counted(&self)
        ensures { AreQueued self.now }
    {
        let _instance = self.instance;
    }

    /// How many tokens were taken from the queue of a channel; none if no channel has that number.
    pub fn taken(&self, channel: usize) -> u64
        ensures { result ≡ taken_of (slice_get self.now.queues channel) }
    {
        self.queues.get(channel).map_or(0, |queue| queue.taken())
    }

    /// The token that waits in the queue of a channel after so many others, which stays. Never allocates.
    pub fn token(&self, channel: usize, number: usize) -> Token
        requires { number < waiting_of (slice_get self.now.queues channel) }
        ensures names { IsOf self.now.network self.now.input result }
        ensures here { (result.line ≡ Channel channel) × (result.place ≡ taken_of (slice_get self.now.queues channel) + number) }
    {
        self.queues[channel].waits(number)
    }

    /// Goes on for a longer input, in which these values come after those of an input channel: there they wait after those that wait. Fails
    /// only if memory was refused, and then none of them waits. The caller names the input for contracts alone.
    pub fn pour(&mut self, channel: usize, values: &[Value]) -> Result<(), NoMemory>
        ghost input: { Lists }
        requires role { role_at (network_of self.old.network) channel ≡ InputRole }
        requires lists { IsPoured self.old.input channel values.now input }
        requires few { length (inputs_of input channel) < 2 ^ 64 }
        ensures { MatchResult result (λ _. HasPoured channel (length values.now) input self.old self.new) (λ _. HasPoured channel 0 self.old.input self.old self.new) }
    {
        if self.queues[channel].room_for(values.len()).is_err() {
            return Err(NoMemory);
        }
        regrow_all(&mut self.queues);
        give_all(&mut self.queues[channel], values);
        self.input = About::named();
        Ok(())
    }

    /// How many tokens wait in the queue of a channel; none if no channel has that number.
    pub fn waiting(&self, channel: usize) -> usize
        ensures { result ≡ waiting_of (slice_get self.now.queues channel) }
    {
        self.queues.get(channel).map_or(0, |queue| queue.len())
    }
}

impl<'i, A: Allocator> Ports for Plain<'i, A> {
    ghost site = { λ s. record { network = s.network; input = s.input; instance = s.instance } };

    ghost next = { λ s q. next_at s.queues (actual_here s q) };

    ghost others = { λ s p q. place_at s p q };

    ghost Identity = { Unit {0} };

    ghost which = { λ s. tt };

    ghost delivered = { λ s q. 0 };

    ghost is_ready = { λ s q. 0 < waiting_of (queue_of s.queues (actual_here s q)) };

    ghost is_dry = { λ s q. waiting_of (queue_of s.queues (actual_here s q)) ≡ 0 };

    ghost has_room = { λ s q. 0 < spare_of (queue_of s.queues (actual_here s q)) };

    fn ready(&mut self, _parameter: usize, channel: usize) -> bool {
        self.queues[channel].len() > 0
    }

    fn take(&mut self, _parameter: usize, channel: usize) -> Option<Token> {
        self.queues[channel].take()
    }

    #[inline(always)]
    fn room(&mut self, _parameter: usize, channel: usize) -> Result<(), NoMemory> {
        self.queues[channel].room()
    }

    #[inline(always)]
    fn put(&mut self, _parameter: usize, channel: usize, token: Token) {
        self.queues[channel].put(token);
    }
}

/// The ends of an instance's channels, by the number of the parameter, beside which its channel is told. What an instance
/// sends on an output channel isn't put here.
pub trait Ports {
    // the program, the input and the instance
    ghost site: { Self → Site };

    // the next place of each channel parameter
    ghost next: { Self → ℕ → ℕ };

    // the next place of each parameter of each instance, as far as these ports have them
    ghost others: { Self → ℕ → ℕ → ℕ };

    // which ends these are
    ghost Identity: { Type 0 };

    ghost which: { Self → Identity };

    // how many tokens that were put on each parameter were handed on to the reader
    ghost delivered: { Self → ℕ → ℕ };

    // the next take gives a token, until one is taken
    ghost is_ready: { Self → ℕ → Type 0 };

    // a take may give nothing
    ghost is_dry: { Self → ℕ → Type 0 };

    // there is room for one token
    ghost has_room: { Self → ℕ → Type 0 };

    /// Whether the next `take` gives a token. Never allocates.
    fn ready(&mut self, parameter: usize, channel: usize) -> bool
        requires { DoesRead (site self.old) parameter channel }
        ensures site { site self.new ≡ site self.old }
        ensures others { LeavesOthers (site self.old) (others self.old) (others self.new) }
        ensures which { which self.new ≡ which self.old }
        ensures delivered { Grows (delivered self.old) (delivered self.new) }
        ensures next { Stays (next self.old) (next self.new) }
        ensures keeps { StaySo (is_ready self.old) (is_ready self.new) }
        ensures rooms { StaySo (has_room self.old) (has_room self.new) }
        ensures yes { IsTrue result → is_ready self.new parameter }
        ensures dry { IsFalse result → is_dry self.new parameter };

    /// The token of the next place. Never allocates.
    fn take(&mut self, parameter: usize, channel: usize) -> Option<Token>
        requires reads { DoesRead (site self.old) parameter channel }
        requires bound { next self.old parameter < 2 ^ 48 }
        ensures site { site self.new ≡ site self.old }
        ensures others { LeavesOthers (site self.old) (others self.old) (others self.new) }
        ensures which { which self.new ≡ which self.old }
        ensures delivered { Grows (delivered self.old) (delivered self.new) }
        ensures token { IfSome result (λ t. IsNext (site self.old) channel (next self.old parameter) t) }
        ensures moved { IfSome result (λ _. Moved (next self.old) (next self.new) parameter) }
        ensures stays { IfNone result (Stays (next self.old) (next self.new)) }
        ensures dry { IfNone result (is_dry self.new parameter) }
        ensures some { is_ready self.old parameter → IsSome result }
        ensures keeps { (q d : ℕ) → q ≢ parameter → DoesRead (site self.old) q d → is_ready self.old q → is_ready self.new q }
        ensures rooms { StaySo (has_room self.old) (has_room self.new) };

    /// Makes room for one token. If there is room already, it never allocates, and so never fails.
    fn room(&mut self, parameter: usize, channel: usize) -> Result<(), NoMemory>
        requires { DoesWrite (site self.old) parameter channel }
        ensures site { site self.new ≡ site self.old }
        ensures others { LeavesOthers (site self.old) (others self.old) (others self.new) }
        ensures which { which self.new ≡ which self.old }
        ensures delivered { Grows (delivered self.old) (delivered self.new) }
        ensures next { Stays (next self.old) (next self.new) }
        ensures room { OnOk result (has_room self.new parameter) }
        ensures full { OnErr result (has_room self.new parameter → ⊥) }
        ensures spare { has_room self.old parameter → IsOk result }
        ensures keeps { StaySo (is_ready self.old) (is_ready self.new) }
        ensures rooms { StaySo (has_room self.old) (has_room self.new) };

    /// Puts the token of the next place. Never allocates.
    fn put(&mut self, parameter: usize, channel: usize, token: Token)
        requires writes { DoesWrite (site self.old) parameter channel }
        requires bound { next self.old parameter < 2 ^ 48 }
        requires room { has_room self.old parameter }
        requires token { IsNext (site self.old) channel (next self.old parameter) token }
        ensures site { site self.new ≡ site self.old }
        ensures others { LeavesOthers (site self.old) (others self.old) (others self.new) }
        ensures which { which self.new ≡ which self.old }
        ensures delivered { Grows (delivered self.old) (delivered self.new) }
        ensures moved { Moved (next self.old) (next self.new) parameter }
        ensures keeps { StaySo (is_ready self.old) (is_ready self.new) }
        ensures rooms { (q d : ℕ) → q ≢ parameter → DoesWrite (site self.old) q d → has_room self.old q → has_room self.new q };
}

fn token_for<P: Ports>(_ports: &P, line: Line, place: u64, value: Word) -> Token
    ghost names: { Names }
    requires { Holds names.network names.input line place value }
    ensures here { (result.line ≡ line) × (result.place ≡ place) × (result.value ≡ value) }
    ensures names { IsOf names.network names.input result }
{
    Token::of_word(line, place, value)
}

pub(crate) fn token_of<P: Ports>(ports: &P, line: Line, place: u64, value: Word) -> Token
    requires { Holds (P.site ports.now).network (P.site ports.now).input line place value }
    ensures here { (result.line ≡ line) × (result.place ≡ place) × (result.value ≡ value) }
    ensures names { IsOf (P.site ports.now).network (P.site ports.now).input result }
{
    token_for(ports, line, place, value)
}
