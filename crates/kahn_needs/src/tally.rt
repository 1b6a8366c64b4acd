//! The plain queues of a network, which count what is taken from each channel.

ghost use Rattle.std.specs.Prelude.{◌≡◌, ◌<◌, IfOk, length, replicate, slice_index_or};
ghost use Rattle.kahn_code.specs.Lines.{AreFirst, actual_here, next_at, place_at, queue_of, spare_of, waiting_of};
ghost use Rattle.kahn_needs.specs.inner.Bench.{IsTally};

use kahn_code::{CodeFault, Plain, Ports};
use kahn_streams::{Input, Network, NoMemory, Token};
use std::alloc::Global;
use std::marker::Model;

/// The plain queues of a network, and how many values were taken from each channel.
#[derive(Drop)]
pub(crate) struct Tally<'n> {
    queues: Plain<'n, Global>,
    pub(crate) taken: Vec<u64>,
}

impl<'n> Model for Tally<'n> {
    ghost use Rattle.kahn_streams.specs.contracts.tree.Action as action;
    ghost use Rattle.kahn_streams.specs.contracts.tree.Form as form;
    ghost use Rattle.std.specs.Coded.{codes};
    ghost use Rattle.kahn_needs.specs.inner.Bench.{Tallied, IsTally};

    ghost Value = { Tallied };

    ghost coded = { Prim.hlevel (codes, action.the_row.coded, form.the_row.coded) };

    ghost view = { λ s. record { lines = s.queues; taken = s.taken.items } };

    ghost invariant = { λ s. IsTally s.queues s.taken.items };
}

impl<'n> Tally<'n> {
    /// The queues before anything was taken. Fails only if memory was refused.
    pub(crate) fn new(
        alloc: Global,
        network: &'n Network,
        input: &'n Input,
    ) -> Result<Tally<'n>, CodeFault>
        ensures names { IfOk result (λ s. (s.lines.network ≡ network.now) × (s.lines.input ≡ input.now)) }
        ensures first { IfOk result (λ s. AreFirst network.now input.now s.lines.queues) }
    {
        let queues = Plain::new(alloc, network, input, Some(input))?;
        queues.counted();
        let taken = zeros(alloc, network.channels())?;
        Ok(Tally { queues, taken })
    }

    /// Makes them the ports of this instance.
    pub(crate) fn at(&mut self, instance: usize)
        ensures lines { self.new.lines ≡ record self.old.lines { instance = instance } }
        ensures taken { self.new.taken ≡ self.old.taken }
    {
        self.queues.at(instance);
    }

    /// How many values were taken from a channel.
    pub(crate) fn taken_from(&self, channel: usize) -> u64
        requires { channel < length self.now.taken }
        ensures { result ≡ slice_index_or self.now.taken channel 0 }
    {
        self.taken[channel]
    }

    /// Says what is counted. For the prover only.
    pub(crate) fn counted(&self)
        ensures { IsTally self.now.lines self.now.taken }
    {
        let _taken = &self.taken;
    }
}

impl<'n> Ports for Tally<'n> {
    ghost site = { λ s. record { network = s.lines.network; input = s.lines.input; instance = s.lines.instance } };

    ghost next = { λ s q. next_at s.lines.queues (actual_here s.lines q) };

    ghost others = { λ s p q. place_at s.lines p q };

    ghost Identity = { Unit {0} };

    ghost which = { λ s. tt };

    ghost delivered = { λ s q. 0 };

    ghost is_ready = { λ s q. 0 < waiting_of (queue_of s.lines.queues (actual_here s.lines q)) };

    ghost is_dry = { λ s q. waiting_of (queue_of s.lines.queues (actual_here s.lines q)) ≡ 0 };

    ghost has_room = { λ s q. 0 < spare_of (queue_of s.lines.queues (actual_here s.lines q)) };

    fn ready(&mut self, parameter: usize, channel: usize) -> bool {
        let is_ready = self.queues.ready(parameter, channel);
        self.queues.counted();
        is_ready
    }

    fn take(&mut self, parameter: usize, channel: usize) -> Option<Token> {
        match self.queues.take(parameter, channel) {
            Some(token) => {
                self.queues.counted();
                self.taken[channel] += 1;
                Some(token)
            }
            None => {
                self.queues.counted();
                None
            }
        }
    }

    #[inline(always)]
    fn room(&mut self, parameter: usize, channel: usize) -> Result<(), NoMemory> {
        let made = self.queues.room(parameter, channel);
        self.queues.counted();
        made
    }

    #[inline(always)]
    fn put(&mut self, parameter: usize, channel: usize, token: Token) {
        self.queues.put(parameter, channel, token);
        self.queues.counted();
    }
}

/// So many zeros. Fails only if memory was refused.
pub(crate) fn zeros(alloc: Global, number: usize) -> Result<Vec<u64>, CodeFault>
    ensures { IfOk result (λ v. v.items ≡ replicate number 0) }
{
    let counts = vec![in alloc; 0; number]?;
    Ok(counts)
}
