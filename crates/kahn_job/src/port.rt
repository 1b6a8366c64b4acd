//! The end of a channel that a parameter has.

ghost use Rattle.std.specs.Prelude.{◌≡◌, ◌⊎◌, ◌<◌, ◌+◌, ◌^◌};
ghost use Rattle.kahn_job.specs.inner.Words.{ℕ, true, length, Some, IfSome, IfNone, IsOk, IsSome, IsTrue, IsFalse, OnOk, OnErr, MatchResult, network_of, role_at, flushed, left, moved_to, token_name, LaneName, Input as InputRole};
ghost use Rattle.kahn_job.specs.{inner.Ends.Advances, inner.Ends.HasRoom, inner.Ends.IsBehind, inner.Ends.IsDry, inner.Ends.IsFlushed, inner.Ends.IsReady, inner.Ends.MayMeet, inner.Ends.ShareLane, inner.Berths.HasStayed, inner.Berths.IsWithinInput, inner.Berths.IsFor, inner.Settling.BothSettle, inner.Settling.CanFeed, inner.Settling.CanSettle, inner.Settling.HasSettled, inner.Ways.taking, inner.Ways.feeding, inner.Ways.putting, inner.Ways.no_end};

use crate::feed::Feed;
use kahn_lane::{Receiver, Sender, meet, settle};
use kahn_streams::{About, Input, Network, NoMemory, Token};
use std::marker::Model;

// What a parameter does. The reader's end of a lane remembers, for contracts alone, how many segments it knew to have left
// the lane when it was last asked for a token.
#[derive(Drop)]
pub(crate) enum Way {
    Takes(Receiver, About<u64>),
    Feeds(Feed),
    Puts(Sender),
    Nothing,
}

/// The end of a channel that a parameter has: it takes from an inner channel or from an input channel, or writes to an inner
/// channel. A parameter that has a value or an output channel has no end.
#[derive(Drop)]
pub(crate) struct TaskPort(Way);

impl Model for TaskPort {
    ghost use Rattle.kahn_streams.specs.contracts.tree.Action as action;
    ghost use Rattle.kahn_streams.specs.contracts.tree.Form as form;
    ghost use Rattle.std.specs.Coded.{codes};
    ghost use Rattle.kahn_job.specs.inner.Ends.{TaskEnd};

    ghost Value = { TaskEnd };

    ghost coded = { Prim.hlevel (codes, action.the_row.coded, form.the_row.coded) };

    ghost use Rattle.kahn_job.specs.inner.Ways.{end_of};

    ghost view = { λ p. end_of p.0 };
}

fn named_count(_receiver: &Receiver) -> About<u64>
    ghost number: { ℕ }
    ensures { result.value ≡ number }
{
    About::named()
}

// How many segments the reader's end knows to have left its lane.
fn left_of(receiver: &Receiver) -> About<u64>
    ensures { result.value ≡ left receiver.now }
{
    named_count(receiver)
}

impl TaskPort {
    pub(crate) fn takes(receiver: Receiver) -> TaskPort
        ensures { result ≡ taking receiver (left receiver) }
    {
        let asked = left_of(&receiver);
        TaskPort(Way::Takes(receiver, asked))
    }

    /// Makes the end of an input channel, whose list it reads from a place on.
    pub(crate) fn feeds(network: &Network, input: &Input, channel: usize, next: u64) -> TaskPort
        requires inside { channel < length (network_of network.now).channels }
        requires given { role_at (network_of network.now) channel ≡ InputRole }
        ensures { result ≡ feeding network.now input.now channel next }
    {
        TaskPort(Way::Feeds(Feed::of(network, input, channel, next)))
    }

    pub(crate) fn puts(sender: Sender) -> TaskPort
        ensures { result ≡ putting sender }
    {
        TaskPort(Way::Puts(sender))
    }

    pub(crate) fn nothing() -> TaskPort
        ensures { result ≡ no_end }
    {
        TaskPort(Way::Nothing)
    }

    /// Whether the next `take` returns a token. Never allocates.
    pub(crate) fn ready(&mut self, _network: &Network, input: &Input) -> bool
        requires reads { self.old.reads ≡ true }
        requires of { IsFor _network.now input.now self.old }
        ensures advances { Advances self.old self.new }
        ensures counts { (self.new.next ≡ self.old.next) × (self.new.known ≡ self.old.known) }
        ensures asked { self.new.asked ≡ self.old.left }
        ensures keeps { IsReady self.old → IsReady self.new }
        ensures rooms { HasRoom self.old → HasRoom self.new }
        ensures yes { IsTrue result → IsReady self.new }
        ensures dry { IsFalse result → IsDry self.new }
    {
        match &mut self.0 {
            Way::Takes(receiver, asked) => {
                *asked = left_of(receiver);
                receiver.ready()
            }
            Way::Feeds(feed) => feed.next < input.count(feed.channel) as u64,
            _ => false,
        }
    }

    /// Returns the token of the next place. Never allocates.
    pub(crate) fn take(&mut self, network: &Network, input: &Input) -> Option<Token>
        requires reads { self.old.reads ≡ true }
        requires of { IsFor network.now input.now self.old }
        requires bound { self.old.next < 2 ^ 48 }
        ensures advances { Advances self.old self.new }
        ensures known { self.new.known ≡ self.old.known }
        ensures token { IfSome result (λ t. (self.old.name ≡ Some (token_name t)) × (t.place ≡ self.old.next)) }
        ensures moved { IfSome result (λ _. self.new.next ≡ self.old.next + 1) }
        ensures asked { self.new.asked ≡ self.old.left }
        ensures none { IfNone result ((self.new.next ≡ self.old.next) × IsDry self.new) }
        ensures some { IsReady self.old → IsSome result }
        ensures rooms { HasRoom self.old → HasRoom self.new }
    {
        match &mut self.0 {
            Way::Takes(receiver, asked) => {
                *asked = left_of(receiver);
                receiver.take()
            }
            Way::Feeds(feed) => feed.take(network, input),
            _ => None,
        }
    }

    /// Makes room for one token. A full open segment is flushed first. Never allocates if there is room already.
    pub(crate) fn room(&mut self) -> Result<(), NoMemory>
        requires { self.old.writes ≡ true }
        ensures advances { Advances self.old self.new }
        ensures next { self.new.next ≡ self.old.next }
        // Nothing was flushed, or a full segment was.
        ensures flushed { (self.new.flushed ≡ self.old.flushed) ⊎ ((self.old.next ≡ self.old.flushed + 64) × (self.new.flushed ≡ self.old.next)) }
        ensures room { OnOk result (HasRoom self.new) }
        ensures full { OnErr result (HasRoom self.new → ⊥) }
        ensures spare { HasRoom self.old → IsOk result }
        ensures keeps { IsReady self.old → IsReady self.new }
        ensures rooms { HasRoom self.old → HasRoom self.new }
    {
        let Way::Puts(sender) = &mut self.0 else {
            unreachable!()
        };
        sender.room()
    }

    /// Puts the token of the next place. Never allocates.
    pub(crate) fn put(&mut self, token: Token)
        requires writes { self.old.writes ≡ true }
        requires bound { self.old.next < 2 ^ 48 }
        requires room { HasRoom self.old }
        requires token { (self.old.name ≡ Some (token_name token)) × (token.place ≡ self.old.next) }
        ensures advances { Advances self.old self.new }
        ensures moved { (self.new.next ≡ self.old.next + 1) × (self.new.flushed ≡ self.old.flushed) }
        ensures keeps { IsReady self.old → IsReady self.new }
    {
        let Way::Puts(sender) = &mut self.0 else {
            unreachable!()
        };
        sender.put(token);
    }

    /// Flushes what was put, so that the reader can take it. A refusal leaves the tokens in the open segment.
    pub(crate) fn flush(&mut self) -> Result<(), NoMemory>
        ensures advances { Advances self.old self.new }
        ensures counts { (self.new.next ≡ self.old.next) × (self.new.known ≡ self.old.known) }
        ensures flushed { MatchResult result (λ _. IsFlushed self.new) (λ _. self.new.flushed ≡ self.old.flushed) }
        ensures all { (self.new.flushed ≡ self.old.flushed) ⊎ (self.new.flushed ≡ self.new.next) }
        ensures room { HasRoom self.old → HasRoom self.new }
    {
        if let Way::Puts(sender) = &mut self.0 {
            sender.flush()?;
        }
        Ok(())
    }

    /// Moves the end of an input channel on to another input. Never allocates.
    #[tactic(auto, using(crate::proofs::Fed::regrown))]
    pub(crate) fn regrow(&mut self, input: &Input)
        requires { CanFeed input.now self.old }
        ensures { (n : LaneName) → self.old.name ≡ Some n → HasSettled (moved_to input.now n) self.old self.new }
    {
        let Way::Feeds(feed) = &mut self.0 else {
            unreachable!()
        };
        feed.regrow(input);
    }

    /// Moves the lane on to an input that has grown, with the reader's end. If memory is refused, both come back as they were.
    pub(crate) fn settle(
        self,
        reader: TaskPort,
        input: &Input,
    ) -> ((TaskPort, TaskPort), Result<(), NoMemory>)
        requires { CanSettle input.now self reader }
        ensures lane { OnOk result.1 (ShareLane result.0.0 result.0.1) }
        ensures settled { OnOk result.1 ((n : LaneName) → self.name ≡ Some n → BothSettle (moved_to input.now n) self reader result.0.0 result.0.1) }
        ensures refused { OnErr result.1 ((result.0.0 ≡ self) × (result.0.1 ≡ reader)) }
    {
        let (Way::Puts(sender), Way::Takes(receiver, asked)) = (self.0, reader.0) else {
            unreachable!()
        };
        match settle(sender, receiver, input) {
            Ok((sender, receiver)) => ((TaskPort::puts(sender), TaskPort::takes(receiver)), Ok(())),
            Err((fault, sender, receiver)) => {
                let reader = TaskPort(Way::Takes(receiver, asked));
                ((TaskPort::puts(sender), reader), Err(fault))
            }
        }
    }

    /// Lets the two ends of a lane meet in one thread, which shows that no more was taken than was flushed. Never allocates.
    pub(crate) fn meet(self, reader: TaskPort) -> (TaskPort, TaskPort)
        requires { MayMeet self reader }
        ensures stayed { HasStayed self result.0 × HasStayed reader result.1 }
        ensures behind { IsBehind self reader }
    {
        let (Way::Puts(mut sender), Way::Takes(mut receiver, asked)) = (self.0, reader.0) else {
            unreachable!()
        };
        let _waiting = meet(&mut sender, &mut receiver);
        let reader = TaskPort(Way::Takes(receiver, asked));
        (TaskPort::puts(sender), reader)
    }

    /// Says that no more of an input channel is ready than its list has. For the prover only.
    #[tactic(auto, using(crate::proofs::Fed::fed))]
    pub(crate) fn fed(&self)
        ensures { IsWithinInput self.now }
    {
        let _way = &self.0;
    }

    /// Returns how many tokens were flushed. Never allocates.
    pub(crate) fn flushed(&self) -> u64
        ensures { result ≡ self.now.flushed }
    {
        match &self.0 {
            Way::Puts(sender) => sender.flushed(),
            _ => 0,
        }
    }
}
