//! How each instance stands, which ones wait on one another in rings, and why one that hasn't ended goes no further.

ghost use Rattle.std.specs.Prelude.{◌≡◌, ◌<◌, ◌++◌, IfOk, length, map, slice_get, slice_index_or};
ghost use Rattle.kahn_streams.specs.Network.{network_of};
ghost use Rattle.kahn_chain.specs.{Chain.AreStandings, Chain.IsCause, Chain.IsRingMark, Chain.stands, Reasons.AreReasons, Reasons.lasts, inner.Reasoned.reasons_at, Chain.AreRings, Chain.HasRing, Chain.standing_of};

use crate::walk::walk;
use kahn_streams::{End, Network, Outcome, Verdict};
use std::alloc::{AllocError, Global};

/// Why an instance goes no further.
#[derive(Clone, Copy)]
pub struct Reason {
    /// Its number, from 0.
    pub instance: usize,
    /// How it stands, and after how many events.
    pub end: End,
    /// Where its waits lead.
    pub cause: Cause,
    /// Whether they lead back to it.
    pub is_on_ring: bool,
    /// Whether it stands so for ever.
    pub lasts: bool,
}

/// Where the waits of an instance lead.
#[derive(Clone, Copy)]
pub(crate) struct Caused {
    /// To one that waits on an input, to one that doesn't wait, or into a ring, whose least number this is.
    pub cause: Cause,
    /// Whether they lead back to it.
    pub is_on_ring: bool,
}

/// The state of an instance.
#[derive(Clone, Copy)]
pub enum Standing {
    /// It has ended.
    Ended,
    /// It waits on the channel with that number.
    Waits(usize),
    /// A fault of arithmetic stopped it.
    Faulted,
    /// It needs more events.
    More,
}

/// Why an instance goes no further.
#[derive(Clone, Copy)]
pub enum Cause {
    /// This instance waits on this channel, whose values come from outside.
    Input(usize, usize),
    /// This instance doesn't wait.
    Stopped(usize, Standing),
    /// This instance is on a ring of instances that wait on one another.
    Ring(usize),
}

/// Whether an instance with this cause stands so for ever, after a run that ended so. Want of memory can leave values where
/// a reader doesn't come to them.
fn lasts(verdict: Verdict, cause: Cause) -> bool
    ensures { result ≡ lasts verdict cause }
{
    match (verdict, cause) {
        (Verdict::Memory, _) | (_, Cause::Input(_, _)) => false,
        (_, Cause::Ring(_)) => true,
        (_, Cause::Stopped(_, standing)) => matches!(standing, Standing::Ended | Standing::Faulted),
    }
}

/// Adds why an instance goes no further that ended so, if it hasn't ended.
fn add_reason(
    reasons: &mut Vec<Reason>,
    verdict: Verdict,
    instance: usize,
    end: End,
    found: Caused,
) -> Result<(), AllocError>
    ensures { IfOk result (λ _. reasons.new.items ≡ reasons.old.items ++ reasons_at verdict instance end found.cause found.is_on_ring) }
{
    if let Outcome::Ended = end.outcome {
        return Ok(());
    }
    reasons.push(Reason {
        instance,
        end,
        cause: found.cause,
        is_on_ring: found.is_on_ring,
        lasts: lasts(verdict, found.cause),
    })?;
    Ok(())
}

/// Returns why each instance goes no further that hasn't ended, in order, after a run that ended so. Fails only if memory was refused.
pub fn reasons(
    alloc: Global,
    network: &Network,
    verdict: Verdict,
    ends: &[End],
) -> Result<Vec<Reason>, AllocError>
    requires { AreStandings (network_of network.now) (map stands ends.now) }
    ensures { IfOk result (λ list. AreReasons (network_of network.now) verdict ends.now list.items) }
{
    let mut reasons = Vec::new(alloc);
    for instance in 0..ends.len() {
        let found = cause_of(network, ends, instance);
        add_reason(&mut reasons, verdict, instance, ends[instance], found)?;
    }
    Ok(reasons)
}

#[tactic(auto, using(crate::proofs::Walking::ring_within))]
pub(crate) fn cause_of(network: &Network, ends: &[End], instance: usize) -> Caused
    requires known { AreStandings (network_of network.now) (map stands ends.now) }
    requires here { instance < length ends.now }
    ensures cause { IsCause (network_of network.now) (map stands ends.now) instance result.cause }
    ensures ring { IsRingMark (network_of network.now) (map stands ends.now) instance result.is_on_ring }
{
    match walk(network, ends, instance, instance).stop {
        Cause::Ring(one) => {
            let ring = walk(network, ends, one, instance);
            Caused {
                cause: Cause::Ring(ring.least),
                is_on_ring: ring.found,
            }
        }
        cause => Caused {
            cause,
            is_on_ring: false,
        },
    }
}

/// Marks the instances whose waits lead back to themselves. Fails only if memory was refused.
pub fn rings(alloc: Global, network: &Network, ends: &[End]) -> Result<Vec<bool>, AllocError>
    requires { AreStandings (network_of network.now) (map stands ends.now) }
    ensures { IfOk result (λ marks. AreRings (network_of network.now) (map stands ends.now) marks.items) }
{
    let mut marks = Vec::new(alloc);
    for instance in 0..ends.len() {
        marks.push(cause_of(network, ends, instance).is_on_ring)?;
    }
    Ok(marks)
}

/// Whether instances with these ends wait on one another in a ring. Never allocates.
pub fn has_ring(network: &Network, ends: &[End]) -> bool
    requires { AreStandings (network_of network.now) (map stands ends.now) }
    ensures { HasRing (network_of network.now) (map stands ends.now) result }
{
    for instance in 0..ends.len() {
        if cause_of(network, ends, instance).is_on_ring {
            return true;
        }
    }
    false
}

pub(crate) fn standing_of(outcome: Outcome) -> Standing
    ensures { result ≡ standing_of outcome }
{
    match outcome {
        Outcome::Ended => Standing::Ended,
        Outcome::Waits(channel) => Standing::Waits(channel),
        Outcome::Faulted(_) => Standing::Faulted,
        Outcome::More => Standing::More,
    }
}

/// Returns the standings of instances with these ends. Fails only if memory was refused.
pub fn standings(alloc: Global, ends: &[End]) -> Result<Vec<Standing>, AllocError>
    ensures { IfOk result (λ list. list.items ≡ map stands ends.now) }
{
    let mut list = Vec::new(alloc);
    for end in ends {
        list.push(standing_of(end.outcome))?;
    }
    Ok(list)
}
