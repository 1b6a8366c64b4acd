//! A walk along the waits of an instance.

ghost use Rattle.std.specs.Prelude.{◌≡◌, ◌==◌, ◌||◌, ◌<◌, length, map};
ghost use Rattle.kahn_streams.specs.Network.{network_of};
ghost use Rattle.kahn_chain.specs.{Chain.AreStandings, Chain.stands, inner.Walk.IsStepFrom, inner.Walk.IsWalked};

use crate::reason::{Cause, Standing, standing_of};
use kahn_streams::{End, Network};

/// What comes after an instance on its chain of waits.
#[derive(Clone, Copy)]
pub(crate) enum WalkStep {
    /// The instance that it waits on.
    On(usize),
    /// None, and why.
    Stop(Cause),
}

/// What a walk found.
#[derive(Clone, Copy)]
pub(crate) struct Walked {
    /// Why it stopped; in a ring, any of its instances.
    pub stop: Cause,
    /// The least instance on it.
    pub least: usize,
    /// Whether it came to the instance that was sought.
    pub found: bool,
}

fn next(network: &Network, ends: &[End], instance: usize) -> WalkStep
    requires known { AreStandings (network_of network.now) (map stands ends.now) }
    requires here { instance < length ends.now }
    ensures { IsStepFrom (network_of network.now) (map stands ends.now) instance result }
{
    match standing_of(ends[instance].outcome) {
        Standing::Waits(channel) => match network.writer(channel) {
            Some(side) => WalkStep::On(side.instance),
            None => WalkStep::Stop(Cause::Input(instance, channel)),
        },
        standing => WalkStep::Stop(Cause::Stopped(instance, standing)),
    }
}

fn is_found(found: bool, at: usize, sought: usize) -> bool
    ensures { result ≡ found || (at == sought) }
{
    found || at == sought
}

/// Walks from an instance to the end of its chain, or as many steps as there are instances. Then it is in a ring, and was at all on its way.
pub(crate) fn walk(network: &Network, ends: &[End], first: usize, sought: usize) -> Walked
    requires known { AreStandings (network_of network.now) (map stands ends.now) }
    requires here { first < length ends.now }
    ensures { IsWalked (network_of network.now) (map stands ends.now) first sought result }
{
    let mut at = first;
    let mut least = first;
    let mut found = first == sought;
    for _ in 0..ends.len() {
        match next(network, ends, at) {
            WalkStep::On(instance) => {
                at = instance;
                least = least.min(at);
                found = is_found(found, at, sought);
            }
            WalkStep::Stop(stop) => return Walked { stop, least, found },
        }
    }
    Walked {
        stop: Cause::Ring(at),
        least,
        found,
    }
}
