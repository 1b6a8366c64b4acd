//! The entries from which an input is made: names of channels, each with its values.

ghost use Rattle.std.specs.Prelude.{◌≡◌, ◌↔◌, IsTrue, MatchOption, MatchResult, length};
ghost use Rattle.kahn_streams.specs.{Network.network_of, Inputs.IsNameOf, Inputs.IsNoName, Inputs.AreOfKind, declared.entries.InputFault.TheVariants.NoMemory, inner.Marked.IsRefusedAt, inner.Marked.IsTakenAt};

use crate::memory::NoMemory;
use crate::network::Network;
use crate::tree::{Kind, Role};
use crate::value::Value;
use std::alloc::AllocError;
use thiserror::Error;

/// The most values of one channel.
pub const MOST_VALUES: usize = 1048576;

/// Why an input is refused. The number is that of the entry, counted from 1. An entry is refused for the first of these
/// that holds.
#[derive(Clone, Copy, Debug, PartialEq, Eq, Drop, Error)]
pub enum InputFault {
    /// No channel has the name.
    #[error("input entry {0}: no such channel")]
    UnknownName(usize),
    /// The channel isn't an input channel.
    #[error("input entry {0}: not an input channel")]
    NotAnInput(usize),
    /// An entry before it names the same channel.
    #[error("input entry {0}: given twice")]
    GivenTwice(usize),
    /// One of the values isn't of the channel's kind.
    #[error("input entry {0}: kind does not agree")]
    WrongKind(usize),
    /// There are more than 1,048,576 values.
    #[error("input entry {0}: too many values")]
    TooMany(usize),
    /// Memory was refused.
    #[error("no memory")]
    NoMemory,
}

impl From<AllocError> for InputFault {
    ghost from_gives = { λ _ e. e ≡ NoMemory };

    fn from(_error: AllocError) -> InputFault {
        InputFault::NoMemory
    }
}

impl From<NoMemory> for InputFault {
    ghost from_gives = { λ _ e. e ≡ NoMemory };

    fn from(_error: NoMemory) -> InputFault {
        InputFault::NoMemory
    }
}

/// Returns the number of the channel of that name, counted from 0 in order of declaration. None if no channel has it.
/// Never allocates.
pub fn channel_named(network: &Network, name: &str) -> Option<usize>
    ensures { MatchOption result (IsNoName network.now name.now) (IsNameOf network.now name.now) }
{
    network.channel_named(name)
}

pub(crate) fn are_of_kind(values: &[Value], kind: Kind) -> bool
    ensures { IsTrue result ↔ AreOfKind kind values.now }
{
    values.iter().all(|value| value.kind() == kind)
}

// The channel of an entry, or why the entry with that number is refused. `given` marks the channels that entries before it name.
pub(crate) fn channel_for(
    network: &Network,
    given: &[bool],
    name: &str,
    values: &[Value],
    entry: usize,
) -> Result<usize, InputFault>
    requires { length given.now ≡ length (network_of network.now).channels }
    ensures { MatchResult result (IsTakenAt network.now given.now (name.now, values.now)) (IsRefusedAt network.now given.now (name.now, values.now) entry) }
{
    let Some(channel) = channel_named(network, name) else {
        return Err(InputFault::UnknownName(entry));
    };
    let declared = network.channel(channel);
    if declared.role != Role::Input {
        return Err(InputFault::NotAnInput(entry));
    }
    if given[channel] {
        return Err(InputFault::GivenTwice(entry));
    }
    if !are_of_kind(values, declared.kind) {
        return Err(InputFault::WrongKind(entry));
    }
    if values.len() > MOST_VALUES {
        return Err(InputFault::TooMany(entry));
    }
    Ok(channel)
}
