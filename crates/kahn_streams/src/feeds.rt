//! Values that are appended to an input.

ghost use Rattle.std.specs.Prelude.{◌≡◌, MatchResult};
ghost use Rattle.kahn_streams.specs.{Feeds.IsMeantFor, Feeds.IsNotMeant, declared.feeds.FeedFault.TheVariants.NoMemory};

use crate::entries::{are_of_kind, channel_named};
use crate::memory::NoMemory;
use crate::network::Network;
use crate::tree::Role;
use crate::value::Value;
use thiserror::Error;

/// Why values aren't fed to an input: the first of these that holds.
#[derive(Clone, Copy, Debug, PartialEq, Eq, Drop, Error)]
pub enum FeedFault {
    /// No channel has the name.
    #[error("no such channel")]
    UnknownName,
    /// The channel isn't an input channel.
    #[error("not an input channel")]
    NotAnInput,
    /// One of the values isn't of the channel's kind.
    #[error("kind does not agree")]
    WrongKind,
    /// The channel would have more than 1,048,576 values.
    #[error("too many values")]
    TooMany,
    /// Memory was refused.
    #[error("no memory")]
    NoMemory,
}

impl From<NoMemory> for FeedFault {
    ghost from_gives = { λ _ e. e ≡ NoMemory };

    fn from(_error: NoMemory) -> FeedFault {
        FeedFault::NoMemory
    }
}

/// Returns the input channel that has that name and the kind of these values, or why there is none.
pub fn channel_meant(network: &Network, name: &str, values: &[Value]) -> Result<usize, FeedFault>
    ensures { MatchResult result (IsMeantFor network.now (name.now, values.now)) (IsNotMeant network.now (name.now, values.now)) }
{
    let Some(channel) = channel_named(network, name) else {
        return Err(FeedFault::UnknownName);
    };
    let declared = network.channel(channel);
    if declared.role != Role::Input {
        return Err(FeedFault::NotAnInput);
    }
    if !are_of_kind(values, declared.kind) {
        return Err(FeedFault::WrongKind);
    }
    Ok(channel)
}
