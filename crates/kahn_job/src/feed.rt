//! The values of an input channel, taken as tokens one by one.

ghost use Rattle.std.specs.Prelude.{◌≡◌, ◌<◌, ◌≤◌, ◌+◌, ◌^◌};
ghost use Rattle.kahn_job.specs.inner.Words.{length, IfSome, IfNone, network_of, role_at, lane_name, token_name, Lists, inputs_of, Names, Input as InputRole};

use kahn_streams::{About, Input, Network, Token};

/// An input channel, and the place of the token that is taken next. Only contracts see its network and its input.
#[derive(Drop)]
pub(crate) struct Feed {
    pub(crate) network: About<Network>,
    pub(crate) input: About<Input>,
    pub(crate) channel: usize,
    pub(crate) next: u64,
    ghost within: { (channel < length (network_of network.value).channels) × (role_at (network_of network.value) channel ≡ InputRole) },
}

impl Feed {
    pub(crate) fn of(_network: &Network, _input: &Input, channel: usize, next: u64) -> Feed
        ghost names: { Names }
        requires inside { channel < length (network_of names.network).channels }
        requires given { role_at (network_of names.network) channel ≡ InputRole }
        ensures { (result.network.value ≡ names.network) × (result.input.value ≡ names.input) × (result.channel ≡ channel) × (result.next ≡ next) }
    {
        Feed {
            network: About::named(),
            input: About::named(),
            channel,
            next,
        }
    }

    pub(crate) fn regrow(&mut self, _input: &Input)
        ghost name: { Lists }
        ensures { (self.new.network ≡ self.old.network) × (self.new.input.value ≡ name) × (self.new.channel ≡ self.old.channel) × (self.new.next ≡ self.old.next) }
    {
        self.input = About::named();
    }

    /// Returns the next token. None past the list. It is a function of its own, so that taking a token from a lane is short enough
    /// to be compiled into the loop.
    #[inline(never)]
    pub(crate) fn take(&mut self, network: &Network, input: &Input) -> Option<Token>
        requires bound { self.old.next < 2 ^ 48 }
        requires of { (self.old.network.value ≡ network.now) × (self.old.input.value ≡ input.now) }
        ensures same { (self.new.network ≡ self.old.network) × (self.new.input ≡ self.old.input) × (self.new.channel ≡ self.old.channel) }
        ensures token { IfSome result (λ t. (token_name t ≡ lane_name self.old.network.value self.old.input.value self.old.channel) × (t.place ≡ self.old.next)) }
        ensures moved { IfSome result (λ _. self.new.next ≡ self.old.next + 1) }
        ensures none { IfNone result ((self.new ≡ self.old) × (length (inputs_of self.old.input.value self.old.channel) ≤ self.old.next)) }
    {
        let token = input.token(network, self.channel, self.next)?;
        self.next += 1;
        Some(token)
    }
}
