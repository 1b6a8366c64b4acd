//! The lists that are fed to the input channels.

ghost use Rattle.std.specs.Prelude.{◌≡◌, ◌+◌, ◌++◌, ◌<◌, ◌≤◌, ◌↔◌, if◌then◌else◌, is_ok, IsTrue, IfSome, IfNone, IfOk, IfErr, OnErr, MatchResult, false, length, map, slice_get, slice_index_or, slice_set, [], replicate, vec_capacity};
ghost use Rattle.kahn_streams.specs.{Inputs.entry_of, Inputs.most_values, Inputs.IsInputOf, Inputs.IsNotMade, Inputs.IsFirstRefused, Inputs.IsListFor, Inputs.IsInputFor, Inputs.inputs_of, Feeds.LeavesFed, Solution.AreInputsExtended, declared.value.Line.TheVariants.Channel, Network.network_of, Network.role_at, declared.tree.Role.TheVariants.Input as InputRole};

use crate::entries::{InputFault, MOST_VALUES, are_of_kind, channel_for};
use crate::feeds::{FeedFault, channel_meant};
use crate::memory::NoMemory;
use crate::network::Network;
use crate::token::Token;
use crate::tree::Role;
use crate::value::{Line, Value};
use crate::word::Word;
use std::alloc::Global;
use std::marker::Model;

/// The values of the input channels of a network, at most 1,048,576 for each. Contracts see one list for each channel, in
/// order of declaration.
#[derive(Drop)]
pub struct Input {
    lists: Vec<Vec<Value>>,
}

impl Model for Input {
    ghost use Rattle.std.specs.Prelude.{map};
    ghost use Rattle.kahn_streams.specs.Inputs.{AreFew, Lists};

    ghost Value = { Lists };

    ghost view = { λ i. map (λ l. l.items) i.lists.items };

    ghost invariant = { λ i. AreFew (map (λ l. l.items) i.lists.items) };
}

impl Input {
    /// Returns the input with an empty list for each channel of the network.
    #[tactic(auto, using(crate::proofs::Few::none_few))]
    pub fn none(alloc: Global, network: &Network) -> Result<Input, NoMemory>
        ensures { IfOk result (λ i. i ≡ replicate (length (network_of network.now).channels) []) }
    {
        let mut lists = Vec::new(alloc);
        for _ in 0..network.channels() {
            lists.push(Vec::new(alloc))?;
        }
        Ok(Input { lists })
    }

    /// Makes an input of entries, each of which names an input channel and has its values; a channel that no entry names has
    /// the empty list. Refuses the first entry that is wrong, by its place from 1. Fails with `NoMemory` if memory was refused.
    #[tactic(auto, using(crate::proofs::Entered::or_memory))]
    pub fn new(
        alloc: Global,
        network: &Network,
        entries: Vec<(String, Vec<Value>)>,
    ) -> Result<Input, InputFault>
        ensures made { MatchResult result (IsInputOf network.now (map entry_of entries.items)) (IsNotMade network.now (map entry_of entries.items)) }
        ensures fits { IfOk result (IsInputFor (network_of network.now)) }
    {
        let input = Input::none(alloc, network)?;
        let given = vec![in alloc; false; network.channels()]?;
        filled(network, input, given, entries)
    }

    // Gives a channel its list, without a copy.
    fn give(&mut self, channel: usize, values: Vec<Value>)
        requires here { channel < length self.old }
        requires few { length values.items ≤ most_values }
        ensures { self.new ≡ slice_set self.old channel values.items }
    {
        self.lists[channel] = values;
    }

    /// Appends values to the list of the input channel of that name. Fails if no channel has the name, then if the
    /// channel isn't an input, then if a value isn't of its kind, then if it would have more than 1,048,576 values, and
    /// then if memory was refused, which never happens for an empty list. A failure leaves the input as it was.
    #[tactic(auto, using(crate::proofs::Fed::unwelcome))]
    pub fn extend(
        &mut self,
        network: &Network,
        channel: &str,
        values: Vec<Value>,
    ) -> Result<(), FeedFault>
        requires { length self.old ≡ length (network_of network.now).channels }
        ensures fed { LeavesFed network.now (channel.now, values.items) self.old self.new result }
        ensures some { IfErr result (λ fault. fault ≡ FeedFault.NoMemory → 0 < length values.items) }
        ensures fits { IsInputFor (network_of network.now) self.old → IsInputFor (network_of network.now) self.new }
        ensures grown { AreInputsExtended (inputs_of self.old) (inputs_of self.new) }
        ensures size { length self.new ≡ length self.old }
    {
        let number = channel_meant(network, channel, &values)?;
        if !self.has_room(number, values.len()) {
            return Err(FeedFault::TooMany);
        }
        self.append(number, values)?;
        Ok(())
    }

    fn has_room(&self, channel: usize, count: usize) -> bool
        ensures { IsTrue result ↔ (length (inputs_of self.now channel) + count ≤ most_values) }
    {
        match self.list(channel).len().checked_add(count) {
            Some(total) => total <= MOST_VALUES,
            None => false,
        }
    }

    #[tactic(auto, using(crate::proofs::Fed::item_kept, std::proofs::lemmas::Result::err_from_is_err_and, crate::proofs::Fed::item_fed, crate::proofs::Few::same_few))]
    fn append(&mut self, channel: usize, values: Vec<Value>) -> Result<(), NoMemory>
        requires here { channel < length self.old }
        requires few { length (inputs_of self.old channel) + length values.items ≤ most_values }
        ensures lists { self.new ≡ (if is_ok result then slice_set self.old channel (inputs_of self.old channel ++ values.items) else self.old) }
        ensures some { OnErr result (0 < length values.items) }
    {
        add_values(&mut self.lists[channel], values)?;
        Ok(())
    }

    /// Turns a token of an input whose lists are prefixes of this one's into a token of this input: the same line, place
    /// and value. Never allocates.
    #[tactic(auto, using(crate::proofs::Fed::lifted))]
    pub fn lift(&self, token: Token) -> Token
        requires { AreInputsExtended (inputs_of token.input.value) (inputs_of self.now) }
        ensures here { (result.line ≡ token.line) × (result.place ≡ token.place) × (result.value ≡ token.value) }
        ensures names { (result.network.value ≡ token.network.value) × (result.input.value ≡ self.now) }
    {
        token.moved(self)
    }

    /// Whether the input fits the network: it has a list for each channel, an input channel's of the channel's kind, and
    /// no value for any other. Never allocates.
    pub fn fits(&self, network: &Network) -> bool
        ensures { IsTrue result ↔ IsInputFor (network_of network.now) self.now }
    {
        if self.lists.len() != network.channels() {
            return false;
        }
        for channel in 0..network.channels() {
            if !is_list_for(network, channel, self.list(channel)) {
                return false;
            }
        }
        true
    }

    /// Returns the token at a place of the list of a channel. None past the list, if the channel isn't an input, or if there
    /// is no channel of that number. Never allocates.
    #[tactic(auto, using(crate::proofs::Given_values::stands_given, crate::proofs::Given_values::no_channel))]
    pub fn token(&self, network: &Network, channel: usize, place: u64) -> Option<Token>
        ensures token { IfSome result (λ t. (t.line ≡ Channel channel) × (t.place ≡ place) × (slice_get (inputs_of self.now channel) place ≡ Some t.value)) }
        ensures names { IfSome result (λ t. (t.network.value ≡ network.now) × (t.input.value ≡ self.now)) }
        ensures given { IfSome result (λ _. role_at (network_of network.now) channel ≡ InputRole) }
        ensures none { IfNone result (role_at (network_of network.now) channel ≡ InputRole → length (inputs_of self.now channel) ≤ place) }
    {
        if channel >= network.channels() || network.channel(channel).role != Role::Input {
            return None;
        }
        let value = value_at(self.list(channel), place)?;
        let word = Word::of(value);
        Some(Token::first(network, self, Line::Channel(channel), place, word))
    }

    /// Returns the number of values of a channel, at most 1,048,576. Never allocates.
    pub fn count(&self, channel: usize) -> usize
        ensures count { result ≡ length (inputs_of self.now channel) }
        ensures few { result ≤ most_values }
    {
        self.list(channel).len()
    }

    /// The list of a channel. Never allocates.
    pub fn list(&self, channel: usize) -> &[Value]
        ensures list { result.now ≡ inputs_of self.now channel }
        ensures few { length result.now ≤ most_values }
    {
        match self.lists.get(channel) {
            Some(list) => list.as_slice(),
            None => &[],
        }
    }
}

// Fills an empty input with the lists of these entries. `given` marks the channels that earlier entries name, at first
// none. Nothing grows here, so memory can't be refused.
fn filled(
    network: &Network,
    mut input: Input,
    mut given: Vec<bool>,
    entries: Vec<(String, Vec<Value>)>,
) -> Result<Input, InputFault>
    requires empty { input ≡ replicate (length (network_of network.now).channels) [] }
    requires none { given.items ≡ replicate (length (network_of network.now).channels) false }
    ensures made { MatchResult result (IsInputOf network.now (map entry_of entries.items)) (IsFirstRefused network.now (map entry_of entries.items)) }
    ensures fits { IfOk result (IsInputFor (network_of network.now)) }
{
    let mut number = 0;
    for (name, values) in entries {
        number += 1;
        let channel = channel_for(network, &given, &name, &values, number)?;
        given[channel] = true;
        input.give(channel, values);
    }
    Ok(input)
}

// Adds values to a list. Fails only if the list hasn't room for them.
fn add_values(list: &mut Vec<Value>, mut values: Vec<Value>) -> Result<(), NoMemory>
    ensures items { list.new.items ≡ (if is_ok result then list.old.items ++ values.items else list.old.items) }
    ensures full { OnErr result (vec_capacity list.old < length list.old.items + length values.items) }
    ensures some { OnErr result (0 < length values.items) }
{
    list.append(&mut values)?;
    Ok(())
}

fn is_list_for(network: &Network, channel: usize, values: &[Value]) -> bool
    requires { channel < length (network_of network.now).channels }
    ensures { IsTrue result ↔ IsListFor (network_of network.now) channel values.now }
{
    let declared = network.channel(channel);
    match declared.role {
        Role::Input => are_of_kind(values, declared.kind),
        Role::Inner | Role::Output => values.is_empty(),
    }
}

fn value_at(values: &[Value], place: u64) -> Option<Value>
    ensures { result ≡ slice_get values.now place }
{
    values.get(place as usize).copied()
}
