//! A checked network.

ghost use Rattle.std.specs.Prelude.{◌≡◌, ◌<◌, IfOk, List, MatchOption, Some, length, slice_get, slice_index_or, string_bytes, ℕ};
ghost use Rattle.kahn_streams.specs.{View.bytes_of, Inputs.IsNameOf, Inputs.IsNoName, Made.IsMadeOf, Wires.IsKept, Wires.process_at, Wiring.IsWellWired, inner.Sources.IsWire};
ghost use Rattle.kahn_streams.specs.Network.{network_of, instance_at, instance_from, kind_at, role_at, channel_source, process_of, IsOnly, IsWriter, IsReader, source_of, channel_names};

use crate::memory::NoMemory;
use crate::sides::Side;
use crate::tree::{Argument, Declaration, Kind, Process, Program, Role};
use crate::wires::Wire;
use indexmap::IndexMap;
use std::alloc::Global;
use std::hash::RandomState;
use std::marker::Model;

/// A well wired program. Contracts see the program that it was made from.
#[derive(Drop)]
pub struct Network {
    program: Program,
    // By the name of each channel, in order of declaration.
    wires: IndexMap<String, Wire, RandomState>,
    processes: Vec<usize>,
}

/// A channel of a network.
#[derive(Clone, Copy)]
pub struct Channel<'n> {
    /// Its declared name.
    pub name: &'n str,
    /// The kind of its values.
    pub kind: Kind,
    /// Whether it is written or read from outside.
    pub role: Role,
}

/// An instance of a network.
#[derive(Clone, Copy)]
pub struct NetworkInstance<'n> {
    /// The number of the declaration of its process, counted from 0 in text order.
    pub declaration: usize,
    /// The process that it runs.
    pub process: &'n Process,
    /// What is handed to the parameters of the process, one for each.
    pub arguments: &'n [Argument],
}

impl Model for Network {
    ghost use Rattle.kahn_streams.specs.contracts.tree.Action as action;
    ghost use Rattle.kahn_streams.specs.contracts.tree.Form as form;
    ghost use Rattle.kahn_streams.specs.declared.tree.Program.{Program};
    ghost use Rattle.std.specs.Coded.{codes};
    ghost use Rattle.kahn_streams.specs.Wires.{IsKept};

    ghost Value = { Program };

    ghost coded = { Prim.hlevel (codes, action.the_row.coded, form.the_row.coded) };

    ghost view = { λ n. n.program };

    ghost invariant = { λ n. IsKept n.program n.wires.entries n.processes.items };
}

/// Makes the network of a well wired program, with its tables. Channels are looked up under `seed`. Fails only if memory is
/// refused.
pub fn kept(
    alloc: Global,
    seed: RandomState,
    program: Program,
    wires: Vec<(String, Wire)>,
    processes: Vec<usize>,
) -> Result<Network, NoMemory>
    requires { IsKept program wires.items processes.items }
    ensures { IfOk result (λ n. n ≡ program) }
{
    let mut by_name = IndexMap::with_hasher(alloc, seed);
    by_name.extend(wires)?;
    Ok(Network {
        program,
        wires: by_name,
        processes,
    })
}

impl Network {
    /// Returns the program that was checked. It is well wired.
    pub fn program(&self) -> &Program
        ensures same { result.now ≡ self.now }
        ensures wired { IsWellWired self.now }
    {
        &self.program
    }

    /// Returns the number of channels.
    #[tactic(auto, using(crate::proofs::Kept_network::wire_count))]
    pub fn channels(&self) -> usize
        ensures { result ≡ length (network_of self.now).channels }
    {
        self.wires.len()
    }

    /// Returns the number of instances.
    pub fn instances(&self) -> usize
        ensures { result ≡ length (network_of self.now).instances }
    {
        self.program.instances.len()
    }

    /// Returns the secret under which names are hashed. Nothing that a network says depends on it.
    pub fn seed(&self) -> RandomState {
        *self.wires.hasher()
    }

    /// Returns the number of the channel of that name, counted from 0 in order of declaration. None if no channel has it.
    pub(crate) fn channel_named(&self, name: &str) -> Option<usize>
        ensures { MatchOption result (IsNoName self.now name.now) (IsNameOf self.now name.now) }
    {
        self.wires.get_index_of(name)
    }

    #[tactic(auto, using(crate::proofs::Kept_network::wire_count))]
    fn wire(&self, channel: usize) -> &Wire
        requires { channel < length (network_of self.now).channels }
        ensures { (name : List ℕ) × IsWire self.now channel name result.now }
    {
        &self.wires[channel]
    }

    #[tactic(auto, using(crate::proofs::Kept_network::wire_count))]
    fn named_wire(&self, channel: usize) -> (&String, &Wire)
        requires { channel < length (network_of self.now).channels }
        ensures { IsWire self.now channel (string_bytes result.0.now) result.1.now }
    {
        let Some((name, wire)) = self.wires.get_index(channel) else {
            unreachable!()
        };
        (name, wire)
    }

    /// Returns the channel with that number, counted from 0 in order of declaration.
    pub fn channel(&self, channel: usize) -> Channel<'_>
        requires { channel < length (network_of self.now).channels }
        ensures name { slice_get (channel_names self.now) channel ≡ Some result.name.now }
        ensures kind { result.kind ≡ kind_at (network_of self.now) channel }
        ensures role { result.role ≡ role_at (network_of self.now) channel }
    {
        let (name, wire) = self.named_wire(channel);
        Channel {
            name: name.as_str(),
            kind: wire.kind,
            role: wire.role,
        }
    }

    /// Returns the writer of the channel with that number; None if it is an input.
    pub fn writer(&self, channel: usize) -> Option<Side>
        requires { channel < length (network_of self.now).channels }
        ensures only { IsOnly (IsWriter (network_of self.now) channel) result }
        ensures source { channel_source (network_of self.now) channel ≡ source_of result }
    {
        self.wire(channel).writer
    }

    /// Returns the reader of the channel with that number; None if it is an output.
    pub fn reader(&self, channel: usize) -> Option<Side>
        requires { channel < length (network_of self.now).channels }
        ensures only { IsOnly (IsReader (network_of self.now) channel) result }
    {
        self.wire(channel).reader
    }

    /// Returns the instance with that number, counted from 0 in text order.
    #[tactic(auto, using(crate::proofs::Kept_network::declared_number, crate::proofs::By_number::at_index))]
    pub fn instance(&self, instance: usize) -> NetworkInstance<'_>
        requires { instance < length (network_of self.now).instances }
        ensures number { process_at self.now.declarations.items result.declaration ≡ Some result.process.now }
        ensures declared { IsMadeOf self.now instance result.process.now result.arguments.now }
        ensures made { instance_at (network_of self.now) instance ≡ instance_from (channel_names self.now) (Some result.process.now) result.arguments.now }
    {
        let declaration = self.processes[instance];
        match &self.program.declarations[declaration] {
            Declaration::Process(process) => NetworkInstance {
                declaration,
                process,
                arguments: &self.program.instances[instance].arguments,
            },
            Declaration::Channels(_, _, _) => unreachable!(),
        }
    }
}
