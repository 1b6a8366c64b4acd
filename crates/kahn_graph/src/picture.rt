//! The whole picture, and its edges.

ghost use Rattle.std.specs.Prelude.{◌≡◌, ◌⊎◌, [], IfOk, map, string_bytes, ◌<◌, ◌++◌, Option, IfSome, length};
ghost use Rattle.kahn_streams.specs.Network.{network_of, IsWithin};
ghost use Rattle.kahn_chain.specs.Chain.{AreStandings, stands, AreRings};
ghost use Rattle.kahn_graph.specs.{Graph.IsPicture, Graph.place_text, Graph.mark_text, Graph.style_text, Graph.edge_text, Graph.IsPort, Graph.IsPortText, Graph.IsEdge, Graph.AreEdges, inner.Adding.Adds};

use crate::nodes::{add_count, add_nodes, carried, is_ring_channel, printing, rings_of, text_if};
use itoa::Buffer;
use kahn_streams::{End, Kind, Network, Role, Side, Stream};
use kahn_texts::add;
use std::alloc::{AllocError, Global};

/// Returns the picture of a program's network, in the language of Graphviz.
/// - A node for each instance: its number, its process, its value arguments by the names of their parameters, and its place in the
///   text.
/// - An edge for each channel, from its writer to its reader: its name, and at its ends the names of their parameters.
/// - Logical channels are dashed, processes that print have a second border, and inputs and outputs have a mark.
/// With the streams and the ends of a run a node says how its instance ended, by its colour too, and an edge how many values its
/// channel's stream has. Cycles of waits are red. Fails only if memory is refused.
pub fn picture_text(
    alloc: Global,
    network: &Network,
    source: &str,
    streams: &[Stream],
    ends: &[End],
) -> Result<String, AllocError>
    requires { (ends.now ≡ []) ⊎ AreStandings (network_of network.now) (map stands ends.now) }
    ensures { IfOk result (λ text. IsPicture network.now source.now streams.now ends.now (string_bytes text)) }
{
    let rings = rings_of(alloc, network, ends)?;
    let printing = printing(alloc, network)?;
    let mut text = String::new(alloc);
    add(
        &mut text,
        &[
            "digraph network {\n  rankdir=LR;\n  node [shape=box];\n  edge [labelfontsize=9, labeldistance=1.5, labelangle=45];\n",
        ],
    )?;
    add_nodes(&mut text, network, source, ends, &rings, &printing)?;
    add_edges(&mut text, network, streams, ends, &rings)?;
    add(&mut text, &["}\n"])?;
    Ok(text)
}

// Adds where an edge of a channel begins or ends.
fn add_place(text: &mut String, channel: usize, side: Option<Side>) -> Result<(), AllocError>
    ensures { IfOk result (λ _. string_bytes text.new ≡ string_bytes text.old ++ place_text channel side) }
{
    let mut buffer = Buffer::new();
    match side {
        None => add(text, &["c", buffer.format(channel)]),
        Some(side) => add(text, &["p", buffer.format(side.instance)]),
    }
}

fn add_mark(text: &mut String, channel: usize, role: Role) -> Result<(), AllocError>
    ensures { IfOk result (λ _. string_bytes text.new ≡ string_bytes text.old ++ mark_text channel role) }
{
    let mut buffer = Buffer::new();
    let number = buffer.format(channel);
    match role {
        Role::Inner => Ok(()),
        Role::Input => add(
            text,
            &["  c", number, " [label=\"input\", shape=plaintext];\n"],
        ),
        Role::Output => add(
            text,
            &["  c", number, " [label=\"output\", shape=plaintext];\n"],
        ),
    }
}

// How an edge for values of a kind is drawn.
fn style(kind: Kind) -> &'static str
    ensures { result.now ≡ style_text kind }
{
    match kind {
        Kind::Integer => "solid",
        Kind::Logical => "dashed",
    }
}

// Adds the edge of a channel, from its writer to its reader, as far as the names at its ends.
fn add_line(
    text: &mut String,
    streams: &[Stream],
    number: usize,
    name: &str,
    kind: Kind,
    writer: Option<Side>,
    reader: Option<Side>,
) -> Result<(), AllocError>
    ensures { IfOk result (λ _. string_bytes text.new ≡ string_bytes text.old ++ edge_text streams.now number name.now kind writer reader) }
{
    add(text, &["  "])?;
    add_place(text, number, writer)?;
    add(text, &[" -> "])?;
    add_place(text, number, reader)?;
    add(text, &[" [label=\"", name])?;
    add_count(text, carried(streams, number))?;
    add(text, &["\", style=", style(kind)])
}

fn port_name(network: &Network, side: Side) -> &str
    requires { IsWithin (network_of network.now) side }
    ensures { IsPort network.now side result.now }
{
    let made = network.instance(side.instance);
    let parameter = &made.process.parameters[side.parameter];
    parameter.name.text.as_str()
}

fn add_port(
    text: &mut String,
    network: &Network,
    attribute: &'static str,
    side: Option<Side>,
) -> Result<(), AllocError>
    requires { IfSome side (IsWithin (network_of network.now)) }
    ensures { IfOk result (λ _. Adds (IsPortText network.now attribute.now side) (string_bytes text.old) (string_bytes text.new)) }
{
    let Some(side) = side else {
        return Ok(());
    };
    add(text, &[", ", attribute, "=\""])?;
    add(text, &[port_name(network, side), "\""])?;
    Ok(())
}

fn add_edge(
    text: &mut String,
    network: &Network,
    streams: &[Stream],
    ends: &[End],
    rings: &[bool],
    channel: usize,
) -> Result<(), AllocError>
    requires here { channel < length (network_of network.now).channels }
    requires rings { AreRings (network_of network.now) (map stands ends.now) rings.now }
    ensures { IfOk result (λ _. Adds (IsEdge network.now streams.now ends.now channel) (string_bytes text.old) (string_bytes text.new)) }
{
    let found = network.channel(channel);
    let writer = network.writer(channel);
    let reader = network.reader(channel);
    let ring = is_ring_channel(network, ends, rings, channel);
    add_mark(text, channel, found.role)?;
    add_line(
        text, streams, channel, found.name, found.kind, writer, reader,
    )?;
    add_port(text, network, "taillabel", writer)?;
    add_port(text, network, "headlabel", reader)?;
    let awaited = text_if(ring, ", color=red, penwidth=2", "");
    add(text, &[awaited, "];\n"])?;
    Ok(())
}

pub(crate) fn add_edges(
    text: &mut String,
    network: &Network,
    streams: &[Stream],
    ends: &[End],
    rings: &[bool],
) -> Result<(), AllocError>
    requires { AreRings (network_of network.now) (map stands ends.now) rings.now }
    ensures { IfOk result (λ _. Adds (AreEdges network.now streams.now ends.now) (string_bytes text.old) (string_bytes text.new)) }
{
    for channel in 0..network.channels() {
        add_edge(text, network, streams, ends, rings, channel)?;
    }
    Ok(())
}
