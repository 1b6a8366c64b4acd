//! The nodes of a picture, and the outcome of a run as it shows it, with the cycles of waits.

ghost use Rattle.std.specs.Prelude.{◌≡◌, ◌<◌, ◌++◌, IfOk, Some, codes, if◌then◌else◌, length, map, option_map, slice_get, string_bytes, ◌⊎◌, []};
ghost use Rattle.kahn_streams.specs.{Network.network_of, Prints.declaration_prints, Prints.process_prints, Wires.process_at};
ghost use Rattle.kahn_graph.specs.{Graph.named_text, Graph.values_text, Graph.node_text, Graph.IsNode, Graph.AreNodes, Graph.colour_text, inner.Adding.Adds, inner.Adding.AddsValue, inner.Adding.IsTip, Ran.IsWaitMark, inner.Adding.IsWaitAt, inner.Adding.is_wait, Ran.carried, Ran.count_text, Ran.ended_text, Ran.is_line_of, Ran.outcome_text, Ran.waited_text};
ghost use Rattle.kahn_chain.specs.Chain.{AreRings, stands, AreStandings, IsRingMark, standing_of};

use itoa::Buffer;
use kahn_chain::rings;
use kahn_streams::{
    Argument, End, Failure, Line, Network, NetworkInstance, Outcome, Parameter, Process, Stream,
    declaration_prints,
};
use kahn_texts::{add, add_spot};
use std::alloc::{AllocError, Global};

/// A text where something is so, and else another one.
pub(crate) fn text_if(is_so: bool, yes: &'static str, no: &'static str) -> &'static str
    ensures { result.now ≡ if is_so then yes.now else no.now }
{
    if is_so { yes } else { no }
}

// Adds a value by the name of its parameter, after what separates it from what stands before.
fn add_named<'a>(
    text: &mut String,
    before: &'a str,
    parameter: &'a Parameter,
    value: &'a str,
) -> Result<(), AllocError>
    ensures { IfOk result (λ _. string_bytes text.new ≡ string_bytes text.old ++ named_text before.now parameter.now value.now) }
{
    add(text, &[before, parameter.name.text.as_str(), "=", value])
}

// Adds an argument where it is a value, and says what separates it from the next.
fn add_value(
    text: &mut String,
    before: &'static str,
    parameter: &Parameter,
    argument: &Argument,
) -> Result<&'static str, AllocError>
    ensures { IfOk result (λ next. AddsValue (string_bytes text.old) before.now (string_bytes text.new) next.now parameter.now argument.now) }
{
    match argument {
        Argument::Channel(_) => Ok(before),
        Argument::Number(number, _) => {
            let mut buffer = Buffer::new();
            add_named(text, before, parameter, buffer.format(*number))?;
            Ok(", ")
        }
        Argument::Logical(truth, _) => {
            let value = text_if(*truth, "true", "false");
            add_named(text, before, parameter, value)?;
            Ok(", ")
        }
    }
}

fn add_values(
    text: &mut String,
    parameters: &[Parameter],
    arguments: &[Argument],
) -> Result<(), AllocError>
    ensures { IfOk result (λ _. string_bytes text.new ≡ string_bytes text.old ++ values_text (codes "\\n") parameters.now arguments.now) }
{
    let mut before = "\\n";
    for index in 0..arguments.len().min(parameters.len()) {
        let parameter = &parameters[index];
        let argument = &arguments[index];
        before = add_value(text, before, parameter, argument)?;
    }
    Ok(())
}

// What gives its colour to the box of an instance with that end.
fn colour(end: Option<End>) -> &'static str
    ensures { result.now ≡ colour_text (option_map stands end) }
{
    match end {
        None => "",
        Some(end) => match end.outcome {
            Outcome::Waits(_) => "",
            Outcome::Ended => ", style=filled, fillcolor=lightgrey",
            Outcome::Faulted(_) => ", style=filled, fillcolor=salmon",
            Outcome::More => ", style=filled, fillcolor=palegreen",
        },
    }
}

fn end_of(ends: &[End], instance: usize) -> Option<End>
    ensures { result ≡ slice_get ends.now instance }
{
    ends.get(instance).copied()
}

// Adds the node of an instance with that number, which runs that process, as far as its colours.
fn add_made(
    text: &mut String,
    network: &Network,
    end: Option<End>,
    instance: usize,
    made: NetworkInstance<'_>,
    prints: bool,
    ring: bool,
) -> Result<(), AllocError>
    requires here { instance < usize.MAX }
    requires prints { prints ≡ process_prints made.process.now }
    ensures { IfOk result (λ _. string_bytes text.new ≡ string_bytes text.old ++ node_text network.now end instance made.entry.process.now made.entry.arguments.now ring) }
{
    let mut first = Buffer::new();
    let mut second = Buffer::new();
    let node = first.format(instance);
    let number = second.format(instance + 1);
    let name = made.process.name.text.as_str();
    add(text, &["  p", node, " [label=\"", number, " ", name])?;
    add_values(text, &made.process.parameters, made.arguments)?;
    add_ended(text, network, end)?;
    let border = text_if(prints, ", peripheries=2", "");
    let red = text_if(ring, ", color=red", "");
    add(text, &["\"", border, colour(end), red])?;
    Ok(())
}

fn add_tip(
    text: &mut String,
    network: &Network,
    source: &str,
    instance: usize,
) -> Result<(), AllocError>
    requires { instance < length (network_of network.now).instances }
    ensures { IfOk result (λ _. Adds (IsTip network.now source.now instance) (string_bytes text.old) (string_bytes text.new)) }
{
    let program = network.program();
    let placed = &program.instances[instance];
    add(text, &[", tooltip=\"", placed.process.text.as_str()])?;
    add_spot(text, " at ", source, placed.process.span.from)?;
    add(text, &["\""])?;
    Ok(())
}

/// Whether each declaration is of a process that prints anywhere.
pub(crate) fn printing(alloc: Global, network: &Network) -> Result<Vec<bool>, AllocError>
    ensures { IfOk result (λ list. list.items ≡ map declaration_prints network.now.declarations.items) }
{
    let mut list = Vec::new(alloc);
    for declaration in &network.program().declarations {
        list.push(declaration_prints(declaration))?;
    }
    Ok(list)
}

#[tactic(auto, using(crate::proofs::Printed::printed_at))]
fn is_printing(
    _network: &Network,
    printing: &[bool],
    declaration: usize,
    _process: &Process,
) -> bool
    requires asked { printing.now ≡ map declaration_prints _network.now.declarations.items }
    requires declared { process_at _network.now.declarations.items declaration ≡ Some _process.now }
    ensures { result ≡ process_prints _process.now }
{
    match printing.get(declaration) {
        Some(prints) => *prints,
        None => false,
    }
}

fn add_node(
    text: &mut String,
    network: &Network,
    source: &str,
    ends: &[End],
    rings: &[bool],
    printing: &[bool],
    instance: usize,
) -> Result<(), AllocError>
    requires here { instance < length (network_of network.now).instances }
    requires printing { printing.now ≡ map declaration_prints network.now.declarations.items }
    requires rings { AreRings (network_of network.now) (map stands ends.now) rings.now }
    ensures { IfOk result (λ _. Adds (IsNode network.now source.now ends.now instance) (string_bytes text.old) (string_bytes text.new)) }
{
    let made = network.instance(instance);
    let prints = is_printing(network, printing, made.declaration, made.process);
    let ring = is_ring_instance(network, ends, rings, instance);
    let end = end_of(ends, instance);
    add_made(text, network, end, instance, made, prints, ring)?;
    add_tip(text, network, source, instance)?;
    add(text, &["];\n"])?;
    Ok(())
}

pub(crate) fn add_nodes(
    text: &mut String,
    network: &Network,
    source: &str,
    ends: &[End],
    rings: &[bool],
    printing: &[bool],
) -> Result<(), AllocError>
    requires printing { printing.now ≡ map declaration_prints network.now.declarations.items }
    requires rings { AreRings (network_of network.now) (map stands ends.now) rings.now }
    ensures { IfOk result (λ _. Adds (AreNodes network.now source.now ends.now) (string_bytes text.old) (string_bytes text.new)) }
{
    for instance in 0..network.instances() {
        add_node(text, network, source, ends, rings, printing, instance)?;
    }
    Ok(())
}

/// Returns which instances are on cycles of waits; none if nothing was run.
pub(crate) fn rings_of(
    alloc: Global,
    network: &Network,
    ends: &[End],
) -> Result<Vec<bool>, AllocError>
    requires { (ends.now ≡ []) ⊎ AreStandings (network_of network.now) (map stands ends.now) }
    ensures { IfOk result (λ marks. AreRings (network_of network.now) (map stands ends.now) marks.items) }
{
    if ends.is_empty() {
        return Ok(Vec::new(alloc));
    }
    rings(alloc, network, ends)
}

fn waits_on(outcome: Outcome, channel: usize) -> bool
    ensures { result ≡ is_wait channel (standing_of outcome) }
{
    matches!(outcome, Outcome::Waits(awaited) if awaited == channel)
}

fn is_wait_at(
    _network: &Network,
    ends: &[End],
    rings: &[bool],
    channel: usize,
    instance: usize,
) -> bool
    requires here { instance < length ends.now }
    requires known { AreRings (network_of _network.now) (map stands ends.now) rings.now }
    ensures { IsWaitAt (network_of _network.now) (map stands ends.now) channel instance result }
{
    if !rings[instance] {
        return false;
    }
    waits_on(ends[instance].outcome, channel)
}

/// Whether some instance of a cycle waits on a channel.
pub(crate) fn is_ring_channel(
    network: &Network,
    ends: &[End],
    rings: &[bool],
    channel: usize,
) -> bool
    requires { AreRings (network_of network.now) (map stands ends.now) rings.now }
    ensures { IsWaitMark (network_of network.now) (map stands ends.now) channel result }
{
    for instance in 0..ends.len() {
        if is_wait_at(network, ends, rings, channel, instance) {
            return true;
        }
    }
    false
}

pub(crate) fn is_ring_instance(
    _network: &Network,
    _ends: &[End],
    rings: &[bool],
    instance: usize,
) -> bool
    requires { AreRings (network_of _network.now) (map stands _ends.now) rings.now }
    ensures { IsRingMark (network_of _network.now) (map stands _ends.now) instance result }
{
    if instance >= rings.len() {
        return false;
    }
    rings[instance]
}

fn outcome_word(outcome: Outcome) -> &'static str
    ensures { result.now ≡ outcome_text outcome }
{
    match outcome {
        Outcome::Ended => "ended",
        Outcome::Waits(_) => "waits on ",
        Outcome::Faulted(Failure::Overflow) => "fault overflow",
        Outcome::Faulted(Failure::Division) => "fault division",
        Outcome::More => "wants more",
    }
}

// The name of the channel on which an instance waited, or nothing.
fn waited_name(network: &Network, outcome: Outcome) -> &str
    ensures { result.now ≡ waited_text network.now outcome }
{
    match outcome {
        Outcome::Waits(channel) if channel >= network.channels() => "",
        Outcome::Waits(channel) => network.channel(channel).name,
        _ => "",
    }
}

pub(crate) fn add_ended(
    text: &mut String,
    network: &Network,
    end: Option<End>,
) -> Result<(), AllocError>
    ensures { IfOk result (λ _. string_bytes text.new ≡ string_bytes text.old ++ ended_text network.now end) }
{
    let Some(end) = end else {
        return Ok(());
    };
    let mut buffer = Buffer::new();
    add(text, &["\\n", outcome_word(end.outcome)])?;
    add(text, &[waited_name(network, end.outcome)])?;
    add(text, &[" after ", buffer.format(end.events)])
}

/// Returns how many values the stream of a channel has, if it has a stream.
pub(crate) fn carried(streams: &[Stream], channel: usize) -> Option<usize>
    ensures { result ≡ carried streams.now channel }
{
    let mut rest = streams;
    'streams: while let Some((stream, behind)) = rest.split_first() {
        if matches!(stream.line, Line::Channel(number) if number == channel) {
            return Some(stream.tokens.len());
        }
        rest = behind;
    }
    None
}

/// Adds how many values there are, if that is known.
pub(crate) fn add_count(text: &mut String, count: Option<usize>) -> Result<(), AllocError>
    ensures { IfOk result (λ _. string_bytes text.new ≡ string_bytes text.old ++ count_text count) }
{
    let Some(count) = count else {
        return Ok(());
    };
    let mut buffer = Buffer::new();
    add(text, &["\\n", buffer.format(count)])
}
