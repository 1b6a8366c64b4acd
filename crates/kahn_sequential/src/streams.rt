//! The streams of an answer: their lines, and the tokens that fill them.

ghost use Rattle.std.specs.Prelude.{◌≡◌, ◌<◌, ◌++◌, ◌∷◌, [], cond, length, map, slice_set, slice_index_or, vec_capacity, IfOk, OnOk};
ghost use Rattle.kahn_sequential.specs.inner.Below.{channel_lines, declaration_prints, inputs_of, instance_at, network_of, print_lines, prints_in, stream_lines};
ghost use Rattle.kahn_sequential.specs.inner.Workbench.{AreOpen, AreStreamsReady};
ghost use Rattle.kahn_sequential.specs.inner.Streams.{AreAllGiven, AreLists, AreNamed, HaveChanged, IsDeclared, IsFilledStream, IsOpenStream, KeepsOtherLines, kept_lists};

use kahn_code::Kept;
use kahn_streams::{Input, Line, Network, NoMemory, Role, Stream, Tokens, declaration_prints};
use std::alloc::Global;
use std::mem;

fn printing(alloc: Global, network: &Network) -> Result<Vec<bool>, NoMemory>
    ensures { IfOk result (λ v. v.items ≡ map declaration_prints network.now.declarations.items) }
{
    let mut printing = Vec::new(alloc);
    for declaration in &network.program().declarations {
        printing.push(declaration_prints(declaration))?;
    }
    Ok(printing)
}

#[tactic(auto, using(crate::proofs::Printing::printed_at))]
fn instance_prints(network: &Network, printing: &[bool], instance: usize) -> bool
    requires here { instance < length (network_of network.now).instances }
    requires asked { printing.now ≡ map declaration_prints network.now.declarations.items }
    ensures { result ≡ prints_in (instance_at (network_of network.now) instance).body }
{
    match printing.get(network.instance(instance).declaration) {
        Some(prints) => *prints,
        None => false,
    }
}

fn add_line(lines: &mut Vec<Line>, has_one: bool, line: Line) -> Result<(), NoMemory>
    ensures { OnOk result (lines.new.items ≡ lines.old.items ++ cond has_one (line ∷ []) []) }
{
    if has_one {
        lines.push(line)?;
    }
    Ok(())
}

fn add_channels(
    lines: &mut Vec<Line>,
    network: &Network,
    watch: Option<usize>,
) -> Result<(), NoMemory>
    ensures { OnOk result (lines.new.items ≡ lines.old.items ++ channel_lines watch (network_of network.now).channels 0) }
{
    for channel in 0..network.channels() {
        let has_one = network.channel(channel).role == Role::Output || watch == Some(channel);
        add_line(lines, has_one, Line::Channel(channel))?;
    }
    Ok(())
}

fn add_prints(alloc: Global, lines: &mut Vec<Line>, network: &Network) -> Result<(), NoMemory>
    ensures { OnOk result (lines.new.items ≡ lines.old.items ++ print_lines (network_of network.now).instances 0) }
{
    let printing = printing(alloc, network)?;
    for instance in 0..network.instances() {
        let prints = instance_prints(network, &printing, instance);
        add_line(lines, prints, Line::Print(instance))?;
    }
    Ok(())
}

/// Returns the lines of the streams of an answer, in order of declaration: the output channels and the channel `watch`, and then
/// the print lines. Fails only if memory is refused.
pub(crate) fn lines_of(
    alloc: Global,
    network: &Network,
    watch: Option<usize>,
) -> Result<Vec<Line>, NoMemory>
    ensures { IfOk result (λ lines. lines.items ≡ stream_lines (network_of network.now) watch) }
{
    let mut lines = Vec::new(alloc);
    add_channels(&mut lines, network, watch)?;
    add_prints(alloc, &mut lines, network)?;
    Ok(lines)
}

fn exchange_kept(lists: &mut Kept, parameter: usize, tokens: &mut Tokens)
    requires { parameter < length lists.old.kept.items }
    ensures kept { kept_lists lists.new ≡ slice_set (kept_lists lists.old) parameter tokens.old.items }
    ensures tokens { tokens.new.items ≡ slice_index_or (kept_lists lists.old) parameter [] }
    ensures printed { lists.new.printed ≡ lists.old.printed }
{
    mem::swap(&mut lists.kept[parameter], tokens);
}

fn fill_one(network: &Network, stream: &mut Stream, lists: &mut Vec<Kept>)
    requires declared { IsDeclared (network_of network.now) stream.old.line }
    requires lists { AreLists (network_of network.now) lists.old.items }
    ensures lists { AreLists (network_of network.now) lists.new.items }
    ensures filled { IsFilledStream (network_of network.now) lists.old.items stream.old stream.new }
    ensures others { KeepsOtherLines (network_of network.now) stream.old.line lists.old.items lists.new.items }
{
    match stream.line {
        Line::Channel(channel) => {
            if let Some(side) = network.writer(channel) {
                exchange_kept(
                    &mut lists[side.instance],
                    side.parameter,
                    &mut stream.tokens,
                );
            }
        }
        Line::Print(instance) => mem::swap(&mut lists[instance].printed, &mut stream.tokens),
    }
}

/// Fills each stream from what the cells kept: a channel's stream with what its writer kept on the parameter, and a print stream
/// with what was printed. A stream of an input channel stays. Never allocates.
pub fn fill(network: &Network, streams: &mut Vec<Stream>, lists: &mut Vec<Kept>)
    requires named { AreNamed (network_of network.now) streams.old.items }
    requires lists { AreLists (network_of network.now) lists.old.items }
    ensures { HaveChanged (IsFilledStream (network_of network.now) lists.old.items) streams.old.items streams.new.items }
{
    for number in 0..streams.len() {
        fill_one(network, &mut streams[number], lists);
    }
}

/// The stream of a line before any token was moved there: an input channel has its whole list. Fails only if memory was refused.
pub(crate) fn opening_stream(
    alloc: Global,
    network: &Network,
    input: &Input,
    line: Line,
) -> Result<Stream, NoMemory>
    ensures line { IfOk result (λ x. x.line ≡ line) }
    ensures given { IfOk result (IsOpenStream (network_of network.now) (inputs_of input.now)) }
{
    let mut tokens = Tokens::new(alloc);
    let Line::Channel(channel) = line else {
        return Ok(Stream { line, tokens });
    };
    'tokens: while let Some(token) = input.token(network, channel, tokens.len() as u64) {
        tokens.push(token)?;
    }
    Ok(Stream { line, tokens })
}

pub(crate) fn given_first(
    alloc: Global,
    network: &Network,
    input: &Input,
    watch: Option<usize>,
) -> Result<Tokens, NoMemory>
    ensures { IfOk result (λ ts. AreAllGiven (network_of network.now) (inputs_of input.now) watch ts.items) }
{
    let Some(channel) = watch else {
        return Ok(Tokens::new(alloc));
    };
    let stream = opening_stream(alloc, network, input, Line::Channel(channel))?;
    Ok(stream.tokens)
}

/// The streams of an answer, in order, before any token was moved there. Fails only if memory was refused.
pub fn opening_streams(
    alloc: Global,
    network: &Network,
    input: &Input,
    watch: Option<usize>,
) -> Result<Vec<Stream>, NoMemory>
    ensures { IfOk result (λ streams. AreOpen network.now input.now watch streams.items) }
{
    let lines = lines_of(alloc, network, watch)?;
    let mut streams = Vec::with_capacity(alloc, lines.len())?;
    for number in 0..lines.len() {
        streams.push_reserved(opening_stream(alloc, network, input, lines[number])?);
    }
    Ok(streams)
}

/// Makes room for all that the answer of a run needs. Fails only if memory is refused.
pub fn room_for_answer(
    alloc: Global,
    network: &Network,
    input: &Input,
    watch: Option<usize>,
) -> Result<(Vec<Stream>, Vec<Kept>), NoMemory>
    ensures { IfOk result (λ r. AreStreamsReady network.now input.now watch r.0.items r.1.items (vec_capacity r.1)) }
{
    let streams = opening_streams(alloc, network, input, watch)?;
    let kept = Vec::with_capacity(alloc, network.instances())?;
    Ok((streams, kept))
}
