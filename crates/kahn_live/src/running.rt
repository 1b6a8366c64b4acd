//! A run on lines, from the program text to the status.

ghost use Rattle.std.specs.Prelude.{◌≡◌, option_copied, option_map, string_bytes, false};
ghost use Rattle.kahn_live.specs.{Course.telling_of, Running.IsEndingTold, Running.IsUnstartedTold, Running.ending_status, Running.EndsAs, Running.Gives, Running.HasRunAs, Running.HasRunNetwork, Running.HasRunText, Running.ArePlainStreams, Running.IsSetUp, Running.Tells, Running.name_watched, Running.unknown_shown, Course.AcrossStage, Running.HasServed, Running.IsEndWanted, Running.IsJudged, Running.WasSent, Running.output_of, Running.reached_status};
ghost use Rattle.kahn_line.specs.Parts.{input_named};
ghost use Rattle.std.specs.Io.KnownBytes.{Keeps};
ghost use Rattle.kahn_session.specs.Live.{HasVerdict};

use crate::lines::stream_numbers;
use crate::outlet::DeferredWriter;
use crate::taking::{LiveStage, take_all, wants_memory};
use crate::telling::Teller;
use kahn_fault::{Fault, WorkFault, checked, live_status};
use kahn_line::{LiveOptions, PlainNames, copied, input_named, parted};
use kahn_program_notes::add_unknown_channel;
use kahn_session::{Origin, Session};
use kahn_streams::{Config, Network, RunFault, Verdict};
use std::alloc::Global;
use std::hash::RandomState;
use std::io::{BufReader, Read, Write};

/// What is wrong with a run that is judged.
#[derive(Clone, Copy)]
pub(crate) enum Amiss {
    /// A process has a fault of arithmetic.
    Faulted,
    /// No process has a fault, and processes wait on one another in a cycle.
    Ringed,
}

/// How a run ended.
#[derive(Drop)]
pub(crate) enum RunEnding {
    /// The end of the input was reached, and this is wrong, if anything.
    Reached(Verdict, Option<Amiss>),
    /// Nobody reads what is new any more.
    Gone,
    /// A name of `--plain` isn't a channel's, or isn't an input's though its values are in the lines; or a line of `--at-end` isn't
    /// meant for an input channel.
    Refused,
}

/// Returns the name of the channel that is watched. If only values are written, it is the first channel whose values are shown,
/// which so has a stream.
fn name_watched(options: &LiveOptions) -> Option<&str>
    ensures { option_copied result ≡ name_watched options.now.plain options.now.config.watch }
{
    match (&options.plain, &options.config.watch) {
        (None, None) => None,
        (None, Some(watch)) => Some(watch.as_str()),
        (Some(plain), _) => match &plain.output {
            Some(output) => Some(parted(output.as_str(), ',').0),
            None => None,
        },
    }
}

/// Returns the numbers of the streams whose values are shown without names: the named ones, or else the first.
fn plain_streams(
    alloc: Global,
    session: &Session<'_>,
    plain: &PlainNames,
) -> Result<Vec<usize>, RunFault>
    ensures { ArePlainStreams session.now.flow.run plain.now.output result }
{
    match &plain.output {
        Some(output) => stream_numbers(alloc, session, output.as_bytes()),
        None => vec![in alloc; 0; 1].map_err(|_| RunFault::NoMemory),
    }
}

/// Returns a session of the network before its first part, which shows only the values of streams if these channels are named.
fn started<'n>(
    alloc: Global,
    network: &'n Network,
    config: Config,
    plain: &Option<PlainNames>,
) -> Result<Session<'n>, RunFault>
    ensures { IsSetUp plain.now network.now config result }
{
    let mut session = Session::start(alloc, network, config)?;
    let Some(plain) = plain else {
        return Ok(session);
    };
    let columns = plain_streams(alloc, &session, plain)?;
    session.show_columns(columns);
    Ok(session)
}

/// Returns the option and the names that it gave, if a run is refused since one of them has no stream.
fn unknown_shown(fault: RunFault, options: &LiveOptions) -> Option<(Origin, &str)>
    ensures { option_map (λ x. (x.0, x.1.now)) result ≡ unknown_shown fault options.now.plain options.now.config.watch }
{
    match fault {
        RunFault::UnknownWatch => {}
        _ => return None,
    }
    match (&options.plain, &options.config.watch) {
        (None, None) => None,
        (None, Some(name)) => Some((Origin::Watch, name.as_str())),
        (Some(plain), _) => plain.output.as_deref().map(|names| (Origin::Plain, names)),
    }
}

/// Ends a run without a session. If a channel that is to be shown has no stream, it reports that.
fn unstarted<E: Write + Drop>(
    network: &Network,
    fault: RunFault,
    options: &LiveOptions,
    mut teller: Teller<E>,
) -> (Result<RunEnding, Fault>, Teller<E>)
    ensures { Tells E.contents teller result (IsUnstartedTold (unknown_shown fault options.now.plain options.now.config.watch) fault) }
{
    let Some((from, names)) = unknown_shown(fault, options) else {
        return (Err(Fault::Work(WorkFault::Run(fault))), teller);
    };
    let (alloc, names) = (teller.alloc, names.as_bytes());
    let mut words = String::new(alloc);
    if add_unknown_channel(&mut words, alloc, network.program(), names).is_err() {
        words.clear();
    }
    teller.say(from, "no such channel", names, words.as_str(), "", "");
    (Ok(RunEnding::Refused), teller)
}

/// Runs a network on the input, writes what is new to the output, and returns the output.
fn run_network<I: Read + Drop, W: Write + Drop, E: Write + Drop>(
    program: &str,
    network: &Network,
    config: Config,
    options: &LiveOptions,
    input: I,
    outlet: DeferredWriter<W>,
    teller: Teller<E>,
) -> (Result<RunEnding, Fault>, DeferredWriter<W>, Teller<E>)
    ensures { Gives W.contents E.contents teller result (HasRunNetwork options.now network.now config (I.remaining input) (output_of W.contents outlet)) }
{
    let session = match started(teller.alloc, network, config, &options.plain) {
        Ok(session) => session,
        Err(fault) => {
            let (ending, teller) = unstarted(network, fault, options, teller);
            return (ending, outlet, teller);
        }
    };
    let mut stage = LiveStage {
        session,
        outlet,
        teller,
    };
    let named = input_named(&options.plain);
    let at_end = options.at_end.as_slice();
    let strict = options.strict;
    let ending = work(program, &mut stage, input, named, at_end, strict);
    let ending = sent(&mut stage.outlet, ending);
    let LiveStage { outlet, teller, .. } = stage;
    (ending, outlet, teller)
}

fn run<I: Read + Drop, W: Write + Drop, E: Write + Drop>(
    seed: RandomState,
    program: &str,
    options: LiveOptions,
    input: I,
    outlet: DeferredWriter<W>,
    teller: Teller<E>,
) -> (Result<RunEnding, Fault>, DeferredWriter<W>, Teller<E>)
    ensures { Gives W.contents E.contents teller result (HasRunText program.now options (I.remaining input) (output_of W.contents outlet)) }
{
    let Ok(watch) = copied(teller.alloc, name_watched(&options)) else {
        return (Err(wants_memory()), outlet, teller);
    };
    let config = Config {
        watch,
        ..options.config
    };
    match checked(teller.alloc, seed, program) {
        Ok(network) => run_network(program, &network, config, &options, input, outlet, teller),
        Err(fault) => (Err(Fault::Work(fault)), outlet, teller),
    }
}

fn told<E: Write>(ending: Result<RunEnding, Fault>, program: &str, teller: &mut Teller<E>) -> u8
    ensures status { result ≡ ending_status teller.old.refused ending }
    ensures told { IsEndingTold program.now ending (telling_of E.contents teller.old) (telling_of E.contents teller.new) }
{
    match ending {
        Ok(RunEnding::Reached(verdict, amiss)) => {
            let status = reached_status(amiss, teller.refused, verdict);
            teller.tell_last(&Ok(verdict), program);
            status
        }
        Ok(RunEnding::Gone) => teller.tell_last(&Ok(Verdict::Finished), program),
        Ok(RunEnding::Refused) => 6,
        Err(fault) => teller.tell_last(&Err(fault), program),
    }
}

/// Runs a program text, from the file at this path, on the input as the options say. Returns the status and both writers.
pub(crate) fn ran<I: Read + Drop, W: Write + Drop, E: Write + Drop>(
    alloc: Global,
    seed: RandomState,
    program: &str,
    path: String,
    options: LiveOptions,
    input: I,
    out: W,
    errors: E,
) -> (u8, DeferredWriter<W>, Teller<E>)
    ensures { EndsAs W.contents E.contents result (HasRunAs program.now (string_bytes path) options (I.remaining input) (W.contents out) (E.contents errors)) }
{
    let teller = Teller::new(alloc, errors, options.keep_going, path);
    let outlet = DeferredWriter::new(out);
    let (ending, outlet, mut teller) = run(seed, program, options, input, outlet, teller);
    let status = told(ending, program, &mut teller);
    (status, outlet, teller)
}

fn judged(session: &Session<'_>, strict: bool) -> Option<Amiss>
    requires { HasVerdict session.now }
    ensures { IsJudged strict session.now.flow.run result }
{
    if !strict {
        return None;
    }
    if session.first_fault().is_some() {
        return Some(Amiss::Faulted);
    }
    if session.has_ring() {
        return Some(Amiss::Ringed);
    }
    None
}

pub(crate) fn reached_status(amiss: Option<Amiss>, refused: bool, verdict: Verdict) -> u8
    ensures { result ≡ reached_status amiss refused verdict }
{
    match amiss {
        Some(Amiss::Faulted) => 8,
        Some(Amiss::Ringed) => 7,
        None => live_status(&Ok(verdict), refused),
    }
}

/// Whether the end of a run with this verdict is reported: the status isn't 0, a process has a fault, or processes wait on one
/// another.
#[tactic(auto, using(crate::proofs::Ends::by_ring))]
pub(crate) fn is_end_wanted(
    session: &Session<'_>,
    amiss: Option<Amiss>,
    refused: bool,
    verdict: Verdict,
) -> bool
    requires { HasVerdict session.now }
    ensures { IsEndWanted session.now.flow.run amiss refused verdict result }
{
    if reached_status(amiss, refused, verdict) != 0 {
        return true;
    }
    if session.first_fault().is_some() {
        return true;
    }
    session.has_ring()
}

/// Takes all lines, then those of `at_end`. Judges the run if `strict`, and sends what is new. Reports incomplete rows, and how the
/// run ended if something is wrong.
pub(crate) fn work<I: Read + Drop, W: Write, E: Write>(
    program: &str,
    stage: &mut LiveStage<'_, W, E>,
    text: I,
    input: Option<&str>,
    at_end: &[String],
    strict: bool,
) -> Result<RunEnding, Fault>
    requires { stage.old.session.broken ≡ false }
    ensures { AcrossStage W.contents E.contents stage.old stage.new (HasServed strict (option_copied input.entry) at_end.now result (I.remaining text)) }
{
    let Ok(mut reader) = BufReader::new(stage.teller.alloc, text) else {
        return Err(wants_memory());
    };
    if !take_all(stage, &mut reader, input, at_end)? {
        return Ok(RunEnding::Refused);
    }
    let amiss = judged(&stage.session, strict);
    stage.outlet.send()?;
    stage.teller.tell_left(&stage.session);
    let verdict = stage.teller.tell_end(&stage.session, program, amiss);
    Ok(RunEnding::Reached(verdict, amiss))
}

/// Sends what is new at the end, and returns how a run ended whose lines ended so. Nobody reads what is new any more, if a write or
/// a send reported that.
pub(crate) fn sent<W: Write>(
    outlet: &mut DeferredWriter<W>,
    ending: Result<RunEnding, Fault>,
) -> Result<RunEnding, Fault>
    ensures kept { Keeps (W.contents outlet.old.writer) (W.contents outlet.new.writer) }
    ensures sent { WasSent outlet.new.gone ending result }
{
    let sent = outlet.send();
    if outlet.gone {
        return Ok(RunEnding::Gone);
    }
    let ending = ending?;
    sent?;
    Ok(ending)
}
