//! What is asked for, from the bytes of the texts to the exit status.

ghost use Rattle.std.specs.Prelude.{◌≡◌, IfOk, string_bytes};
ghost use Rattle.kahn_explain.specs.{Running.HasDone, Running.HasDoneAsData, Running.HasExplainedAs, Running.IsFaultTold, Running.IsOrRefused, Running.end_status, Running.HasExplained, Running.HasLooked, Untaken.IsToldFor, Running.beside};
ghost use Rattle.kahn_streams.specs.Network.{network_of};
ghost use Rattle.kahn_chain.specs.Chain.{AreStandings};
ghost use Rattle.kahn_explanation.specs.{Why.standings_of};

use crate::replies::sheet_out;
use crate::tracing::{untaken_line, with_line};
use kahn_explanation::{
    Admitted, Came, Finding, admit, explained, refuse_input, write_both, write_data,
};
use kahn_fault::{Fault, WorkFault, tell, tell_reason};
use kahn_sequential::{Count, run_counted};
use kahn_streams::{Answer, Config, Network, NoMemory, RunFault, Verdict};
use kahn_texts::{read_input, write_line};
use std::alloc::Global;
use std::hash::RandomState;
use std::io;
use std::io::{ErrorKind, Write};

/// Returns the outcome of running and explaining. Why the input text is refused is reported to the writer, if that has a place.
fn or_refused<W: Write>(
    alloc: Global,
    of: Request<'_>,
    came: Result<Came, WorkFault>,
    writer: &mut W,
) -> Result<Came, WorkFault>
    ensures { IsOrRefused of.entry came (W.contents writer.old) (W.contents writer.new) result }
{
    match came {
        Err(WorkFault::Text(fault)) => {
            refuse_input(
                alloc,
                of.seed,
                of.input_path,
                of.program,
                of.input,
                fault,
                writer,
            )
        }
        came => came,
    }
}

/// Looks at the texts, and writes what is said of them as data.
fn done_as_data<W: Write>(alloc: Global, of: Request<'_>, out: &mut W) -> Result<Came, WorkFault>
    ensures { HasDoneAsData of.entry (W.contents out.old) (W.contents out.new) result }
{
    let mut lines: Vec<u8> = Vec::new(alloc);
    let came = look(alloc, of, &mut lines);
    let came = or_refused(alloc, of, came, &mut lines);
    let paths = (of.path, of.input_path);
    write_data(
        alloc, of.seed, paths, of.program, of.input, of.strict, came, out,
    )
}

/// Explains a run, checks the texts only, or writes a sheet to `out`. Everything beside a sheet goes to `log`, also why there is
/// none.
fn done<W: Write, E: Write>(
    alloc: Global,
    wish: Wish,
    of: Request<'_>,
    config: Config,
    out: &mut W,
    log: &mut E,
) -> Result<Came, WorkFault>
    ensures { HasDone of.entry wish config (W.contents out.old) (W.contents out.new) (E.contents log.old) (E.contents log.new) result }
{
    match wish {
        Wish::Reasons => {
            let came = explain(alloc, of, config, out);
            or_refused(alloc, of, came, out)
        }
        Wish::Look => {
            let came = look(alloc, of, out);
            or_refused(alloc, of, came, out)
        }
        Wish::Data => done_as_data(alloc, of, out),
        Wish::Sheet(kind) => {
            let came = sheet_out(alloc, kind, of, config, out, log);
            or_refused(alloc, of, came, log)
        }
    }
}

/// Returns the exit status for the outcome of explaining. A fault is reported to the writer, unless it is that nobody reads the
/// explanation.
fn ended<E: Write>(came: Result<Came, WorkFault>, program: &str, gone: bool, errors: &mut E) -> u8
    ensures told { IsFaultTold gone program.now came (E.contents errors.old) (E.contents errors.new) }
    ensures status { result ≡ end_status came }
{
    match came {
        Ok(Came::Stopped(Finding::Fault)) => 8,
        Ok(Came::Stopped(Finding::Deadlock)) => 7,
        Ok(Came::Stopped(Finding::Stop(Verdict::Finished))) => 0,
        Ok(Came::Stopped(Finding::Stop(Verdict::Bound))) => 3,
        Ok(Came::Stopped(Finding::Stop(Verdict::Memory))) => 4,
        Ok(Came::Refused) => 1,
        Err(WorkFault::Write(_)) if gone => 5,
        Err(WorkFault::Write(_)) => {
            // What can't be written here changes no status.
            let _told = tell_reason("kahn_explain", "report could not be written", errors);
            5
        }
        Err(fault) => tell(&Err(Fault::Work(fault)), program, errors).status,
    }
}

/// Does what is asked for, and returns the exit status. Messages next to a sheet, and a fault, go to `errors`.
pub(crate) fn ran<W: Write, E: Write>(
    alloc: Global,
    wish: Wish,
    of: Request<'_>,
    config: Config,
    out: &mut Pipe<W>,
    errors: &mut E,
) -> u8
    ensures { HasExplainedAs wish of.entry config W.contents out.old out.new (E.contents errors.old) (E.contents errors.new) result }
{
    let came = done(alloc, wish, of, config, out, errors);
    ended(came, of.program, out.gone, errors)
}

/// Which sheet is asked for.
#[derive(Clone, Copy)]
pub(crate) enum Sheet {
    /// A table of a run: of how many values each channel carried, or else of all of them.
    Table(bool),
    /// What values need; or, the other way round, which are the first that need one.
    Needs(bool),
}

/// What is asked for.
#[derive(Clone, Copy)]
pub(crate) enum Wish {
    /// Why a run stopped.
    Reasons,
    /// What is wrong with the texts, without a run.
    Look,
    /// The same as data.
    Data,
    /// A sheet.
    Sheet(Sheet),
}

/// The texts and what they are called in notes, and how they are looked at.
#[derive(Clone, Copy)]
pub(crate) struct Request<'t> {
    /// The secret under which the names of the program are hashed.
    pub(crate) seed: RandomState,
    pub(crate) path: &'t str,
    pub(crate) program: &'t str,
    pub(crate) input_path: &'t str,
    pub(crate) input: &'t str,
    /// The word of what values need, or of what needs one.
    pub(crate) word: &'t str,
    /// Whether a program with a warning is refused.
    pub(crate) strict: bool,
    /// Whether each process that hasn't ended is listed, and not only each cause.
    pub(crate) all: bool,
}

/// A writer, and whether one of its calls failed since nobody reads any more.
#[derive(Drop)]
pub(crate) struct Pipe<W: Write> {
    pub(crate) writer: W,
    pub(crate) gone: bool,
}

/// Whether a call failed since nobody reads any more.
fn is_gone<T>(done: &io::Result<T>) -> bool {
    matches!(done, Err(error) if error.kind() == ErrorKind::BrokenPipe)
}

impl<W: Write> Write for Pipe<W> {
    ghost contents = { λ o. W.contents o.writer };

    fn write(&mut self, buf: &[u8]) -> io::Result<usize> {
        let done = self.writer.write(buf);
        self.gone |= is_gone(&done);
        done
    }

    fn flush(&mut self) -> io::Result<()> {
        let done = self.writer.flush();
        self.gone |= is_gone(&done);
        done
    }
}

/// Returns the outcome of a run, and the text on it: why it stopped, by its causes or for each process, and which values nobody
/// took.
pub(crate) fn told_of(
    alloc: Global,
    of: Request<'_>,
    network: &Network,
    answer: &Answer,
    counts: &[Count],
) -> Result<(Finding, String), NoMemory>
    requires { AreStandings (network_of network.now) (standings_of answer.now) }
    ensures { IfOk result (λ r. IsToldFor network.now answer.now r.0 (string_bytes r.1)) }
{
    let Ok(lists) = read_input(alloc, of.input, network) else {
        return Err(NoMemory);
    };
    let fed = Some(&lists);
    let explanation = explained(alloc, of.path, of.program, network, fed, answer, of.all)?;
    let line = untaken_line(alloc, network, answer.verdict, counts)?;
    let text = with_line(alloc, explanation.text.as_str(), line.as_str())?;
    Ok((explanation.told, text))
}

/// Writes the warnings, runs the program, and writes why it stopped; or writes why the program is refused (with `strict`, also for
/// a warning). Warnings go out once the input is read, before the run; everything else is complete before it is written. Faults,
/// first one first: program text, network, warnings, input text, the writer of warnings, the run, memory, the writer of the
/// explanation.
pub(crate) fn explain<W: Write>(
    alloc: Global,
    of: Request<'_>,
    config: Config,
    writer: &mut W,
) -> Result<Came, WorkFault>
    ensures { HasExplained of.entry config (W.contents writer.old) (W.contents writer.new) result }
{
    let it = match admit(alloc, of.seed, of.path, of.program, of.strict, writer) {
        Ok(it) => it,
        Err(came) => return came,
    };
    let lists = match read_input(alloc, of.input, &it.network) {
        Ok(lists) => lists,
        Err(fault) => return Err(WorkFault::Text(fault)),
    };
    if let Err(fault) = write_line(writer, &[it.notes.as_bytes()]) {
        return Err(WorkFault::Write(fault));
    }
    let run = match run_counted(alloc, &it.network, lists, config) {
        Ok(run) => run,
        Err(fault) => return Err(WorkFault::Run(fault)),
    };
    let Ok((told, text)) = told_of(alloc, of, &it.network, &run.answer, &run.counts) else {
        return Err(WorkFault::Run(RunFault::NoMemory));
    };
    write_both("", text.as_str(), Came::Stopped(told), writer)
}

/// Looks at the texts, and runs nothing: writes what is warned of in the program, or why its text is refused, as `explain` does. Faults
/// are found in the same order.
pub(crate) fn look<W: Write>(
    alloc: Global,
    of: Request<'_>,
    writer: &mut W,
) -> Result<Came, WorkFault>
    ensures { HasLooked of.entry (W.contents writer.old) (W.contents writer.new) result }
{
    let it = match admit(alloc, of.seed, of.path, of.program, of.strict, writer) {
        Ok(it) => it,
        Err(came) => return came,
    };
    let _lists = match read_input(alloc, of.input, &it.network) {
        Ok(lists) => lists,
        Err(fault) => return Err(WorkFault::Text(fault)),
    };
    let came = Came::Stopped(Finding::Stop(Verdict::Finished));
    write_both("", it.notes.as_str(), came, writer)
}
