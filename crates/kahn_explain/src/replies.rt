//! Sheets: tables of a run, and what values need.

ghost use Rattle.std.specs.Prelude.{◌≡◌, [], true, false, string_bytes, MatchResult};
ghost use Rattle.kahn_explain.specs.{Histories.IsUntraced, Running.HasReplied, Running.beside, declared.running.Sheet.TheVariants.Needs as NeedsSheet, declared.running.Sheet.TheVariants.Table as TableSheet, inner.Told.IsAskedFor, inner.Told.IsNothingAsked, inner.Told.HasPutNeeds, inner.Told.HasPutReply, inner.Told.IsReplyFor, inner.Told.IsTableAsked, inner.Told.notes_for, inner.Told.rows_fault};
ghost use Rattle.kahn_fault.specs.declared.work.WorkFault.TheVariants.{Run};
ghost use Rattle.kahn_streams.specs.declared.fault.RunFault.TheVariants.{NoMemory};
ghost use Rattle.kahn_explanation.specs.{declared.explaining.Came.TheVariants.Stopped, declared.why.told.Finding.TheVariants.Stop};
ghost use Rattle.kahn_explanation.specs.{inner.Told.IsAdmitted};

use crate::needing::{
    AskFault, fault_text, firsts_told, found_end, needs_head, needs_told, sought,
};
use crate::rows::{RowsFault, put_needs};
use crate::running::{Request, Sheet, told_of};
use crate::tracing::{Trace, counted, counts_text, recorded};
use kahn_explanation::{Admitted, Came, Finding, admit, write_both};
use kahn_fault::WorkFault;
use kahn_needs::Seeker;
use kahn_streams::{Config, Line, Network, RunFault, Verdict};
use kahn_texts::{read_input, write_line};
use std::alloc::Global;
use std::io::Write;

/// What is written, the words next to it, and its outcome.
#[derive(Drop)]
pub(crate) struct Reply {
    pub(crate) text: String,
    pub(crate) words: String,
    pub(crate) came: Came,
}

/// Returns what is reported next to a table: the explanation, if the status isn't 0.
fn beside(alloc: Global, told: Finding, text: String) -> String
    ensures { string_bytes result ≡ beside told (string_bytes text) }
{
    match told {
        Finding::Stop(Verdict::Finished) => String::new(alloc),
        _ => text,
    }
}

/// The table of the counts of an allowed program's run, and why it stopped.
fn counts_of(
    alloc: Global,
    of: Request<'_>,
    it: &Admitted,
    config: Config,
) -> Result<Reply, WorkFault>
    requires { IsAdmitted of.path.now of.program.now of.strict it.now }
    ensures { MatchResult result (IsReplyFor (TableSheet true) of.entry config it.now) (IsUntraced it.now.network of.entry.input.now config) }
{
    let run = counted(alloc, &it.network, of.input, config)?;
    let Ok(text) = counts_text(alloc, &it.network, &run.counts) else {
        return Err(WorkFault::Run(RunFault::NoMemory));
    };
    let Ok((told, words)) = told_of(alloc, of, &it.network, &run.answer, &run.counts) else {
        return Err(WorkFault::Run(RunFault::NoMemory));
    };
    Ok(Reply {
        text,
        words: beside(alloc, told, words),
        came: Came::Stopped(told),
    })
}

/// Writes the table of all that the channels of a run carried, row by row, and to the other writer what is reported next to it.
/// Nothing is written before the run has ended, and no memory is asked for after that.
fn trace_out<T: Write, W: Write>(
    alloc: Global,
    of: Request<'_>,
    it: &Admitted,
    config: Config,
    out: &mut T,
    log: &mut W,
) -> Result<Came, WorkFault>
    requires { IsAdmitted of.path.now of.program.now of.strict it.now }
    ensures { HasReplied of.entry (TableSheet false) config (T.contents out.old) (T.contents out.new) (W.contents log.old) (W.contents log.new) result }
{
    let kept = match recorded(alloc, &it.network, of.input, config) {
        Ok(kept) => kept,
        Err(fault) => return Err(fault),
    };
    let Ok(trace) = Trace::new(alloc, &it.network, &kept) else {
        return Err(WorkFault::Run(RunFault::NoMemory));
    };
    let Ok((told, words)) = told_of(alloc, of, &it.network, &kept.answer, &kept.counts) else {
        return Err(WorkFault::Run(RunFault::NoMemory));
    };
    if let Err(fault) = trace.put(out) {
        return Err(WorkFault::Write(fault));
    }
    let words = beside(alloc, told, words);
    write_both(it.notes.as_str(), words.as_str(), Came::Stopped(told), log)
}

fn rows_fault(fault: RowsFault) -> WorkFault
    ensures { result ≡ rows_fault fault }
{
    match fault {
        RowsFault::NoMemory => WorkFault::Run(RunFault::NoMemory),
        RowsFault::Write(fault) => WorkFault::Write(fault),
    }
}

/// Writes the table of what all values of a line need, row by row as they are found. The other writer gets the notes on the
/// program.
fn needs_out<T: Write, W: Write>(
    alloc: Global,
    of: Request<'_>,
    it: &Admitted,
    bound: u64,
    line: Line,
    out: &mut T,
    log: &mut W,
) -> Result<Came, WorkFault>
    requires admitted { IsAdmitted of.path.now of.program.now of.strict it.now }
    requires asked { IsTableAsked it.now.network of.word.now line }
    ensures { HasPutNeeds of.entry (T.contents out.old) (T.contents out.new) (W.contents log.old) (W.contents log.new) result }
{
    let input = match read_input(alloc, of.input, &it.network) {
        Ok(input) => input,
        Err(fault) => return Err(WorkFault::Text(fault)),
    };
    let Ok(head) = needs_head(alloc, &it.network) else {
        return Err(WorkFault::Run(RunFault::NoMemory));
    };
    let Ok(mut seeker) = Seeker::new(alloc, &it.network, &input, line, bound) else {
        return Err(WorkFault::Run(RunFault::NoMemory));
    };
    match put_needs(alloc, out, head.as_str(), &mut seeker) {
        Ok(found) => {
            let came = Came::Stopped(Finding::Stop(found_end(&found)));
            write_both(it.notes.as_str(), "", came, log)
        }
        Err(fault) => Err(rows_fault(fault)),
    }
}

/// What a word of `--needs` or `--wakes` asks for.
#[derive(Drop)]
pub(crate) enum Asked {
    /// A text, or why there is none.
    Text(Reply),
    /// A table of what all values of this line need.
    Table(Line),
}

fn worded(alloc: Global, told: (String, Verdict)) -> Reply
    ensures { (result.came ≡ Stopped (Stop told.1)) × (string_bytes result.words ≡ []) }
{
    Reply {
        text: told.0,
        words: String::new(alloc),
        came: Came::Stopped(Finding::Stop(told.1)),
    }
}

/// Why a word asks for nothing.
fn unasked(
    alloc: Global,
    network: &Network,
    of: Request<'_>,
    wakes: bool,
    fault: AskFault,
) -> Result<Asked, WorkFault>
    ensures { MatchResult result IsNothingAsked (λ f. f ≡ Run NoMemory) }
{
    match fault_text(alloc, network, of.word, wakes, fault) {
        Ok(words) => Ok(Asked::Text(Reply {
            text: String::new(alloc),
            words,
            came: Came::Refused,
        })),
        Err(_) => Err(WorkFault::Run(RunFault::NoMemory)),
    }
}

/// What a word asks for, of an allowed program; or why for nothing.
fn wanted(
    alloc: Global,
    wakes: bool,
    of: Request<'_>,
    it: &Admitted,
    config: Config,
) -> Result<Asked, WorkFault>
    requires { IsAdmitted of.path.now of.program.now of.strict it.now }
    ensures { MatchResult result (IsAskedFor wakes of.entry config it.now) (IsUntraced it.now.network of.entry.input.now config) }
{
    let network = &it.network;
    let question = match sought(network, of.word, wakes) {
        Ok(question) => question,
        Err(fault) => return unasked(alloc, network, of, wakes, fault),
    };
    if wakes {
        let first = firsts_told(alloc, network, of.input, config, question)?;
        let reply = worded(alloc, first);
        return Ok(Asked::Text(reply));
    }
    match question.place {
        None => Ok(Asked::Table(question.line)),
        Some(place) => {
            let found = needs_told(alloc, network, of.input, config, question.line, place)?;
            let text = worded(alloc, found);
            Ok(Asked::Text(text))
        }
    }
}

/// What is warned of in a program, unless the word is refused.
fn notes_for(came: Came, notes: &str) -> &str
    ensures { result.now ≡ notes_for came notes.now }
{
    match came {
        Came::Stopped(_) => notes,
        Came::Refused => "",
    }
}

/// Writes a reply, and what is reported next to it.
fn reply_out<T: Write, W: Write>(
    it: &Admitted,
    reply: Reply,
    out: &mut T,
    log: &mut W,
) -> Result<Came, WorkFault>
    ensures { HasPutReply it.now reply (T.contents out.old) (T.contents out.new) (W.contents log.old) (W.contents log.new) result }
{
    if let Err(fault) = write_line(out, &[reply.text.as_bytes()]) {
        return Err(WorkFault::Write(fault));
    }
    let notes = notes_for(reply.came, it.notes.as_str());
    write_both(notes, reply.words.as_str(), reply.came, log)
}

/// Writes what a word asks for, and what is reported next to it.
#[tactic(auto, using(crate::proofs::Sheets::put_reply, crate::proofs::Sheets::rows_replied))]
fn asked_out<T: Write, W: Write>(
    alloc: Global,
    wakes: bool,
    of: Request<'_>,
    it: &Admitted,
    config: Config,
    out: &mut T,
    log: &mut W,
) -> Result<Came, WorkFault>
    requires { IsAdmitted of.path.now of.program.now of.strict it.now }
    ensures { HasReplied of.entry (NeedsSheet wakes) config (T.contents out.old) (T.contents out.new) (W.contents log.old) (W.contents log.new) result }
{
    let bound = config.bound;
    match wanted(alloc, wakes, of, it, config) {
        Ok(Asked::Text(reply)) => reply_out(it, reply, out, log),
        Ok(Asked::Table(line)) => needs_out(alloc, of, it, bound, line, out, log),
        Err(fault) => Err(fault),
    }
}

/// Writes the counts of a run's channels, and what is reported next to them.
#[tactic(auto, using(crate::proofs::Sheets::put_reply))]
fn counts_out<T: Write, W: Write>(
    alloc: Global,
    of: Request<'_>,
    it: &Admitted,
    config: Config,
    out: &mut T,
    log: &mut W,
) -> Result<Came, WorkFault>
    requires { IsAdmitted of.path.now of.program.now of.strict it.now }
    ensures { HasReplied of.entry (TableSheet true) config (T.contents out.old) (T.contents out.new) (W.contents log.old) (W.contents log.new) result }
{
    match counts_of(alloc, of, it, config) {
        Ok(reply) => reply_out(it, reply, out, log),
        Err(fault) => Err(fault),
    }
}

/// Writes a sheet. Another writer gets the warnings on the program and, if the status isn't 0, why the run stopped. Or it gets why
/// the program text or the word is refused; if it is asked to be strict, a warning counts as such a reason.
/// Faults are found in this order: of the program text, of the network, warnings, of the word, of the input text, of the run,
/// memory, of the writers. Rows of a table of needs are written as they are found, so memory may be refused after the first ones.
/// Else nothing is written before that is known.
#[tactic(auto, using(crate::proofs::Sheets::of_kind))]
pub(crate) fn sheet_out<T: Write, W: Write>(
    alloc: Global,
    kind: Sheet,
    of: Request<'_>,
    config: Config,
    out: &mut T,
    log: &mut W,
) -> Result<Came, WorkFault>
    ensures { HasReplied of.entry kind config (T.contents out.old) (T.contents out.new) (W.contents log.old) (W.contents log.new) result }
{
    let it = match admit(alloc, of.seed, of.path, of.program, of.strict, log) {
        Ok(it) => it,
        Err(came) => return came,
    };
    match kind {
        Sheet::Table(true) => counts_out(alloc, of, &it, config, out, log),
        Sheet::Table(false) => trace_out(alloc, of, &it, config, out, log),
        Sheet::Needs(wakes) => asked_out(alloc, wakes, of, &it, config, out, log),
    }
}
