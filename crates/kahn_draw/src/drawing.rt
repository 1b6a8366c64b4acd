//! From a program text, and an input text of a run, to the picture of the network, and to the exit status.

ghost use Rattle.std.specs.Prelude.{◌≡◌, ◌⊎◌, [], map, option_copied};
ghost use Rattle.kahn_streams.specs.Network.{network_of};
ghost use Rattle.kahn_fault.specs.Work.{IsChecked};
ghost use Rattle.kahn_chain.specs.Chain.{AreStandings, stands};
ghost use Rattle.kahn_draw.specs.{Drawing.IsDrawn, Drawing.IsDrawnFor, Drawing.IsPictured, Drawing.IsEndedPicture, Running.HasDrawnAs, Running.drawing_text, Running.drawn_answer, Running.pointed_text};
ghost use Rattle.kahn_fault.specs.Status.{status_of};
ghost use Rattle.kahn_streams.specs.Written.{Writes};

use kahn_fault::{Fault, Texts, Told, WorkFault, checked, tell, tell_explain, tell_reason};
use kahn_graph::picture_text;
use kahn_sequential::run_one;
use kahn_streams::{End, Network, RunFault, Stream, Verdict};
use kahn_texts::{WriteFault, read_input, write_line};
use std::alloc::Global;
use std::hash::RandomState;
use std::io::Write;

/// What is drawn.
#[derive(Clone, Copy)]
pub(crate) enum Drawn {
    /// A network.
    Network,
    /// A run of it on the input text, for at most this many events.
    Run(u64),
}

/// A picture, and how the run ended that it shows. A network without a run has finished.
#[derive(Drop)]
pub(crate) struct DrawnPicture {
    pub(crate) text: String,
    pub(crate) verdict: Verdict,
}

/// What was reported after the picture.
#[derive(Drop)]
pub(crate) struct DrawingTold {
    /// The exit status, and whether the line was written that reports a fault, or that memory stopped the run.
    pub(crate) fault: Told,
    /// Whether the line was written that names the program which says more.
    pub(crate) pointer: Result<(), WriteFault>,
}

/// The picture of a network, with the streams and the ends of a run, or none.
fn pictured(
    alloc: Global,
    network: &Network,
    program: &str,
    streams: &[Stream],
    ends: &[End],
) -> Result<String, WorkFault>
    requires { (ends.now ≡ []) ⊎ AreStandings (network_of network.now) (map stands ends.now) }
    ensures { IsPictured network.now program.now streams.now ends.now result }
{
    match picture_text(alloc, network, program, streams, ends) {
        Ok(picture) => Ok(picture),
        Err(_) => Err(WorkFault::Run(RunFault::NoMemory)),
    }
}

fn shown(picture: Result<String, WorkFault>, verdict: Verdict) -> Result<DrawnPicture, WorkFault>
    ensures { IsEndedPicture verdict picture result }
{
    match picture {
        Ok(text) => Ok(DrawnPicture { text, verdict }),
        Err(fault) => Err(fault),
    }
}

/// The picture of a network, or of a run of it on an input text.
fn picture(
    alloc: Global,
    network: &Network,
    program: &str,
    input: &str,
    drawn: Drawn,
) -> Result<DrawnPicture, WorkFault>
    requires { IsChecked program.now network.now }
    ensures { IsDrawnFor network.now program.now input.now drawn result }
{
    let bound = match drawn {
        Drawn::Network => {
            let still = pictured(alloc, network, program, &[], &[]);
            return shown(still, Verdict::Finished);
        }
        Drawn::Run(bound) => bound,
    };
    let input = read_input(alloc, input, network)?;
    match run_one(alloc, network, input, bound) {
        Ok(answer) => {
            let run = pictured(alloc, network, program, &answer.streams, &answer.ends);
            shown(run, answer.verdict)
        }
        Err(fault) => Err(WorkFault::Run(fault)),
    }
}

/// Writes the picture of a program's network, or of a run of it on an input text, and returns how that ended.
/// Faults are found in this order: of the program text, of the network, of the input text, refused memory, of the writer. Before a
/// fault of the writer nothing is written.
fn draw<W: Write>(
    alloc: Global,
    seed: RandomState,
    program: &str,
    input: &str,
    drawn: Drawn,
    writer: &mut W,
) -> Result<Verdict, WorkFault>
    ensures { IsDrawn program.now input.now drawn (W.contents writer.old) (W.contents writer.new) result }
{
    let network = checked(alloc, seed, program)?;
    let picture = picture(alloc, &network, program, input, drawn)?;
    match write_line(writer, &[picture.text.as_bytes()]) {
        Ok(()) => Ok(picture.verdict),
        Err(fault) => Err(WorkFault::Write(fault)),
    }
}

/// Returns the outcome of drawing in the words of a run: a run that its bound stopped was drawn as far as it was asked for.
fn drawn_answer(drawn: Result<Verdict, WorkFault>) -> Result<Verdict, Fault>
    ensures { result ≡ drawn_answer drawn }
{
    match drawn {
        Ok(Verdict::Memory) => Ok(Verdict::Memory),
        Ok(Verdict::Finished | Verdict::Bound) => Ok(Verdict::Finished),
        Err(fault) => Err(Fault::Work(fault)),
    }
}

/// Reports a fault, or that memory stopped the run that is drawn, in one line, and returns the status.
fn drawing_told<E: Write>(answer: &Result<Verdict, Fault>, program: &str, errors: &mut E) -> Told
    ensures status { result.status ≡ status_of answer.now }
    ensures line { Writes (E.contents errors.old) (E.contents errors.new) result.line (drawing_text program.now answer.now) }
{
    match answer {
        Ok(Verdict::Memory) => Told {
            status: 4,
            line: tell_reason("kahn_draw", "run was stopped by memory", errors),
        },
        Err(Fault::Work(WorkFault::Write(_))) => Told {
            status: 5,
            line: tell_reason("kahn_draw", "picture could not be written", errors),
        },
        _ => tell(answer, program, errors),
    }
}

/// Reports which program says more of a fault, if the program text has a path.
fn point<E: Write>(
    path: Option<&str>,
    answer: &Result<Verdict, Fault>,
    errors: &mut E,
) -> Result<(), WriteFault>
    ensures { Writes (E.contents errors.old) (E.contents errors.new) result (pointed_text (option_copied path.entry) answer.now) }
{
    match path {
        Some(path) => tell_explain(answer, path, errors),
        None => Ok(()),
    }
}

/// Draws the program of the texts, or a run of it, to `out`. Then reports a fault to `log`, and which program says more of it.
/// Returns the exit status, and whether these lines were written.
pub(crate) fn ran<W: Write, E: Write>(
    alloc: Global,
    texts: &Texts,
    path: Option<&str>,
    drawn: Drawn,
    out: &mut W,
    log: &mut E,
) -> DrawingTold
    ensures { HasDrawnAs texts.now (option_copied path.entry) drawn (W.contents out.old) (W.contents out.new) (E.contents log.old) (E.contents log.new) result }
{
    let (program, input) = (texts.program.as_str(), texts.input.as_str());
    let answer = drawn_answer(draw(alloc, texts.seed, program, input, drawn, out));
    let fault = drawing_told(&answer, program, log);
    let pointer = point(path, &answer, log);
    DrawingTold { fault, pointer }
}
