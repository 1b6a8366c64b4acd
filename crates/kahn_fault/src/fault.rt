//! Why a run has no report, what the program ends with, and what it reports at the end.

ghost use Rattle.std.specs.Prelude.{◌≡◌};
ghost use Rattle.kahn_fault.specs.{Status.live_status_of, Status.work_status, Status.status_of, Places.fault_span, Telling.pointer_text, Telling.told_text};
ghost use Rattle.kahn_streams.specs.Written.{Writes};

use crate::message::{check_span, fault_line, path_words, read_said, syntax_span};
use crate::work::WorkFault;
use kahn_check::CheckFault;
use kahn_streams::{InputFault, RunFault, Span, Verdict};
use kahn_syntax::SyntaxFault;
use kahn_texts::{ReadFault, TextFault, WriteFault, write_line};
use std::io::Write;
use thiserror::Error;

/// Why a run has no report. It is displayed in the words of its line, without the program's name and without a place.
#[derive(Debug, PartialEq, Eq, Drop, Error)]
pub enum Fault {
    /// The file of that path couldn't be opened.
    #[error("cannot read {0}")]
    Open(String),
    /// The program text couldn't be read from the file of that path, or from standard input.
    #[error("{}", read_said(path_words(.0), "program text is too long", *.1))]
    Program(Option<String>, ReadFault),
    /// The input text couldn't be read from the file of that path.
    #[error("{}", read_said(.0, "input text is too long", *.1))]
    InputText(String, ReadFault),
    /// The texts were read, and the run has no report.
    #[error("{0}")]
    Work(WorkFault),
}

/// What was reported.
#[derive(Drop)]
pub struct Told {
    /// The status that the program ends with. A line that couldn't be written doesn't change it.
    pub status: u8,
    /// Whether the line of the fault went out, if there is a fault.
    pub line: Result<(), WriteFault>,
}

fn work_status(fault: WorkFault) -> u8
    ensures { result ≡ work_status fault }
{
    match fault {
        WorkFault::Syntax(SyntaxFault::NoMemory)
        | WorkFault::Check(CheckFault::NoMemory)
        | WorkFault::Text(TextFault::NoMemory)
        | WorkFault::Text(TextFault::Input(InputFault::NoMemory))
        | WorkFault::Run(RunFault::NoMemory) => 4,
        WorkFault::Syntax(_) | WorkFault::Check(_) | WorkFault::Text(_) => 1,
        WorkFault::Run(_) => 6,
        WorkFault::Write(_) => 5,
    }
}

/// Returns the exit status: 0 if the run finished, 1 if a text is refused, 3 if the bound stopped the run, 4 if memory was refused, 5 if a
/// text couldn't be read or wasn't UTF-8, or if the report couldn't be written, and 6 if the run is refused. Never allocates.
pub fn status(answer: &Result<Verdict, Fault>) -> u8
    ensures { result ≡ status_of answer.now }
{
    match answer {
        Ok(Verdict::Finished) => 0,
        Ok(Verdict::Bound) => 3,
        Ok(Verdict::Memory) => 4,
        Err(Fault::Open(_)) => 5,
        Err(Fault::Program(_, fault) | Fault::InputText(_, fault)) => match fault {
            ReadFault::TooLong => 1,
            ReadFault::NoMemory => 4,
            ReadFault::Failed | ReadFault::NotUtf8 => 5,
        },
        Err(Fault::Work(fault)) => work_status(*fault),
    }
}

/// Returns the exit status of a program that takes lines: that of its answer, and 1 in place of 0 if a line was refused.
pub fn live_status(answer: &Result<Verdict, Fault>, refused: bool) -> u8
    ensures { result ≡ live_status_of refused answer.now }
{
    match (refused, status(answer)) {
        (true, 0) => 1,
        (_, status) => status,
    }
}

/// Reports the fault of a run over this program text, if there is one, in one line, and returns the status. Never allocates.
pub fn tell<W: Write>(answer: &Result<Verdict, Fault>, program: &str, writer: &mut W) -> Told
    ensures status { result.status ≡ status_of answer.now }
    ensures line { Writes (W.contents writer.old) (W.contents writer.new) result.line (told_text program.now answer.now) }
{
    let line = match answer {
        Ok(_) => Ok(()),
        Err(fault) => fault_line(fault, program, writer),
    };
    Told {
        status: status(answer),
        line,
    }
}

/// Returns where a program text is at fault, if it is one place.
fn fault_span(fault: WorkFault) -> Option<Span>
    ensures { result ≡ fault_span fault }
{
    match fault {
        WorkFault::Syntax(fault) => syntax_span(fault),
        WorkFault::Check(fault) => check_span(fault),
        WorkFault::Text(_) | WorkFault::Run(_) | WorkFault::Write(_) => None,
    }
}

/// Reports, in one line, which program says more of the fault of a run, if it has a place in the program text, whose path this is.
pub fn tell_explain<W: Write>(
    answer: &Result<Verdict, Fault>,
    path: &str,
    writer: &mut W,
) -> Result<(), WriteFault>
    ensures { Writes (W.contents writer.old) (W.contents writer.new) result (pointer_text path.now answer.now) }
{
    match answer {
        Ok(_) | Err(Fault::Open(_) | Fault::Program(_, _) | Fault::InputText(_, _)) => Ok(()),
        Err(Fault::Work(fault)) => match fault_span(*fault) {
            Some(_) => write_line(
                writer,
                &[b"kahn_explain ", path.as_bytes(), b" says more\n"],
            ),
            None => Ok(()),
        },
    }
}
