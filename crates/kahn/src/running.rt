//! A run of the program, from the bytes of the two texts to the exit status.

ghost use Rattle.std.specs.Prelude.{◌≡◌};
ghost use Rattle.kahn.specs.Running.{HasRunTexts, run_answer};

use kahn_fault::{Fault, Texts, Told, tell};
use kahn_report::{WorkFault, work};
use kahn_streams::{Config, Open, Verdict};
use std::io::Write;
use std::rt::Runtime;
use std::sync::Wait;
use std::thread::Threads;

fn run_answer(worked: Result<Verdict, WorkFault>) -> Result<Verdict, Fault>
    ensures { result ≡ run_answer worked }
{
    match worked {
        Ok(verdict) => Ok(verdict),
        Err(fault) => Err(Fault::Work(fault)),
    }
}

/// Runs the program text on the input text, writes the report to `writer`, and reports a fault to `errors`, in one line.
/// Returns the exit status, and whether that line was written; if it wasn't, the status stays.
pub(crate) fn ran<R: Runtime + AllocGlobal + Threads + Wait + Sync, W: Write, E: Write>(
    rt: &R,
    texts: &Texts,
    config: Config,
    writer: &mut W,
    errors: &mut E,
) -> Told
    ensures { HasRunTexts texts.now config (W.contents writer.old) (W.contents writer.new) (E.contents errors.old) (E.contents errors.new) result }
{
    let (alloc, seed) = (rt.alloc(), texts.seed);
    let (program, input) = (texts.program.as_str(), texts.input.as_str());
    let answer = run_answer(work(rt, alloc, seed, program, input, config, &Open, writer));
    tell(&answer, program, errors)
}
