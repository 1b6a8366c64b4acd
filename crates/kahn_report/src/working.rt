//! The whole work: from a program text and an input text to a report.

ghost use Rattle.kahn_fault.specs.Work.{FinishesWithin, IsTextAnswer, IsUnanswered, IsWorked};
ghost use Rattle.std.specs.Prelude.{IfOk, MatchResult};

use kahn_fault::{WorkFault, checked};
use kahn_pool::{Answer, Config, Gate, Verdict, run};
use kahn_streams::Network;
use kahn_texts::{read_input, write_for};
use std::alloc::Global;
use std::hash::RandomState;
use std::io::Write;
use std::sync::Wait;
use std::thread::Threads;

// Runs a network on an input text.
fn answered<R: Threads + Wait + Sync, G: Gate + Sync>(
    rt: &R,
    alloc: Global,
    network: &Network,
    text: &str,
    config: Config,
    gate: &G,
) -> Result<Answer, WorkFault>
    ensures { MatchResult result (IsTextAnswer network.now text.now config) (IsUnanswered network.now text.now config) }
{
    let input = read_input(alloc, text, network)?;
    match run(rt, alloc, network, input, config, gate) {
        Ok(answer) => Ok(answer),
        Err(fault) => Err(WorkFault::Run(fault)),
    }
}

/// Reads a program and an input, runs the program, and writes the report of its answer: from the bytes of the texts to the bytes of
/// the report.
/// Nothing is written before the answer is complete; if a write fails, a prefix of the report has been written. A long report is
/// formatted by as many threads as work. Names are hashed under `seed`, on which no answer depends.
///
/// The verdict, if it isn't `Memory`, is `Finished` exactly if the size of the solution is at most the bound.
///
/// Faults are found in this order: of the program text, of the network, of the input text, of the run, of the writer.
pub fn work<R: Threads + Wait + Sync, G: Gate + Sync, W: Write>(
    rt: &R,
    alloc: Global,
    seed: RandomState,
    program: &str,
    input: &str,
    config: Config,
    gate: &G,
    writer: &mut W,
) -> Result<Verdict, WorkFault>
    ensures told { IsWorked program.now input.now config (W.contents writer.old) (W.contents writer.new) result }
    ensures exact { IfOk result (FinishesWithin program.now input.now config) }
{
    let workers = config.workers;
    let network = match checked(alloc, seed, program) {
        Ok(network) => network,
        Err(fault) => return Err(fault),
    };
    let answer = match answered(rt, alloc, &network, input, config, gate) {
        Ok(answer) => answer,
        Err(fault) => return Err(fault),
    };
    match write_for(rt, alloc, writer, &network, &answer, workers) {
        Ok(()) => Ok(answer.verdict),
        Err(fault) => Err(WorkFault::Write(fault)),
    }
}
