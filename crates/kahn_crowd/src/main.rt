//! The program `kahn` with a gate that doesn't say that it is open. As many workers as are asked for begin at once, over lanes and
//! the board, however little there is to do. It is only for checks, and isn't released.
//! With `held` before its other words the run is held between parts, and continues after a refusal of memory or of a thread, by a
//! further call.
#![tactic(auto)]

ghost use Rattle.std.specs.Prelude.{IsTrue};
ghost use Rattle.kahn_texts.specs.Formats.{HasItsLines, IsLine};

use kahn_fault::{Fault, read_texts, tell};
use kahn_line::{Options, read_line, tell_line, tell_no_memory, tell_words};
use kahn_pool::{Answer, Config, Gate, Held, HeldFault, RunFault, Verdict};
use kahn_report::{WorkFault, checked, read_input, work, write_report};
use kahn_streams::{Line, Network};
use std::hash::RandomState;
use std::io::{BufWriter, Write};
use std::process::ExitCode;
use std::random::RandomSource;
use std::rt::Runtime;
use std::sync::Wait;
use std::thread::Threads;
use std::{env, io};

/// A gate that does nothing.
#[derive(Clone, Copy)]
struct Through;

impl Gate for Through {
    fn enter(&self, _instance: usize) {}
}

/// Whether a line is one of the network's.
fn is_line(network: &Network, line: Line) -> bool
    ensures { IsTrue result → IsLine network.now line }
{
    match line {
        Line::Channel(channel) => channel < network.channels(),
        Line::Print(instance) => instance < network.instances(),
    }
}

/// Whether each stream of an answer is of a line of the network.
fn has_its_lines(network: &Network, answer: &Answer) -> bool
    ensures { IsTrue result → HasItsLines network.now answer.now }
{
    answer
        .streams
        .iter()
        .all(|stream| is_line(network, stream.line))
}

/// Runs the program on the input in a part, and writes the report. After a refusal, which is reported, it continues once.
fn work_in_parts<R: Runtime + AllocGlobal + Threads + Wait + Sync, W: Write, E: Write>(
    rt: &R,
    seed: RandomState,
    program: &str,
    input: &str,
    config: Config,
    writer: &mut W,
    errors: &mut E,
) -> Result<Verdict, WorkFault> {
    let network = checked(rt.alloc(), seed, program)?;
    let input = read_input(rt.alloc(), input, &network)?;
    let mut held = match Held::start(rt.alloc(), &network, input, config) {
        Ok(held) => held,
        Err(fault) => return Err(WorkFault::Run(fault)),
    };
    let verdict = match held.resume(rt, 0, &Through) {
        Ok(Verdict::Memory) | Err(HeldFault::NoMemory | HeldFault::NoThread) => {
            let _ = errors.write_all(b"again\n");
            held.resume(rt, 0, &Through)
        }
        verdict => verdict,
    };
    if !held.settled() {
        return Err(WorkFault::Run(RunFault::NoMemory));
    }
    let answer = match held.answer() {
        Err(_) => {
            let _ = errors.write_all(b"again\n");
            held.answer()
        }
        answer => answer,
    };
    let (Ok(verdict), Ok(answer)) = (verdict, answer) else {
        return Err(WorkFault::Run(RunFault::NoMemory));
    };
    if !has_its_lines(&network, &answer) {
        return Err(WorkFault::Run(RunFault::NoMemory));
    }
    match write_report(writer, &network, &answer) {
        Ok(()) => Ok(verdict),
        Err(fault) => Err(WorkFault::Write(fault)),
    }
}

/// Does what the command line asks for, and returns the status. Faults are reported to the writer.
fn answered<R: Runtime + AllocGlobal + RandomSource + Threads + Wait + Sync, W: Write>(
    rt: &R,
    options: Options,
    held: bool,
    errors: &mut W,
) -> u8 {
    let texts = match read_texts(rt, options.program, options.input) {
        Ok(texts) => texts,
        Err(fault) => return tell(&Err(fault), "", errors).status,
    };
    let (program, input, config) = (texts.program.as_str(), texts.input.as_str(), options.config);
    let alloc = rt.alloc();
    let Ok(mut writer) = BufWriter::new(alloc, io::writer(rt)) else {
        let refused = Fault::Work(WorkFault::Run(RunFault::NoMemory));
        return tell(&Err(refused), "", errors).status;
    };
    let worked = if held {
        work_in_parts(rt, texts.seed, program, input, config, &mut writer, errors)
    } else {
        work(
            rt,
            alloc,
            texts.seed,
            program,
            input,
            config,
            &Through,
            &mut writer,
        )
    };
    let answer = match worked {
        Ok(verdict) => Ok(verdict),
        Err(fault) => Err(Fault::Work(fault)),
    };
    tell(&answer, program, errors).status
}

fn main(rt: HostRuntime) -> ExitCode {
    let words = match env::args(&rt) {
        Ok(words) => words,
        Err(error) => return ExitCode::from(tell_words(&rt, &error)),
    };
    let Ok(words) = words.collect::<Vec<String>>(rt.alloc()) else {
        return ExitCode::from(tell_no_memory(&rt));
    };
    let others = match words.get(1) {
        Some(word) if word.as_str() == "held" => &words[1..],
        _ => &words[..],
    };
    let held = others.len() < words.len();
    let status = match read_line(rt.alloc(), others) {
        Ok(options) => answered(&rt, options, held, &mut rt.stderr()),
        Err(fault) => tell_line(&rt, &fault),
    };
    ExitCode::from(status)
}
