//! Runs a network of processes and channels, and writes the report.
#![tactic(auto)]

mod running;

use kahn_fault::{Fault, read_texts, tell};
use kahn_line::{Options, read_line, tell_line, tell_no_memory, tell_words};
use kahn_report::WorkFault;
use kahn_streams::RunFault;
use running::ran;
use std::io::{BufWriter, Write};
use std::process::ExitCode;
use std::random::RandomSource;
use std::rt::Runtime;
use std::sync::Wait;
use std::thread::Threads;
use std::{env, io};

/// Does what the command line asks for, and returns the status. Faults are reported to the writer.
fn answered<R: Runtime + AllocGlobal + RandomSource + Threads + Wait + Sync, W: Write>(
    rt: &R,
    options: Options,
    errors: &mut W,
) -> u8 {
    let texts = match read_texts(rt, options.program, options.input) {
        Ok(texts) => texts,
        Err(fault) => return tell(&Err(fault), "", errors).status,
    };
    match BufWriter::new(rt.alloc(), io::writer(rt)) {
        Ok(mut writer) => ran(rt, &texts, options.config, &mut writer, errors).status,
        Err(_) => {
            let refused = Fault::Work(WorkFault::Run(RunFault::NoMemory));
            tell(&Err(refused), "", errors).status
        }
    }
}

fn main(rt: HostRuntime) -> ExitCode {
    let words = match env::args(&rt) {
        Ok(words) => words,
        Err(error) => return ExitCode::from(tell_words(&rt, &error)),
    };
    let Ok(words) = words.collect::<Vec<String>>(rt.alloc()) else {
        return ExitCode::from(tell_no_memory(&rt));
    };
    let status = match read_line(rt.alloc(), words.as_slice()) {
        Ok(options) => answered(&rt, options, &mut rt.stderr()),
        Err(fault) => tell_line(&rt, &fault),
    };
    ExitCode::from(status)
}
