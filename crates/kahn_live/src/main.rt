//! Runs a network of processes and channels on the lines of standard input, and shows after each line what is new.
#![tactic(auto)]

mod lines;
mod outlet;
mod running;
mod taking;
mod telling;

use kahn_fault::{read_texts, shown_path, tell, tell_reason, tell_unread};
use kahn_line::{LiveOptions, read_live_line, tell_line, tell_no_memory, tell_words};
use outlet::Patient;
use running::ran;
use std::io::{BufWriter, Write};
use std::process::ExitCode;
use std::random::RandomSource;
use std::rt::Runtime;
use std::{env, io};
use taking::wants_memory;

/// Does what the command line asks for, and returns the exit status. Faults are reported to the writer.
fn answered<R: Runtime + AllocGlobal + RandomSource, W: Write>(
    rt: &R,
    mut options: LiveOptions,
    path: String,
    writer: &mut W,
) -> u8 {
    if options.plain.is_some() && options.config.watch.is_some() {
        let words = "--watch does nothing with --plain; write --plain INPUT,NAME";
        // What can't be written here changes no status.
        let _told = tell_reason("kahn_live", words, writer);
    }
    let texts = match read_texts(rt, options.program.take(), None) {
        Ok(texts) => texts,
        Err(fault) => return tell_unread(rt, "kahn_live", &fault, writer).status,
    };
    let (stream, clock) = (rt.reader(), rt);
    let input = Patient { stream, clock };
    let stream = io::writer(rt);
    match BufWriter::new(rt.alloc(), Patient { stream, clock }) {
        Ok(output) => {
            let (alloc, seed, program) = (rt.alloc(), texts.seed, texts.program.as_str());
            ran(alloc, seed, program, path, options, input, output, writer).0
        }
        Err(_) => tell(&Err(wants_memory()), "", writer).status,
    }
}

fn main(rt: HostRuntime) -> ExitCode {
    let words = match env::args(&rt) {
        Ok(words) => words,
        Err(error) => return ExitCode::from(tell_words(&rt, &error)),
    };
    let Ok(words) = words.collect::<Vec<String>>(rt.alloc()) else {
        return ExitCode::from(tell_no_memory(&rt));
    };
    let status = match read_live_line(rt.alloc(), words.as_slice()) {
        Ok(options) => {
            // The words always name the program text.
            let path = options.program.as_deref().unwrap_or("");
            match shown_path(rt.alloc(), path) {
                Ok(path) => answered(&rt, options, path, &mut rt.stderr()),
                Err(_) => tell_no_memory(&rt),
            }
        }
        Err(fault) => tell_line(&rt, &fault),
    };
    ExitCode::from(status)
}
