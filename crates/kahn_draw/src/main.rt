//! Draws the network of a program, in the language of Graphviz.
#![tactic(auto)]

mod drawing;

use drawing::{Drawn, ran};
use kahn_fault::{read_texts, shown_path, tell_shown};
use kahn_line::{DrawOptions, Patient, read_draw_line, tell_line, tell_no_memory, tell_words};
use std::alloc::{AllocError, Global};
use std::io::Write;
use std::process::ExitCode;
use std::random::RandomSource;
use std::rt::Runtime;
use std::{env, io};

/// Returns the path of the program text, if there is one, as it is shown.
fn path_of(alloc: Global, program: &Option<String>) -> Result<Option<String>, AllocError> {
    match program {
        Some(path) => Ok(Some(shown_path(alloc, path.as_str())?)),
        None => Ok(None),
    }
}

/// Draws what the command line asks for, and returns the exit status. Faults are reported to the writer.
fn answered<R: Runtime + AllocGlobal + RandomSource, W: Write>(
    rt: &R,
    options: DrawOptions,
    path: Option<String>,
    writer: &mut W,
) -> u8 {
    let drawn = match options.input {
        Some(_) => Drawn::Run(options.bound),
        None => Drawn::Network,
    };
    match read_texts(rt, options.program, options.input) {
        Ok(texts) => {
            let (stream, clock) = (io::writer(rt), rt);
            let (path, out) = (path.as_deref(), &mut Patient { stream, clock });
            ran(rt.alloc(), &texts, path, drawn, out, writer)
                .fault
                .status
        }
        Err(fault) => tell_shown(rt.alloc(), &fault, writer).status,
    }
}

fn main(rt: HostRuntime) -> ExitCode {
    let words = match env::args(&rt) {
        Ok(words) => words,
        Err(error) => return ExitCode::from(tell_words(&rt, &error)),
    };
    let Ok(words) = words.collect::<Vec<String>>(rt.alloc()) else {
        return ExitCode::from(tell_no_memory(&rt));
    };
    let status = match read_draw_line(rt.alloc(), words.as_slice()) {
        Ok(options) => match path_of(rt.alloc(), &options.program) {
            Ok(path) => answered(&rt, options, path, &mut rt.stderr()),
            Err(_) => tell_no_memory(&rt),
        },
        Err(fault) => tell_line(&rt, &fault),
    };
    ExitCode::from(status)
}
