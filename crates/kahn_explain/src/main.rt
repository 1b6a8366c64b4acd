//! Runs a network of processes and channels, and explains why the run stopped, or what is wrong with the program text. It also
//! writes what the channels carried, and what values need.
#![tactic(auto)]

mod needing;
mod replies;
mod rows;
mod running;
mod tracing;

use kahn_fault::{read_texts, shown_path, tell_unread};
use kahn_line::{
    ExplainOptions, Patient, read_explain_line, tell_line, tell_no_memory, tell_words,
};
use running::{Pipe, Request, Sheet, Wish, ran};
use std::alloc::{AllocError, Global};
use std::io::{BufWriter, Write};
use std::process::ExitCode;
use std::random::RandomSource;
use std::rt::Runtime;
use std::{env, io};

/// How many bytes are written at once: tables are long, and a call costs as much as thousands of bytes.
const AT_ONCE: usize = 65536;

/// What the program text and the input text are called in notes.
fn paths_of(alloc: Global, options: &ExplainOptions) -> Result<(String, String), AllocError> {
    let program = options.program.as_deref().unwrap_or("<stdin>");
    let input = options.input.as_deref().unwrap_or("<stdin>");
    Ok((shown_path(alloc, program)?, shown_path(alloc, input)?))
}

/// What the command line asks for.
fn wish_of(options: &ExplainOptions) -> Wish {
    match (&options.needs, &options.wakes) {
        _ if options.json => Wish::Data,
        _ if options.check => Wish::Look,
        (Some(_), _) => Wish::Sheet(Sheet::Needs(false)),
        (None, Some(_)) => Wish::Sheet(Sheet::Needs(true)),
        (None, None) if options.trace => Wish::Sheet(Sheet::Table(false)),
        (None, None) if options.channels => Wish::Sheet(Sheet::Table(true)),
        (None, None) => Wish::Reasons,
    }
}

/// Does what the command line asks for, and returns the exit status. Faults are reported to the writer.
fn answered<R: Runtime + AllocGlobal + RandomSource, W: Write>(
    rt: &R,
    options: ExplainOptions,
    paths: &(String, String),
    writer: &mut W,
) -> u8 {
    let wish = wish_of(&options);
    let (config, strict, all) = (options.config, options.strict, options.all);
    let texts = match read_texts(rt, options.program, options.input) {
        Ok(texts) => texts,
        Err(fault) => return tell_unread(rt, "kahn_explain", &fault, writer).status,
    };
    let needs = options.needs.as_deref();
    let request = Request {
        seed: texts.seed,
        path: paths.0.as_str(),
        program: texts.program.as_str(),
        input_path: paths.1.as_str(),
        input: texts.input.as_str(),
        word: needs.or(options.wakes.as_deref()).unwrap_or(""),
        strict,
        all,
    };
    let (stream, clock) = (io::writer(rt), rt);
    match BufWriter::with_capacity(rt.alloc(), AT_ONCE, Patient { stream, clock }) {
        Ok(output) => {
            let mut out = Pipe {
                writer: output,
                gone: false,
            };
            ran(rt.alloc(), wish, request, config, &mut out, writer)
        }
        Err(_) => tell_no_memory(rt),
    }
}

fn main(rt: HostRuntime) -> ExitCode {
    let words = match env::args(&rt) {
        Ok(words) => words,
        Err(error) => return ExitCode::from(tell_words(&rt, &error)),
    };
    let Ok(words) = words.collect::<Vec<String>>(rt.alloc()) else {
        return ExitCode::from(tell_no_memory(&rt));
    };
    let status = match read_explain_line(rt.alloc(), words.as_slice()) {
        Ok(options) => match paths_of(rt.alloc(), &options) {
            Ok(paths) => answered(&rt, options, &paths, &mut rt.stderr()),
            Err(_) => tell_no_memory(&rt),
        },
        Err(fault) => tell_line(&rt, &fault),
    };
    ExitCode::from(status)
}
