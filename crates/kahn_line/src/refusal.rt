//! What a program reports if its command line asks for no run.

ghost use Rattle.std.specs.Prelude.{◌≡◌, ◌≢◌};
ghost use Rattle.std.specs.IoError.{error_kind};
ghost use Rattle.kahn_line.specs.Refusal.{line_status};

use crate::line::LineFault;
use clap::error::ErrorKind as LineKind;
use std::fmt::Write;
use std::io::{Error, ErrorKind};

/// Reports on standard error that memory was refused, and returns the status, 4.
pub fn tell_no_memory(rt: &impl Eprint) -> u8
    ensures { result ≡ 4 }
{
    let _ = eprintln!(rt; "kahn: no memory");
    4
}

/// Returns the programs that have an option, by the text of a refusal that begins with the option.
fn owners_of(text: &str) -> Option<&'static str> {
    let (_, behind) = text.split_once("unexpected argument '")?;
    let (option, _) = behind.split_once("'")?;
    match option {
        "--trace" | "--channels" | "--check" | "--needs" | "--wakes" => Some("kahn_explain"),
        "--strict" => Some("kahn_explain and kahn_live"),
        "--input" | "--bound" => Some("kahn, kahn_explain and kahn_draw"),
        "--workers" | "--quantum" => Some("kahn and kahn_explain"),
        "--watch" => Some("kahn and kahn_live"),
        "--in" | "--out" | "--plain" | "--at-end" | "--keep-going" | "--step" => {
            Some("kahn_live")
        }
        _ => None,
    }
}

/// Reports that a word isn't expected, as clap says it, but in place of its advice to pass the word as a value, who has that option.
fn tell_unexpected(rt: &impl Eprint, text: &str) {
    let owners = owners_of(text);
    let mut is_apart = false;
    for line in text.lines() {
        let is_advice = line.starts_with("  tip: to pass '");
        if !is_advice && !(is_apart && line.is_empty()) {
            let _ = eprintln!(rt; "{line}");
            is_apart = line.is_empty();
        }
        if let (true, Some(programs)) = (is_advice, owners) {
            let _ = eprintln!(rt; "  tip: it is an option of {programs}");
            is_apart = false;
        }
    }
}

/// Reports why a command line asks for no run. Returns the status: 0 for the help and the version, 2 if it is refused, 4 if memory was.
pub fn tell_line(rt: &(impl Print + Eprint + AllocGlobal), fault: &LineFault) -> u8
    ensures { result ≡ line_status fault.now }
{
    match fault {
        LineFault::NoMemory => tell_no_memory(rt),
        LineFault::Refused(error) => {
            let mut text = String::new(rt.alloc());
            if error.kind() == LineKind::UnknownArgument && write!(text, "{error}").is_ok() {
                tell_unexpected(rt, text.as_str());
            } else {
                let _ = error.print(rt);
            }
            match error.kind() {
                LineKind::DisplayHelp | LineKind::DisplayVersion => 0,
                _ => 2,
            }
        }
    }
}

/// Reports why the words of the command line couldn't be read. Returns the status: 2 if one isn't UTF-8, 4 if memory was refused.
pub fn tell_words(rt: &impl Eprint, error: &Error) -> u8
    ensures memory { error_kind error.now ≡ ErrorKind.OutOfMemory → result ≡ 4 }
    ensures refused { error_kind error.now ≢ ErrorKind.OutOfMemory → result ≡ 2 }
{
    if error.kind() == ErrorKind::OutOfMemory {
        return tell_no_memory(rt);
    }
    let _ = eprintln!(rt; "error: a word of the command line is not UTF-8");
    2
}
