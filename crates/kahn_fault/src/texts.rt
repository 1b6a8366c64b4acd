//! The texts of a run, each read from its file, and why one can't be read.

ghost use Rattle.std.specs.Prelude.{◌≡◌, ◌≤◌, IfErr, IfOk, MatchResult, None, [], length, string_bytes, Err};
ghost use Rattle.kahn_texts.specs.{Reading.GivesAll, Formats.most_input_bytes};
ghost use Rattle.kahn_fault.specs.{Texts.most_program_bytes, Texts.AreWithin, Texts.IsOfProgram, Texts.IsOfInput, Texts.IsOfTexts, Texts.StandsForProgram, Texts.StandsForInput};
ghost use Rattle.kahn_fault.specs.{Reasons.reason_line, Shown.IsShownFault, Shown.IsShownIf, Shown.IsShownLine, Shown.IsShownPath, Shown.IsUnreadLine, Status.status_of};
ghost use Rattle.kahn_texts.specs.Shown.{shown_text};
ghost use Rattle.kahn_streams.specs.Written.{Writes};

use crate::fault::{Fault, Told, tell};
use kahn_texts::{ReadFault, WriteFault, add_shown_text, read_text, write_line};
use std::alloc::{AllocError, Global};
use std::fs;
use std::hash::RandomState;
use std::io::{ErrorKind, Read, Write};
use std::random::RandomSource;
use std::rt::Runtime;

/// The most bytes of a program text.
pub const MOST_PROGRAM_BYTES: usize = 1_048_576;

/// The most bytes of an input text.
pub const MOST_INPUT_BYTES: usize = 16_777_216;

/// The texts of a run, and the secret for its hashes.
#[derive(Drop)]
pub struct Texts {
    /// The secret under which the names of the program are hashed.
    pub seed: RandomState,
    /// The program text.
    pub program: String,
    /// The input text, which is empty if no file is named.
    pub input: String,
}

/// Reads a program text: all that the reader has, within the limit. A fault names the path that was given, if any.
pub fn program_of<R: Read>(
    alloc: Global,
    reader: &mut R,
    path: Option<String>,
) -> Result<String, Fault>
    ensures all { IfOk result (λ text. GivesAll (R.remaining reader.old) (R.remaining reader.new) most_program_bytes (string_bytes text)) }
    ensures fault { IfErr result (StandsForProgram path (R.remaining reader.old) (R.remaining reader.new)) }
{
    read_text(alloc, reader, MOST_PROGRAM_BYTES).map_err(|fault| Fault::Program(path, fault))
}

/// Reads an input text: all that the reader has, within the limit. A fault names the path that was given.
pub fn input_of<R: Read>(alloc: Global, reader: &mut R, path: String) -> Result<String, Fault>
    ensures all { IfOk result (λ text. GivesAll (R.remaining reader.old) (R.remaining reader.new) most_input_bytes (string_bytes text)) }
    ensures fault { IfErr result (StandsForInput path (R.remaining reader.old) (R.remaining reader.new)) }
{
    read_text(alloc, reader, MOST_INPUT_BYTES).map_err(|fault| Fault::InputText(path, fault))
}

fn program_text<R: Runtime + AllocGlobal>(rt: &R, path: Option<String>) -> Result<String, Fault>
    ensures { MatchResult result (λ text. length (string_bytes text) ≤ most_program_bytes) (IsOfProgram path) }
{
    let Some(path) = path else {
        return program_of(rt.alloc(), &mut rt.reader(), None);
    };
    let Ok(mut file) = fs::open(rt, path.as_str()) else {
        return Err(Fault::Open(path));
    };
    program_of(rt.alloc(), &mut file, Some(path))
}

fn input_text<R: Runtime + AllocGlobal>(rt: &R, path: Option<String>) -> Result<String, Fault>
    ensures within { MatchResult result (λ text. length (string_bytes text) ≤ most_input_bytes) (IsOfInput path) }
    ensures empty { IfOk result (λ text. path ≡ None → string_bytes text ≡ []) }
{
    let Some(path) = path else {
        return Ok(String::new(rt.alloc()));
    };
    let Ok(mut file) = fs::open(rt, path.as_str()) else {
        return Err(Fault::Open(path));
    };
    input_of(rt.alloc(), &mut file, path)
}

/// Takes a secret from the system, and opens and reads the program text and then the input text, each within its limit. A
/// fault names the path that was given. If the system has no secret, the program text counts as one that can't be read.
pub fn read_texts<R: Runtime + AllocGlobal + RandomSource>(
    rt: &R,
    program: Option<String>,
    input: Option<String>,
) -> Result<Texts, Fault>
    ensures { MatchResult result (AreWithin input) (IsOfTexts program input) }
{
    let Ok(seed) = RandomState::new(rt) else {
        return Err(Fault::Program(program, ReadFault::Failed));
    };
    let program = program_text(rt, program)?;
    let input = input_text(rt, input)?;
    Ok(Texts {
        seed,
        program,
        input,
    })
}

/// Returns why the system opens or reads no file, in words.
fn file_words(kind: ErrorKind) -> &'static str {
    match kind {
        ErrorKind::NotFound => "there is no such file",
        ErrorKind::PermissionDenied => "there is no permission to read it",
        ErrorKind::IsADirectory => "it is a folder",
        ErrorKind::NotADirectory => "its path leads through what is no folder",
        ErrorKind::FilesystemLoop => "its path has too many symbolic links",
        ErrorKind::InvalidFilename => "its name is too long",
        _ => "",
    }
}

/// Returns why the next byte can't be read, in words, or nothing if it can.
fn reading_words<R: Read>(reader: &mut R) -> &'static str {
    let mut byte = [0; 1];
    match reader.read(&mut byte) {
        Ok(_) => "",
        Err(error) => file_words(error.kind()),
    }
}

/// Returns why a text can't be read, in the words that follow those of its fault, or nothing if a file can be read by now: it is tried again.
fn unread_words<R: Runtime>(rt: &R, fault: &Fault) -> &'static str {
    match fault {
        Fault::Program(None, ReadFault::Failed) => reading_words(&mut rt.reader()),
        Fault::Program(_, ReadFault::TooLong) => "it may have at most 1048576 bytes",
        Fault::InputText(_, ReadFault::TooLong) => "it may have at most 16777216 bytes",
        Fault::Open(path)
        | Fault::Program(Some(path), ReadFault::Failed)
        | Fault::InputText(path, ReadFault::Failed) => match fs::open(rt, path.as_str()) {
            Ok(mut file) => reading_words(&mut file),
            Err(_) if path.as_str() == "-" => "standard input is /dev/stdin",
            Err(error) => file_words(error.kind()),
        },
        _ => "",
    }
}

/// Writes a line with a reason, after the name of the program that gives it. After a fault a prefix of it went out.
pub fn tell_reason<'a, W: Write>(
    name: &'a str,
    reason: &'a str,
    writer: &mut W,
) -> Result<(), WriteFault>
    ensures { Writes (W.contents writer.old) (W.contents writer.new) result (reason_line name.now reason.now) }
{
    write_line(writer, &[name.as_bytes(), b": ", reason.as_bytes(), b"\n"])
}

/// Returns a path as it is shown.
pub fn shown_path(alloc: Global, path: &str) -> Result<String, AllocError>
    ensures { IfOk result (λ shown. string_bytes shown ≡ shown_text path.now) }
{
    let mut shown = String::new(alloc);
    add_shown_text(&mut shown, path)?;
    Ok(shown)
}

/// Returns that, or an empty path if memory is refused for it.
fn shown_or_empty(alloc: Global, path: &String) -> String
    ensures { IsShownPath path.now result }
{
    match shown_path(alloc, path.as_str()) {
        Ok(shown) => shown,
        Err(_) => String::new(alloc),
    }
}

fn shown_if(alloc: Global, path: &Option<String>) -> Option<String>
    ensures { IsShownIf path.now result }
{
    match path {
        Some(path) => Some(shown_or_empty(alloc, path)),
        None => None,
    }
}

/// Returns a fault with its path as it is shown, or with an empty path if memory is refused for it.
fn shown_fault(alloc: Global, fault: &Fault) -> Fault
    ensures shown { IsShownFault fault.now result }
    ensures status { status_of (Err result) ≡ status_of (Err fault.now) }
{
    match fault {
        Fault::Open(path) => Fault::Open(shown_or_empty(alloc, path)),
        Fault::Program(path, fault) => Fault::Program(shown_if(alloc, path), *fault),
        Fault::InputText(path, fault) => Fault::InputText(shown_or_empty(alloc, path), *fault),
        Fault::Work(fault) => Fault::Work(*fault),
    }
}

/// Reports why the texts of a run can't be read, in one line with a path as it is shown, and returns the status.
pub fn tell_shown<W: Write>(alloc: Global, fault: &Fault, writer: &mut W) -> Told
    ensures status { result.status ≡ status_of (Err fault.now) }
    ensures line { IsShownLine fault.now (W.contents writer.old) (W.contents writer.new) result.line }
{
    tell(&Err(shown_fault(alloc, fault)), "", writer)
}

/// Reports what `tell_shown` does, and then the reason, if there is one, after the name of the program. Returns the status.
pub fn tell_unread<R: Runtime + AllocGlobal, W: Write>(
    rt: &R,
    name: &str,
    fault: &Fault,
    writer: &mut W,
) -> Told
    ensures status { result.status ≡ status_of (Err fault.now) }
    ensures line { IsUnreadLine name.now fault.now (W.contents writer.old) (W.contents writer.new) result.line }
{
    let reason = unread_words(rt, fault);
    let told = tell_shown(rt.alloc(), fault, writer);
    if !reason.is_empty() {
        // A failure to write this doesn't change the status.
        let _told = tell_reason(name, reason, writer);
    }
    told
}
