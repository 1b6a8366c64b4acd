//! Runs, draws and explains texts for a host that calls in, as a page does. The bytes of a program and an input go in. Out come the
//! bytes of a report, or of why the run stopped, or of what each channel carried, or of a picture.
#![tactic(auto)]

ghost use Rattle.kahn_web.specs.{Explained.IsReason, Page.IsPut, Page.IsPutIf, Page.IsRunInto, Picture.IsNetworkPicture, Whole.IsWholeText};

mod secret;
mod whole;

use crate::secret::PageSecret;
use crate::whole::{kept, reason, run_texts};
use kahn_fault::checked;
use kahn_graph::picture_text;
use std::alloc::Global;
use std::hash::RandomState;

/// The result of a run.
#[repr(C)]
#[derive(Drop)]
pub struct RunOutcome {
    /// The status that the program `kahn` ends with for the same texts.
    pub status: u64,
    /// How many bytes the report has, or the line of the fault if there isn't a report.
    pub length: u64,
}

// Copies the bytes to the front of the room, if it is large enough, and returns how many there are.
fn put(bytes: &[u8], room: &mut [u8]) -> u64
    ensures { IsPut bytes.now room.old room.new result }
{
    if bytes.len() <= room.len() {
        room[..bytes.len()].copy_from_slice(bytes);
    }
    bytes.len() as u64
}

/// Runs a program on an input for at most `bound` events on the caller's thread. The report, or else the line of the fault, is
/// copied to the front of the room, if it is large enough; else the room keeps its bytes.
#[unsafe(no_mangle)]
pub extern "C" fn kahn_web_run(
    alloc: Global,
    secret: &PageSecret,
    program: &[u8],
    input: &[u8],
    bound: u64,
    room: &mut [u8],
    outcome: &mut RunOutcome,
)
    ensures { IsRunInto program.now input.now bound room.old room.new outcome.new.status outcome.new.length }
{
    let mut written = Vec::new(alloc);
    let status = run_texts(alloc, secret, program, input, bound, &mut written);
    *outcome = RunOutcome {
        status: status as u64,
        length: put(written.as_slice(), room),
    };
}

/// Draws the network of a program. The picture, in the language of Graphviz, is copied as a report is. Returns its length, which is
/// 0 if the text isn't UTF-8, if the program is refused, or if memory is refused.
#[unsafe(no_mangle)]
pub extern "C" fn kahn_web_draw(
    alloc: Global,
    secret: &PageSecret,
    program: &[u8],
    room: &mut [u8],
) -> u64
    ensures { IsPutIf (IsNetworkPicture program.now) room.old room.new result }
{
    let Ok(program) = std::str::from_utf8(program) else {
        return 0;
    };
    let Ok(seed) = RandomState::new(secret) else {
        return 0;
    };
    let Ok(network) = checked(alloc, seed, program) else {
        return 0;
    };
    match picture_text(alloc, &network, program, &[], &[]) {
        Ok(picture) => put(picture.as_bytes(), room),
        Err(_) => 0,
    }
}

/// Explains why a program is refused, or its input, or why its run for at most `bound` events stopped. The text is copied as a
/// report is. Returns its length, which is 0 if there is nothing to explain.
#[unsafe(no_mangle)]
pub extern "C" fn kahn_web_explain(
    alloc: Global,
    secret: &PageSecret,
    program: &[u8],
    input: &[u8],
    bound: u64,
    room: &mut [u8],
) -> u64
    ensures { IsPutIf (IsReason program.now input.now bound) room.old room.new result }
{
    match reason(alloc, secret, program, input, bound) {
        Some(text) => put(text.as_slice(), room),
        None => 0,
    }
}

/// Runs a program on an input for at most `bound` events, at most `quantum` of them in a turn of a process, and keeps what is sent
/// on every channel.
/// For each channel in order of declaration there is a line with its number of values and how many of them were taken. Then comes a
/// line of its history, unless that is empty or in the report. The report comes last. If a process reads a channel that it writes,
/// each turn is one event.
/// The text is copied as a report is. Returns its length, which is 0 if there is none.
#[unsafe(no_mangle)]
pub extern "C" fn kahn_web_whole(
    alloc: Global,
    secret: &PageSecret,
    program: &[u8],
    input: &[u8],
    quantum: u64,
    bound: u64,
    room: &mut [u8],
) -> u64
    ensures { IsPutIf (IsWholeText program.now input.now quantum bound) room.old room.new result }
{
    match kept(alloc, secret, program, input, quantum, bound) {
        Some(text) => put(text.as_slice(), room),
        None => 0,
    }
}
