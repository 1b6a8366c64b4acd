//! Writing bytes, and counts of calls.

ghost use Rattle.std.specs.Prelude.{◌≡◌, ◌+◌, ◌≤◌, IfSome, length, flat_map, ℕ};
ghost use Rattle.std.specs.Io.KnownBytes.{Keeps};
ghost use Rattle.kahn_streams.specs.Written.{Writes};

use kahn_streams::{About, Steps};
use std::io::Write;
use std::sync::ledger::Ledger;
use thiserror::Error;

/// Why a text wasn't written whole.
#[derive(Clone, Copy, Debug, PartialEq, Eq, Drop, Error)]
pub enum WriteFault {
    #[error("a write failed")]
    Failed,
    #[error("a write took no byte")]
    Zero,
}

/// How many bytes a pipe takes at once or not at all: if several programs write to it, they stay together.
const ROOM: usize = 4096;

/// A count that only contracts see. It has no bytes.
#[derive(Drop)]
pub struct GhostCount {
    calls: About<u64>,
}

/// Writes bytes, by as many writes as it takes.
#[inline(always)]
pub fn put<W: Write, C: CallCount>(
    writer: &mut W,
    bytes: &[u8],
    writes: &mut C,
) -> Result<(), WriteFault>
    ensures text { Writes (W.contents writer.old) (W.contents writer.new) result bytes.now }
    ensures few { C.count writes.new ≤ C.count writes.old + length bytes.now }
{
    let mut rest = bytes;
    while !rest.is_empty() {
        writes.tick();
        match writer.write(rest) {
            Ok(0) => return Err(WriteFault::Zero),
            Ok(count) => rest = &rest[count..],
            Err(_) => return Err(WriteFault::Failed),
        }
    }
    Ok(())
}

/// Writes pieces one after another.
#[inline(always)]
pub fn put_all<W: Write, C: CallCount>(
    writer: &mut W,
    pieces: &[&[u8]],
    writes: &mut C,
) -> Result<(), WriteFault>
    ensures text { Writes (W.contents writer.old) (W.contents writer.new) result (flat_map (λ piece. piece.now) pieces.now) }
    ensures few { C.count writes.new ≤ C.count writes.old + length (flat_map (λ piece. piece.now) pieces.now) }
{
    for piece in pieces {
        put(writer, piece, writes)?;
    }
    Ok(())
}

/// Joins pieces in `room` and returns their text, if they fit.
fn joined<'a>(pieces: &[&[u8]], room: &'a mut [u8]) -> Option<&'a [u8]>
    ensures { IfSome result (λ text. text.now ≡ flat_map (λ piece. piece.now) pieces.now) }
{
    let mut end = 0;
    for piece in pieces {
        if room.len() - end < piece.len() {
            return None;
        }
        room[end..end + piece.len()].copy_from_slice(piece);
        end += piece.len();
    }
    Some(&room[..end])
}

/// Writes the pieces of a line: by one write, if they have at most `ROOM` bytes and the writer takes them all.
pub fn put_line<W: Write, C: CallCount>(
    writer: &mut W,
    pieces: &[&[u8]],
    writes: &mut C,
) -> Result<(), WriteFault>
    ensures text { Writes (W.contents writer.old) (W.contents writer.new) result (flat_map (λ piece. piece.now) pieces.now) }
    ensures few { C.count writes.new ≤ C.count writes.old + length (flat_map (λ piece. piece.now) pieces.now) }
{
    let mut room = [0; ROOM];
    match joined(pieces, &mut room) {
        Some(text) => put(writer, text, writes),
        None => put_all(writer, pieces, writes),
    }
}

/// Flushes a writer, whose contents stay, and counts it.
pub fn flush<W: Write, C: CallCount>(writer: &mut W, flushes: &mut C) -> Result<(), WriteFault>
    ensures kept { Keeps (W.contents writer.old) (W.contents writer.new) }
    ensures once { C.count flushes.new ≡ C.count flushes.old + 1 }
{
    flushes.tick();
    writer.flush().map_err(|_| WriteFault::Failed)
}

/// Writes the pieces of a line, and flushes. After a fault a prefix of them went out. Never allocates.
#[tactic(auto, using(crate::proofs::Writing::fails, crate::proofs::Writing::flushed))]
pub fn write_line<W: Write>(writer: &mut W, pieces: &[&[u8]]) -> Result<(), WriteFault>
    ensures { Writes (W.contents writer.old) (W.contents writer.new) result (flat_map (λ piece. piece.now) pieces.now) }
{
    put_line(writer, pieces, &mut uncounted())?;
    flush(writer, &mut uncounted())
}

/// What counts the calls of a reader or writer.
pub trait CallCount {
    // the calls so far
    ghost count: { Self → ℕ };

    /// Counts one more.
    fn tick(&mut self)
        ensures { count self.new ≡ count self.old + 1 };
}

impl<L: Ledger> CallCount for Steps<L> {
    ghost count = { λ s. s };

    #[inline(always)]
    fn tick(&mut self) {
        Steps::tick(self);
    }
}

impl CallCount for GhostCount {
    ghost count = { λ u. u.calls.value };

    #[inline(always)]
    fn tick(&mut self) {
        self.calls = one_more(self);
    }
}

fn one_more(_count: &GhostCount) -> About<u64>
    ghost calls: { ℕ }
    ensures { result.value ≡ calls }
{
    About::named()
}

/// A count of no calls.
pub fn uncounted() -> GhostCount {
    GhostCount {
        calls: About::named(),
    }
}
