//! A text, read to its end within a limit.

ghost use Rattle.std.specs.Prelude.{◌≡◌, ◌+◌, ◌<◌, ◌≤◌, MatchResult, string_bytes};
ghost use Rattle.std.specs.Str.{IsUtf8};
ghost use Rattle.kahn_texts.specs.Reading.{IsTextRead};

use crate::bytes::{CallCount, uncounted};
use std::alloc::Global;
use std::io::Read;
use thiserror::Error;

/// Why a text wasn't read.
#[derive(Clone, Copy, Debug, PartialEq, Eq, Error)]
pub enum ReadFault {
    /// A read failed.
    #[error("cannot be read")]
    Failed,
    /// There are more bytes than the limit.
    #[error("text is too long")]
    TooLong,
    /// The bytes aren't UTF-8.
    #[error("is not UTF-8")]
    NotUtf8,
    /// Memory was refused.
    #[error("no memory")]
    NoMemory,
}

/// Reads a text to its end, and counts the reads.
pub fn read_counted<R: Read, C: CallCount>(
    alloc: Global,
    reader: &mut R,
    limit: usize,
    reads: &mut C,
) -> Result<String, ReadFault>
    requires { limit < usize.MAX }
    ensures text { IsTextRead (R.remaining reader.old) (R.remaining reader.new) limit result }
    ensures few { C.count reads.new ≤ C.count reads.old + limit + 2 }
{
    let mut bytes = Vec::new(alloc);
    let mut chunk = [0u8; 4096];
    while bytes.len() <= limit {
        let room = chunk.len().min(limit + 1 - bytes.len());
        reads.tick();
        let Ok(count) = reader.read(&mut chunk[..room]) else {
            return Err(ReadFault::Failed);
        };
        if count == 0 {
            return text_of(bytes);
        }
        if bytes.extend_from_slice(&chunk[..count]).is_err() {
            return Err(ReadFault::NoMemory);
        }
    }
    Err(ReadFault::TooLong)
}

fn text_of(bytes: Vec<u8>) -> Result<String, ReadFault>
    ensures { MatchResult result (λ text. string_bytes text ≡ bytes.items) (λ fault. (fault ≡ ReadFault.NotUtf8) × ¬ IsUtf8 bytes.items) }
{
    String::from_utf8(bytes).map_err(|_| ReadFault::NotUtf8)
}

/// Reads a text to the end of input, or until one byte more than the limit came. What was read is gone from the reader.
pub fn read_text<R: Read>(alloc: Global, reader: &mut R, limit: usize) -> Result<String, ReadFault>
    requires { limit < usize.MAX }
    ensures { IsTextRead (R.remaining reader.old) (R.remaining reader.new) limit result }
{
    read_counted(alloc, reader, limit, &mut uncounted())
}
