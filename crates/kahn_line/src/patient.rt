//! Streams that another program left so that their calls don't wait.

ghost use Rattle.std.specs.Prelude.{IsErr, IsTrue};

use std::io::{ErrorKind, Read, Write};
use std::time::{Clock, Duration};
use std::{io, thread};

/// A stream whose calls wait until they can do something: a call that would wait is tried again after a millisecond.
#[derive(Drop)]
pub struct Patient<'c, S, C> {
    pub stream: S,
    pub clock: &'c C,
}

fn would_wait<T>(done: &io::Result<T>) -> bool
    ensures { IsTrue result → IsErr done.now }
{
    matches!(done, Err(error) if error.kind() == ErrorKind::WouldBlock)
}

impl<S: Read, C: Clock> Read for Patient<'_, S, C> {
    ghost remaining = { λ p. S.remaining p.stream };

    #[tactic(auto, using(crate::proofs::Kept::none_done))]
    fn read(&mut self, buf: &mut [u8]) -> io::Result<usize> {
        for _ in 0..u64::MAX {
            let done = self.stream.read(buf);
            if !would_wait(&done) {
                return done;
            }
            thread::sleep(self.clock, Duration::from_millis(1));
        }
        self.stream.read(buf)
    }
}

impl<S: Write, C: Clock> Write for Patient<'_, S, C> {
    ghost contents = { λ p. S.contents p.stream };

    #[tactic(auto, using(crate::proofs::Kept::none_done))]
    fn write(&mut self, buf: &[u8]) -> io::Result<usize> {
        for _ in 0..u64::MAX {
            let done = self.stream.write(buf);
            if !would_wait(&done) {
                return done;
            }
            thread::sleep(self.clock, Duration::from_millis(1));
        }
        self.stream.write(buf)
    }

    fn flush(&mut self) -> io::Result<()> {
        self.stream.flush()
    }
}
