//! The writer of what is new, which is written before the next wait and not line by line; and streams that another program left in
//! a state in which they don't block.

ghost use Rattle.std.specs.Prelude.{◌≡◌, ◌⊎◌, ◌↔◌, false, true, IfErr, IsErr, IsTrue};
ghost use Rattle.std.specs.{Io.WritesAtMost, Io.KnownBytes.Keeps, Io.KnownBytes.WriteAppends};
ghost use Rattle.kahn_live.specs.{Course.IsGone, Course.IsWriteFault, Running.output_of, Running.unwritten};

use kahn_fault::{Fault, WorkFault};
use kahn_texts::WriteFault;
use std::io::{ErrorKind, Read, Write};
use std::time::{Clock, Duration};
use std::{io, thread};

/// A writer that flushes only at `send`, and remembers whether its reader is gone.
#[derive(Drop)]
pub(crate) struct DeferredWriter<W: Write> {
    pub(crate) writer: W,
    // Whether something was written since it was flushed.
    pub(crate) due: bool,
    // Whether a write or a flush answered that nobody reads it any more.
    pub(crate) gone: bool,
}

/// A stream whose calls wait until they can do something.
#[derive(Drop)]
pub(crate) struct Patient<'c, S, C> {
    pub(crate) stream: S,
    pub(crate) clock: &'c C,
}

impl<W: Write> DeferredWriter<W> {
    pub(crate) fn new(writer: W) -> DeferredWriter<W>
        ensures { output_of W.contents result ≡ unwritten (W.contents writer) }
    {
        DeferredWriter {
            writer,
            due: false,
            gone: false,
        }
    }

    pub(crate) fn send(&mut self) -> Result<(), Fault>
        ensures kept { Keeps (W.contents self.old.writer) (W.contents self.new.writer) }
        ensures sent { self.new.due ≡ false }
        ensures gone { IsTrue self.old.gone → IsTrue self.new.gone }
        ensures none { IsTrue self.new.gone → IsTrue self.old.gone ⊎ IsErr result }
        ensures fault { IfErr result IsWriteFault }
    {
        if !self.due {
            return Ok(());
        }
        self.due = false;
        let done = self.writer.flush();
        self.gone |= is_gone(&done);
        done.map_err(|_| Fault::Work(WorkFault::Write(WriteFault::Failed)))
    }
}

fn is_gone<T>(done: &io::Result<T>) -> bool
    ensures { IsTrue result ↔ IsGone done.now }
{
    matches!(done, Err(error) if error.kind() == ErrorKind::BrokenPipe)
}

impl<W: Write> Write for DeferredWriter<W> {
    ghost contents = { λ o. W.contents o.writer };

    fn write(&mut self, buf: &[u8]) -> io::Result<usize>
        ensures bound { WritesAtMost result buf.now }
        ensures bytes { WriteAppends (W.contents self.old.writer) (W.contents self.new.writer) result buf.now }
        ensures gone { IsTrue self.new.gone ↔ IsTrue self.old.gone ⊎ IsGone result }
        ensures due { self.new.due ≡ true }
    {
        self.due = true;
        let done = self.writer.write(buf);
        self.gone |= is_gone(&done);
        done
    }

    fn flush(&mut self) -> io::Result<()>
        ensures bytes { Keeps (W.contents self.old.writer) (W.contents self.new.writer) }
    {
        Ok(())
    }
}

fn would_wait<T>(done: &io::Result<T>) -> bool
    ensures { IsTrue result → IsErr done.now }
{
    matches!(done, Err(error) if error.kind() == ErrorKind::WouldBlock)
}

impl<S: Read, C: Clock> Read for Patient<'_, S, C> {
    ghost remaining = { λ p. S.remaining p.stream };

    #[tactic(auto, using(crate::proofs::Kept::none_done))]
    fn read(&mut self, buf: &mut [u8]) -> io::Result<usize> {
        for _ in 0..u64::MAX {
            let done = self.stream.read(buf);
            if !would_wait(&done) {
                return done;
            }
            thread::sleep(self.clock, Duration::from_millis(1));
        }
        self.stream.read(buf)
    }
}

impl<S: Write, C: Clock> Write for Patient<'_, S, C> {
    ghost contents = { λ p. S.contents p.stream };

    #[tactic(auto, using(crate::proofs::Kept::none_done))]
    fn write(&mut self, buf: &[u8]) -> io::Result<usize> {
        for _ in 0..u64::MAX {
            let done = self.stream.write(buf);
            if !would_wait(&done) {
                return done;
            }
            thread::sleep(self.clock, Duration::from_millis(1));
        }
        self.stream.write(buf)
    }

    fn flush(&mut self) -> io::Result<()> {
        self.stream.flush()
    }
}
