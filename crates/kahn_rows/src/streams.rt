//! Texts in and out over readers and writers that fail.

ghost use Rattle.std.specs.Prelude.{Some};
ghost use Rattle.kahn_texts.specs.Formats.{HasItsLines};

use crate::programs::{AMPLE, COUNT, config, network_of};
use kahn_check::CheckFault;
use kahn_fault::{Fault, fault_line};
use kahn_pool::{Answer, Open, Verdict, run_one};
use kahn_report::{
    ReadFault, WorkFault, WriteFault, read_text, right_lines, work, write_closing, write_line,
    write_report_by,
};
use kahn_streams::{Input, Network};
use kahn_syntax::Span;
use std::alloc::Global;
use std::hash::RandomState;
use std::io;
use std::io::{Error, ErrorKind, Read, Write};
use std::process::Abort;
use std::test::Fail;
use std::thread::Threads;

// A writer that takes one byte a call, and at one call returns an error, or, if none is named, takes no byte.
#[derive(Drop)]
struct Slow {
    taken: Vec<u8>,
    calls: usize,
    flushes: usize,
    fails_at: usize,
    error: Option<ErrorKind>,
    flush_fails: bool,
}

// A reader of one byte a call, which fails at a call.
#[derive(Drop)]
struct Drip<'a> {
    left: &'a [u8],
    calls: usize,
    fails_at: usize,
    error: ErrorKind,
}

static REPORT: &[u8; 47] = b"W: 0 1 2\nend 1 count: ended after 7\nfinished 7\n";

impl Slow {
    fn new(alloc: Global, fails_at: usize, error: Option<ErrorKind>, flush_fails: bool) -> Slow {
        Slow {
            taken: Vec::new(alloc),
            calls: 0,
            flushes: 0,
            fails_at,
            error,
            flush_fails,
        }
    }
}

impl Write for Slow {
    ghost contents = { λ w. Some w.taken.items };

    fn write(&mut self, buf: &[u8]) -> io::Result<usize> {
        self.calls = self.calls.saturating_add(1);
        if self.calls == self.fails_at {
            return match self.error {
                Some(kind) => Err(Error::from(kind)),
                None => Ok(0),
            };
        }
        if buf.is_empty() {
            return Ok(0);
        }
        self.taken.push(buf[0])?;
        Ok(1)
    }

    fn flush(&mut self) -> io::Result<()> {
        self.flushes = self.flushes.saturating_add(1);
        if self.flush_fails {
            return Err(Error::from(ErrorKind::Other));
        }
        Ok(())
    }
}

impl Read for Drip<'_> {
    fn read(&mut self, buf: &mut [u8]) -> io::Result<usize> {
        self.calls = self.calls.saturating_add(1);
        if self.calls == self.fails_at {
            return Err(Error::from(self.error));
        }
        let Some((first, rest)) = self.left.split_first() else {
            return Ok(0);
        };
        if buf.is_empty() {
            return Ok(0);
        }
        buf[0] = *first;
        self.left = rest;
        Ok(1)
    }
}

// The bytes before the call that fails went out, and no others.
#[test]
fn a_write_of_the_report_fails(rt: HostRuntime) -> Result<(), Fail> {
    let rows = [
        (Some(ErrorKind::Other), WriteFault::Failed),
        (Some(ErrorKind::Interrupted), WriteFault::Failed),
        (None, WriteFault::Zero),
    ];
    let seed = RandomState::new(&rt)?;
    for (error, fault) in rows {
        for sent in 0..47usize {
            let config = config(4, 1000, AMPLE);
            let mut writer = Slow::new(rt.alloc(), sent + 1, error, false);
            let told = work(&rt, rt.alloc(), seed, COUNT, "", config, &Open, &mut writer);
            assert_eq!(rt; told, Err(WorkFault::Write(fault)));
            assert_eq!(rt; writer.taken.as_slice(), &REPORT[..sent]);
        }
    }
    Ok(())
}

// By each number of threads the same bytes go out in the same order, up to the call that fails.
fn writes_by_several<R: Abort + Threads + Sync>(
    rt: &R,
    alloc: Global,
    network: &Network,
    answer: &Answer,
) -> Result<(), Fail>
    requires { HasItsLines network.now answer.now }
{
    for threads in 1..6usize {
        for sent in 0..48usize {
            let mut writer = Slow::new(alloc, sent + 1, Some(ErrorKind::Other), false);
            let told = write_report_by(rt, alloc, &mut writer, network, answer, threads);
            assert_eq!(rt; told.is_ok(), sent == 47);
            assert_eq!(rt; writer.taken.as_slice(), &REPORT[..sent]);
        }
    }
    Ok(())
}

#[test]
fn several_threads_write_a_report(rt: HostRuntime) -> Result<(), Fail> {
    let alloc = rt.alloc();
    let network = network_of(&rt, alloc, COUNT)?;
    let answer = run_one(alloc, &network, Input::none(alloc, &network)?, 100)?;
    right_lines();
    writes_by_several(&rt, alloc, &network, &answer)
}

// All bytes of a report, a fault's line, a report's end and a picture's line went out, one a call, and one flush came last of each.
#[test]
fn the_flush_alone_fails(rt: HostRuntime) -> Result<(), Fail> {
    let alloc = rt.alloc();
    let network = network_of(&rt, alloc, COUNT)?;
    let answer = run_one(alloc, &network, Input::none(alloc, &network)?, 100)?;
    let fault = Fault::Work(WorkFault::Check(CheckFault::NoWriter(Span { from: 8, to: 9 })));
    let failed = WriteFault::Failed;
    let rows = [
        (false, Ok(Verdict::Finished), Ok(())),
        (true, Err(WorkFault::Write(failed)), Err(failed)),
    ];
    for (fails, report_told, told) in rows {
        let config = config(4, 1000, AMPLE);
        let mut writer = Slow::new(alloc, 0, None, fails);
        let worked = work(
            &rt,
            alloc,
            network.seed(),
            COUNT,
            "",
            config,
            &Open,
            &mut writer,
        );
        assert_eq!(rt;
            (worked, writer.calls, writer.flushes),
            (report_told, 47, 1)
        );
        let (verdict, ends) = (answer.verdict, &answer.ends);
        let closed = write_closing(&mut writer, &network, verdict, ends, answer.events);
        assert_eq!(rt; (closed, writer.calls, writer.flushes), (told, 85, 2));
        let wrote = write_line(&mut writer, &[b"digraph"]);
        assert_eq!(rt; (wrote, writer.calls, writer.flushes), (told, 92, 3));
        let said = fault_line(&fault, "begin\n  X end", &mut writer);
        assert_eq!(rt; (said, writer.calls, writer.flushes), (told, 125, 4));
        assert_eq!(rt; writer.taken.len(), 125);
    }
    Ok(())
}

// A read that fails is told, at each call, and no other.
#[test]
fn a_read_fails(rt: HostRuntime) -> Result<(), Fail> {
    let calls = COUNT.len().saturating_add(1);
    for error in [ErrorKind::Other, ErrorKind::Interrupted] {
        for call in 0..=calls {
            let mut reader = Drip {
                left: COUNT.as_bytes(),
                calls: 0,
                fails_at: call.saturating_add(1),
                error,
            };
            match read_text(rt.alloc(), &mut reader, 1000) {
                Ok(text) => assert_eq!(rt; (call, text.as_str()), (calls, COUNT)),
                Err(fault) => assert!(rt; call < calls && fault == ReadFault::Failed),
            }
        }
    }
    Ok(())
}
