//! The lines of a run: the input's lines, and the lines that are fed at its end.

ghost use Rattle.std.specs.Prelude.{◌≡◌, ◌&&◌, IfErr, IfOk, IsTrue, None, false, map, option_copied, string_bytes, true};
ghost use Rattle.std.specs.Io.Buffered.{reader_buffer, reader_remaining};
ghost use Rattle.kahn_session.specs.{Live.HasVerdict, Pace.MayBeSlow};
ghost use Rattle.kahn_live.specs.Course.{Across, AcrossStage, HasSent, IsAloneMet, IsAnswerTold, IsLineMet, IsRefusalTold, IsPartMet, IsWriteFault, Through, no_memory, point_of, telling_of};
ghost use Rattle.kahn_live.specs.InputMet.{AreAllMet, AreCellsFed, AreCellsMet, AreEachMet, AreLastMet, AreLastTried, IsFirstPart, IsInputMet, IsAloneTold, IsCome, IsNextMet, IsReadMet, IsRowMet, is_idle, lacks_memory};
ghost use Rattle.kahn_live.specs.{Histories.HasHistories, Lines.IsReadyToRead, Lines.fed_text, Rows.bare_of, Rows.bytes_in};

use crate::lines::{
    Next, fed_line, has_line, is_several, read_line, row_cells, row_names, without_mark,
};
use crate::outlet::DeferredWriter;
use crate::telling::{Teller, tell_refused};
use kahn_fault::{Fault, WorkFault};
use kahn_session::{AT_END, Origin, Session, TakeFault, is_want};
use kahn_streams::{Failure, Open, RunFault, Verdict};
use kahn_texts::ReadFault;
use std::io::{BufReader, Read, Write};

/// What the lines of a run change: the session, the writer of what is new, and the writer of refusals.
#[derive(Drop)]
pub(crate) struct LiveStage<'n, W: Write, E: Write> {
    pub(crate) session: Session<'n>,
    pub(crate) outlet: DeferredWriter<W>,
    pub(crate) teller: Teller<E>,
}

pub(crate) fn wants_memory() -> Fault
    ensures { result ≡ no_memory }
{
    Fault::Work(WorkFault::Run(RunFault::NoMemory))
}

fn is_quiet(wanted: bool, first: Option<(usize, Failure)>, ringed: bool) -> bool
    ensures { IsTrue result → (wanted ≡ false) × (first ≡ None) }
{
    !wanted && !ringed && first.is_none()
}

/// Whether a line changes nothing: it is empty, and the run has finished.
fn is_idle(session: &Session<'_>, number: u64, line: &[u8]) -> bool
    ensures { result ≡ is_idle number line.now session.now.flow.run.verdict }
{
    number != 0 && line.is_empty() && matches!(session.verdict(), Some(Verdict::Finished))
}

fn lacks_memory(session: &Session<'_>) -> bool
    ensures { result ≡ lacks_memory session.now.flow.run.verdict }
{
    matches!(session.verdict(), Some(Verdict::Memory))
}

/// Reads the next line, without its line feed. Without an input channel it is blank, or the end after a part for which memory was
/// refused. What is new was sent before, unless the read can't block.
pub(crate) fn come<I: Read, W: Write>(
    session: &Session<'_>,
    reader: &mut BufReader<I>,
    line: &mut Vec<u8>,
    _outlet: &DeferredWriter<W>,
) -> Next
    requires { IsReadyToRead (reader_buffer reader.old) _outlet.now }
    ensures { IsCome session.now (reader_remaining I.remaining reader.old) (reader_remaining I.remaining reader.new) line.new.items result }
{
    line.clear();
    if let Some(_name) = session.first_input() {
        return read_line(reader, line);
    }
    if lacks_memory(session) {
        return Next::End;
    }
    Next::Line
}

/// Whether each line that is to be fed at the end is meant for an input channel. Else it reports the first that isn't, unless
/// memory is refused for that.
fn try_last<E: Write>(
    session: &Session<'_>,
    teller: &mut Teller<E>,
    lines: &[String],
) -> Result<bool, Fault>
    ensures { AreLastTried session.now (map string_bytes lines.now) (telling_of E.contents teller.old) (telling_of E.contents teller.new) result }
{
    for line in lines {
        let bytes = line.as_bytes();
        if let Err(fault) = session.try_line(bytes) {
            if is_want(fault) {
                return Err(wants_memory());
            }
            tell_refused(session, teller, AT_END, bytes, fault);
            return Ok(false);
        }
    }
    Ok(true)
}

impl<W: Write, E: Write> LiveStage<'_, W, E> {
    /// Sends what is new, unless the next line can be read without a wait and its part is quick.
    fn send_before<I: Read>(&mut self, reader: &BufReader<I>) -> Result<(), Fault>
        ensures sent { HasSent (point_of W.contents E.contents self.old) (point_of W.contents E.contents self.new) }
        ensures ready { IfOk result (λ _. IsReadyToRead (reader_buffer reader.now) self.new.outlet) }
        ensures slow { IfOk result (λ _. MayBeSlow self.old.session.step self.old.session.flow.run → self.new.outlet.due ≡ false) }
        ensures fault { IfErr result IsWriteFault }
    {
        if has_line(reader) && !self.session.may_be_slow() {
            return Ok(());
        }
        self.outlet.send()
    }

    /// Reports a fault of line `number`, after what is new so far. It fails if that can't be written.
    fn tell_behind(&mut self, fault: TakeFault, number: u64, line: &[u8]) -> Result<(), Fault>
        ensures session { self.new.session ≡ self.old.session }
        ensures told { IsRefusalTold number line.now fault (point_of W.contents E.contents self.old) (point_of W.contents E.contents self.new) result }
    {
        self.outlet.send()?;
        tell_refused(&self.session, &mut self.teller, number, line, fault);
        Ok(())
    }

    /// Reports what there is to report of the part of line `number`, which had this verdict, after what is new.
    fn tell_part(&mut self, verdict: Verdict, number: u64, line: &[u8]) -> Result<(), Fault>
        requires { HasVerdict self.old.session }
        ensures session { self.new.session ≡ self.old.session }
        ensures told { IsPartMet number line.now verdict (point_of W.contents E.contents self.old) (point_of W.contents E.contents self.new) result }
    {
        let wanted = self.teller.is_verdict_new(verdict, line);
        let first = self.teller.new_fault(&self.session);
        let ringed = self.teller.is_ring_new(&self.session);
        if is_quiet(wanted, first, ringed) {
            return Ok(());
        }
        self.outlet.send()?;
        self.teller.tell_verdict(number, wanted, verdict);
        self.teller.tell_faulty(number, &self.session, first);
        self.teller.tell_ring(number, &self.session);
        Ok(())
    }

    fn tell_answer(
        &mut self,
        answer: Result<Verdict, TakeFault>,
        number: u64,
        line: &[u8],
    ) -> Result<Option<TakeFault>, Fault>
        requires { IfOk answer (λ _. HasVerdict self.old.session) }
        ensures { IsAnswerTold number line.now answer (point_of W.contents E.contents self.old) (point_of W.contents E.contents self.new) result }
    {
        match answer {
            Ok(verdict) => {
                self.tell_part(verdict, number, line)?;
                Ok(None)
            }
            Err(TakeFault::Write(fault)) => Err(Fault::Work(WorkFault::Write(fault))),
            Err(fault) => {
                self.tell_behind(fault, number, line)?;
                Ok(Some(fault))
            }
        }
    }

    fn take_line(&mut self, line: &[u8], number: u64) -> Result<Option<TakeFault>, Fault>
        requires { self.old.session.broken ≡ false }
        ensures broken { IfOk result (λ _. self.new.session.broken ≡ false) }
        ensures met { IsLineMet number line.now (point_of W.contents E.contents self.old) (point_of W.contents E.contents self.new) result }
    {
        let answer = self.session.take(line, &Open, &mut self.outlet);
        self.tell_answer(answer, number, line)
    }

    /// Takes a line of the input, with a name or of one channel, and returns why it was refused. If memory is refused for it, it
    /// reports that.
    fn take_alone(
        &mut self,
        input: Option<&str>,
        line: &[u8],
        number: u64,
        room: &mut Vec<u8>,
    ) -> Result<Option<TakeFault>, Fault>
        requires { self.old.session.broken ≡ false }
        ensures broken { IfOk result (λ _. self.new.session.broken ≡ false) }
        ensures met { AcrossStage W.contents E.contents self.old self.new (λ p q. IsAloneMet number (fed_text (option_copied input.entry) line.now) p q result) }
    {
        let Ok(fed) = fed_line(input, line, room) else {
            self.tell_behind(TakeFault::NoMemory, number, b"")?;
            return Ok(Some(TakeFault::NoMemory));
        };
        self.take_line(fed, number)
    }

    /// Feeds the lines of a row, each meant for an input channel. One that is refused all the same ends the run: others were fed.
    fn feed_cells(&mut self, cells: &[Vec<u8>], number: u64) -> Result<(), Fault>
        requires { self.old.session.broken ≡ false }
        ensures broken { IfOk result (λ _. self.new.session.broken ≡ false) }
        ensures fed { AcrossStage W.contents E.contents self.old self.new (λ p q. AreCellsFed number (map bytes_in cells.now) p q result) }
    {
        for cell in cells {
            if let Err(fault) = self.session.feed(cell) {
                self.tell_behind(fault, number, cell)?;
                return Err(wants_memory());
            }
        }
        Ok(())
    }

    /// Takes the lines of a row, for channels with these names: feeds all, and then runs one part.
    fn take_cells(&mut self, names: &str, cells: &[Vec<u8>], number: u64) -> Result<(), Fault>
        requires { self.old.session.broken ≡ false }
        ensures broken { IfOk result (λ _. self.new.session.broken ≡ false) }
        ensures met { AcrossStage W.contents E.contents self.old self.new (λ p q. AreCellsMet number names.now (map bytes_in cells.now) p q result) }
    {
        self.feed_cells(cells, number)?;
        match self.session.run(&Open, &mut self.outlet) {
            Ok(verdict) => self.tell_part(verdict, number, names.as_bytes()),
            Err(fault) => Err(Fault::Work(WorkFault::Write(fault))),
        }
    }

    fn take_row(&mut self, names: &str, row: &[u8], number: u64) -> Result<Option<TakeFault>, Fault>
        requires { self.old.session.broken ≡ false }
        ensures broken { IfOk result (λ _. self.new.session.broken ≡ false) }
        ensures met { AcrossStage W.contents E.contents self.old self.new (λ p q. IsRowMet names.now number row.now p q result) }
    {
        match row_cells(self.teller.alloc, &self.session, names.as_bytes(), row) {
            Ok(cells) => {
                self.take_cells(names, &cells, number)?;
                Ok(None)
            }
            Err((fault, cell)) => {
                self.tell_behind(fault, number, &cell)?;
                Ok(Some(fault))
            }
        }
    }

    fn take_read(
        &mut self,
        input: Option<&str>,
        line: &[u8],
        number: u64,
        room: &mut Vec<u8>,
    ) -> Result<Option<TakeFault>, Fault>
        requires { self.old.session.broken ≡ false }
        ensures broken { IfOk result (λ _. self.new.session.broken ≡ false) }
        ensures met { AcrossStage W.contents E.contents self.old self.new (λ p q. IsReadMet (option_copied input.entry) number line.now p q result) }
    {
        let line = without_mark(line, number);
        if is_idle(&self.session, number, line) {
            return Ok(None);
        }
        match row_names(input) {
            Some(names) => self.take_row(names, line, number),
            None => self.take_alone(input, line, number, room),
        }
    }

    /// Reports another input channel, to which no line goes, if bare values of one channel are read.
    fn tell_alone(&mut self, input: Option<&str>)
        ensures { AcrossStage W.contents E.contents self.old self.new (IsAloneTold (bare_of (option_copied input.entry))) }
    {
        let Some(input) = input else {
            return;
        };
        if is_several(input) {
            return;
        }
        let Some(other) = self.session.other_input(input) else {
            return;
        };
        let (words, between) = ("--plain feeds ", " alone; no line feeds ");
        self.teller
            .say(Origin::File, words, b"", input, between, other);
    }

    /// Reads and takes the next line, and returns whether there was one. What is new is written before, unless the read doesn't
    /// wait.
    fn take_next<I: Read>(
        &mut self,
        reader: &mut BufReader<I>,
        input: Option<&str>,
        number: u64,
        line: &mut Vec<u8>,
        room: &mut Vec<u8>,
    ) -> Result<bool, Fault>
        requires { self.old.session.broken ≡ false }
        ensures broken { IfOk result (λ _. self.new.session.broken ≡ false) }
        ensures met { Across I.remaining W.contents E.contents reader.old reader.new self.old self.new (IsNextMet (option_copied input.entry) number result) }
    {
        self.send_before(reader)?;
        match come(&self.session, reader, line, &self.outlet) {
            Next::Line => {
                let _ = self.take_read(input, line, number, room)?;
                Ok(true)
            }
            Next::End => Ok(false),
            Next::Failed => Err(Fault::Program(None, ReadFault::Failed)),
            Next::NoMemory => {
                self.tell_behind(TakeFault::NoMemory, number, b"")?;
                Ok(true)
            }
        }
    }

    /// Takes the lines of the reader as long as one can change the run.
    fn take_lines<I: Read>(
        &mut self,
        reader: &mut BufReader<I>,
        input: Option<&str>,
    ) -> Result<(), Fault>
        requires { self.old.session.broken ≡ false }
        ensures broken { IfOk result (λ _. self.new.session.broken ≡ false) }
        ensures met { Through I.remaining W.contents E.contents reader.old self.old self.new (IsInputMet (option_copied input.entry) result) }
    {
        let mut line = Vec::new(self.teller.alloc);
        let mut room = Vec::new(self.teller.alloc);
        for number in 1..u64::MAX {
            if self.session.is_deaf() {
                return Ok(());
            }
            if !self.take_next(reader, input, number, &mut line, &mut room)? {
                return Ok(());
            }
        }
        Ok(())
    }

    fn take_last(&mut self, lines: &[String]) -> Result<(), Fault>
        requires { self.old.session.broken ≡ false }
        ensures broken { IfOk result (λ _. self.new.session.broken ≡ false) }
        ensures met { AcrossStage W.contents E.contents self.old self.new (λ p q. AreLastMet (map string_bytes lines.now) p q result) }
    {
        for line in lines {
            let _ = self.take_line(line.as_bytes(), AT_END)?;
        }
        Ok(())
    }

    /// Runs the part before the first line, and returns whether each name whose values are in the lines without a name is an input
    /// channel's.
    fn begin(&mut self, input: Option<&str>) -> Result<bool, Fault>
        requires { self.old.session.broken ≡ false }
        ensures broken { IfOk result (λ _. self.new.session.broken ≡ false) }
        ensures begun { AcrossStage W.contents E.contents self.old self.new (λ p q. IsFirstPart (option_copied input.entry) p q result) }
    {
        let mut room = Vec::new(self.teller.alloc);
        match self.take_read(input, b"", 0, &mut room) {
            Ok(None) => Ok(true),
            Ok(Some(fault)) if is_want(fault) => Err(wants_memory()),
            Ok(Some(_)) => Ok(false),
            Err(fault) => Err(fault),
        }
    }

    /// Takes all lines, after a part before the first, and returns whether each name whose values are in the lines without a name
    /// is an input channel's.
    fn take_each<I: Read>(
        &mut self,
        reader: &mut BufReader<I>,
        input: Option<&str>,
        at_end: &[String],
    ) -> Result<bool, Fault>
        requires { self.old.session.broken ≡ false }
        ensures settled { IfOk result (λ there. there ≡ true → HasVerdict self.new.session) }
        ensures histories { IfOk result (λ there. there ≡ true → HasHistories self.new.session) }
        ensures met { Through I.remaining W.contents E.contents reader.old self.old self.new (AreEachMet (option_copied input.entry) at_end.now result) }
    {
        if !self.begin(input)? {
            return Ok(false);
        }
        self.tell_alone(input);
        self.take_lines(reader, input)?;
        self.take_last(at_end)?;
        Ok(true)
    }
}

/// Takes all lines, if those that are to be fed at the end are meant for input channels, and else none.
pub(crate) fn take_all<I: Read, W: Write, E: Write>(
    stage: &mut LiveStage<'_, W, E>,
    reader: &mut BufReader<I>,
    input: Option<&str>,
    at_end: &[String],
) -> Result<bool, Fault>
    requires { stage.old.session.broken ≡ false }
    ensures settled { IfOk result (λ there. there ≡ true → HasVerdict stage.new.session) }
    ensures histories { IfOk result (λ there. there ≡ true → HasHistories stage.new.session) }
    ensures met { Through I.remaining W.contents E.contents reader.old stage.old stage.new (AreAllMet (option_copied input.entry) at_end.now result) }
{
    match try_last(&stage.session, &mut stage.teller, at_end) {
        Ok(true) => stage.take_each(reader, input, at_end),
        Ok(false) => Ok(false),
        Err(fault) => Err(fault),
    }
}
