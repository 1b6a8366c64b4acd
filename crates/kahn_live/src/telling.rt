//! Messages on lines that are refused, and on the end.

ghost use Rattle.std.specs.Prelude.{◌≡◌, ◌∷◌, [], IfOk, IsTrue, false, option_copied, string_bytes, true};
ghost use Rattle.kahn_session.specs.Live.{HasVerdict, IsRinged, has_left};
ghost use Rattle.kahn_fault.specs.{Status.live_status_of, Telling.pointer_text, Telling.told_text};
ghost use Rattle.kahn_live.specs.{Course.AreCausesOf, Course.IsFaultPut, Course.IsMoreTold, Course.IsNewFault, Course.IsNextTold, Course.IsRingTold, Course.IsTallied, Course.IsVerdictTold, Course.WasSaid, Course.WasTold, Course.is_again, Course.is_alike, Course.is_verdict_new, Course.telling_of, Running.IsEndPut, Running.IsLastTold, Running.IsLeftTold, Running.IsVerdictMet, Running.IsWhyTold, Running.untold, Course.IsHintBy, Course.IsRefused, Course.IsRefusedPart, Course.is_bare, Course.wants_hint};

use crate::running::{Amiss, is_end_wanted};
use itoa::Buffer;
use kahn_explanation::causes;
use kahn_fault::{Fault, live_status, tell, tell_explain};
use kahn_input_notes::{
    RefusedPart, head_part, inputs_words, kind_part, name_part, unknown_words, value_part,
};
use kahn_line::parted;
use kahn_session::{
    Origin, Session, TakeFault, failure_words, is_want, like_words, refused_origin, take_words,
    write_said,
};
use kahn_streams::{Failure, FeedFault, Network, Verdict};
use kahn_texts::{process_name, write_line};
use std::alloc::{AllocError, Global};
use std::io::Write;

/// The most letters of names among which one is sought that is near to the name of a refused line: a search of more would take
/// longer than its lines.
const MOST_LETTERS: u64 = 16_777_216;

/// A writer of faults, and what lines were refused.
#[derive(Drop)]
pub(crate) struct Teller<E: Write> {
    pub(crate) alloc: Global,
    pub(crate) errors: E,
    // Whether a write failed.
    pub(crate) failed: bool,
    // Whether refused lines leave the status as it is, but for those that were lost for want of memory.
    pub(crate) keep_going: bool,
    pub(crate) refused: bool,
    pub(crate) path: String,
    pub(crate) last: Option<TakeFault>,
    // The number of the line that was told to be refused, and that of the last one that was, for the same reason.
    pub(crate) first: u64,
    pub(crate) number: u64,
    // Whether it was told how bare numbers are taken; that a line wants more events than a part may do; that the part of a line waits for
    // memory; that a process has a fault; and that processes wait on one another in a ring.
    pub(crate) hinted: bool,
    pub(crate) stepped: bool,
    pub(crate) waited: bool,
    pub(crate) faulted: bool,
    pub(crate) ringed: bool,
    // How many letters of names were compared with those of refused lines.
    letters: u64,
}

fn is_alike(last: Option<TakeFault>, fault: TakeFault) -> bool
    ensures { result ≡ is_alike last fault }
{
    last.is_some_and(|last| take_words(last) == take_words(fault))
}

fn cause_words(
    alloc: Global,
    path: &str,
    program: &str,
    session: &Session<'_>,
) -> Result<String, AllocError>
    requires { HasVerdict session.now }
    ensures { IfOk result (λ words. AreCausesOf session.now.flow.run (string_bytes words)) }
{
    let Some(verdict) = session.verdict() else {
        unreachable!()
    };
    let network = session.network();
    causes(alloc, path, program, network, verdict, session.ends())
}

impl<E: Write> Teller<E> {
    /// Returns the state before the first line. With `keep_going` only lines that are lost since memory is refused count as
    /// refused.
    pub(crate) fn new(alloc: Global, errors: E, keep_going: bool, path: String) -> Teller<E>
        ensures { telling_of E.contents result ≡ untold (E.contents errors) keep_going (string_bytes path) }
    {
        Teller {
            alloc,
            errors,
            failed: false,
            keep_going,
            refused: false,
            path,
            last: None,
            first: 0,
            number: 0,
            hinted: false,
            stepped: false,
            waited: false,
            faulted: false,
            ringed: false,
            letters: 0,
        }
    }

    /// Whether the line is refused like the one before it, and nothing more is to be reported.
    pub(crate) fn is_again(&self, number: u64, fault: TakeFault, input: Option<&str>) -> bool
        ensures { result ≡ is_again (telling_of E.contents self.now) number fault (option_copied input.entry) }
    {
        input.is_none() && number != 0 && number - 1 == self.number && is_alike(self.last, fault)
    }

    pub(crate) fn say(
        &mut self,
        from: Origin,
        words: &str,
        part: &[u8],
        first: &str,
        next: &str,
        last: &str,
    )
        ensures { WasSaid from words.now part.now (first.now ∷ next.now ∷ last.now ∷ []) (telling_of E.contents self.old) (telling_of E.contents self.new) }
    {
        let path = self.path.as_str();
        let told = write_said(&mut self.errors, path, from, words, part, first, next, last);
        self.failed |= told.is_err();
    }

    /// Returns the message on a line whose name no input channel has. Nothing if memory is refused for it, or if names of
    /// `MOST_LETTERS` letters were compared with the names of earlier lines.
    fn words_of(&mut self, network: &Network, line: &[u8], fault: TakeFault) -> String
        ensures { telling_of E.contents self.new ≡ telling_of E.contents self.old }
    {
        if self.letters > MOST_LETTERS {
            return String::new(self.alloc);
        }
        let words = match fault {
            TakeFault::Feed(FeedFault::UnknownName) => unknown_words(self.alloc, network, line),
            TakeFault::Feed(FeedFault::NotAnInput) => inputs_words(self.alloc, network),
            _ => return String::new(self.alloc),
        };
        self.letters = self.letters.saturating_add(letters_of(network));
        words.unwrap_or(String::new(self.alloc))
    }

    /// Reports how many more lines were refused as the last reported one was, if any.
    fn tell_more(&mut self)
        ensures { IsMoreTold (telling_of E.contents self.old) (telling_of E.contents self.new) }
    {
        let more = self.number.saturating_sub(self.first);
        self.first = self.number;
        if more == 0 {
            return;
        }
        let mut room = Buffer::new();
        let (digits, like) = (room.format(more), like_words(more));
        self.say(Origin::File, "and ", b"", digits, like, "");
    }

    /// Counts a refused line; with `keep_going` the status stays 0 unless memory was refused for it.
    pub(crate) fn count(&mut self, number: u64, fault: TakeFault)
        ensures { IsTallied number fault (telling_of E.contents self.old) (telling_of E.contents self.new) }
    {
        self.refused |= !self.keep_going | is_want(fault);
        self.number = number;
    }

    /// Reports how many lines were refused like the last reported one; then why this line is, with the word at fault; then how bare
    /// numbers are taken, if `input` names a channel.
    pub(crate) fn tell(
        &mut self,
        number: u64,
        fault: TakeFault,
        part: RefusedPart<'_>,
        input: Option<&str>,
    )
        ensures { IsNextTold number fault part.entry (option_copied input.entry) (telling_of E.contents self.old) (telling_of E.contents self.new) }
    {
        self.tell_more();
        self.count(number, fault);
        self.last = Some(fault);
        self.first = number;
        let from = refused_origin(number, fault);
        self.say(from, take_words(fault), part.word, part.words, "", "");
        let Some(input) = input else {
            return;
        };
        self.hinted = true;
        let words = "bare numbers are taken with --plain ";
        self.say(Origin::File, words, b"", input, "", "");
    }

    /// Whether this verdict is still to be reported: each once in a run, and `Bound` not for an empty line.
    pub(crate) fn is_verdict_new(&self, verdict: Verdict, line: &[u8]) -> bool
        ensures { result ≡ is_verdict_new (telling_of E.contents self.now) line.now verdict }
    {
        match verdict {
            Verdict::Finished => false,
            Verdict::Bound => !line.is_empty() && !self.stepped,
            Verdict::Memory => !self.waited,
        }
    }

    /// If `wanted`, reports the verdict of the part of line `number`. The line isn't refused.
    pub(crate) fn tell_verdict(&mut self, number: u64, wanted: bool, verdict: Verdict)
        ensures { IsVerdictTold number wanted verdict (telling_of E.contents self.old) (telling_of E.contents self.new) }
    {
        if !wanted {
            return;
        }
        match verdict {
            Verdict::Finished => {}
            Verdict::Bound => {
                let words = "wants more events than --step allows, and goes on with the next line";
                self.stepped = true;
                self.say(Origin::Line(number), words, b"", "", "", "");
            }
            Verdict::Memory => {
                self.waited = true;
                self.say(Origin::Line(number), "waits for memory", b"", "", "", "");
            }
        }
    }

    /// Returns the first process that has a fault after a part, unless its fault was reported before.
    pub(crate) fn new_fault(&self, session: &Session<'_>) -> Option<(usize, Failure)>
        requires { HasVerdict session.now }
        ensures { IsNewFault self.now.faulted session.now.flow.run result }
    {
        if self.faulted {
            return None;
        }
        session.first_fault()
    }

    pub(crate) fn tell_faulty(
        &mut self,
        number: u64,
        session: &Session<'_>,
        first: Option<(usize, Failure)>,
    )
        ensures { IsFaultPut number session.now.flow.run.network first (telling_of E.contents self.old) (telling_of E.contents self.new) }
    {
        let Some((instance, kind)) = first else {
            return;
        };
        self.faulted = true;
        let mut room = Buffer::new();
        let (digits, from) = (room.format(instance), Origin::Line(number));
        let name = process_name(session.network(), instance.saturating_sub(1));
        self.say(from, digits, b"", " ", name, failure_words(kind));
    }

    /// Whether processes are in a cycle of waits that wasn't reported. After the last part false: the end reports it.
    pub(crate) fn is_ring_new(&self, session: &Session<'_>) -> bool
        requires { HasVerdict session.now }
        ensures { IsTrue result → (self.now.ringed ≡ false) × IsRinged session.now.flow.run true }
    {
        if self.ringed || !session.may_have_ring() {
            return false;
        }
        match session.verdict() {
            Some(Verdict::Finished) => !session.is_deaf() && session.has_ring(),
            _ => false,
        }
    }

    /// Reports the cycle after line `number`, unless memory is refused for that.
    pub(crate) fn tell_ring(&mut self, number: u64, session: &Session<'_>)
        requires { HasVerdict session.now }
        ensures { IsRingTold number session.now.flow.run (telling_of E.contents self.old) (telling_of E.contents self.new) }
    {
        if !self.is_ring_new(session) {
            return;
        }
        let Ok(words) = cause_words(self.alloc, "", "", session) else {
            return;
        };
        self.ringed = true;
        let first = parted(words.as_str(), '\n').0;
        self.say(Origin::Line(number), first, b"", "", "", "");
    }

    /// Reports how many more lines were refused, and values that are left without the others of their row, if any are.
    pub(crate) fn tell_left(&mut self, session: &Session<'_>)
        ensures { IsLeftTold (has_left session.now) (telling_of E.contents self.old) (telling_of E.contents self.new) }
    {
        if !session.has_left() {
            return;
        }
        self.tell_more();
        let words = "values are left without the others of their row";
        self.say(Origin::File, words, b"", "", "", "");
    }

    fn put_lines(&mut self, lines: &str)
        ensures { WasTold lines.now (telling_of E.contents self.old) (telling_of E.contents self.new) }
    {
        let told = write_line(&mut self.errors, &[lines.as_bytes()]);
        self.failed |= told.is_err();
    }

    /// Reports the outcome of a session's run and its causes, or that memory was refused for that.
    fn put_causes(&mut self, session: &Session<'_>, program: &str)
        requires { HasVerdict session.now }
        ensures { IsWhyTold session.now.flow.run (telling_of E.contents self.old) (telling_of E.contents self.new) }
    {
        match cause_words(self.alloc, self.path.as_str(), program, session) {
            Ok(words) => self.put_lines(words.as_str()),
            Err(_) => {
                let words = "no memory to say why it ended so";
                self.say(Origin::File, words, b"", "", "", "");
            }
        }
    }

    fn put_end(&mut self, session: &Session<'_>)
        requires { HasVerdict session.now }
        ensures { IsEndPut session.now.flow.run (telling_of E.contents self.old) (telling_of E.contents self.new) }
    {
        let told = session.close(&mut self.errors);
        self.failed |= told.is_err();
    }

    /// Reports how many more lines were refused, then why and how the run ended, if there is something to report (`is_end_wanted`).
    pub(crate) fn tell_end(
        &mut self,
        session: &Session<'_>,
        program: &str,
        amiss: Option<Amiss>,
    ) -> Verdict
        requires { HasVerdict session.now }
        ensures { IsVerdictMet session.now.flow.run amiss (telling_of E.contents self.old) (telling_of E.contents self.new) result }
    {
        let Some(verdict) = session.verdict() else {
            unreachable!()
        };
        if !is_end_wanted(session, amiss, self.refused, verdict) {
            return verdict;
        }
        self.tell_more();
        self.put_causes(session, program);
        self.put_end(session);
        verdict
    }

    fn tell_fault(&mut self, answer: &Result<Verdict, Fault>, program: &str)
        ensures { WasTold (told_text program.now answer.now) (telling_of E.contents self.old) (telling_of E.contents self.new) }
    {
        let told = tell(answer, program, &mut self.errors);
        self.failed |= told.line.is_err();
    }

    fn tell_more_of(&mut self, answer: &Result<Verdict, Fault>)
        ensures { WasTold (pointer_text (string_bytes self.old.path) answer.now) (telling_of E.contents self.old) (telling_of E.contents self.new) }
    {
        let told = tell_explain(answer, self.path.as_str(), &mut self.errors);
        self.failed |= told.is_err();
    }

    /// Reports how many more lines were refused, and why a run has no answer, if it has none. Returns the exit status.
    pub(crate) fn tell_last(&mut self, answer: &Result<Verdict, Fault>, program: &str) -> u8
        ensures status { result ≡ live_status_of self.old.refused answer.now }
        ensures told { IsLastTold program.now answer.now (telling_of E.contents self.old) (telling_of E.contents self.new) }
    {
        let status = live_status(answer, self.refused);
        self.tell_more();
        self.tell_fault(answer, program);
        self.tell_more_of(answer);
        status
    }
}

fn is_bare(line: &[u8]) -> bool
    ensures { result ≡ is_bare line.now }
{
    line.first()
        .is_some_and(|byte| byte.is_ascii_digit() || *byte == b'-')
}

/// Whether to say now how bare numbers are taken: once, if one is refused, or the line of number 0 is.
fn wants_hint(hinted: bool, number: u64, line: &[u8], fault: TakeFault) -> bool
    ensures { result ≡ wants_hint hinted number line.now fault }
{
    if hinted {
        return false;
    }
    match fault {
        TakeFault::BadLine => number == 0 || is_bare(line),
        _ => number == 0 && !is_want(fault),
    }
}

fn hint_of<'s>(session: &'s Session<'_>, wanted: bool) -> Option<&'s str>
    ensures { IsHintBy wanted session.now (option_copied result) }
{
    if wanted { session.first_input() } else { None }
}

/// Returns how many letters the names of all channels have together.
fn letters_of(network: &Network) -> u64 {
    let mut letters: u64 = 0;
    for number in 0..network.channels() {
        letters = letters.saturating_add(network.channel(number).name.len() as u64);
    }
    letters
}

/// Returns the part of a line that is at fault, if it isn't taken, and what is expected there; for a name, these words.
fn refused_part<'l>(
    network: &Network,
    line: &'l [u8],
    fault: TakeFault,
    words: &'l str,
) -> RefusedPart<'l>
    ensures { IsRefusedPart network.now line.entry.now fault result.word.now result.words.now }
{
    match fault {
        TakeFault::BadLine => head_part(line),
        TakeFault::BadValue => value_part(line),
        TakeFault::Feed(FeedFault::UnknownName) => name_part(line, words),
        TakeFault::Feed(FeedFault::NotAnInput) => name_part(line, words),
        TakeFault::Feed(FeedFault::WrongKind) => kind_part(network, line),
        _ => RefusedPart {
            word: b"",
            words: "",
        },
    }
}

/// Reports a fault of line `number`, and the part at fault; or counts the line, if it is refused for the same reason as the one
/// before it.
pub(crate) fn tell_refused<E: Write>(
    session: &Session<'_>,
    teller: &mut Teller<E>,
    number: u64,
    line: &[u8],
    fault: TakeFault,
)
    ensures { IsRefused session.now number line.now fault (telling_of E.contents teller.old) (telling_of E.contents teller.new) }
{
    let wanted = wants_hint(teller.hinted, number, line, fault);
    let input = hint_of(session, wanted);
    if teller.is_again(number, fault, input) {
        teller.count(number, fault);
        return;
    }
    let network = session.network();
    let words = teller.words_of(network, line, fault);
    let part = refused_part(network, line, fault, words.as_str());
    teller.tell(number, fault, part, input);
}
