//! Candidate fixes of one or two words. Each is applied and the text checked again. The one that leaves the fewest faults is
//! suggested, if there are fewer than before and none is new.

ghost use Rattle.std.specs.Prelude.{◌≡◌, ◌<◌, IfOk, IfSome, IsTrue, length, true};
ghost use Rattle.std.specs.List.{list_all, list_any};
ghost use Rattle.kahn_program_notes.specs.Hints.{AreFaultsOf, LessensFaults, are_known, is_known, is_same_fault, letters_at};

use crate::network::place::{NameKind, NetworkPlace, names_seen, side_of, taken_by, word_at};
use kahn_check::every;
use kahn_diagnostic::{Fix, applied};
use kahn_fault::{check_span, check_words};
use kahn_streams::{CheckFault, Kind, NoMemory, Span};
use kahn_syntax::Keyword::{Channel, In, Input, Integer, Logical, Out, Output};
use kahn_syntax::{Class, Lexeme, SyntaxFault, parse};
use kahn_texts::add;
use std::alloc::Global;
use std::hash::RandomState;

/// Whether memory was there for trying a change.
type Tried = Result<(), NoMemory>;

/// The most lexemes of a text in which changes are tried.
pub(crate) const MOST_LEXEMES: usize = 8192;

/// The most changes that are tried, and the most bytes that are read for them.
const MOST_TRIES: usize = 256;

const MOST_READ: usize = 4_000_000;

/// How a change is told.
#[derive(Clone, Copy, PartialEq, Eq)]
pub(crate) enum EditKind {
    /// As a change that an editor may make.
    Fix,
    /// Two parts are interchanged.
    Swap,
    /// Another name is put there.
    Name,
}

/// A change that leaves fewer faults.
#[derive(Drop)]
pub(crate) struct Edit {
    pub(crate) way: EditKind,
    pub(crate) fix: Fix,
    /// The first and the last part of what it changes.
    pub(crate) parts: (Span, Span),
    /// How many faults it leaves.
    pub(crate) left: usize,
    /// Whether another name leaves as few.
    is_one_of: bool,
}

/// The changes that are tried for a fault, one after another.
#[derive(Drop)]
struct Trial<'p> {
    place: NetworkPlace<'p>,
    fault: CheckFault,
    /// How many may be tried yet.
    tries: usize,
    best: Option<Edit>,
}

pub(crate) fn letters_at(text: &str, fault: CheckFault) -> &[u8]
    ensures { result.now ≡ letters_at text.now fault }
{
    match check_span(fault) {
        Some(span) => word_at(text, span),
        None => &[],
    }
}

/// Whether a fault of one text is the same as one of another text, with the same letters.
pub(crate) fn is_same_fault(text: &str, fault: CheckFault, other: &str, found: CheckFault) -> bool
    ensures { result ≡ is_same_fault text.now fault other.now found }
{
    check_words(fault).as_bytes() == check_words(found).as_bytes()
        && letters_at(text, fault) == letters_at(other, found)
}

/// Whether a fault of a changed text is one of those that were there.
fn is_known(text: &str, faults: &[CheckFault], other: &str, found: CheckFault) -> bool
    ensures { result ≡ is_known text.now faults.now other.now found }
{
    faults
        .iter()
        .any(|fault| is_same_fault(text, *fault, other, found))
}

fn are_known(text: &str, faults: &[CheckFault], other: &str, left: &[CheckFault]) -> bool
    ensures { result ≡ are_known text.now faults.now other.now left.now }
{
    left.iter()
        .all(|found| is_known(text, faults, other, *found))
}

/// The faults of a text, if it spells a program.
fn faults_in(
    alloc: Global,
    seed: RandomState,
    text: &str,
) -> Result<Option<Vec<CheckFault>>, NoMemory>
    ensures { IfOk result (λ found. IfSome found (λ fs. AreFaultsOf text.now fs.items)) }
{
    match parse(alloc, text) {
        Ok(tree) => Ok(Some(every(alloc, seed, &tree)?)),
        Err(SyntaxFault::NoMemory) => Err(NoMemory),
        Err(_) => Ok(None),
    }
}

fn are_fewer(text: &str, faults: &[CheckFault], other: &str, left: &[CheckFault]) -> bool
    ensures fewer { IsTrue result → length left.now < length faults.now }
    ensures known { IsTrue result → are_known text.now faults.now other.now left.now ≡ true }
{
    left.len() < faults.len() && are_known(text, faults, other, left)
}

/// Returns how many faults `fix` leaves; `None` unless `fault` is gone, there are fewer, and none is new.
pub(crate) fn left_by(
    alloc: Global,
    seed: RandomState,
    text: &str,
    faults: &[CheckFault],
    fault: CheckFault,
    fix: &Fix,
) -> Result<Option<usize>, NoMemory>
    ensures { IfOk result (λ left. IfSome left (λ _. LessensFaults text.now faults.now fix.now)) }
{
    let Some(changed) = applied(alloc, text, fix)? else {
        return Ok(None);
    };
    let other = changed.as_str();
    let Some(left) = faults_in(alloc, seed, other)? else {
        return Ok(None);
    };
    if is_known(other, &left, text, fault) {
        return Ok(None);
    }
    if are_fewer(text, faults, other, &left) {
        return Ok(Some(left.len()));
    }
    Ok(None)
}

/// Returns the kind that was found where the other one is expected: that of the channel, or else by trying `0` in its place.
pub(crate) fn found_kind(place: NetworkPlace) -> Result<Option<Kind>, NoMemory> {
    let (alloc, span, beside) = (place.alloc, place.at, place.at);
    if let (None, Some((kind, _))) = (place.body, place.channel(place.word())) {
        return Ok(Some(kind));
    }
    let put = String::from_str(alloc, "0")?;
    let Some(other) = applied(alloc, place.text, &Fix { span, put, beside })? else {
        return Ok(None);
    };
    let Some(faults) = faults_in(alloc, place.seed, other.as_str())? else {
        return Ok(None);
    };
    let is_wrong = faults.iter().any(|fault| {
        matches!(fault, CheckFault::WrongKind(at) if at.from.abs_diff(span.from) < 2)
            && letters_at(other.as_str(), *fault) == "0".as_bytes()
    });
    Ok(Some(if is_wrong {
        Kind::Integer
    } else {
        Kind::Logical
    }))
}

pub(crate) fn tries_of(text: &str, lexemes: &[Lexeme]) -> usize {
    if lexemes.len() > MOST_LEXEMES {
        return 0;
    }
    let tries = MOST_READ.checked_div(text.len()).unwrap_or(0);
    tries.min(MOST_TRIES)
}

/// Returns the change that leaves fewer faults, `best` if both leave as many; a tie with a suggested name is recorded.
fn better(best: Option<Edit>, change: Edit) -> Edit {
    let Some(mut best) = best else {
        return change;
    };
    if change.left < best.left {
        return change;
    }
    let is_like = change.left == best.left && best.way == EditKind::Name;
    best.is_one_of = best.is_one_of || is_like;
    best
}

/// Returns the words that may replace a word of a heading: the other kind for a fault of kinds, or else other directions or roles,
/// or none.
fn others_for(class: Class, is_of_kinds: bool) -> &'static [&'static str] {
    match (class, is_of_kinds) {
        (Class::Word(Integer), true) => &["logical"],
        (Class::Word(Logical), true) => &["integer"],
        (Class::Word(Integer), false) => &["integer in", "integer out"],
        (Class::Word(Logical), false) => &["logical in", "logical out"],
        (Class::Word(In), false) => &["out", ""],
        (Class::Word(Out), false) => &["in", ""],
        (Class::Word(Input), false) => &["output", ""],
        (Class::Word(Output), false) => &["input", ""],
        _ => &[],
    }
}

impl<'p> Trial<'p> {
    /// Tries these pieces in the place of what stands from the first part to the last, if some change may be tried yet.
    fn put(&mut self, way: EditKind, parts: (Span, Span), pieces: &[&str]) -> Tried {
        let Some(rest) = self.tries.checked_sub(1) else {
            return Ok(());
        };
        self.tries = rest;
        let place = self.place;
        let mut put = String::new(place.alloc);
        add(&mut put, pieces)?;
        let (from, to) = (parts.0.from, parts.1.to);
        let (span, beside) = (Span { from, to }, parts.1);
        let fix = Fix { span, put, beside };
        if let Some(left) = left_by(
            place.alloc,
            place.seed,
            place.text,
            place.faults,
            self.fault,
            &fix,
        )? {
            let change = Edit {
                way,
                fix,
                parts,
                left,
                is_one_of: false,
            };
            self.best = Some(better(self.best.take(), change));
        }
        Ok(())
    }

    fn put_one(&mut self, at: Span, put: &str) -> Tried {
        self.put(EditKind::Fix, (at, at), &[put])
    }

    /// Some arguments of the instance at the place interchanged with those behind them: the more there are, the fewer at a time.
    fn with_swaps(&mut self) -> Tried {
        let (place, handed) = (self.place, self.place.handed_there());
        let most = 64_usize.checked_div(handed.len()).unwrap_or(0);
        for (number, behind) in handed.iter().enumerate().skip(1) {
            let Some((front, back)) = handed.split_at_checked(number) else {
                return Ok(());
            };
            let (to, from) = (front.last().map_or(0, |one| one.span.to), behind.span.from);
            for first in front.iter().rev().take(most) {
                for last in back.iter().take(most) {
                    let (first, last) = (Span { to, ..first.span }, Span { from, ..last.span });
                    let between = place.part(Span { from: to, to: from });
                    let pieces = [place.part(last), between, place.part(first)];
                    self.put(EditKind::Swap, (first, last), &pieces)?;
                }
            }
        }
        Ok(())
    }

    /// One argument more, of the channels that lack a side; or one less.
    fn with_count(&mut self) -> Tried {
        let (place, handed) = (self.place, self.place.handed_there());
        let names = names_seen(place.alloc, place.program, None, NameKind::Channel)?;
        let sides = [NameKind::Source, NameKind::Target];
        for name in &names {
            let word = name.text.as_str();
            if sides
                .iter()
                .any(|side| place.passed(*side, word.as_bytes()).is_none())
            {
                for one in handed {
                    let (at, here) = ((one.span, one.span), place.part(one.span));
                    self.put(EditKind::Fix, at, &[word, ", ", here])?;
                    self.put(EditKind::Fix, at, &[here, ", ", word])?;
                }
            }
        }
        for (one, next) in handed.iter().zip(handed.iter().skip(1)) {
            for span in [one.span, next.span] {
                self.put(EditKind::Fix, (one.span, next.span), &[place.part(span)])?;
            }
        }
        Ok(())
    }

    /// The names that aren't declared, in the place of one that is declared twice.
    fn with_twice(&mut self, faults: &[CheckFault]) -> Tried {
        let place = self.place;
        for fault in faults {
            if let CheckFault::Unknown(span) = *fault {
                self.put_one(place.at, place.part(span))?;
            }
        }
        Ok(())
    }

    /// Other words in the heads of the process, or of the channels.
    fn with_heads(&mut self) -> Tried {
        let place = self.place;
        let is_of_kinds = matches!(self.fault, CheckFault::WrongKind(_));
        let all = place.seen();
        for (lexeme, next) in all.iter().zip(all.iter().skip(1)) {
            let is_row = matches!(next.what, Class::Word(Input | Output | Channel));
            if place.body.is_some() || is_row {
                for word in others_for(lexeme.what, is_of_kinds) {
                    self.put_one(lexeme.span, word)?;
                }
            }
        }
        Ok(())
    }

    /// The other names that may stand at the place; of channels of the program, those that don't have the side that is handed over there.
    fn with_names(&mut self) -> Tried {
        let (place, at) = (self.place, (self.place.at, self.place.at));
        let names = names_seen(place.alloc, place.program, place.body, place.asked())?;
        let parameter = place.parameter();
        let side = parameter.map_or(NameKind::Any, |one| taken_by(one).0);
        for name in &names {
            let letters = name.text.as_bytes();
            if place.word() != letters && place.passed(side, letters).is_none() {
                self.put(EditKind::Name, at, &[name.text.as_str()])?;
            }
        }
        Ok(())
    }

    /// A role for the row of the channel at the place, unless a process without an instance could have the side.
    fn with_role(&mut self, row: &str) -> Tried {
        let place = self.place;
        let front = place.lexemes.get(..place.number).unwrap_or(&[]);
        let mut words = front.iter().rev();
        let channel = words.find(|lexeme| lexeme.what == Class::Word(Channel));
        match (channel, place.taker(side_of(self.fault))) {
            (Some(channel), None) => self.put_one(channel.span, row),
            _ => Ok(()),
        }
    }

    fn with_fault(&mut self) -> Tried {
        let place = self.place;
        let is_within = place.body.is_some();
        let is_named = match self.fault {
            CheckFault::NoWriter(_) => return self.with_role("input channel"),
            CheckFault::NoReader(_) => return self.with_role("output channel"),
            CheckFault::DeclaredTwice(_) => return self.with_twice(place.faults),
            CheckFault::WrongCount(_) => return self.with_count(),
            CheckFault::Unknown(_) | CheckFault::TooMany(_) | CheckFault::NoMemory => return Ok(()),
            CheckFault::ValueExpected(_) => {
                if is_within {
                    let pieces = ["wait(", place.part(place.at), ")"];
                    self.put(EditKind::Fix, (place.at, place.at), &pieces)?;
                }
                false
            }
            CheckFault::WrongKind(_) => !is_within,
            CheckFault::ChannelExpected(_) => place.asked() != NameKind::Source,
            _ => true,
        };
        self.with_swaps()?;
        self.with_heads()?;
        if is_named { self.with_names() } else { Ok(()) }
    }
}

/// Returns the change that leaves the fewest faults. `None` if several names leave as few, or if a change for a missing side leaves
/// any fault. Uses up `tries`.
pub(crate) fn change_for<'p>(
    place: NetworkPlace<'p>,
    tries: &mut usize,
    fault: CheckFault,
) -> Result<Option<Edit>, NoMemory> {
    if *tries == 0 {
        return Ok(None);
    }
    let (tried, best) = (*tries, None);
    let mut trial = Trial {
        place,
        fault,
        tries: tried,
        best,
    };
    trial.with_fault()?;
    *tries = trial.tries;
    let is_side = matches!(fault, CheckFault::NoWriter(_) | CheckFault::NoReader(_));
    match trial.best.take() {
        Some(change) if change.is_one_of || is_side && change.left > 0 => Ok(None),
        found => Ok(found),
    }
}
