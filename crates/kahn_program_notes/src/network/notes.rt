//! The notes on what is wrong with a network: on the faults that don't seem to follow from another one.

ghost use Rattle.std.specs.Prelude.{◌≡◌, [], All, Contains, IfOk, IfSome};
ghost use Rattle.kahn_fault.specs.Message.{check_span};
ghost use Rattle.kahn_program_notes.specs.Hints.{LessensFaults, TellsFault, TellsMore, TellsOne};

use crate::network::changes::{
    Edit, EditKind, change_for, is_same_fault, left_by, letters_at, tries_of,
};
use crate::network::place::{
    Body, NetworkPlace, beginning, bodies_in, body_called, handed_in, instance_at, side_of,
};
use crate::network::said::{add_said, facts_of, others_of};
use kahn_diagnostic::{Fix, MOST_NOTES, Note, Sort};
use kahn_fault::{check_span, check_words};
use kahn_streams::{CheckFault, NoMemory, Program, Span};
use kahn_syntax::lex;
use std::alloc::Global;
use std::hash::RandomState;

/// What is told of the faults of a network.
#[derive(Drop)]
pub struct FaultNotes {
    /// The notes, of which each is on one fault.
    pub notes: Vec<Note>,
    /// How many more faults there are that don't seem to follow from others.
    pub more: usize,
}

/// What is told so far.
#[derive(Drop)]
struct ToldNotes {
    notes: Vec<Note>,
    /// `told`: the faults with a note, and those past the limit of notes; `more`: how many those are.
    told: Vec<CheckFault>,
    more: usize,
    /// How many changes may be tried yet.
    tries: usize,
}

/// Whether a fault is suppressed, since it seems to follow from another one:
/// - in an instance: the same fault of the same name was reported; its process has a fault, or is declared twice; it is a second
///   reader or writer, and some fault is of another sort; or it is an unknown name, and some name is declared twice;
/// - a channel without a reader, if one without a writer was reported, and the other way round.
fn is_held(place: NetworkPlace, told: &[CheckFault], fault: CheckFault) -> bool {
    let is_side = |one| matches!(one, CheckFault::TwoReaders(_) | CheckFault::TwoWriters(_));
    let begin = |one| check_span(one).map_or(0, |span| span.from);
    let Some(instance) = instance_at(&place.program.instances, begin(fault)) else {
        let is_lack = matches!(fault, CheckFault::NoReader(_) | CheckFault::NoWriter(_));
        return is_lack && told.iter().any(|other| side_of(*other) != side_of(fault));
    };
    let (text, process) = (place.text, instance.process.text.as_bytes());
    let body = body_called(place.bodies, process);
    let is_unknown = matches!(fault, CheckFault::Unknown(_));
    told.iter()
        .any(|other| is_same_fault(text, *other, text, fault))
        || place.faults.iter().any(|other| {
            let is_twice = matches!(other, CheckFault::DeclaredTwice(_));
            is_twice && (is_unknown || letters_at(text, *other) == process)
                || is_side(fault) && !is_side(*other)
                || body.is_some_and(|body| body.from < begin(*other) && begin(*other) < body.to)
        })
}

/// Where a fault stands; at the beginning where it has no place.
fn span_of(fault: CheckFault) -> Span
    ensures { IfSome (check_span fault) (λ span. result ≡ span) }
{
    match check_span(fault) {
        Some(span) => span,
        None => Span { from: 0, to: 0 },
    }
}

/// The change that is told apart from the words of a fault.
fn fix_of(
    alloc: Global,
    seed: RandomState,
    text: &str,
    faults: &[CheckFault],
    fault: CheckFault,
    change: Option<Edit>,
) -> Result<Option<Fix>, NoMemory>
    ensures { IfOk result (λ fix. IfSome fix (LessensFaults text.now faults.now)) }
{
    let Some(change) = change else {
        return Ok(None);
    };
    match left_by(alloc, seed, text, faults, fault, &change.fix)? {
        Some(_) if change.way == EditKind::Fix => Ok(Some(change.fix)),
        _ => Ok(None),
    }
}

/// Returns the note on a fault, and whether its change leaves no fault at all.
fn found_at(
    text: &str,
    place: NetworkPlace,
    faults: &[CheckFault],
    fault: CheckFault,
    tries: &mut usize,
) -> Result<(Note, bool), NoMemory>
    ensures { IfOk result (λ found. Contains faults.now fault → TellsFault text.now faults.now found.0 fault) }
{
    let (alloc, change) = (place.alloc, change_for(place, tries, fault)?);
    let is_whole = change.as_ref().is_some_and(|change| change.left == 0);
    let facts = facts_of(place, fault)?;
    let mut words = String::from_str(alloc, check_words(fault))?;
    add_said(&mut words, place, fault, &facts, &change)?;
    let note = Note {
        sort: Sort::Error,
        span: span_of(fault),
        words,
        fix: fix_of(alloc, place.seed, text, faults, fault, change)?,
        below: Vec::new(alloc),
        others: others_of(place, fault, &facts)?,
    };
    Ok((note, is_whole))
}

impl ToldNotes {
    /// Adds the note on `fault`, unless it is suppressed or there are too many. Returns true if its change leaves no fault: then
    /// this note is the only one.
    #[tactic(auto, using(crate::proofs::Telling::one_more, crate::proofs::Telling::one_alone))]
    fn tell(
        &mut self,
        text: &str,
        begin: NetworkPlace,
        faults: &[CheckFault],
        fault: CheckFault,
    ) -> Result<bool, NoMemory>
        ensures told { IfOk result (λ _. TellsMore text.now faults.now fault self.old.notes.items self.new.notes.items) }
        ensures some { IfOk result (λ _. self.new.notes.items ≡ [] → ⊥) }
    {
        let is_first = self.notes.is_empty();
        let is_limit = matches!(fault, CheckFault::TooMany(_));
        if !is_first && !is_limit && is_held(begin, &self.told, fault) {
            return Ok(false);
        }
        self.told.push(fault)?;
        if !is_first && (self.notes.len() >= MOST_NOTES || is_limit) {
            self.more = self.more.saturating_add(1);
            return Ok(false);
        }
        let place = begin.moved_to(span_of(fault));
        let (note, is_whole) = found_at(text, place, faults, fault, &mut self.tries)?;
        if is_whole {
            self.notes.clear();
            self.notes.push(note)?;
            return Ok(true);
        }
        self.notes.push(note)?;
        Ok(false)
    }
}

/// Returns the notes on the faults of a program: at most 20, and one on a limit only if it comes first. Faults that seem to follow
/// from another one are left out; if a change leaves no fault, its note comes alone. Fails only if memory is refused.
pub fn fault_notes(
    alloc: Global,
    seed: RandomState,
    text: &str,
    program: &Program,
    faults: &[CheckFault],
) -> Result<FaultNotes, NoMemory>
    ensures told { IfOk result (λ told. All (TellsOne text.now faults.now) told.notes.items) }
    ensures some { IfOk result (λ told. told.notes.items ≡ [] → faults.now ≡ []) }
{
    let Ok(lexemes) = lex(alloc, text) else {
        return Err(NoMemory);
    };
    let bodies = bodies_in(alloc, program)?;
    let handed = handed_in(alloc, program, &bodies)?;
    let begin = beginning(
        alloc, seed, text, &lexemes, program, &bodies, &handed, faults,
    );
    let notes = Vec::new(alloc);
    let told = Vec::new(alloc);
    let mut telling = ToldNotes {
        notes,
        told,
        more: 0,
        tries: tries_of(text, &lexemes),
    };
    for fault in faults {
        if telling.tell(text, begin, faults, *fault)? {
            let notes = telling.notes;
            return Ok(FaultNotes { notes, more: 0 });
        }
    }
    let (notes, more) = (telling.notes, telling.more);
    Ok(FaultNotes { notes, more })
}
