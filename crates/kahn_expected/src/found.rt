//! What is open behind lexemes, and which may stand there; what stands where a text goes wrong, and what may stand there; and how far the
//! lexemes of a text go with a change of one of them near a place.

ghost use Rattle.std.specs.Prelude.{◌≡◌, ◌≤◌, ◌<◌, List, ℕ, IfOk, length, slice_get, slice_index_or, take, [], ◌∷◌};
ghost use Rattle.kahn_syntax.specs.{declared.fault.SyntaxFault.TheVariants.Expected, declared.lexeme.Lexeme.Lexeme, Texts.BeginsWithin, Texts.IsFault, Texts.IsTextFault, Texts.terminals, inner.Machine.ProgramPart};
ghost use Rattle.kahn_expected.specs.{Wanted.AreWanted, Wanted.IsPlace, Wanted.IsUnexpected, inner.Asked.AreOf, inner.Walk.MayPass, inner.Walk.Passes, inner.Walk.awaited_parts, inner.Walk.walked};

use crate::grammar::{Awaited, entered, rules};
use crate::groups::{CLASSES, Wanted, grouped};
use kahn_streams::NoMemory;
use kahn_syntax::{Class, Lexeme, Span, What, lex};
use std::alloc::{AllocError, Global};

/// What stands where a text goes wrong, and what may stand there.
#[derive(Drop)]
pub struct Unexpected {
    /// The lexeme that stands there, or nothing at the text's end.
    pub found: Option<Lexeme>,
    /// What may stand there.
    pub wanted: Wanted,
}

/// A place where a text goes wrong.
#[derive(Drop)]
pub struct FaultPlace {
    /// The lexemes of the text.
    pub lexemes: Vec<Lexeme>,
    /// How many of them stand before the place.
    pub number: usize,
    /// What stands there, and what may stand there.
    pub unexpected: Unexpected,
}

/// A change of a list of lexemes: some are left out, and others put there.
#[derive(Clone, Copy)]
pub struct Change {
    /// How many lexemes stand before it.
    pub at: usize,
    /// How many are left out.
    pub out: usize,
    /// The class of the lexeme that is put there, if one is; the number 0 stands for all numbers.
    pub put: Option<Class>,
}

/// How far a text goes with a change.
#[derive(Clone, Copy)]
pub struct Reach {
    /// The change.
    pub change: Change,
    /// The number of the lexeme of the text that can't stand then; the greatest number where the text is a program.
    pub to: usize,
}

fn lexeme_at(lexemes: &[Lexeme], number: usize) -> Option<Lexeme>
    ensures { result ≡ slice_get lexemes.now number }
{
    lexemes.get(number).copied()
}

/// How many lexemes stand before the first one with this span.
fn count_before(lexemes: &[Lexeme], span: Span) -> usize
    ensures within { result ≤ length lexemes.now }
    ensures found { (d : Lexeme) → result < length lexemes.now → (slice_index_or lexemes.now result d).span ≡ span }
    ensures first { (k : ℕ) (d : Lexeme) → k < result → ¬ ((slice_index_or lexemes.now k d).span ≡ span) }
{
    for (number, lexeme) in lexemes.iter().enumerate() {
        if lexeme.span == span {
            return number;
        }
    }
    lexemes.len()
}

/// How many lexemes stand before a fault.
fn place_of(_text: &str, lexemes: &[Lexeme], span: Span, what: What) -> usize
    requires { IsFault _text.now lexemes.now (Expected span what) }
    ensures place { IsPlace lexemes.now span what result }
    ensures within { result ≤ length lexemes.now }
    ensures led { BeginsWithin (terminals _text.now (take result lexemes.now)) }
{
    match what {
        What::More => lexemes.len(),
        What::Nothing => count_before(lexemes, span),
        What::Other => count_before(lexemes, span),
    }
}

/// The place where a text goes wrong, which is read into lexemes once. It refuses only where memory was refused.
pub fn place_at(alloc: Global, text: &str, span: Span, what: What) -> Result<FaultPlace, NoMemory>
    requires { IsTextFault text.now (Expected span what) }
    ensures { IfOk result (λ place. IsUnexpected text.now span what place.unexpected) }
{
    let Ok(lexemes) = lex(alloc, text) else {
        return Err(NoMemory);
    };
    let items = lexemes.as_slice();
    let number = place_of(text, items, span, what);
    let classes = coming(alloc, &items[..number], &CLASSES)?;
    let wanted = grouped(alloc, &classes)?;
    let found = lexeme_at(items, number);
    Ok(FaultPlace {
        lexemes,
        number,
        unexpected: Unexpected { found, wanted },
    })
}

/// Goes on to what is open behind a lexeme, the part that comes first last. It tells whether the lexeme may stand there; where it may
/// not, nothing is open.
fn pass(stack: &mut Vec<Awaited>, class: Class) -> Result<bool, AllocError>
    ensures { IfOk result (Passes stack.old.items class stack.new.items) }
{
    'parts: while let Some(part) = stack.pop() {
        let (optional, opened) = entered(rules(part), class);
        if let Some(parts) = opened {
            stack.extend_from_slice(parts)?;
            return Ok(true);
        }
        if !optional {
            stack.clear();
            return Ok(false);
        }
    }
    Ok(false)
}

/// What is open behind lexemes; nothing where they begin no program.
fn awaited_behind(alloc: Global, lexemes: &[Lexeme]) -> Result<Vec<Awaited>, AllocError>
    ensures { IfOk result (λ stack. (text : List ℕ) → walked (ProgramPart ∷ []) (terminals text lexemes.now) ≡ awaited_parts stack.items) }
{
    let mut stack = Vec::new(alloc);
    stack.push(Awaited::Program)?;
    for lexeme in lexemes {
        pass(&mut stack, lexeme.what)?;
    }
    Ok(stack)
}

/// Whether a lexeme may stand where this is open.
fn may_pass(alloc: Global, stack: &[Awaited], class: Class) -> Result<bool, AllocError>
    ensures { IfOk result (MayPass stack.now class) }
{
    let mut copy = Vec::new(alloc);
    copy.extend_from_slice(stack)?;
    pass(&mut copy, class)
}

/// Those of some classes of which one may come behind lexemes.
fn coming(alloc: Global, before: &[Lexeme], some: &[Class]) -> Result<Vec<Class>, AllocError>
    ensures { IfOk result (λ ws. (text : List ℕ) → AreOf (terminals text before.now) some.now ws.items) }
{
    let stack = awaited_behind(alloc, before)?;
    let mut wanted = Vec::new(alloc);
    for class in some {
        if may_pass(alloc, &stack, *class)? {
            wanted.push(*class)?;
        }
    }
    Ok(wanted)
}

/// How far lexemes go with a change, before which this is open; not at all where what is put there can't stand.
fn reach_of(
    alloc: Global,
    open: &[Awaited],
    lexemes: &[Lexeme],
    change: Change,
) -> Result<usize, AllocError> {
    let mut stack = Vec::new(alloc);
    stack.extend_from_slice(open)?;
    if let Some(class) = change.put {
        if !pass(&mut stack, class)? {
            return Ok(0);
        }
    }
    let mut to = change.at.saturating_add(change.out);
    for lexeme in lexemes.get(to..).unwrap_or(&[]) {
        if !pass(&mut stack, lexeme.what)? {
            return Ok(to);
        }
        to = to.saturating_add(1);
    }
    let may_end = stack
        .iter()
        .all(|part| matches!(rules(*part), Ok((true, _, _))));
    let is_whole = may_end && to == lexemes.len();
    Ok(if is_whole { usize::MAX } else { to })
}

/// How far a text goes with each change of one lexeme at one with a number or before it, by so many at most; of those changes with which it
/// goes past the lexeme behind that one.
pub fn reaches(
    alloc: Global,
    lexemes: &[Lexeme],
    number: usize,
    most: usize,
) -> Result<Vec<Reach>, AllocError> {
    let mut all = Vec::new(alloc);
    for back in 0..most.min(number).saturating_add(1) {
        let at = number.saturating_sub(back);
        let open = awaited_behind(alloc, lexemes.get(..at).unwrap_or(&[]))?;
        for change in 0..CLASSES.len().saturating_mul(2).saturating_add(1) {
            let (out, put) = (1 - change % 2, CLASSES.get(change / 2).copied());
            let change = Change { at, out, put };
            let to = reach_of(alloc, &open, lexemes, change)?;
            if number.saturating_add(1) < to {
                all.push(Reach { change, to })?;
            }
        }
    }
    Ok(all)
}
