//! The lexemes that are still to be read, and why reading stops.

ghost use Rattle.std.specs.Prelude.{◌≡◌, ℕ, ◌≤◌, ◌<◌, ◌+◌, List, [], false, length, IfOk, IfErr, IfSome, IfNone, MatchOption, MatchResult, ◌∷◌, ◌⊎◌};
ghost use Rattle.kahn_syntax.specs.{Texts.First, Texts.AreProper, Texts.IsUnsigned, Texts.Placed, Texts.IsPast, Texts.Covers, inner.Reads.IsAbsent, declared.parser.cursor.Stop.TheVariants.Refused, declared.parser.cursor.Stop.TheVariants.TooDeep, declared.parser.cursor.Stop.TheVariants.NoMemory, inner.Reads.IsStated, Grammar.name, Grammar.SomeNames, Texts.terminals, Texts.name_of, Texts.lexemes, Texts.NameSpans, inner.Machine.leads, inner.Machine.TokenPart, inner.Machine.NamesTail, inner.Machine.a_name, inner.Reads.ParsesPart};

use crate::lexeme::{Class, Lexeme, Sign};
use kahn_streams::{Action, Expression, Form, Name, Span, Statement};
use std::alloc::{AllocError, AllocFailed, Global};

/// The most levels of nesting.
pub const DEEPEST: usize = 64;

/// Why a part isn't read. The numbers count the lexemes that are left, from the one at fault on.
#[derive(Clone, Copy, Drop)]
pub enum Stop {
    /// The lexeme can't stand here, or none is left. The flag says whether a whole program comes before it.
    Refused(bool, usize),
    /// The lexeme is allowed here but would open a level too many.
    TooDeep(usize),
    /// Memory was refused.
    NoMemory,
}

/// A part of the tree, and the lexemes after it.
pub type Read<'t, T> = Result<(T, &'t [Lexeme]), Stop>;

impl From<AllocError> for Stop {
    ghost from_gives = { λ _ e. e ≡ NoMemory };

    fn from(_error: AllocError) -> Self {
        Stop::NoMemory
    }
}

impl<T: Drop> From<AllocFailed<T>> for Stop {
    ghost from_gives = { λ _ e. e ≡ NoMemory };

    fn from(_error: AllocFailed<T>) -> Self {
        Stop::NoMemory
    }
}

/// Returns what the first lexeme is, and the lexemes after it.
#[tactic(auto, using(crate::proofs::Lists::next_unsigned, crate::proofs::Lists::next_proper, crate::proofs::Lists::next_passed))]
pub fn next(input: &[Lexeme]) -> Option<(Class, &[Lexeme])>
    ensures first { MatchOption result (input.now ≡ []) (λ r. First r.0 input.now r.1.now × (length input.now ≡ length r.1.now + 1)) }
    ensures passed { IfSome result (λ r. IsPast input.now r.1.now) }
    ensures unsigned { IfSome result (λ r. (text : List ℕ) → AreProper text input.now → IsUnsigned r.0) }
    ensures proper { IfSome result (λ r. (text : List ℕ) → AreProper text input.now → AreProper text r.1.now) }
{
    match input {
        [] => None,
        [first, rest @ ..] => Some((first.what, rest)),
    }
}

/// Returns the lexemes after the first, if it is of this class.
#[tactic(auto, using(crate::proofs::Lists::first_of))]
pub fn past(input: &[Lexeme], wanted: Class) -> Option<&[Lexeme]>
    ensures first { IfSome result (λ r. First wanted input.now r.now) }
    ensures passed { IfSome result (λ r. IsPast input.now r.now) }
    ensures shorter { IfSome result (λ r. length input.now ≡ length r.now + 1) }
    ensures proper { IfSome result (λ r. (text : List ℕ) → AreProper text input.now → AreProper text r.now) }
    ensures absent { IfNone result (IsAbsent wanted input.now) }
{
    match next(input) {
        Some((class, rest)) if class == wanted => Some(rest),
        _ => None,
    }
}

/// Returns the lexemes after the first, which must be of this class.
pub fn expect(input: &[Lexeme], wanted: Class) -> Result<&[Lexeme], Stop>
    ensures first { IfOk result (λ r. First wanted input.now r.now) }
    ensures passed { IfOk result (λ r. IsPast input.now r.now) }
    ensures shorter { IfOk result (λ r. length input.now ≡ length r.now + 1) }
    ensures proper { IfOk result (λ r. (text : List ℕ) → AreProper text input.now → AreProper text r.now) }
    ensures stop { IfErr result (λ e. IsAbsent wanted input.now × (e ≡ Refused false (length input.now))) }
{
    match past(input, wanted) {
        Some(rest) => Ok(rest),
        None => Err(Stop::Refused(false, input.len())),
    }
}

/// Returns the nesting inside of the level that the first lexeme opens.
pub fn deeper(input: &[Lexeme], depth: usize) -> Result<usize, Stop>
    requires { depth ≤ 64 }
    ensures deeper { IfOk result (λ inner. (inner ≡ depth + 1) × (inner ≤ 64)) }
    ensures stop { IfErr result (λ e. (depth ≡ 64) × (e ≡ TooDeep (length input.now))) }
{
    if depth == DEEPEST {
        return Err(Stop::TooDeep(input.len()));
    }
    Ok(depth + 1)
}

/// Returns the span of what was read: from its first lexeme to the last one before the rest.
pub fn reach(input: &[Lexeme], rest: &[Lexeme]) -> Span
    requires { length rest.now < length input.now }
    ensures { Covers result input.now rest.now }
{
    let first = span_at(input, input.len());
    let last = span_at(input, rest.len() + 1);
    Span {
        from: first.from,
        to: last.to,
    }
}

/// Returns the span of the lexeme from which on `left` lexemes are left.
pub fn span_at(lexemes: &[Lexeme], left: usize) -> Span
    requires some { 0 < left }
    requires in_range { left ≤ length lexemes.now }
    ensures { Placed lexemes.now result left }
{
    lexemes[lexemes.len() - left].span
}

/// Makes an expression of this form, from the first lexeme of the input to the last one before the rest.
pub fn made<'t>(
    alloc: Global,
    input: &[Lexeme],
    rest: &'t [Lexeme],
    form: Form,
) -> Read<'t, Box<Expression>>
    requires { length rest.now < length input.now }
    ensures { MatchResult result (λ r. (r.0.value.form ≡ form) × Covers r.0.value.span input.now rest.now × (r.1.now ≡ rest.now)) (λ e. e ≡ NoMemory) }
{
    let span = reach(input, rest);
    let expression = Box::new(alloc, Expression { span, form })?;
    Ok((expression, rest))
}

/// Makes a statement that does this, from the first lexeme of the input to the last one before the rest.
pub fn stated<'t>(
    alloc: Global,
    input: &[Lexeme],
    rest: &'t [Lexeme],
    action: Action,
) -> Read<'t, Box<Statement>>
    requires { length rest.now < length input.now }
    ensures { MatchResult result (λ r. IsStated r.0.value action input.now rest.now × (r.1.now ≡ rest.now)) (λ e. e ≡ NoMemory) }
{
    let span = Some(reach(input, rest));
    let statement = Box::new(alloc, Statement { span, action })?;
    Ok((statement, rest))
}

/// Reads the name that comes first.
pub fn read_name<'t>(alloc: Global, text: &str, input: &'t [Lexeme]) -> Read<'t, Name>
    requires proper { AreProper text.now input.now }
    ensures words { IfOk result (λ r. terminals text.now input.now ≡ name (name_of r.0) ∷ terminals text.now r.1.now) }
    ensures spans { IfOk result (λ r. NameSpans text.now r.0 input.now r.1.now) }
    ensures shorter { IfOk result (λ r. length input.now ≡ length r.1.now + 1) }
    ensures proper { IfOk result (λ r. AreProper text.now r.1.now) }
    ensures stop { IfErr result (λ e. (e ≡ NoMemory) ⊎ ((leads a_name (terminals text.now input.now) ≡ false) × (e ≡ Refused false (length input.now)))) }
{
    match input {
        [
            Lexeme {
                span,
                what: Class::Name,
            },
            rest @ ..,
        ] => {
            let text = String::from_str(alloc, &text[span.from..span.to])?;
            Ok((Name { text, span: *span }, rest))
        }
        _ => Err(Stop::Refused(false, input.len())),
    }
}

/// Reads one name or more, with commas between.
#[tactic(auto, using(crate::proofs::Moves::members_begin))]
pub fn read_names<'t>(alloc: Global, text: &str, input: &'t [Lexeme]) -> Read<'t, Vec<Name>>
    requires proper { AreProper text.now input.now }
    ensures { ParsesPart result text.now (TokenPart a_name ∷ NamesTail ∷ []) (λ r. SomeNames (lexemes text.now) r.0.items) input.now (λ r. r.1.now) }
{
    let mut names = Vec::new(alloc);
    let mut rest = input;
    'names: loop {
        let (name, after) = read_name(alloc, text, rest)?;
        names.push(name)?;
        let Some(further) = past(after, Class::Sign(Sign::Comma)) else {
            return Ok((names, after));
        };
        rest = further;
    }
}
