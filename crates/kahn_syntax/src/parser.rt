//! The parser: from the lexemes of a text to its tree, by recursive descent.
//!
//! Lists are read by loops, and recursion goes no deeper than the nesting of the text, which is limited.

ghost use Rattle.std.specs.Prelude.{◌≡◌, ◌≤◌, ◌+◌, ◌⊎◌, [], ◌∷◌, ℕ, ℤ, neg_ℤ, List, false, length, IfOk, IfErr, IfSome, IfNone};
ghost use Rattle.kahn_syntax.specs.declared.lexeme.Sign.TheVariants as mark;
ghost use Rattle.kahn_syntax.specs.{Grammar.Terminal, Grammar.sign, Grammar.numeral, Grammar.ProgramTree, Grammar.Spells, Grammar.nesting, Grammar.May, inner.Machine.leads, inner.Machine.InstancePart, inner.Machine.ArgumentsPart, inner.Machine.ArgumentPart, inner.Machine.InstancesTail, inner.Machine.LastTail, inner.Machine.a_number, declared.fault.SyntaxFault.SyntaxFault, declared.fault.SyntaxFault.TheVariants.NoMemory, declared.lexeme.Lexeme.Lexeme, inner.Reads.Reads, inner.Reads.Halts, inner.Reads.ClosedArgumentsSpan, inner.Reads.ParsesPart};
ghost use Rattle.kahn_syntax.specs.Texts.{terminals, AreLexemes, AreProper, IsFault, IsProgram, IsTextFault, program_tree, IsPast, Takes, ArgumentSpans, InstanceSpans, InstancesSpan, ProgramSpans};

mod cursor;
mod declaration;
mod expression;
mod statement;

use crate::fault::{SyntaxFault, What};
use crate::lexeme::{Class, Keyword, Lexeme, Sign};
use crate::lexer::lex;
use crate::parser::cursor::{Read, Stop, expect, next, past, reach, read_name, span_at};
use crate::parser::declaration::read_declarations;
use kahn_streams::{Argument, Instance, Program, Span};
use std::alloc::Global;

/// Parses a text. Lexical faults come before all others, over the whole text.
#[tactic(auto, using(crate::proofs::Proper::lexed_proper))]
pub fn parse(alloc: Global, text: &str) -> Result<Program, SyntaxFault>
    // The lexemes spell it, and each name, statement and expression has the span from its first to its last lexeme.
    ensures spells { IfOk result (IsProgram text.now) }
    ensures nesting { IfOk result (λ p. nesting (program_tree p) ≤ 64) }
    // A text that is a program within the limits fails only if memory was refused.
    ensures found { IfErr result (λ e. (xs : List Lexeme) (t : ProgramTree) → AreLexemes text.now xs → Spells t (terminals text.now xs) → nesting t ≤ 64 → e ≡ NoMemory) }
    ensures fault { IfErr result (IsTextFault text.now) }
{
    let lexemes = lex(alloc, text)?;
    match read_program(alloc, text, &lexemes) {
        Ok(program) => Ok(program),
        Err(stop) => Err(fault_of(text, &lexemes, stop)),
    }
}

/// The law that a text has one fault, refused memory aside: no other is reported in place of the first.
pub fn one_fault()
    ensures { (text : List ℕ) (e f : SyntaxFault) → IsTextFault text e → IsTextFault text f → (e ≡ NoMemory) ⊎ (f ≡ NoMemory) ⊎ (e ≡ f) }
{}

/// No two trees spell one list of lexemes.
#[tactic(auto, using(crate::proofs::OneTree::one_tree))]
pub fn one_tree()
    ensures { (t u : ProgramTree) (ks : List Terminal) → Spells t ks → Spells u ks → t ≡ u }
{}

fn fault_of(text: &str, lexemes: &[Lexeme], stop: Stop) -> SyntaxFault
    requires halts { Halts (terminals text.now lexemes.now) stop }
    ensures found { (t : ProgramTree) → Spells t (terminals text.now lexemes.now) → nesting t ≤ 64 → result ≡ NoMemory }
    ensures fault { IsFault text.now lexemes.now result }
{
    match stop {
        Stop::NoMemory => SyntaxFault::NoMemory,
        Stop::TooDeep(left) => SyntaxFault::TooDeep(span_at(lexemes, left)),
        Stop::Refused(whole, left) => {
            let end = text.len();
            if left == 0 {
                SyntaxFault::Expected(Span { from: end, to: end }, What::More)
            } else if whole {
                SyntaxFault::Expected(span_at(lexemes, left), What::Nothing)
            } else {
                SyntaxFault::Expected(span_at(lexemes, left), What::Other)
            }
        }
    }
}

fn read_program(alloc: Global, text: &str, lexemes: &[Lexeme]) -> Result<Program, Stop>
    requires proper { AreProper text.now lexemes.now }
    ensures read { IfOk result (λ p. (nesting (program_tree p) ≤ 64) × ProgramSpans text.now p lexemes.now) }
    ensures halts { IfErr result (λ e. Halts (terminals text.now lexemes.now) e) }
{
    let rest = expect(lexemes, Class::Word(Keyword::Begin))?;
    let (declarations, rest) = read_declarations(alloc, text, rest)?;
    let (instances, rest) = read_instances(alloc, text, rest)?;
    let rest = expect(past_semicolon(rest), Class::Word(Keyword::End))?;
    let rest = past_semicolon(rest);
    if rest.is_empty() {
        Ok(Program {
            declarations,
            instances,
        })
    } else {
        Err(Stop::Refused(true, rest.len()))
    }
}

fn past_semicolon(input: &[Lexeme]) -> &[Lexeme]
    ensures spans { (text : List ℕ) → May (Takes text (sign mark.Semicolon)) input.now result.now }
    ensures shorter { length result.now ≤ length input.now }
    ensures proper { (text : List ℕ) → AreProper text input.now → AreProper text result.now }
    ensures reads { (text : List ℕ) → Reads text 0 (LastTail ∷ []) input.now result.now }
{
    match past(input, Class::Sign(Sign::Semicolon)) {
        Some(rest) => rest,
        None => input,
    }
}

// Reads one instance or more, with `par` between.
fn read_instances<'t>(alloc: Global, text: &str, input: &'t [Lexeme]) -> Read<'t, Vec<Instance>>
    requires proper { AreProper text.now input.now }
    ensures { ParsesPart result text.now (InstancePart ∷ InstancesTail ∷ []) (λ r. InstancesSpan text.now r.0.items) input.now (λ r. r.1.now) }
{
    let mut instances = Vec::new(alloc);
    let mut rest = input;
    'instances: loop {
        let (instance, after) = read_instance(alloc, text, rest)?;
        instances.push(instance)?;
        let Some(further) = past(after, Class::Word(Keyword::Par)) else {
            return Ok((instances, after));
        };
        rest = further;
    }
}

fn read_instance<'t>(alloc: Global, text: &str, input: &'t [Lexeme]) -> Read<'t, Instance>
    requires proper { AreProper text.now input.now }
    ensures { ParsesPart result text.now (InstancePart ∷ []) (λ r. InstanceSpans text.now r.0) input.now (λ r. r.1.now) }
{
    let (process, rest) = read_name(alloc, text, input)?;
    let rest = expect(rest, Class::Sign(Sign::Open))?;
    let (arguments, rest) = read_arguments(alloc, text, rest)?;
    Ok((Instance { process, arguments }, rest))
}

// Reads the arguments of an instance, with commas between, and the bracket after them: none or more.
fn read_arguments<'t>(alloc: Global, text: &str, input: &'t [Lexeme]) -> Read<'t, Vec<Argument>>
    requires proper { AreProper text.now input.now }
    ensures { ParsesPart result text.now (ArgumentsPart ∷ []) (λ r. ClosedArgumentsSpan text.now r.0.items) input.now (λ r. r.1.now) }
{
    let mut arguments = Vec::new(alloc);
    if let Some(rest) = past(input, Class::Sign(Sign::Close)) {
        return Ok((arguments, rest));
    }
    let mut rest = input;
    'arguments: loop {
        let (argument, after) = read_argument(alloc, text, rest)?;
        arguments.push(argument)?;
        let Some(further) = past(after, Class::Sign(Sign::Comma)) else {
            let left = expect(after, Class::Sign(Sign::Close))?;
            return Ok((arguments, left));
        };
        rest = further;
    }
}

fn read_argument<'t>(alloc: Global, text: &str, input: &'t [Lexeme]) -> Read<'t, Argument>
    requires proper { AreProper text.now input.now }
    ensures { ParsesPart result text.now (ArgumentPart ∷ []) (λ r. ArgumentSpans text.now r.0) input.now (λ r. r.1.now) }
{
    match next(input) {
        Some((Class::Number(number), rest)) => Ok((
            Argument::Number(number, reach(input, rest)),
            rest,
        )),
        Some((Class::Word(Keyword::True), rest)) => Ok((
            Argument::Logical(true, reach(input, rest)),
            rest,
        )),
        Some((Class::Word(Keyword::False), rest)) => Ok((
            Argument::Logical(false, reach(input, rest)),
            rest,
        )),
        Some((Class::Sign(Sign::Minus), rest)) => {
            let Some((number, after)) = next_negative(rest) else {
                return Err(Stop::Refused(false, rest.len()));
            };
            Ok((Argument::Number(number, reach(input, after)), after))
        }
        Some((Class::Name, _)) => {
            let (name, rest) = read_name(alloc, text, input)?;
            Ok((Argument::Channel(name), rest))
        }
        _ => Err(Stop::Refused(false, input.len())),
    }
}

#[tactic(auto, using(crate::proofs::Negative::negative_fits))]
fn next_negative(input: &[Lexeme]) -> Option<(i64, &[Lexeme])>
    ensures number { IfSome result (λ r. (n : ℤ) × (r.0 ≡ neg_ℤ n) × ((text : List ℕ) → terminals text input.now ≡ numeral n ∷ terminals text r.1.now)) }
    ensures passed { IfSome result (λ r. IsPast input.now r.1.now) }
    ensures shorter { IfSome result (λ r. length input.now ≡ length r.1.now + 1) }
    ensures proper { IfSome result (λ r. (text : List ℕ) → AreProper text input.now → AreProper text r.1.now) }
    ensures absent { IfNone result ((text : List ℕ) → AreProper text input.now → leads a_number (terminals text input.now) ≡ false) }
{
    match next(input)? {
        (Class::Number(number), rest) => Some((number.checked_neg()?, rest)),
        _ => None,
    }
}
