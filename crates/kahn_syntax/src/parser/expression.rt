//! Expressions.

ghost use Rattle.std.specs.Prelude.{◌≡◌, ℕ, ◌≤◌, ◌+◌, length, Some, List, ◌∷◌, false, IfSome, IfNone};
ghost use Rattle.kahn_syntax.specs.{Texts.AreProper, Texts.IsPast, inner.Reads.ParsesBefore, inner.Reads.ParsesExpression, inner.Machine.a_word, inner.Machine.is_alone, inner.Machine.class_of, inner.Machine.denials, inner.Machine.factors, inner.Machine.rung_of, inner.Machine.tighter, inner.Machine.whole, Grammar.word, Grammar.operator_terminal, Grammar.rank, Texts.terminals, inner.Machine.at, inner.Machine.leads, inner.Machine.operator_rules, inner.Machine.starts};
ghost use Rattle.kahn_syntax.specs.declared.lexeme.Keyword.TheVariants as keyword;
ghost use Rattle.kahn_syntax.specs.declared.lexeme.Class.TheVariants as class;

use crate::lexeme::{Class, Keyword, Lexeme, Sign};
use crate::parser::cursor::{Read, Stop, deeper, expect, made, next, past, read_name};
use kahn_streams::{Expression, Form, Operand, Operator};
use std::alloc::Global;

/// A level of operators with two operands. From `Or` to `Term` they bind ever tighter.
#[derive(Clone, Copy)]
pub enum Level {
    Or,
    And,
    Relation,
    Sum,
    Term,
}

/// Reads an expression.
#[cycle(expression)]
pub fn read_expression<'t>(
    alloc: Global,
    text: &str,
    input: &'t [Lexeme],
    depth: usize,
) -> Read<'t, Box<Expression>>
    requires depth { depth ≤ 64 }
    requires proper { AreProper text.now input.now }
    ensures { ParsesExpression result text.now depth whole (λ r. r.0.value) input.now (λ r. r.1.now) }
{
    let Some(rest) = past(input, Class::Word(Keyword::If)) else {
        return read_level(alloc, text, input, Level::Or, depth);
    };
    let inner = deeper(input, depth)?;
    let (test, rest) = read_before(alloc, text, rest, inner, Keyword::Then)?;
    let (yes, rest) = read_before(alloc, text, rest, inner, Keyword::Else)?;
    let (no, rest) = read_expression(alloc, text, rest, inner)?;
    made(alloc, input, rest, Form::Conditional(test, yes, no))
}

/// Reads an expression, and the keyword after it.
#[cycle(expression)]
pub fn read_before<'t>(
    alloc: Global,
    text: &str,
    input: &'t [Lexeme],
    depth: usize,
    last: Keyword,
) -> Read<'t, Box<Expression>>
    requires depth { depth ≤ 64 }
    requires proper { AreProper text.now input.now }
    requires last { class_of (a_word last) ≡ Some (class.Word last) }
    ensures { ParsesBefore result text.now depth last (λ r. r.0.value) input.now (λ r. r.1.now) }
{
    let (expression, rest) = read_expression(alloc, text, input, depth)?;
    let rest = expect(rest, Class::Word(last))?;
    Ok((expression, rest))
}

// Reads operands with operators of this level between: comparisons don't follow one another.
#[cycle(expression)]
fn read_level<'t>(
    alloc: Global,
    text: &str,
    input: &'t [Lexeme],
    level: Level,
    depth: usize,
) -> Read<'t, Box<Expression>>
    requires depth { depth ≤ 64 }
    requires proper { AreProper text.now input.now }
    ensures { ParsesExpression result text.now depth (rung_of level) (λ r. r.0.value) input.now (λ r. r.1.now) }
{
    let (first, mut rest) = read_operand(alloc, text, input, level, depth)?;
    let mut further = Vec::new(alloc);
    'operands: while let Some((operator, after)) = next_operator(rest, level) {
        let (expression, left) = read_operand(alloc, text, after, level, depth)?;
        further.push(Operand {
            operator,
            expression: Box::into_inner(expression),
        })?;
        if is_alone(level) {
            return made(alloc, input, left, Form::Level(first, further));
        }
        rest = left;
    }
    if further.is_empty() {
        return Ok((first, rest));
    }
    made(alloc, input, rest, Form::Level(first, further))
}

#[cycle(expression)]
fn read_operand<'t>(
    alloc: Global,
    text: &str,
    input: &'t [Lexeme],
    level: Level,
    depth: usize,
) -> Read<'t, Box<Expression>>
    requires depth { depth ≤ 64 }
    requires proper { AreProper text.now input.now }
    ensures { ParsesExpression result text.now depth (tighter (rung_of level)) (λ r. r.0.value) input.now (λ r. r.1.now) }
{
    match level {
        Level::Or => read_level(alloc, text, input, Level::And, depth),
        Level::And => read_denial(alloc, text, input, depth),
        Level::Relation => read_level(alloc, text, input, Level::Sum, depth),
        Level::Sum => read_level(alloc, text, input, Level::Term, depth),
        Level::Term => read_factor(alloc, text, input, depth),
    }
}

// Reads a relation, with `not` before it or without.
#[cycle(expression)]
fn read_denial<'t>(
    alloc: Global,
    text: &str,
    input: &'t [Lexeme],
    depth: usize,
) -> Read<'t, Box<Expression>>
    requires depth { depth ≤ 64 }
    requires proper { AreProper text.now input.now }
    ensures { ParsesExpression result text.now depth denials (λ r. r.0.value) input.now (λ r. r.1.now) }
{
    let Some(rest) = next_not(input) else {
        return read_level(alloc, text, input, Level::Relation, depth);
    };
    let inner = deeper(input, depth)?;
    let (operand, rest) = read_denial(alloc, text, rest, inner)?;
    made(alloc, input, rest, Form::Not(operand))
}

// Reads an operand that no operator splits.
#[cycle(expression)]
fn read_factor<'t>(
    alloc: Global,
    text: &str,
    input: &'t [Lexeme],
    depth: usize,
) -> Read<'t, Box<Expression>>
    requires depth { depth ≤ 64 }
    requires proper { AreProper text.now input.now }
    ensures { ParsesExpression result text.now depth factors (λ r. r.0.value) input.now (λ r. r.1.now) }
{
    match next(input) {
        Some((Class::Number(number), rest)) => made(alloc, input, rest, Form::Number(number)),
        Some((Class::Word(Keyword::True), rest)) => made(alloc, input, rest, Form::Logical(true)),
        Some((Class::Word(Keyword::False), rest)) => made(alloc, input, rest, Form::Logical(false)),
        Some((Class::Word(Keyword::Wait), rest)) => {
            let rest = expect(rest, Class::Sign(Sign::Open))?;
            let (name, rest) = read_name(alloc, text, rest)?;
            let rest = expect(rest, Class::Sign(Sign::Close))?;
            made(alloc, input, rest, Form::Wait(name))
        }
        Some((Class::Sign(Sign::Minus), rest)) => {
            let inner = deeper(input, depth)?;
            let (operand, rest) = read_factor(alloc, text, rest, inner)?;
            made(alloc, input, rest, Form::Negate(operand))
        }
        Some((Class::Sign(Sign::Open), rest)) => {
            let inner = deeper(input, depth)?;
            let (inside, rest) = read_expression(alloc, text, rest, inner)?;
            let rest = expect(rest, Class::Sign(Sign::Close))?;
            made(alloc, input, rest, Form::Bracket(inside))
        }
        Some((Class::Name, _)) => {
            let (name, rest) = read_name(alloc, text, input)?;
            made(alloc, input, rest, Form::Variable(name))
        }
        _ => Err(Stop::Refused(false, input.len())),
    }
}

fn is_alone(level: Level) -> bool
    ensures { result ≡ is_alone level }
{
    matches!(level, Level::Relation)
}

/// Returns the operator of this level that comes first, and the lexemes after it.
pub fn next_operator(input: &[Lexeme], level: Level) -> Option<(Operator, &[Lexeme])>
    ensures first { IfSome result (λ r. (text : List ℕ) → terminals text input.now ≡ operator_terminal r.0 ∷ terminals text r.1.now) }
    ensures passed { IfSome result (λ r. IsPast input.now r.1.now) }
    ensures ranked { IfSome result (λ r. rank r.0 ≡ at (rung_of level)) }
    ensures proper { IfSome result (λ r. (text : List ℕ) → AreProper text input.now → AreProper text r.1.now) }
    ensures lacks { IfNone result ((text : List ℕ) → starts (operator_rules (rung_of level)) (terminals text input.now) ≡ false) }
    ensures shorter { IfSome result (λ r. length input.now ≡ length r.1.now + 1) }
{
    let (class, rest) = next(input)?;
    let operator = match (level, class) {
        (Level::Or, Class::Word(Keyword::Or)) => Operator::Or,
        (Level::And, Class::Word(Keyword::And)) => Operator::And,
        (Level::Relation, Class::Sign(Sign::Equal)) => Operator::Equal,
        (Level::Relation, Class::Sign(Sign::Unequal)) => Operator::Unequal,
        (Level::Relation, Class::Sign(Sign::Less)) => Operator::Less,
        (Level::Relation, Class::Sign(Sign::AtMost)) => Operator::AtMost,
        (Level::Relation, Class::Sign(Sign::Greater)) => Operator::Greater,
        (Level::Relation, Class::Sign(Sign::AtLeast)) => Operator::AtLeast,
        (Level::Sum, Class::Sign(Sign::Plus)) => Operator::Add,
        (Level::Sum, Class::Sign(Sign::Minus)) => Operator::Subtract,
        (Level::Term, Class::Sign(Sign::Times)) => Operator::Multiply,
        (Level::Term, Class::Word(Keyword::Div)) => Operator::Divide,
        (Level::Term, Class::Word(Keyword::Mod)) => Operator::Remainder,
        _ => return None,
    };
    Some((operator, rest))
}

/// Returns the lexemes after `not`, if it comes first in one of its two forms.
pub fn next_not(input: &[Lexeme]) -> Option<&[Lexeme]>
    ensures first { IfSome result (λ r. (text : List ℕ) → terminals text input.now ≡ word keyword.Not ∷ terminals text r.now) }
    ensures passed { IfSome result (λ r. IsPast input.now r.now) }
    ensures proper { IfSome result (λ r. (text : List ℕ) → AreProper text input.now → AreProper text r.now) }
    ensures lacks { IfNone result ((text : List ℕ) → leads (a_word keyword.Not) (terminals text input.now) ≡ false) }
    ensures shorter { IfSome result (λ r. length input.now ≡ length r.now + 1) }
{
    match next(input)? {
        (Class::Word(Keyword::Not), rest) => Some(rest),
        (Class::Sign(Sign::Not), rest) => Some(rest),
        _ => None,
    }
}
