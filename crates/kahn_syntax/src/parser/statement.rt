//! Statements.

ghost use Rattle.std.specs.Prelude.{◌≤◌, [], ◌∷◌, MatchResult};
ghost use Rattle.kahn_syntax.specs.{Texts.AreProper, inner.Reads.ParsesStatement, inner.Reads.BodyRead, inner.Reads.Stops, inner.Machine.StatementPart, inner.Machine.SimplePart, inner.Machine.StatementsTail};

use crate::lexeme::{Class, Keyword, Lexeme, Sign};
use crate::parser::cursor::{Read, deeper, expect, next, past, read_name, stated};
use crate::parser::expression::{read_before, read_expression};
use kahn_streams::{Action, Statement};
use std::alloc::Global;

/// Reads one statement or more, with semicolons between.
#[cycle(statement)]
pub fn read_statements<'t>(
    alloc: Global,
    text: &str,
    input: &'t [Lexeme],
    depth: usize,
) -> Read<'t, Vec<Statement>>
    requires depth { depth ≤ 64 }
    requires proper { AreProper text.now input.now }
    ensures { MatchResult result (λ r. BodyRead text.now depth r.0.items input.now r.1.now) (Stops text.now depth (StatementPart ∷ StatementsTail ∷ []) input.now) }
{
    let mut statements = Vec::new(alloc);
    let mut rest = input;
    'statements: loop {
        let (statement, after) = read_statement(alloc, text, rest, depth)?;
        statements.push(Box::into_inner(statement))?;
        let Some(further) = past(after, Class::Sign(Sign::Semicolon)) else {
            return Ok((statements, after));
        };
        rest = further;
    }
}

#[cycle(statement)]
fn read_statement<'t>(
    alloc: Global,
    text: &str,
    input: &'t [Lexeme],
    depth: usize,
) -> Read<'t, Box<Statement>>
    requires depth { depth ≤ 64 }
    requires proper { AreProper text.now input.now }
    ensures { ParsesStatement result text.now depth StatementPart (λ r. r.0.value) input.now (λ r. r.1.now) }
{
    match next(input) {
        Some((Class::Word(Keyword::If), rest)) => {
            let inner = deeper(input, depth)?;
            let (test, rest) = read_before(alloc, text, rest, inner, Keyword::Then)?;
            let (yes, rest) = read_simple(alloc, text, rest, inner)?;
            let test = Box::into_inner(test);
            let Some(after) = past(rest, Class::Word(Keyword::Else)) else {
                return stated(alloc, input, rest, Action::If(test, yes, None));
            };
            let (no, rest) = read_statement(alloc, text, after, inner)?;
            stated(alloc, input, rest, Action::If(test, yes, Some(no)))
        }
        Some((Class::Word(Keyword::While), rest)) => {
            let inner = deeper(input, depth)?;
            let (test, rest) = read_before(alloc, text, rest, inner, Keyword::Do)?;
            let (turn, rest) = read_statement(alloc, text, rest, inner)?;
            let test = Box::into_inner(test);
            stated(alloc, input, rest, Action::While(test, turn))
        }
        Some((Class::Word(Keyword::Repeat), rest)) => {
            let inner = deeper(input, depth)?;
            let (turn, rest) = read_statement(alloc, text, rest, inner)?;
            stated(alloc, input, rest, Action::Repeat(turn))
        }
        _ => read_simple(alloc, text, input, depth),
    }
}

// Reads a statement that `else` may follow.
#[cycle(statement)]
fn read_simple<'t>(
    alloc: Global,
    text: &str,
    input: &'t [Lexeme],
    depth: usize,
) -> Read<'t, Box<Statement>>
    requires depth { depth ≤ 64 }
    requires proper { AreProper text.now input.now }
    ensures { ParsesStatement result text.now depth SimplePart (λ r. r.0.value) input.now (λ r. r.1.now) }
{
    match next(input) {
        Some((Class::Name, _)) => {
            let (name, rest) = read_name(alloc, text, input)?;
            let rest = expect(rest, Class::Sign(Sign::Becomes))?;
            let (value, rest) = read_expression(alloc, text, rest, depth)?;
            let value = Box::into_inner(value);
            stated(alloc, input, rest, Action::Assign(name, value))
        }
        Some((Class::Word(Keyword::Send), rest)) => {
            let (value, rest) = read_before(alloc, text, rest, depth, Keyword::On)?;
            let (name, rest) = read_name(alloc, text, rest)?;
            let value = Box::into_inner(value);
            stated(alloc, input, rest, Action::Send(value, name))
        }
        Some((Class::Word(Keyword::Print), rest)) => {
            let (value, rest) = read_expression(alloc, text, rest, depth)?;
            stated(alloc, input, rest, Action::Print(Box::into_inner(value)))
        }
        Some((Class::Word(Keyword::Begin), rest)) => {
            let inner = deeper(input, depth)?;
            let (statements, rest) = read_statements(alloc, text, rest, inner)?;
            let rest = expect(rest, Class::Word(Keyword::End))?;
            stated(alloc, input, rest, Action::Block(statements))
        }
        _ => {
            let empty = Statement {
                span: None,
                action: Action::Empty,
            };
            let nothing = Box::new(alloc, empty)?;
            Ok((nothing, input))
        }
    }
}
