//! The kinds of expressions.

ghost use Rattle.std.specs.Prelude.{◌≡◌, unwrap_or};
ghost use Rattle.kahn_streams.specs.Faults.{verdict, wrong, misread, misused, kind_in, find, faults_in, kind_of, faults_as};
ghost use Rattle.kahn_streams.specs.{Wiring.takes, Wiring.gives, View.bytes_of};

use crate::names::Scope;
use kahn_streams::Operator::{
    Add, And, AtLeast, AtMost, Divide, Equal, Greater, Less, Multiply, Or, Remainder, Subtract,
    Unequal,
};
use kahn_streams::{CheckFault, Direction, Expression, Form, Kind, Name, Operator, Span, Taking};

/// Returns the kind that an operator takes of its operands, the first of which has kind `first`, and the kind that it gives.
fn kinds(operator: Operator, first: Kind) -> (Kind, Kind)
    ensures taken { result.0 ≡ unwrap_or (takes operator) first }
    ensures given { result.1 ≡ gives operator }
{
    match operator {
        Or | And => (Kind::Logical, Kind::Logical),
        Equal | Unequal => (first, Kind::Logical),
        Less | AtMost | Greater | AtLeast => (Kind::Integer, Kind::Logical),
        Add | Subtract | Multiply | Divide | Remainder => (Kind::Integer, Kind::Integer),
    }
}

/// Returns the kind wanted, if it is the one found.
pub fn agree(wanted: Kind, found: Kind, span: Span) -> Result<Kind, CheckFault>
    ensures { result ≡ verdict (wrong wanted found span) wanted }
{
    match (wanted, found) {
        (Kind::Integer, Kind::Integer) | (Kind::Logical, Kind::Logical) => Ok(wanted),
        (_, _) => Err(CheckFault::WrongKind(span)),
    }
}

/// Returns the kind of the variable or value parameter of that name.
pub fn variable(scope: &Scope, name: &Name) -> Result<Kind, CheckFault>
    ensures { result ≡ verdict (misread (find scope.now (bytes_of name.now)) name.now.span) (kind_in (find scope.now (bytes_of name.now))) }
{
    match scope.find(name) {
        None => Err(CheckFault::Unknown(name.span)),
        Some(Taking::Channel(_, _)) => Err(CheckFault::ValueExpected(name.span)),
        Some(Taking::Value(kind)) => Ok(kind),
    }
}

/// Returns the kind of the channel parameter of that name and that direction.
pub fn channel(scope: &Scope, name: &Name, wanted: Direction) -> Result<Kind, CheckFault>
    ensures { result ≡ verdict (misused wanted (find scope.now (bytes_of name.now)) name.now.span) (kind_in (find scope.now (bytes_of name.now))) }
{
    match scope.find(name) {
        None => Err(CheckFault::Unknown(name.span)),
        Some(Taking::Value(_)) => Err(CheckFault::ChannelExpected(name.span)),
        Some(Taking::Channel(found, kind)) => match (wanted, found) {
            (Direction::In, Direction::In) | (Direction::Out, Direction::Out) => Ok(kind),
            (_, _) => Err(CheckFault::WrongDirection(name.span)),
        },
    }
}

/// Returns the kind of an expression. What is wrong inside it comes first, from left to right.
#[tactic(auto, using(crate::proofs::Walk::verdict_ok, crate::proofs::Walk::verdict_err, crate::proofs::Walk::verdict_none, crate::proofs::Walk::verdict_same))]
pub fn kind(scope: &Scope, expression: &Expression) -> Result<Kind, CheckFault>
    ensures { result ≡ verdict (faults_in scope.now expression.now.form) (kind_of scope.now expression.now.form) }
{
    match &expression.form {
        Form::Number(_) => Ok(Kind::Integer),
        Form::Logical(_) => Ok(Kind::Logical),
        Form::Variable(name) => variable(scope, name),
        Form::Wait(name) => channel(scope, name, Direction::In),
        Form::Negate(inner) => agree(Kind::Integer, kind(scope, inner)?, inner.span),
        Form::Not(inner) => agree(Kind::Logical, kind(scope, inner)?, inner.span),
        Form::Bracket(inner) => kind(scope, inner),
        Form::Level(first, rest) => {
            let mut before = kind(scope, first)?;
            let mut done = first.span;
            for operand in rest {
                let (wanted, given) = kinds(operand.operator, before);
                agree(wanted, before, done)?;
                agree(
                    wanted,
                    kind(scope, &operand.expression)?,
                    operand.expression.span,
                )?;
                before = given;
                done = Span {
                    from: done.from,
                    to: operand.expression.span.to,
                };
            }
            Ok(before)
        }
        Form::Conditional(test, yes, no) => {
            agree(Kind::Logical, kind(scope, test)?, test.span)?;
            let first = kind(scope, yes)?;
            agree(first, kind(scope, no)?, no.span)
        }
    }
}

/// Checks that an expression has the kind wanted: its inside, then its kind.
#[tactic(auto, using(crate::proofs::Walk::verdict_ok, crate::proofs::Walk::verdict_err, crate::proofs::Walk::verdict_none, crate::proofs::Walk::verdict_same))]
pub fn expect(scope: &Scope, expression: &Expression, wanted: Kind) -> Result<(), CheckFault>
    ensures { result ≡ verdict (faults_as wanted scope.now expression.now) tt }
{
    agree(wanted, kind(scope, expression)?, expression.span)?;
    Ok(())
}
