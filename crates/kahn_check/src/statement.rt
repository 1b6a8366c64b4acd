//! Whether a process is sound: its names, and then its statements.

ghost use Rattle.std.specs.Prelude.{◌≡◌, [], MatchResult};
ghost use Rattle.kahn_streams.specs.{Faults.Checks, Faults.IsMet, Faults.body_faults, Faults.faults_of, Faults.process_faults, Faults.twice, Faults.verdict, Wiring.locals_of, Wiring.scope_of};

use crate::expression::{agree, channel, expect, kind, variable};
use crate::names::Scope;
use kahn_streams::{Action, CheckFault, Direction, Kind, Process, Statement, Taking};
use std::alloc::Global;
use std::hash::RandomState;

/// Finds the first thing that is wrong in a statement.
#[tactic(auto, using(crate::proofs::Walk::verdict_ok, crate::proofs::Walk::verdict_err, crate::proofs::Walk::verdict_none, crate::proofs::Walk::verdict_same))]
fn statement(scope: &Scope, it: &Statement) -> Result<(), CheckFault>
    ensures { result ≡ verdict (faults_of scope.now it.now.action) tt }
{
    match &it.action {
        Action::Empty => Ok(()),
        Action::Assign(name, expression) => {
            let wanted = variable(scope, name)?;
            expect(scope, expression, wanted)
        }
        Action::Send(expression, name) => {
            let found = kind(scope, expression)?;
            let wanted = channel(scope, name, Direction::Out)?;
            agree(wanted, found, expression.span)?;
            Ok(())
        }
        Action::Print(expression) => {
            kind(scope, expression)?;
            Ok(())
        }
        Action::Block(statements) => {
            for inner in statements {
                statement(scope, inner)?;
            }
            Ok(())
        }
        Action::If(test, yes, no) => {
            expect(scope, test, Kind::Logical)?;
            statement(scope, yes)?;
            match no {
                None => Ok(()),
                Some(inner) => statement(scope, inner),
            }
        }
        Action::While(test, inner) => {
            expect(scope, test, Kind::Logical)?;
            statement(scope, inner)
        }
        Action::Repeat(inner) => statement(scope, inner),
    }
}

/// Finds the first thing that is wrong in a list of statements.
#[tactic(auto, using(crate::proofs::Walk::verdict_ok, crate::proofs::Walk::verdict_err, crate::proofs::Walk::verdict_none, crate::proofs::Walk::verdict_same))]
fn body(scope: &Scope, statements: &[Statement]) -> Result<(), CheckFault>
    ensures { result ≡ verdict (body_faults scope.now statements.now) tt }
{
    for it in statements {
        statement(scope, it)?;
    }
    Ok(())
}

/// Returns the names of a process, its parameters first and then its variables.
#[tactic(auto, using(crate::proofs::Twice::twice_new, crate::proofs::Twice::twice_known, crate::proofs::Twice::more_entries))]
fn locals(alloc: Global, seed: RandomState, process: &Process) -> Result<Scope, CheckFault>
    ensures { Checks (twice [] (locals_of process.now)) (λ s. s ≡ scope_of process.now) result }
{
    let mut scope = Scope::new(alloc, seed);
    for parameter in &process.parameters {
        scope.declare(&parameter.name, parameter.taking)?;
    }
    for variable in &process.variables {
        scope.declare(&variable.name, Taking::Value(variable.kind))?;
    }
    Ok(scope)
}

/// Finds the first thing that is wrong in a process.
#[tactic(auto, using(crate::proofs::Walk::verdict_ok, crate::proofs::Walk::verdict_err))]
pub fn check_process(alloc: Global, seed: RandomState, process: &Process) -> Result<(), CheckFault>
    ensures { MatchResult result (λ u. process_faults process.now ≡ []) (λ f. IsMet (process_faults process.now) f) }
{
    let scope = locals(alloc, seed, process)?;
    body(&scope, &process.statements)
}
