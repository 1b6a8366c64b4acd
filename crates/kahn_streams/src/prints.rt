//! Which processes print.

ghost use Rattle.std.specs.Prelude.{◌≡◌};
ghost use Rattle.kahn_streams.specs.{Prints.declaration_prints, Prints.process_prints, Syntax.prints_in, View.Scope, View.statement_of};

use crate::tree::{Action, Declaration, Process, Statement};

fn prints(statement: &Statement) -> bool
    ensures { (names : Scope) → result ≡ prints_in (statement_of names statement.now) }
{
    match &statement.action {
        Action::Empty => false,
        Action::Assign(_, _) => false,
        Action::Send(_, _) => false,
        Action::Print(_) => true,
        Action::Block(statements) => {
            for inner in statements {
                if prints(inner) {
                    return true;
                }
            }
            false
        }
        Action::If(_, yes, no) => {
            prints(yes)
                || match no {
                    Some(no) => prints(no),
                    None => false,
                }
        }
        Action::While(_, body) => prints(body),
        Action::Repeat(body) => prints(body),
    }
}

/// Whether a process prints anywhere, reached or not.
#[tactic(auto, using(crate::proofs::Printing::body_prints))]
pub fn process_prints(process: &Process) -> bool
    ensures { result ≡ process_prints process.now }
{
    for statement in &process.statements {
        if prints(statement) {
            return true;
        }
    }
    false
}

/// Whether a declaration is of a process that prints anywhere, reached or not.
pub fn declaration_prints(declaration: &Declaration) -> bool
    ensures { result ≡ declaration_prints declaration.now }
{
    match declaration {
        Declaration::Channels(_, _, _) => false,
        Declaration::Process(process) => process_prints(process),
    }
}
