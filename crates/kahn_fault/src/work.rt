//! Why there is no report; the network of a program text.

ghost use Rattle.kahn_fault.specs.{Places.LiesIn, Places.fault_span, Work.IsChecked, Work.IsUnchecked};
ghost use Rattle.std.specs.Prelude.{ℕ, IfSome, List, MatchResult};

use kahn_check::{CheckFault, check};
use kahn_streams::{Network, RunFault};
use kahn_syntax::{SyntaxFault, parse};
use kahn_texts::{TextFault, WriteFault};
use std::alloc::Global;
use std::hash::RandomState;
use thiserror::Error;

/// Why no report was written, or not the whole of it. But for `Write`, nothing was written.
#[derive(Clone, Copy, Debug, PartialEq, Eq, Drop, Error)]
pub enum WorkFault {
    /// The program text isn't of the language.
    #[error("{0}")]
    Syntax(SyntaxFault),
    /// The program isn't well wired.
    #[error("{0}")]
    Check(CheckFault),
    /// The input text describes no input of the network.
    #[error("{0}")]
    Text(TextFault),
    /// The run was refused.
    #[error("{0}")]
    Run(RunFault),
    /// The report could not be written. A prefix of it was.
    #[error("report could not be written")]
    Write(WriteFault),
}

impl From<TextFault> for WorkFault {
    ghost use Rattle.std.specs.Prelude.{◌≡◌};
    ghost use Rattle.kahn_fault.specs.declared.work.WorkFault.TheVariants.{Text};

    ghost from_gives = { λ fault told. told ≡ Text fault };

    fn from(fault: TextFault) -> WorkFault {
        WorkFault::Text(fault)
    }
}

/// Parses and checks a program text. Fails with `Syntax` if it isn't of the language, and with `Check` if it isn't well wired.
/// Names are hashed under `seed`, on which no answer depends.
pub fn checked(alloc: Global, seed: RandomState, program: &str) -> Result<Network, WorkFault>
    ensures { MatchResult result (IsChecked program.now) (IsUnchecked program.now) }
{
    let tree = match parse(alloc, program) {
        Ok(tree) => tree,
        Err(fault) => return Err(WorkFault::Syntax(fault)),
    };
    match check(alloc, seed, tree) {
        Ok(network) => Ok(network),
        Err(fault) => Err(WorkFault::Check(fault)),
    }
}

/// A law: the place of a fault for which a program text is refused is within the text.
pub fn fault_lies()
    ensures { (program : List ℕ) (fault : WorkFault) → IsUnchecked program fault → IfSome (fault_span fault) (LiesIn program) }
{}
