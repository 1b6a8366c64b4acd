//! What can be wrong with a program, and why a run is refused.

ghost use Rattle.std.specs.Prelude.{◌≡◌};
ghost use Rattle.kahn_streams.specs.declared.fault.{CheckFault.TheVariants.NoMemory, RunFault.TheVariants.NoMemory as Wants};

use crate::memory::NoMemory;
use crate::span::Span;
use std::alloc::{AllocError, AllocFailed};
use thiserror::Error;

/// The first thing that is wrong with a program, and where.
#[derive(Clone, Copy, Debug, PartialEq, Eq, Drop, Error)]
pub enum CheckFault {
    /// A name that its name space has already. The span is that of the later one.
    #[error("name is declared twice")]
    DeclaredTwice(Span),
    /// A name that isn't declared, or an instance of something else than a process.
    #[error("name is not declared")]
    Unknown(Span),
    /// An operand, an expression or an argument of another kind than expected.
    #[error("kind does not agree")]
    WrongKind(Span),
    /// More or fewer arguments than parameters. The span is the instance's name.
    #[error("number of arguments does not agree")]
    WrongCount(Span),
    /// Something else where a channel is expected.
    #[error("a channel is expected")]
    ChannelExpected(Span),
    /// A channel where a value is expected.
    #[error("a value is expected")]
    ValueExpected(Span),
    /// A wait on a channel parameter that is written, or a send on one that is read.
    #[error("direction does not agree")]
    WrongDirection(Span),
    /// A channel that isn't an input and that nobody writes. The span is its declared name.
    #[error("channel has no writer")]
    NoWriter(Span),
    /// A channel that is handed over to be written, but is an input or has a writer. The span is the argument.
    #[error("channel has two writers")]
    TwoWriters(Span),
    /// A channel that isn't an output and that nobody reads. The span is its declared name.
    #[error("channel has no reader")]
    NoReader(Span),
    /// A channel that is handed over to be read, but is an output or has a reader. The span is the argument.
    #[error("channel has two readers")]
    TwoReaders(Span),
    /// The 1,025th channel or the 257th instance. The span is its name.
    #[error("limit is exceeded")]
    TooMany(Span),
    /// Memory was refused.
    #[error("no memory")]
    NoMemory,
}

/// Why there is no answer.
#[derive(Clone, Copy, Debug, PartialEq, Eq, Drop, Error)]
pub enum RunFault {
    /// A number is out of its limit.
    #[error("configuration is out of range")]
    BadConfig,
    /// The watched channel is not declared.
    #[error("watched channel is not declared")]
    UnknownWatch,
    /// Memory was refused before the first event.
    #[error("no memory")]
    NoMemory,
    /// A thread couldn't be started. Those that were are halted and gathered.
    #[error("no thread")]
    NoThread,
    /// The workers left, but the run neither finished nor reached its bound nor was refused memory.
    #[error("workers stalled")]
    Stalled,
}

impl From<AllocError> for CheckFault {
    ghost from_gives = { λ _ e. e ≡ NoMemory };

    fn from(_error: AllocError) -> Self {
        CheckFault::NoMemory
    }
}

impl<T: Drop> From<AllocFailed<T>> for CheckFault {
    ghost from_gives = { λ _ e. e ≡ NoMemory };

    fn from(_error: AllocFailed<T>) -> Self {
        CheckFault::NoMemory
    }
}

impl From<NoMemory> for RunFault {
    ghost from_gives = { λ _ e. e ≡ Wants };

    fn from(_error: NoMemory) -> RunFault {
        RunFault::NoMemory
    }
}
