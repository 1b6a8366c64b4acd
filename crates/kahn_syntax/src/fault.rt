//! Why a text is no program.

ghost use Rattle.std.specs.Prelude.{◌≡◌};
ghost use Rattle.kahn_syntax.specs.declared.fault.SyntaxFault.TheVariants.{NoMemory};

use kahn_streams::Span;
use std::alloc::AllocFailed;
use thiserror::Error;

/// Why a lexeme is unexpected.
#[derive(Clone, Copy, Debug, PartialEq, Eq, Drop, Error)]
pub enum What {
    /// The text ended: its lexemes begin a program but aren't one. The span is empty, at the text's end.
    #[error("text ends too early")]
    More,
    /// The lexemes before are a whole program, and this one can't follow.
    #[error("text goes on after the program")]
    Nothing,
    /// The lexemes before begin a program, and with this one they begin none.
    #[error("this cannot stand here")]
    Other,
}

/// Why a text is refused.
#[derive(Clone, Copy, Debug, PartialEq, Eq, Drop, Error)]
pub enum SyntaxFault {
    /// The text has more than 1,048,576 bytes.
    #[error("program text is too long")]
    TooLong,
    /// A character outside the language, or a `:` without `=` after it.
    #[error("character is not of the language")]
    BadCharacter(Span),
    /// A number above 9223372036854775807.
    #[error("number is too large")]
    NumberTooLarge(Span),
    /// The word `comment` with no `;` after it.
    #[error("comment has no end")]
    CommentOpen(Span),
    /// A name of more than 64 bytes.
    #[error("name is too long")]
    NameTooLong(Span),
    /// An unexpected lexeme, or the end of the text where more is expected.
    #[error("{1}")]
    Expected(Span, What),
    /// A lexeme that is allowed here but would open level 65.
    #[error("nesting is too deep")]
    TooDeep(Span),
    /// Memory was refused.
    #[error("no memory")]
    NoMemory,
}

impl<T: Drop> From<AllocFailed<T>> for SyntaxFault {
    ghost from_gives = { λ _ e. e ≡ NoMemory };

    fn from(_error: AllocFailed<T>) -> Self {
        SyntaxFault::NoMemory
    }
}
