//! Which lexemes may stand at a place of a text, and with which changes of one lexeme there the text is a program.
#![tactic(auto)]

mod comments;
mod found;
mod grammar;
mod groups;

pub use comments::{bytes_between, comment_before, comments_of, has_word, is_of_word, swallows};
pub use found::{Change, FaultPlace, Reach, Unexpected, place_at, reaches};
pub use grammar::sign_letters;
pub use groups::{CLASSES, LexemeGroup, Wanted};
