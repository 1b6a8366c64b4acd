//! A run that is fed line by line, and shows after each line what is new on its streams.
#![tactic(auto)]

mod pace;
mod refusal;
mod session;

pub use refusal::{
    AT_END, Origin, TakeFault, failure_words, is_want, like_words, refused_origin, take_words,
    write_said,
};
pub use session::Session;
