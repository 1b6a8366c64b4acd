//! Why a program text or an input text is refused, and why a run stopped, in words.
#![tactic(auto)]

mod explaining;
mod why;

pub use explaining::{Came, refuse_input};
pub use why::for_good;

// For the crates above.
pub use explaining::{Admitted, admit, write_both, write_data};
pub use why::{Explanation, Finding, causes, explained};
