//! Flat code of processes, and the cells that run it.
#![tactic(auto)]

mod cell;
mod code;
mod emit;
mod feed;
mod form;
mod forward;
mod machine;
mod plain;
mod progress;
mod queue;

pub use cell::{Cell, Kept};
pub use code::{Code, CodeFault, compile, compiles};
pub use kahn_streams::Steps;
pub use plain::{Plain, Ports};
pub use progress::Pause;

// For the crates above.
pub use cell::{Tap, regrow_taps};
pub use machine::{Atom, apply, negated};
pub use progress::{Called, Far, Within};
