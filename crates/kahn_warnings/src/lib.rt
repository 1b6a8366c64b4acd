//! Warnings: what a program may have, and seldom means; and where its faults of arithmetic come from.
#![tactic(auto)]

mod layout;
mod program;
mod sites;

pub use program::{fault_places, faults_lie, loops_hold};
pub use sites::constants_hold;

// For the crates above.
pub use program::warning_notes;
