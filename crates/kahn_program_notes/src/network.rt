//! Faults of a network: those that don't seem to follow from others, each with what was expected and found, a name that is near or a change
//! that leaves fewer faults, and another place that has to do with it.

mod changes;
mod near;
mod notes;
mod place;
mod said;

pub use near::{add_unknown_channel, add_unknown_input, one_nearest};
pub use notes::{FaultNotes, fault_notes};
