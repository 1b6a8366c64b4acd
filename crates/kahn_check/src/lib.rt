//! Checked networks: whether a program is well wired, the first thing that is wrong if it isn't, and who writes and who
//! reads each channel.
#![tactic(auto)]

mod expression;
mod laws;
mod names;
mod part;
mod statement;

pub use kahn_streams::{Channel, CheckFault, Network, NetworkInstance, Side};
pub use laws::{exact, part_by_part};
pub use part::{check, every};

// For the crates above.
pub use names::NameTable;
