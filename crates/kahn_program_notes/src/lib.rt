//! Why a program text is refused: a fault of its grammar, or the faults of its network.
#![tactic(auto)]

mod network;
mod syntax;

pub use network::one_nearest;
pub use syntax::{character_help, commented_note, held_remark, unexpected_note};

// For the crates above.
pub use network::{FaultNotes, add_unknown_channel, add_unknown_input, fault_notes};
