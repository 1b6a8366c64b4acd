//! Why an instance of a network goes no further.
#![tactic(auto)]

mod laws;
mod reason;
mod walk;

// For the crates above.
pub use laws::one_cause;
pub use reason::{Cause, Reason, Standing, has_ring, reasons, rings, standings};
