//! The workers of a run: each takes one process after another, runs it for a part of the budget, and passes it on.
#![tactic(auto)]

mod crew;
mod opening;
mod worker;

// For the crates above.
pub use crew::{Crewing, run_tasks};
pub use opening::{CrewFault, Left, rest_all, wake_all};
