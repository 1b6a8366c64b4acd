//! A process of a network together with the ends of its channels, which travel with it from worker to worker.
#![tactic(auto)]

mod feed;
mod handing;
mod port;
mod task;

// For the crates above.
pub use handing::{jobs_at, meet, seat, settle, unseat};
pub use task::{Idle, Task, TaskStanding};
