//! Runs of a network, and what their results mean.
#![tactic(auto)]

mod held;
mod plan;
mod running;

pub use held::Held;
pub use kahn_sequential::{
    HeldFault, calls_go_on, finished_exactly, finished_is_one, goes_on_same, goes_on_then, run_one,
    stopped_begins, verdict_is_one,
};
pub use kahn_streams::{
    Answer, Config, End, Gate, MOST_BOUND, MOST_QUANTUM, MOST_WORKERS, Open, Outcome, RunFault,
    Stream, Verdict,
};
pub use running::run;

// For the crates above.
pub use kahn_sequential::Flow;
