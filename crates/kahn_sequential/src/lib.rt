//! Runs on one thread, and what the results of all runs mean.
#![tactic(auto)]

mod awake;
mod bench;
mod counted;
mod flow;
mod laws;
mod one;
mod rounds;
mod streams;
mod taps;

pub use counted::{Count, Counted, Recorded, run_counted, run_recorded};
pub use flow::HeldFault;
pub use laws::{
    calls_go_on, finished_exactly, finished_is_one, goes_on_same, goes_on_then, stopped_begins,
    verdict_is_one,
};
pub use one::run_one;

// For the crates above.
pub use bench::{Sequential, Vacant};
pub use flow::Flow;
pub use one::{
    QUANTUM, answered, channel_read, plan_of, run_on_alone, run_until_wide, run_watched,
};
pub use rounds::{PartEnd, Round, verdict_of};
pub use streams::{fill, opening_streams, room_for_answer};
