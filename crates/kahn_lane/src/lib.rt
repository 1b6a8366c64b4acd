//! Unbounded channels between two threads.
//!
//! A relay passes single items, and a lane the tokens of one channel of a network, in segments. Both are built on ruled
//! deques, so contracts know of any two threads that what comes out is what went in, in order, none left out and none
//! twice. No call blocks or needs a handle. All memory comes from the allocator that the maker was given.
#![tactic(auto)]

mod handover;
mod lanes;
mod name;
mod segments;

pub use handover::{LaneFault, relay};
pub use lanes::{lane, lane_at, meet};
pub use segments::{Giver, Receiver, Sender, Taker};

// For the crates above.
pub use lanes::settle;
