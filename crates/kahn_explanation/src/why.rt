//! Why the run of an answer stopped.

mod lines;
mod told;

pub use told::{Explanation, Finding, causes, explained, for_good};
