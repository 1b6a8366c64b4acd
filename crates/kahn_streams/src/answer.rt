//! Answers of a run.

use crate::tokens::Tokens;
use crate::value::{Failure, Line};

/// Why a run stopped.
#[derive(Clone, Copy, Debug, PartialEq, Eq)]
pub enum Verdict {
    Finished,
    Bound,
    Memory,
}

/// The state of an instance when the run stopped.
#[derive(Clone, Copy, Debug, PartialEq, Eq)]
pub enum Outcome {
    Ended,
    Waits(usize),
    Faulted(Failure),
    More,
}

/// The end of an instance.
#[derive(Clone, Copy, Debug, PartialEq, Eq)]
pub struct End {
    pub outcome: Outcome,
    pub events: u64,
}

/// What was sent on a line: its tokens in place order, from place 0 on.
#[derive(Drop)]
pub struct Stream {
    pub line: Line,
    pub tokens: Tokens,
}

/// The answer of a run.
#[derive(Drop)]
pub struct Answer {
    pub verdict: Verdict,
    pub streams: Vec<Stream>,
    pub ends: Vec<End>,
    pub events: u64,
}
