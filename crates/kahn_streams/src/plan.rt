//! The numbers of a run.

/// The numbers of a run: who works on it, for how long, and what is watched.
#[derive(Clone, Copy)]
pub struct Plan {
    /// A channel whose tokens are kept as well as those of the outputs, if any.
    pub watch: Option<usize>,
    /// How many workers there are, 1 up to 16.
    pub workers: usize,
    /// The most events of a turn, at least 1.
    pub quantum: u64,
    /// The most events of the run, below 2 ^ 48.
    pub bound: u64,
}
