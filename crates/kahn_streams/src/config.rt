//! How a run is set up, and the limits on its numbers.

ghost use Rattle.std.specs.Prelude.{◌↔◌, IsTrue};
ghost use Rattle.kahn_streams.specs.Answers.{IsInRange};

/// The greatest number of workers.
pub const MOST_WORKERS: u64 = 16;

/// The greatest quantum, in events.
pub const MOST_QUANTUM: u64 = 1_000_000;

/// The greatest bound, in events: 2^48 - 1.
pub const MOST_BOUND: u64 = 281_474_976_710_655;

/// How a run is set up. None of it changes what a channel carries.
#[derive(Debug, Drop)]
pub struct Config {
    /// How many threads work: 1 to 16.
    pub workers: u64,
    /// How many events a process may do before another one is looked for: 1 to 1,000,000.
    pub quantum: u64,
    /// How many events all processes together may do: 0 to 2^48 - 1.
    pub bound: u64,
    /// The name of a channel whose values are returned too.
    pub watch: Option<String>,
}

impl Config {
    /// Whether each number is within its limit.
    pub fn is_in_range(&self) -> bool
        ensures { IsTrue result ↔ IsInRange self.now.workers self.now.quantum self.now.bound }
    {
        1 <= self.workers
            && self.workers <= MOST_WORKERS
            && 1 <= self.quantum
            && self.quantum <= MOST_QUANTUM
            && self.bound <= MOST_BOUND
    }
}
