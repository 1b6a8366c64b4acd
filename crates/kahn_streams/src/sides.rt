//! Where a channel is handed over.

/// Where a channel is handed over: an instance and its parameter, each by its number from 0.
#[derive(Clone, Copy)]
pub struct Side {
    /// The instance.
    pub instance: usize,
    /// The parameter of that instance's process.
    pub parameter: usize,
}
