//! What a run passes before it runs a process.

ghost use Rattle.std.specs.Prelude.{◌≡◌};

/// Is entered just before each quantum of an instance. What is answered is right for every gate; a gate that waits
/// makes the run wait.
pub trait Gate {
    /// The instance is about to run.
    fn enter(&self, instance: usize);

    /// Whether `enter` does nothing. Only then a run by several workers may begin on the caller's thread alone, and start no
    /// other where there is no work for two.
    fn is_open(&self) -> bool {
        false
    }
}

/// The gate that does nothing.
#[derive(Clone, Copy, Default)]
pub struct Open;

/// That a gate was entered for an instance, which may run for one quantum then. Nothing but `enter_gate` makes one.
#[derive(Drop)]
pub struct GateEntry {
    instance: usize,
}

impl Gate for Open {
    fn enter(&self, _instance: usize) {}

    fn is_open(&self) -> bool {
        true
    }
}

/// Enters the gate.
pub fn enter_gate<G: Gate>(gate: &G, instance: usize) -> GateEntry
    ensures { result.instance ≡ instance }
{
    gate.enter(instance);
    GateEntry { instance }
}
