//! The law of causes. The function does nothing: its contract is the law.

ghost use Rattle.std.specs.Prelude.{◌≡◌, ℕ, List};
ghost use Rattle.kahn_streams.specs.Network.{Schema};
ghost use Rattle.kahn_chain.specs.{Chain.IsCause, declared.reason.Cause.Cause, declared.reason.Standing.Standing};

/// An instance has one cause; so a ring is reported exactly if there is one.
#[tactic(auto, using(crate::proofs::Leading::one_cause))]
pub fn one_cause()
    ensures { (N : Schema) (ss : List Standing) (p : ℕ) (a b : Cause) → IsCause N ss p a → IsCause N ss p b → a ≡ b }
{}
