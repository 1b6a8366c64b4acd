//! Laws on answers. Each function does nothing: its contract is the law.

ghost use Rattle.kahn_sequential.specs.inner.Below.{Answer, AreBegun, AreOne, Finished, HasSize, Inputs, IsRight, Memory, Schema, Settles, Verdict};
ghost use Rattle.kahn_sequential.specs.HeldRuns.{AreCalls, GoesOn, HasFinished, HeldRun, IsAnswerOf, SaysNoLess, last_of};
ghost use Rattle.std.specs.Prelude.{◌≡◌, ◌≢◌, ℕ, List, Option};

/// Two finished answers for one network, input and watch have the same streams and ends, for any bounds.
pub fn finished_is_one()
    ensures { (N : Schema) (I : Inputs) (watch : Option ℕ) (a b : Answer) → HasFinished N I watch a → HasFinished N I watch b → AreOne a b }
{}

/// Unless memory was refused, a right answer is finished exactly if the size of the solution is a number at most the bound. A
/// finished answer has done exactly that many events.
pub fn finished_exactly()
    ensures settles { (N : Schema) (I : Inputs) (bound : ℕ) (watch : Option ℕ) (a : Answer) → IsRight N I bound watch a → Settles N I bound a.verdict }
    ensures counted { (N : Schema) (I : Inputs) (n : ℕ) (watch : Option ℕ) (a : Answer) → IsRight N I n watch a → a.verdict ≡ Finished → HasSize N I a.events }
{}

/// For one network, input and bound one verdict settles the run, unless memory was refused. So right answers have this verdict, as
/// each one's verdict settles it.
pub fn verdict_is_one()
    ensures { (N : Schema) (I : Inputs) (bound : ℕ) (v w : Verdict) → Settles N I bound v → Settles N I bound w → v ≢ Memory → w ≢ Memory → v ≡ w }
{}

/// Each stream of a right answer begins the history of its line, however the run stopped.
pub fn stopped_begins()
    ensures { (N : Schema) (I : Inputs) (bound : ℕ) (watch : Option ℕ) (a : Answer) → IsRight N I bound watch a → AreBegun N I a }
{}

/// A held run continues itself: each stream is a prefix of itself.
pub fn goes_on_same()
    ensures { (h : HeldRun) → GoesOn h h }
{}

/// What continues a later run continues an earlier one.
pub fn goes_on_then()
    ensures { (a b c : HeldRun) → GoesOn a b → GoesOn b c → GoesOn a c }
{}

/// Whatever calls are made between two states of a held run, in any order and with any refusals, the second state continues the
/// first. So each stream of an answer is a prefix of the same stream in every later answer, and no instance's events decrease.
pub fn calls_go_on()
    ensures calls { (h : HeldRun) (later : List HeldRun) → AreCalls h later → GoesOn h (last_of h later) }
    ensures answers { (h k : HeldRun) (a b : Answer) → GoesOn h k → IsAnswerOf h a → IsAnswerOf k b → SaysNoLess a b }
{}
