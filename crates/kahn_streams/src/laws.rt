//! The laws of the meaning. Each function does nothing: its contract is the law.

ghost use Rattle.kahn_streams.specs.{Compose.ExpressionsCompose, Compose.StatementsCompose, Compose.LoopsUnroll, Examples.Counting, Examples.Doubling, Examples.Overflowing, Examples.Ring, Examples.OwnChannel, Examples.Alternating, Examples.Silent, Examples.LimitedSample, Inputs.IsInputFor, Inputs.Lists, Inputs.inputs_of, Meaning.Store, Wiring.IsWellWired, Solution.Inputs, Solution.Histories, Solution.Ending, Solution.Stands, Sample.Sample, Script.Script, Script.Tapes, Script.play, Steps.Step, Steps.Follows, Steps.RanBy, Steps.Replays, Syntax.Expr, Syntax.Stmt, declared.tree.Program.Program, declared.value.Line.Line, declared.value.Value.Value, declared.tree.Role.TheVariants.Input, inner.Sources.IsFed, inner.Sources.IsSentBy, inner.Sources.OutputsHaveSenders};
ghost use Rattle.kahn_streams.specs.Laws.{AreIteratesKinded, IsChain, HasOneValue, IsSolved, IsSolution, IsBelow, Frame, IsQuiet, IsSettled, SendsStand, InputsGrow, RunsDryAtReads, IsCounted, IsUnrolled, SaysSoAgain, IsDetermined};
ghost use Rattle.kahn_streams.specs.Network.{Schema, network_of, Given, Reads, Writes, actual_at, channel_source, instance_at, role_at, IsServed, IsFit};
ghost use Rattle.std.specs.Prelude.{ℕ, List, ◌≡◌, ◌<◌, length};
ghost use Rattle.std.specs.List.{AllByRecursion};

/// Each iterate is a prefix of the next.
#[tactic(auto, using(crate::proofs::Proved::chain))]
pub fn chain()
    ensures { (N : Schema) (I : Inputs) → IsChain N I }
{}

/// At most one value stands at a place.
pub fn one_value()
    ensures { (N : Schema) (I : Inputs) → HasOneValue N I }
{}

/// The limit of the iterates is a solution.
pub fn solves()
    ensures { (N : Schema) (I : Inputs) → IsSolved N I }
{}

/// The limit of the iterates is below any solution, an infinite one too.
#[tactic(auto, using(crate::proofs::Proved::least))]
pub fn least()
    ensures { (N : Schema) (I : Inputs) (T : ℕ → Histories) → IsSolution N I T → IsBelow N I T }
{}

/// Values past what was taken don't matter.
pub fn frame()
    ensures { (N : Schema) → Frame N }
{}

/// The value at place k of X in the sample network is k mod 2.
pub fn sample()
    ensures { Sample }
{}

/// Quiet histories are the whole solution, with its ends.
pub fn settles()
    ensures { (N : Schema) (I : Inputs) (A : Histories) (o : ℕ → Ending) (e : ℕ → ℕ) → IsQuiet N I A o e → IsSettled N I A o e }
{}

/// What a process sends on tapes that begin the solution stands in the solution.
pub fn sends_stand()
    ensures { (N : Schema) (I : Inputs) → SendsStand N I }
{}

/// Longer inputs give longer iterates.
#[tactic(auto, using(crate::proofs::Finished::inputs_grow))]
pub fn grows()
    ensures { (N : Schema) → InputsGrow N }
{}

/// With just the events done and the values taken, all is taken and the same is sent.
#[tactic(auto, using(crate::proofs::Runs::play_taken))]
pub fn replays()
    ensures { (s s' : Script Store) (steps : List Step) → Follows s steps s' → Replays s steps s' }
{}

/// What is reached is reached by steps.
#[tactic(auto, using(crate::proofs::Runs::ran))]
pub fn ran_by_steps()
    ensures { (n : ℕ) (s : Script Store) (T : Tapes) → RanBy s T (play n s T) }
{}

/// The meaning goes by cases on the syntax: first a part, and then the rest on what is left.
pub fn composes()
    ensures expressions { ExpressionsCompose Value }
    ensures operands { ExpressionsCompose Store }
    ensures statements { StatementsCompose Store }
    ensures loops { (t : Expr) (b : Stmt) → LoopsUnroll t b }
{}

/// At most n events are done, and exactly n if the outcome is cut; if it isn't, more events change nothing. How far loops are unrolled
/// makes no difference.
pub fn counts()
    ensures counted { (N : Schema) (n p : ℕ) (H : Histories) → IsCounted N n p H }
    ensures unrolled { (b : Stmt) → IsUnrolled b }
    ensures again { (b : Stmt) → SaysSoAgain b }
{}

/// The whole of a line, the end of a process and the size of the solution are determined.
#[tactic(auto, using(crate::proofs::Finished::determined))]
pub fn determined()
    ensures { (N : Schema) (I : Inputs) → IsDetermined N I }
{}

/// If a value is known to stand in the solution, some iterate has it.
#[tactic(auto, using(crate::proofs::Finding::found))]
pub fn found()
    ensures { (N : Schema) (I : Inputs) (c : Line) (k : ℕ) (v : Value) → ∥ (Stands N I c k v) ∥₁ → Stands N I c k v }
{}

/// Every value of an iterate on a channel has the channel's kind, if the program is well wired and the input fits it.
#[tactic(auto, using(crate::proofs::Kinded_networks::kinds))]
pub fn kinds()
    ensures { (t : Program) (lists : Lists) → IsWellWired t → IsInputFor (network_of t) lists → AreIteratesKinded (network_of t) (inputs_of lists) }
{}

/// In a well wired program a process runs dry only at a parameter that reads a channel.
pub fn dry_reads()
    ensures { (t : Program) → IsWellWired t → RunsDryAtReads (network_of t) }
{}

/// The definitions at work on small networks.
#[tactic(auto, using(crate::proofs::Computed::alternating_holds, crate::proofs::Computed::counting_holds, crate::proofs::Computed::doubling_holds, crate::proofs::Computed::limited_sample_holds, crate::proofs::Computed::overflowing_holds, crate::proofs::Computed::own_channel_holds, crate::proofs::Computed::ring_holds, crate::proofs::Computed::silent_holds))]
pub fn examples()
    ensures counting { Counting }
    ensures doubling { Doubling }
    ensures overflowing { Overflowing }
    ensures ring { Ring }
    ensures own_channel { OwnChannel }
    ensures alternating { Alternating }
    ensures silent { Silent }
    ensures limited_sample { LimitedSample }
{}

/// Each channel of a well wired program has one writer and one reader, but for an input no writer
/// and for an output no reader.
#[tactic(auto, using(crate::proofs::Sided::channel_served))]
pub fn served()
    ensures { (t : Program) → IsWellWired t → (c : ℕ) → c < length (network_of t).channels → IsServed (network_of t) c (role_at (network_of t) c) }
{}

/// In each instance of a well wired program every name is used as what it stands for: a channel
/// parameter for the kind and the direction of the channel that is handed to it, a value parameter
/// for the kind of its value, and a variable for its kind. The channels are those of the network.
#[tactic(auto, using(crate::proofs::Fitted::instances_fit))]
pub fn fit()
    ensures { (t : Program) → IsWellWired t → AllByRecursion (IsFit (network_of t)) (network_of t).instances }
{}

/// Where the values of a channel come from in a well wired program. What an instance reads is an input, whose values come
/// from outside, or an inner channel, whose values the one instance sends that has the channel as a parameter to write.
/// What an instance writes has its values from this instance, and is no input. Each output channel has an instance that
/// sends its values, and the values of an input come from outside.
pub fn sources()
    ensures reads { (t : Program) → IsWellWired t → (p q c : ℕ) → actual_at (instance_at (network_of t) p) q ≡ Reads c → IsFed (network_of t) c }
    ensures writes { (t : Program) → IsWellWired t → (p q c : ℕ) → actual_at (instance_at (network_of t) p) q ≡ Writes c → IsSentBy (network_of t) p c }
    ensures outputs { (t : Program) → IsWellWired t → OutputsHaveSenders (network_of t) }
    ensures inputs { (t : Program) → IsWellWired t → (c : ℕ) → role_at (network_of t) c ≡ Input → channel_source (network_of t) c ≡ Given }
{}
