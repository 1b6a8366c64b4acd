//! Laws of reports. Each function does nothing: its contract is the law.

ghost use Rattle.kahn_texts.specs.Formats.{HasItsLines};
ghost use Rattle.kahn_fault.specs.Work.{IsOneReport};
ghost use Rattle.kahn_streams.specs.{Answers.IsRight, Solution.Inputs, declared.answer.Answer.Answer, declared.config.Config.Config, declared.tree.Program.Program, Network.network_of, Sample.sample_network};
ghost use Rattle.kahn_syntax.specs.Texts.{IsProgram};
ghost use Rattle.kahn_report.specs.SampleText.{IsSampleText};
ghost use Rattle.std.specs.Prelude.{◌≡◌, ℕ, List, Option};

/// Two finished reports of one program text and one input text, with the same watched channel or none, are the same bytes for any
/// workers, quantum and bound.
pub fn one_report()
    ensures { (program input : List ℕ) (config other : Config) → IsOneReport program input config other }
{}

/// The network of the sample text of Kahn's paper is the network of the law `sample` of kahn_streams: the value at place k of X is
/// k mod 2. The blanks, comments and letter case of the text don't matter.
pub fn sample_text()
    ensures { (text : List ℕ) (t : Program) → IsSampleText text → IsProgram text t → network_of t ≡ sample_network }
{}

/// Each stream of a right answer is of a line of the network, so that its report may be written.
pub fn right_lines()
    ensures { (t : Program) (I : Inputs) (bound : ℕ) (watch : Option ℕ) (a : Answer) → IsRight (network_of t) I bound watch a → HasItsLines t a }
{}
