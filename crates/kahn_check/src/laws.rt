//! The laws of the definitions. Each function does nothing: its contract is the law.

ghost use Rattle.kahn_streams.specs.{declared.tree.Program.Program, Faults.verdict, Faults.faults, Wiring.IsWellWired};
ghost use Rattle.std.specs.Prelude.{◌≡◌, ◌++◌, []};
ghost use Rattle.kahn_check.specs.Parts.{parts, side_parts, faults_by_part, together};

/// A program is well wired exactly if the walk finds no fault.
#[tactic(auto, using(crate::proofs::Wired::well_wired, crate::proofs::Wired::faultless))]
pub fn exact()
    ensures sound { (t : Program) → faults t ≡ [] → IsWellWired t }
    ensures complete { (t : Program) → IsWellWired t → faults t ≡ [] }
{}

/// The faults of a program's parts, put together, are its faults; so what is reported of them begins with what `check` returns, and
/// nothing is reported of a well wired program.
#[tactic(auto, using(crate::proofs::Parts::whole, crate::proofs::Parts::first))]
pub fn part_by_part()
    ensures whole { (t : Program) → together (parts t ++ side_parts t) ≡ faults t }
    ensures first { (t : Program) → verdict (faults_by_part t) (tt {0}) ≡ verdict (faults t) (tt {0}) }
{}
