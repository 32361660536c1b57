//! Laws of the run: what follows from the definition of its output.
ghost use Rattle.std.specs.Prelude.{◌≡◌, ℕ, List, Result};
ghost use Rattle.rv_io.specs.Readers.{EachText};
ghost use Rattle.rv_options.specs.declared.Options.{Options};
ghost use Rattle.rv_cli.specs.Output.{IsOutput};
ghost use Rattle.rv_cli.specs.declared.fault.CliFault.{CliFault};
ghost use Rattle.rv_cli.specs.declared.fault.Ending.{Ending};

/// Law: texts and options have exactly one output: the text that a run prints and how it ends, or the first
/// fault of the texts and options.
#[tactic(auto, using(crate::proofs::OneOutput::one_output))]
pub fn one_output()
    ensures some { (texts : EachText (List ℕ)) (options : Options)
        → (output : Result (List ℕ × Ending) CliFault) × IsOutput texts options output }
    ensures one { (texts : EachText (List ℕ)) (options : Options) (a b : Result (List ℕ × Ending) CliFault)
        → IsOutput texts options a → IsOutput texts options b → a ≡ b }
{}
