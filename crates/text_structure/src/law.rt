// What holds of every text.
ghost use Rattle.std.specs.Prelude.{◌≡◌, ℕ, List};
ghost use Rattle.text_structure.specs.declared.mark.Mark.{Mark};
ghost use Rattle.text_structure.specs.declared.closer.Closer.{Closer};
ghost use Rattle.text_structure.specs.Ends.{Ends};

/// A list ends at one place at most.
#[tactic(auto, using(crate::proofs::OneEnd::one_end))]
pub fn one_end()
    ensures { (m : List Mark) (closer : Closer) (at a b : ℕ) → Ends m closer at a → Ends m closer at b → a ≡ b }
{}
