// What holds of all words and texts.
ghost use Rattle.std.specs.Prelude.{◌≡◌, ℕ, List, Result};
ghost use Rattle.directive_machine.specs.declared.texts.Text.{Text};
ghost use Rattle.options.specs.declared.plan.Plan.{Plan};
ghost use Rattle.options.specs.declared.fault.OptionFault.{OptionFault};
ghost use Rattle.povfix.specs.Frames.{Frame, IsMeaning};
ghost use Rattle.povfix.specs.Verdict.{IsVerdict, Verdict};

use directive_machine::one_expansion;
use finish_shade::one_shade;
use scene_parser::one_scene;

/// A frame over these texts means one picture file at most: its bytes are pinned.
pub fn one_meaning()
    ensures { (frame : Frame) (texts : List Text) (a b : List ℕ) → IsMeaning frame texts a → IsMeaning frame texts b → a ≡ b }
{
    one_expansion();
    one_scene();
    one_shade();
}

/// What words ask for comes to one verdict over these texts, with one count of frames.
pub fn one_verdict()
    ensures { (asked : Result Plan OptionFault) (texts : List Text) (n m : ℕ) (a b : Verdict) → IsVerdict asked texts n a → IsVerdict asked texts m b → (a ≡ b) × (n ≡ m) }
{
    one_expansion();
    one_scene();
    one_shade();
}
