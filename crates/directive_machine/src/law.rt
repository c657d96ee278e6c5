// What holds of every expansion.
ghost use Rattle.std.specs.Prelude.{◌≡◌, ℕ, List, Option, Result};
ghost use Rattle.directive_machine.specs.declared.part.Part.{Part};
ghost use Rattle.directive_machine.specs.Course.{Given, Course, Halted, Outcome};
ghost use Rattle.directive_machine.specs.Expands.{Expands};
ghost use Rattle.directive_machine.specs.Expansions.{IsExpansion};
ghost use Rattle.directive_machine.specs.Loops.{Decides, EndsAtZero, GoesRound, EndsAtBreak, TurnsOn, TurnsEnd, TurnsPast, TurnsBreak};
ghost use Rattle.directive_machine.specs.Switches.{CaseHolds, CasePasses, FallsOn, FallsOut, BreaksSwitch, BreaksIf, BreaksSide, BreaksRun};
ghost use Rattle.directive_machine.specs.Meanings.{BindsValue, BindsBlock, HoldsBlock, PassesOn, Calls, LeavesScope, Tells, TellsTooMuch, Errs, Includes, Misses};
ghost use Rattle.directive_machine.specs.Fronts.{SaysOn};
ghost use Rattle.directive_machine.specs.Substitutes.{SubstitutesValue, SubstitutesBlock};

use text_structure::one_end;

/// A part of a text comes to one outcome at most.
pub fn one_outcome()
    ensures { (g : Given) (part : Part) (at : ℕ) (w : Course) (r r' : Outcome) → Expands g part at w r → Expands g part at w r' → r ≡ r' }
{
    one_end();
}

/// A scene comes to one list of tokens, or to one first fault.
pub fn one_expansion()
    ensures { (g : Given) (name : List ℕ) (bytes : Option (List ℕ)) (r r' : Result Course Halted) → IsExpansion g name bytes r → IsExpansion g name bytes r' → r ≡ r' }
{
    one_end();
}

/// An `#if` gives its first body where its condition isn't 0, and else the body behind its `#else`.
#[tactic(auto, using(crate::proofs::Laws::decides))]
pub fn if_law()
    ensures { Decides }
{}

/// A `#while` whose condition is 0 gives nothing; else it gives its body and then the same loop in the scopes that
/// the body left, up to and with the first body that a `#break` ends.
#[tactic(auto, using(crate::proofs::Laws::ends_at_zero, crate::proofs::Laws::goes_round_again, crate::proofs::Laws::ends_at_break))]
pub fn while_laws()
    ensures zero { EndsAtZero }
    ensures round { GoesRound }
    ensures broken { EndsAtBreak }
{}

/// A `#for` gives its body once for each number of its row, up to and with the first body that a `#break` ends. Its
/// variable keeps the first number that is past the last one, or that of the turn that was broken.
#[tactic(auto, using(crate::proofs::Laws::turns_on, crate::proofs::Laws::turns_end, crate::proofs::Laws::turns_past, crate::proofs::Laws::turns_break))]
pub fn for_laws()
    ensures on { TurnsOn }
    ensures ends { TurnsEnd }
    ensures past { TurnsPast }
    ensures broken { TurnsBreak }
{}

/// A `#switch` begins at the first case that holds its value, and its expansion goes on through later cases up to a
/// `#break` or to the `#end`.
#[tactic(auto, using(crate::proofs::SwitchLaws::case_holds, crate::proofs::SwitchLaws::case_passes, crate::proofs::SwitchLaws::falls_on, crate::proofs::SwitchLaws::falls_out))]
pub fn switch_laws()
    ensures holds { CaseHolds }
    ensures passes { CasePasses }
    ensures falls { FallsOn }
    ensures ends { FallsOut }
{}

/// A `#break` ends the innermost switch or loop: what stands behind it up to there isn't expanded, a directive that it
/// stands in is given up, and the switch or loop itself isn't broken.
#[tactic(auto, using(crate::proofs::SwitchLaws::breaks_switch, crate::proofs::SwitchLaws::breaks_if, crate::proofs::SwitchLaws::breaks_side, crate::proofs::SwitchLaws::breaks_run))]
pub fn break_laws()
    ensures switch { BreaksSwitch }
    ensures branch { BreaksIf }
    ensures side { BreaksSide }
    ensures behind { BreaksRun }
{}

/// A name of a value becomes the tokens of the value, and a name of a block those that the block had where it was
/// declared: nothing in a block is expanded where its name is used.
pub fn name_laws()
    ensures value { SubstitutesValue }
    ensures block { SubstitutesBlock }
{}

/// A declaration gives nothing, and binds its name: to the value of its right side, or to the block that this comes
/// to where it stands.
#[tactic(auto, using(crate::proofs::MeaningLaws::binds_value, crate::proofs::MeaningLaws::binds_block, crate::proofs::MeaningLaws::holds_block))]
pub fn declare_laws()
    ensures value { BindsValue }
    ensures block { BindsBlock }
    ensures held { HoldsBlock }
{}

/// The arguments of a call are bound one after the other, each told in the scopes of the caller; then the macro's body
/// is expanded in one more scope that holds them, and that scope is left behind it.
#[tactic(auto, using(crate::proofs::MeaningLaws::passes_on, crate::proofs::MeaningLaws::calls, crate::proofs::MeaningLaws::leaves_scope))]
pub fn call_laws()
    ensures further { PassesOn }
    ensures body { Calls }
    ensures left { LeavesScope }
{}

/// A message appends the bytes of its text where they are within the limit of a frame; an `#error` ends the expansion.
#[tactic(auto, using(crate::proofs::MeaningLaws::tells, crate::proofs::MeaningLaws::tells_too_much, crate::proofs::MeaningLaws::errs))]
pub fn message_laws()
    ensures told { Tells }
    ensures limit { TellsTooMuch }
    ensures error { Errs }
{}

/// An include gives the expansion of its text in one more scope; a text that isn't there is a fault.
#[tactic(auto, using(crate::proofs::MeaningLaws::includes, crate::proofs::MeaningLaws::misses))]
pub fn include_laws()
    ensures text { Includes }
    ensures absent { Misses }
{}

/// What was said before a part stands first in what is said once it is over, or where it stops.
#[tactic(auto, using(crate::proofs::SaidFirst::says_on))]
pub fn front_law()
    ensures { SaysOn }
{}
