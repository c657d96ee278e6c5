// What holds of every expression.
ghost use Rattle.std.specs.Prelude.{◌≡◌, ℕ, List};
ghost use Rattle.scene_lexer.specs.declared.token.Token.{Token};
ghost use Rattle.scene_expr.specs.declared.value.Level.{Level};
ghost use Rattle.scene_expr.specs.declared.value.Settings.{Settings};
ghost use Rattle.scene_expr.specs.Grammar.{Outcome, IsValue};

/// An expression comes to one outcome at most: a value and its end, or a fault.
#[tactic(auto, using(crate::specs::OneValue::one_value))]
pub fn one_value()
    ensures { (tokens : List Token) (set : Settings) (level : Level) (at : ℕ) (r s : Outcome) → IsValue tokens set level at r → IsValue tokens set level at s → r ≡ s }
{}
