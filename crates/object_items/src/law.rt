// What holds of every object.
ghost use Rattle.std.specs.Prelude.{ℕ, List};
ghost use Rattle.scene_lexer.specs.declared.token.Token.{Token};
ghost use Rattle.scene_expr.specs.declared.value.Settings.{Settings};
ghost use Rattle.scene_expr.specs.Then.{IsOne};
ghost use Rattle.object_items.specs.declared.object.ObjectWord.{ObjectWord};
ghost use Rattle.object_items.specs.Objects.{IsObjectItem};

/// From its word on, an object comes to one outcome at most: what it is and where it ends, or a fault.
#[tactic(auto, using(crate::specs::OneObject::one_object))]
pub fn one_outcome()
    ensures { (tokens : List Token) (set : Settings) (depths leaves sheets : ℕ) (word : ObjectWord) (at : ℕ) → IsOne (IsObjectItem tokens set depths leaves sheets word at) }
{}
