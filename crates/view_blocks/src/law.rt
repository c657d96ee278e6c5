// What holds of every lamp and camera.
ghost use Rattle.std.specs.Prelude.{ℕ, List};
ghost use Rattle.scene_lexer.specs.declared.token.Token.{Token};
ghost use Rattle.scene_expr.specs.declared.value.Settings.{Settings};
ghost use Rattle.scene_expr.specs.Then.{IsOne};
ghost use Rattle.view_blocks.specs.Lights.{IsLampItem};
ghost use Rattle.view_blocks.specs.Views.{IsCameraItem};

/// From a token on, a lamp and a camera come to one outcome at most: what they are and where they
/// end, or a fault.
pub fn one_outcome()
    ensures lamp { (tokens : List Token) (set : Settings) (depths : ℕ) (at : ℕ) → IsOne (IsLampItem tokens set depths at) }
    ensures camera { (tokens : List Token) (set : Settings) (depths : ℕ) (at : ℕ) → IsOne (IsCameraItem tokens set depths at) }
{}
