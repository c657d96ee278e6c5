// What holds of every scene.
ghost use Rattle.std.specs.Prelude.{List};
ghost use Rattle.scene_lexer.specs.declared.token.Token.{Token};
ghost use Rattle.scene_expr.specs.declared.value.Settings.{Settings};
ghost use Rattle.scene_expr.specs.Then.{IsOne};
ghost use Rattle.scene_parser.specs.Scenes.{IsScene};

use object_items::one_outcome;

/// A list of tokens comes to one outcome at most: a scene, as it is seen, or a fault.
pub fn one_scene()
    ensures scene { (tokens : List Token) (set : Settings) → IsOne (IsScene tokens set) }
{
    one_outcome();
}
