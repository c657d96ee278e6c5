// What holds of every block.
ghost use Rattle.std.specs.Prelude.{ℕ, List};
ghost use Rattle.scene_lexer.specs.declared.token.Token.{Token};
ghost use Rattle.scene_expr.specs.declared.value.Settings.{Settings};
ghost use Rattle.item_blocks.specs.Blocks.{IsBlock};
ghost use Rattle.item_blocks.specs.Steps.{IsMovedIn};
ghost use Rattle.item_blocks.specs.Finishes.{finish_kind};
ghost use Rattle.item_blocks.specs.Pigments.{pigment_kind};
ghost use Rattle.item_blocks.specs.Textures.{texture_kind, interior_kind, material_kind};
ghost use Rattle.item_blocks.specs.declared.look.LookPart.{LookPart};
ghost use Rattle.item_blocks.specs.Looks.{IsLook};
ghost use Rattle.item_blocks.specs.OneBlock.{IsOneStatement};

/// From a state and a token on, steps, each kind of block and each look come to one outcome at most: what they
/// leave and where they end, or a fault.
pub fn one_outcome()
    ensures moved { (tokens : List Token) (set : Settings) (depths : ℕ) → IsOneStatement (IsMovedIn tokens set depths) }
    ensures finish { (tokens : List Token) (set : Settings) (depths : ℕ) → IsOneStatement (IsBlock (finish_kind tokens set) tokens depths) }
    ensures pigment { (tokens : List Token) (set : Settings) (depths : ℕ) → IsOneStatement (IsBlock (pigment_kind tokens set) tokens depths) }
    ensures texture { (tokens : List Token) (set : Settings) (depths : ℕ) → IsOneStatement (IsBlock (texture_kind tokens set) tokens depths) }
    ensures interior { (tokens : List Token) (set : Settings) (depths : ℕ) → IsOneStatement (IsBlock (interior_kind tokens set) tokens depths) }
    ensures material { (tokens : List Token) (set : Settings) (depths : ℕ) → IsOneStatement (IsBlock (material_kind tokens set) tokens depths) }
    ensures look { (tokens : List Token) (set : Settings) (depths : ℕ) (part : LookPart) → IsOneStatement (IsLook tokens set depths part) }
{}
