// Scenes.
ghost use Rattle.std.specs.Prelude.{◌≡◌, ◌≢◌, IfOk, IfErr, Ok, Err};
ghost use Rattle.scene_expr.specs.Values.{AreWhole};
ghost use Rattle.scene_model.specs.Valid.{Valid};
ghost use Rattle.item_blocks.specs.declared.fault.ParseFault.TheVariants.{NoMemory};
ghost use Rattle.scene_parser.specs.Scenes.{IsScene};
ghost use Rattle.scene_parser.specs.Seen.{scene_seen};

use crate::draft::Draft;
use crate::item::{item_at, take_item};
use item_blocks::ParseFault;
use scene_expr::Settings;
use scene_lexer::Token;
use scene_model::Scene;
use std::alloc::Global;

/// The scene of a flat list of tokens, whose directives are carried out; or the first fault.
/// (Reference manual, scene description language)
pub fn parse(alloc: Global, tokens: &[Token], set: &Settings) -> Result<Scene, ParseFault>
    requires whole { AreWhole set.now }
    ensures found { IfOk result (λ scene. IsScene tokens.now set.now (Ok (scene_seen scene))) }
    ensures fault { IfErr result (λ f. f ≢ NoMemory → IsScene tokens.now set.now (Err f)) }
    ensures valid { IfOk result Valid }
{
    let mut draft = Draft::new(alloc)?;
    let mut next = 0;
    'items: while next < tokens.len() {
        let (further, behind) = take_item(alloc, tokens, set, item_at(tokens, next), next, draft)?;
        draft = further;
        next = behind;
    }
    Ok(draft.scene)
}
