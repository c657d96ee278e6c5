// The default texture. (Reference manual, #default)
ghost use Rattle.std.specs.Prelude.{◌≡◌, ◌≢◌, ◌≤◌, ◌<◌, length, IfOk, IfErr, IsSome, Some, Ok, Err};
ghost use Rattle.scene_expr.specs.Values.{AreWhole};
ghost use Rattle.item_blocks.specs.declared.fault.ParseFault.TheVariants.{NoMemory};
ghost use Rattle.item_blocks.specs.Looks.{look_part};
ghost use Rattle.scene_parser.specs.Defaults.{plain_default, default_look, IsDefaultPart};

use item_blocks::{
    Block, LookPart, MaterialDraft, ParseFault, Wanted, Word, look_part, no_material, take_look,
    unfit_at, word_at,
};
use scene_expr::Settings;
use scene_lexer::Token;
use std::alloc::Global;

/// The looks of objects of which nothing is said: the interior and the material stay unset.
#[derive(Debug, Drop)]
pub struct DefaultTexture {
    pub looks: MaterialDraft,
}

/// The default texture where nothing is set.
pub fn plain_default() -> DefaultTexture
    ensures { result ≡ plain_default }
{
    DefaultTexture {
        looks: no_material(),
    }
}

/// Of the looks of an object, those that a default has.
fn default_look(part: Option<LookPart>) -> Option<LookPart>
    ensures value { result ≡ default_look part }
    ensures some { IsSome result → IsSome part }
{
    match part {
        Some(LookPart::Interior) => None,
        Some(LookPart::Material) => None,
        other => other,
    }
}

/// A part of a default texture.
fn take_default(
    alloc: Global,
    tokens: &[Token],
    set: &Settings,
    depths: usize,
    part: LookPart,
    at: usize,
    default: &mut DefaultTexture,
) -> Result<usize, ParseFault>
    requires within { at < length tokens.now }
    requires whole { AreWhole set.now }
    ensures found { IfOk result (λ next. IsDefaultPart tokens.now set.now depths (Some part) default.old at (Ok (record { value = default.new; next = next }))) }
    ensures fault { IfErr result (λ f. f ≢ NoMemory → IsDefaultPart tokens.now set.now depths (Some part) default.old at (Err f)) }
    ensures within { IfOk result (λ next. (at < next) × (next ≤ length tokens.now)) }
{
    let next = take_look(alloc, tokens, set, depths, part, at, &mut default.looks)?;
    Ok(next)
}

impl Block for DefaultTexture {
    ghost use Rattle.scene_parser.specs.Defaults.{default_kind};

    ghost kind = { default_kind };

    fn leads(_word: Option<Word>) -> bool {
        false
    }

    fn first(
        &mut self,
        _alloc: Global,
        _tokens: &[Token],
        _set: &Settings,
        _depths: usize,
        _led: bool,
        at: usize,
    ) -> Result<usize, ParseFault> {
        Ok(at)
    }

    fn statement(
        &mut self,
        alloc: Global,
        tokens: &[Token],
        set: &Settings,
        depths: usize,
        at: usize,
    ) -> Result<usize, ParseFault> {
        match default_look(look_part(word_at(tokens, at))) {
            Some(part) => take_default(alloc, tokens, set, depths, part, at, self),
            None => Err(unfit_at(Wanted::CloseBrace, tokens, at)),
        }
    }

    fn lacks(&self) -> Option<Wanted> {
        None
    }
}
