// Top-level objects.
ghost use Rattle.std.specs.Prelude.{◌≡◌, ◌≢◌, ◌≤◌, ◌<◌, length, IfOk, IfErr, Ok, Err};
ghost use Rattle.scene_expr.specs.Values.{AreWhole};
ghost use Rattle.item_blocks.specs.declared.fault.ParseFault.TheVariants.{NoMemory};
ghost use Rattle.object_items.specs.Objects.{object_seen, IsObjectItem};
ghost use Rattle.object_items.specs.Sound.{IsSoundObject};

use crate::group::object;
use crate::object::{ObjectDraft, ObjectWord};
use crate::tables::Tables;
use item_blocks::ParseFault;
use scene_expr::Settings;
use scene_lexer::Token;
use std::alloc::Global;

fn draft(
    alloc: Global,
    tokens: &[Token],
    set: &Settings,
    depths: usize,
    leaves_before: usize,
    sheets_before: usize,
    word: ObjectWord,
    at: usize,
) -> Result<(ObjectDraft, usize), ParseFault>
    requires few { depths ≤ 64 }
    requires within { at < length tokens.now }
    requires whole { AreWhole set.now }
    ensures found { IfOk result (λ found. IsObjectItem tokens.now set.now depths leaves_before sheets_before word at (Ok (record { value = object_seen found.0; next = found.1 }))) }
    ensures fault { IfErr result (λ f. f ≢ NoMemory → IsObjectItem tokens.now set.now depths leaves_before sheets_before word at (Err f)) }
    ensures within { IfOk result (λ found. (at < found.1) × (found.1 ≤ length tokens.now)) }
{
    let mut tables = Tables::new(alloc, leaves_before, sheets_before);
    let (part, next) = object(alloc, tokens, set, depths, true, word, at, &mut tables)?;
    let object = ObjectDraft {
        tables,
        shape: part.shape,
        no_shadow: part.no_shadow,
    };
    Ok((object, next))
}

/// An object, whose word stands at this token, and the token behind it. So many further braces may be
/// open, and so many leaves and triangles stand in the objects before.
pub fn read_object(
    alloc: Global,
    tokens: &[Token],
    set: &Settings,
    depths: usize,
    leaves_before: usize,
    sheets_before: usize,
    word: ObjectWord,
    at: usize,
) -> Result<(ObjectDraft, usize), ParseFault>
    requires few { depths ≤ 64 }
    requires within { at < length tokens.now }
    requires whole { AreWhole set.now }
    requires leaves { leaves_before ≤ 65536 }
    requires sheets { sheets_before ≤ 131072 }
    ensures found { IfOk result (λ found. IsObjectItem tokens.now set.now depths leaves_before sheets_before word at (Ok (record { value = object_seen found.0; next = found.1 }))) }
    ensures fault { IfErr result (λ f. f ≢ NoMemory → IsObjectItem tokens.now set.now depths leaves_before sheets_before word at (Err f)) }
    ensures within { IfOk result (λ found. (at < found.1) × (found.1 ≤ length tokens.now)) }
    ensures sound { IfOk result (λ found. IsSoundObject leaves_before sheets_before found.0) }
{
    let (object, next) = draft(
        alloc,
        tokens,
        set,
        depths,
        leaves_before,
        sheets_before,
        word,
        at,
    )?;
    Ok((object, next))
}
