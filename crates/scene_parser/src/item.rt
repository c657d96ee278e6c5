// Items, one by one.
ghost use Rattle.std.specs.Prelude.{◌≡◌, ◌≢◌, ◌≤◌, ◌<◌, ◌+◌, length, true, IfOk, IfErr, IsTrue, Some, Ok, Err};
ghost use Rattle.scene_expr.specs.Values.{AreWhole};
ghost use Rattle.item_blocks.specs.Tokens.{word_at, spelling_at};
ghost use Rattle.item_blocks.specs.declared.fault.ParseFault.TheVariants.{NoMemory};
ghost use Rattle.scene_parser.specs.Scenes.{draft_seen, named_item, item_at, is_default_word, behind_default, IsItem};
ghost use Rattle.scene_parser.specs.Sound.{IsGood};

use crate::draft::Draft;
use crate::global::background;
use item_blocks::{BlockWord, ParseFault, Wanted, Word, braced, sign_at, unfit_at, word_at};
use object_items::{ObjectWord, object_word, read_object};
use scene_expr::{Settings, place_at};
use scene_lexer::{Kind, Token, sign};
use std::alloc::Global;
use view_blocks::{read_camera, read_lamp};

/// How many braces may be open in each other.
const BRACES: usize = 64;

/// How many lamps a scene may have.
const LAMPS: usize = 256;

/// What an item is, by what it begins with.
#[derive(Clone, Copy)]
pub enum ItemPart {
    Camera,
    Lamp,
    Background,
    Globals,
    Default,
    Object(ObjectWord),
    Other,
}

fn named_item(word: Option<Word>) -> ItemPart
    ensures { result ≡ named_item word }
{
    match word {
        Some(Word::Block(BlockWord::Camera)) => ItemPart::Camera,
        Some(Word::Block(BlockWord::LightSource)) => ItemPart::Lamp,
        Some(Word::Block(BlockWord::Background)) => ItemPart::Background,
        Some(Word::Block(BlockWord::GlobalSettings)) => ItemPart::Globals,
        word => match object_word(word, true) {
            Some(word) => ItemPart::Object(word),
            None => ItemPart::Other,
        },
    }
}

/// What begins at a token.
pub fn item_at(tokens: &[Token], at: usize) -> ItemPart
    ensures { result ≡ item_at tokens.now at }
{
    if sign_at(tokens, at) == sign::HASH {
        ItemPart::Default
    } else {
        named_item(word_at(tokens, at))
    }
}

fn is_default_word(word: &[u8]) -> bool
    ensures { result ≡ is_default_word (Some word.now) }
{
    word == b"default".as_slice()
}

fn is_default_at(tokens: &[Token], at: usize) -> bool
    ensures value { result ≡ is_default_word (spelling_at tokens.now at) }
    ensures within { result ≡ true → at < length tokens.now }
{
    match tokens.get(at) {
        Some(token) => match &token.kind {
            Kind::Word(name) => is_default_word(name.bytes()),
            _ => false,
        },
        None => false,
    }
}

/// The place behind the word `default`.
fn behind_default(tokens: &[Token], at: usize) -> Result<usize, ParseFault>
    ensures value { result ≡ behind_default tokens.now at }
    ensures within { IfOk result (λ next. (next ≡ at + 1) × (at < length tokens.now)) }
{
    if is_default_at(tokens, at) {
        Ok(at + 1)
    } else {
        Err(unfit_at(Wanted::Item, tokens, at))
    }
}

fn take_camera(
    alloc: Global,
    tokens: &[Token],
    set: &Settings,
    at: usize,
    draft: Draft,
) -> Result<(Draft, usize), ParseFault>
    requires within { at < length tokens.now }
    requires whole { AreWhole set.now }
    requires good { IsGood draft }
    ensures found { IfOk result (λ read. IsItem tokens.now set.now ItemPart.Camera (draft_seen draft) at (Ok (record { value = draft_seen read.0; next = read.1 }))) }
    ensures fault { IfErr result (λ f. f ≢ NoMemory → IsItem tokens.now set.now ItemPart.Camera (draft_seen draft) at (Err f)) }
    ensures within { IfOk result (λ read. (at < read.1) × (read.1 ≤ length tokens.now)) }
    ensures good { IfOk result (λ read. IsGood read.0) }
{
    let (camera, next) = read_camera(alloc, tokens, set, BRACES, at)?;
    Ok((draft.with_camera(camera), next))
}

fn take_lamp(
    alloc: Global,
    tokens: &[Token],
    set: &Settings,
    at: usize,
    draft: Draft,
) -> Result<(Draft, usize), ParseFault>
    requires within { at < length tokens.now }
    requires whole { AreWhole set.now }
    requires good { IsGood draft }
    ensures found { IfOk result (λ read. IsItem tokens.now set.now ItemPart.Lamp (draft_seen draft) at (Ok (record { value = draft_seen read.0; next = read.1 }))) }
    ensures fault { IfErr result (λ f. f ≢ NoMemory → IsItem tokens.now set.now ItemPart.Lamp (draft_seen draft) at (Err f)) }
    ensures within { IfOk result (λ read. (at < read.1) × (read.1 ≤ length tokens.now)) }
    ensures good { IfOk result (λ read. IsGood read.0) }
{
    if draft.scene.lights.len() >= LAMPS {
        return Err(ParseFault::Limit {
            which: 7,
            place: place_at(tokens, at),
        });
    }
    let (light, next) = read_lamp(alloc, tokens, set, BRACES, at)?;
    let draft = draft.with_light(&light)?;
    Ok((draft, next))
}

fn take_background(
    alloc: Global,
    tokens: &[Token],
    set: &Settings,
    at: usize,
    draft: Draft,
) -> Result<(Draft, usize), ParseFault>
    requires within { at < length tokens.now }
    requires whole { AreWhole set.now }
    requires good { IsGood draft }
    ensures found { IfOk result (λ read. IsItem tokens.now set.now ItemPart.Background (draft_seen draft) at (Ok (record { value = draft_seen read.0; next = read.1 }))) }
    ensures fault { IfErr result (λ f. f ≢ NoMemory → IsItem tokens.now set.now ItemPart.Background (draft_seen draft) at (Err f)) }
    ensures within { IfOk result (λ read. (at < read.1) × (read.1 ≤ length tokens.now)) }
    ensures good { IfOk result (λ read. IsGood read.0) }
{
    let (colour, next) = background(alloc, tokens, set, BRACES, at + 1)?;
    Ok((draft.with_background(colour), next))
}

fn take_globals(
    alloc: Global,
    tokens: &[Token],
    set: &Settings,
    at: usize,
    draft: Draft,
) -> Result<(Draft, usize), ParseFault>
    requires within { at < length tokens.now }
    requires whole { AreWhole set.now }
    requires good { IsGood draft }
    ensures found { IfOk result (λ read. IsItem tokens.now set.now ItemPart.Globals (draft_seen draft) at (Ok (record { value = draft_seen read.0; next = read.1 }))) }
    ensures fault { IfErr result (λ f. f ≢ NoMemory → IsItem tokens.now set.now ItemPart.Globals (draft_seen draft) at (Err f)) }
    ensures within { IfOk result (λ read. (at < read.1) × (read.1 ≤ length tokens.now)) }
    ensures good { IfOk result (λ read. IsGood read.0) }
{
    let mut globals = draft.globals();
    let next = braced(alloc, tokens, set, BRACES, at + 1, &mut globals)?;
    Ok((draft.with_globals(&globals), next))
}

fn take_default(
    alloc: Global,
    tokens: &[Token],
    set: &Settings,
    at: usize,
    draft: Draft,
) -> Result<(Draft, usize), ParseFault>
    requires within { at < length tokens.now }
    requires whole { AreWhole set.now }
    requires good { IsGood draft }
    ensures found { IfOk result (λ read. IsItem tokens.now set.now ItemPart.Default (draft_seen draft) at (Ok (record { value = draft_seen read.0; next = read.1 }))) }
    ensures fault { IfErr result (λ f. f ≢ NoMemory → IsItem tokens.now set.now ItemPart.Default (draft_seen draft) at (Err f)) }
    ensures within { IfOk result (λ read. (at < read.1) × (read.1 ≤ length tokens.now)) }
    ensures good { IfOk result (λ read. IsGood read.0) }
{
    let start = behind_default(tokens, at + 1)?;
    let Draft {
        scene,
        default,
        standard: _,
    } = draft;
    let mut default = default;
    let next = braced(alloc, tokens, set, BRACES, start, &mut default)?;
    let draft = Draft::over(alloc, scene, default)?;
    Ok((draft, next))
}

fn take_object(
    alloc: Global,
    tokens: &[Token],
    set: &Settings,
    word: ObjectWord,
    at: usize,
    draft: Draft,
) -> Result<(Draft, usize), ParseFault>
    requires within { at < length tokens.now }
    requires whole { AreWhole set.now }
    requires good { IsGood draft }
    ensures found { IfOk result (λ read. IsItem tokens.now set.now (ItemPart.Object word) (draft_seen draft) at (Ok (record { value = draft_seen read.0; next = read.1 }))) }
    ensures fault { IfErr result (λ f. f ≢ NoMemory → IsItem tokens.now set.now (ItemPart.Object word) (draft_seen draft) at (Err f)) }
    ensures within { IfOk result (λ read. (at < read.1) × (read.1 ≤ length tokens.now)) }
    ensures good { IfOk result (λ read. IsGood read.0) }
{
    let leaves = draft.scene.leaves.len();
    let sheets = draft.scene.sheets.len();
    let (object, next) = read_object(alloc, tokens, set, BRACES, leaves, sheets, word, at)?;
    let draft = draft.with_object(alloc, tokens, object)?;
    Ok((draft, next))
}

/// An item by what it begins with at this token, and the token behind it.
pub fn take_item(
    alloc: Global,
    tokens: &[Token],
    set: &Settings,
    part: ItemPart,
    at: usize,
    draft: Draft,
) -> Result<(Draft, usize), ParseFault>
    requires within { at < length tokens.now }
    requires whole { AreWhole set.now }
    requires good { IsGood draft }
    ensures found { IfOk result (λ read. IsItem tokens.now set.now part (draft_seen draft) at (Ok (record { value = draft_seen read.0; next = read.1 }))) }
    ensures fault { IfErr result (λ f. f ≢ NoMemory → IsItem tokens.now set.now part (draft_seen draft) at (Err f)) }
    ensures within { IfOk result (λ read. (at < read.1) × (read.1 ≤ length tokens.now)) }
    ensures good { IfOk result (λ read. IsGood read.0) }
{
    match part {
        ItemPart::Camera => take_camera(alloc, tokens, set, at, draft),
        ItemPart::Lamp => take_lamp(alloc, tokens, set, at, draft),
        ItemPart::Background => take_background(alloc, tokens, set, at, draft),
        ItemPart::Globals => take_globals(alloc, tokens, set, at, draft),
        ItemPart::Default => take_default(alloc, tokens, set, at, draft),
        ItemPart::Object(word) => take_object(alloc, tokens, set, word, at, draft),
        ItemPart::Other => Err(unfit_at(Wanted::Item, tokens, at)),
    }
}
