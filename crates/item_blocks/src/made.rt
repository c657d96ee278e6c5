// Textures of a scene, made of what is given. (Reference manual, textures)
ghost use Rattle.std.specs.Prelude.{◌≡◌, ◌≢◌, IfOk, IfErr, IfSome, OnOk, pos};
ghost use Rattle.scene_model.specs.Amounts.{IsIor};
ghost use Rattle.scene_model.specs.Looks.{IsTexture};
ghost use Rattle.item_blocks.specs.declared.fault.ParseFault.TheVariants.{NoMemory};
ghost use Rattle.item_blocks.specs.Made.{pattern_seen, texture_seen, white, greys, map_or_greys, pattern_of, or_plain, made_of, texture_of, ior_of};
ghost use Rattle.item_blocks.specs.Tokens.{or_else};
ghost use Rattle.item_blocks.specs.Pigments.{black, plain_pigment};
ghost use Rattle.item_blocks.specs.Finishes.{plain_finish};
ghost use Rattle.item_blocks.specs.Sound.{IsSoundTexture, IsSoundInterior};

use crate::fault::ParseFault;
use crate::finish::plain_finish;
use crate::patterns::Paint;
use crate::pigment::PigmentDraft;
use crate::texture::{Interior, TextureDraft, plain_interior};
use fix_math::Fix;
use scene_model::{Entry, Finish, Pattern, Pigment, Rgbft, Texture};
use std::alloc::Global;

fn black() -> Rgbft
    ensures { result ≡ black }
{
    [Fix(0), Fix(0), Fix(0), Fix(0), Fix(0)]
}

fn white() -> Rgbft
    ensures { result ≡ white }
{
    [Fix(65536), Fix(65536), Fix(65536), Fix(0), Fix(0)]
}

/// The map of a gradient that has none.
fn greys(alloc: Global) -> Result<Vec<Entry>, ParseFault>
    ensures found { IfOk result (λ map. map.items ≡ greys) }
    ensures memory { IfErr result (λ f. f ≡ NoMemory) }
{
    let entries = [
        Entry {
            at: Fix(0),
            colour: black(),
        },
        Entry {
            at: Fix(65536),
            colour: white(),
        },
    ];
    match Vec::from_slice(alloc, &entries) {
        Ok(map) => Ok(map),
        Err(_) => Err(ParseFault::NoMemory),
    }
}

fn map_or_greys(alloc: Global, map: Vec<Entry>) -> Result<Vec<Entry>, ParseFault>
    ensures found { IfOk result (λ made. made.items ≡ map_or_greys map.items) }
    ensures memory { IfErr result (λ f. f ≡ NoMemory) }
{
    if map.is_empty() {
        greys(alloc)
    } else {
        Ok(map)
    }
}

/// The pattern of a pigment.
fn pattern_of(alloc: Global, draft: PigmentDraft) -> Result<Pattern, ParseFault>
    ensures found { IfOk result (λ pattern. pattern_seen pattern ≡ pattern_of draft.paint draft) }
    ensures memory { IfErr result (λ f. f ≡ NoMemory) }
{
    let PigmentDraft {
        paint,
        map,
        brick_size,
        mortar,
        xform: _,
    } = draft;
    match paint {
        Paint::Plain(colour) => Ok(Pattern::Plain(colour)),
        Paint::Checker(colours) => Ok(Pattern::Checker(colours)),
        Paint::Brick(colours) => Ok(Pattern::Brick {
            mortar: colours[0],
            brick: colours[1],
            size: brick_size,
            width: mortar,
        }),
        Paint::Hexagon(colours) => Ok(Pattern::Hexagon(colours)),
        Paint::Gradient(axis) => {
            let map = map_or_greys(alloc, map.into_entries())?;
            Ok(Pattern::Gradient { axis, map })
        }
    }
}

fn copied(alloc: Global, draft: &Option<PigmentDraft>) -> Result<PigmentDraft, ParseFault>
    ensures found { IfOk result (λ made. made ≡ or_plain draft.now plain_pigment) }
    ensures memory { IfErr result (λ f. f ≡ NoMemory) }
{
    match draft {
        Some(draft) => draft.copied(alloc),
        None => Ok(PigmentDraft::plain(alloc)),
    }
}

/// The pigment that is given, or else a copy of the default's.
fn pigment_in(
    alloc: Global,
    own: Option<PigmentDraft>,
    default: &Option<PigmentDraft>,
) -> Result<PigmentDraft, ParseFault>
    ensures found { IfOk result (λ made. made ≡ or_plain (or_else own default.now) plain_pigment) }
    ensures memory { IfErr result (λ f. f ≡ NoMemory) }
{
    match own {
        Some(draft) => Ok(draft),
        None => copied(alloc, default),
    }
}

fn finish_in(own: Option<Finish>, default: Option<Finish>) -> Finish
    ensures { result ≡ or_plain (or_else own default) plain_finish }
{
    match own {
        Some(finish) => finish,
        None => match default {
            Some(finish) => finish,
            None => plain_finish(),
        },
    }
}

fn texture_by(alloc: Global, pigment: PigmentDraft, finish: Finish) -> Result<Texture, ParseFault>
    ensures found { IfOk result (λ texture. texture_seen texture ≡ made_of pigment finish) }
    ensures memory { IfErr result (λ f. f ≡ NoMemory) }
{
    let xform = pigment.xform;
    let pattern = pattern_of(alloc, pigment)?;
    Ok(Texture {
        pigment: Pigment { pattern, xform },
        finish,
    })
}

fn texture_of(
    alloc: Global,
    own: TextureDraft,
    default: &TextureDraft,
) -> Result<Texture, ParseFault>
    ensures found { IfOk result (λ texture. texture_seen texture ≡ texture_of own default.now) }
    ensures memory { IfErr result (λ f. f ≡ NoMemory) }
{
    let finish = finish_in(own.finish, default.finish);
    let pigment = pigment_in(alloc, own.pigment, &default.pigment)?;
    texture_by(alloc, pigment, finish)
}

impl TextureDraft {
    /// The texture of what is given: the pigment and the finish that aren't come from the default,
    /// and what that doesn't hold is the black pigment and the finish of which nothing is said.
    pub fn made(self, alloc: Global, default: &TextureDraft) -> Result<Texture, ParseFault>
        ensures found { IfOk result (λ texture. texture_seen texture ≡ texture_of self default.now) }
        ensures memory { IfErr result (λ f. f ≡ NoMemory) }
        ensures valid { IfOk result (λ texture. IsSoundTexture self → IsSoundTexture default.now → IsTexture texture) }
    {
        texture_of(alloc, self, default)
    }
}

/// The index of refraction: 1 where no interior is given.
pub fn ior_of(interior: Option<Interior>) -> Fix
    ensures value { result ≡ ior_of interior }
    ensures valid { IfSome interior IsSoundInterior → IsIor result }
{
    match interior {
        Some(interior) => interior.ior,
        None => plain_interior().ior,
    }
}
