// Pigments: a colour or a pattern of colours, and what stands behind. (Reference manual, pigment)
ghost use Rattle.std.specs.Prelude.{◌≡◌, ◌≢◌, ◌≤◌, ◌<◌, ◌+◌, length, IfOk, IfErr, OnOk, IsTrue, Ok, Err};
ghost use Rattle.scene_expr.specs.Values.{AreWhole};
ghost use Rattle.item_blocks.specs.declared.fault.ParseFault.TheVariants.{NoMemory};
ghost use Rattle.item_blocks.specs.Pigments.{plain_pigment, is_part, IsPainted, pigment_with, is_pattern, IsPigmentPart};

use crate::block::{Block, braced};
use crate::colour_map::ColourMap;
use crate::fault::{ParseFault, Wanted};
use crate::parameters::{colour, float_of, vector_of};
use crate::patterns::{Paint, pattern};
use crate::pigment_parts::{Beginning, PigmentPart, begins_by, is_through, pigment_part};
use crate::steps::moved;
use crate::tokens::{expression, unfit_at, word_at};
use crate::words::{BlockWord, PatternWord, PigmentWord, Word};
use fix_math::{Fix, V3};
use scene_expr::{Settings, Value, place_at};
use scene_lexer::{Place, Token};
use std::alloc::Global;
use xform::{Xform, start};

/// The greatest raw number.
const MOST: i64 = (1 << 47) - 1;

/// A pigment as it is said: map, size of bricks and mortar stay, whatever the pattern.
#[derive(Debug, Drop)]
pub struct PigmentDraft {
    pub paint: Paint,
    pub map: ColourMap,
    pub brick_size: V3,
    pub mortar: Fix,
    pub xform: Xform,
}

impl PigmentDraft {
    /// The pigment of which nothing is said: black, with bricks of <8, 3, 4.5> and mortar of 0.5.
    pub fn plain(alloc: Global) -> PigmentDraft
        ensures { result ≡ plain_pigment }
    {
        PigmentDraft {
            paint: Paint::Plain([Fix(0), Fix(0), Fix(0), Fix(0), Fix(0)]),
            map: ColourMap::new(alloc),
            brick_size: V3 {
                x: Fix(524288),
                y: Fix(196608),
                z: Fix(294912),
            },
            mortar: Fix(32768),
            xform: start(),
        }
    }

    /// The same pigment once more.
    pub fn copied(&self, alloc: Global) -> Result<PigmentDraft, ParseFault>
        ensures found { IfOk result (λ copy. copy ≡ self.now) }
        ensures memory { IfErr result (λ f. f ≡ NoMemory) }
    {
        let map = self.map.copied(alloc)?;
        Ok(PigmentDraft {
            paint: self.paint,
            map,
            brick_size: self.brick_size,
            mortar: self.mortar,
            xform: self.xform,
        })
    }
}

/// What a word of a pigment makes of the value behind it.
fn parameter(
    draft: &mut PigmentDraft,
    word: PigmentWord,
    value: Value,
    place: Place,
) -> Result<(), ParseFault>
    ensures found { OnOk result (pigment_with draft.old word value place ≡ Ok draft.new) }
    ensures fault { IfErr result (λ f. pigment_with draft.old word value place ≡ Err f) }
{
    match word {
        PigmentWord::BrickSize => {
            draft.brick_size = vector_of(1, MOST, value, place)?;
        }
        PigmentWord::Mortar => {
            draft.mortar = float_of(0, MOST, value, place)?;
        }
    }
    Ok(())
}

/// A colour map, in place of the one before.
fn take_map(
    alloc: Global,
    tokens: &[Token],
    set: &Settings,
    depths: usize,
    at: usize,
    draft: &mut PigmentDraft,
) -> Result<usize, ParseFault>
    requires within { at < length tokens.now }
    requires whole { AreWhole set.now }
    ensures found { IfOk result (λ next. IsPigmentPart tokens.now set.now depths PigmentPart.Map draft.old at (Ok (record { value = draft.new; next = next }))) }
    ensures fault { IfErr result (λ f. f ≢ NoMemory → IsPigmentPart tokens.now set.now depths PigmentPart.Map draft.old at (Err f)) }
    ensures within { IfOk result (λ next. (at < next) × (next ≤ length tokens.now)) }
{
    let mut map = ColourMap::new(alloc);
    let next = braced(alloc, tokens, set, depths, at + 1, &mut map)?;
    draft.map = map;
    Ok(next)
}

/// A size of bricks or mortar.
fn take_size(
    alloc: Global,
    tokens: &[Token],
    set: &Settings,
    _depths: usize,
    word: PigmentWord,
    at: usize,
    draft: &mut PigmentDraft,
) -> Result<usize, ParseFault>
    requires within { at < length tokens.now }
    requires whole { AreWhole set.now }
    ensures found { IfOk result (λ next. IsPigmentPart tokens.now set.now _depths (PigmentPart.Parameter word) draft.old at (Ok (record { value = draft.new; next = next }))) }
    ensures fault { IfErr result (λ f. f ≢ NoMemory → IsPigmentPart tokens.now set.now _depths (PigmentPart.Parameter word) draft.old at (Err f)) }
    ensures within { IfOk result (λ next. (at < next) × (next ≤ length tokens.now)) }
{
    let (value, next) = expression(alloc, tokens, set, at + 1)?;
    parameter(draft, word, value, place_at(tokens, at + 1))?;
    Ok(next)
}

/// A step, or a transform.
pub fn take_move(
    alloc: Global,
    tokens: &[Token],
    set: &Settings,
    depths: usize,
    at: usize,
    draft: &mut PigmentDraft,
) -> Result<usize, ParseFault>
    requires within { at < length tokens.now }
    requires whole { AreWhole set.now }
    ensures found { IfOk result (λ next. IsPigmentPart tokens.now set.now depths PigmentPart.Move draft.old at (Ok (record { value = draft.new; next = next }))) }
    ensures fault { IfErr result (λ f. f ≢ NoMemory → IsPigmentPart tokens.now set.now depths PigmentPart.Move draft.old at (Err f)) }
    ensures within { IfOk result (λ next. (at < next) × (next ≤ length tokens.now)) }
{
    let mut xforms = [draft.xform];
    let next = moved(alloc, tokens, set, depths, at, &mut xforms)?;
    draft.xform = xforms[0];
    Ok(next)
}

/// A word of a pigment, or a step, with what is behind it.
fn part(
    alloc: Global,
    tokens: &[Token],
    set: &Settings,
    depths: usize,
    part: PigmentPart,
    at: usize,
    draft: &mut PigmentDraft,
) -> Result<usize, ParseFault>
    requires within { at ≤ length tokens.now }
    requires some { IsTrue (is_part part) → at < length tokens.now }
    requires whole { AreWhole set.now }
    ensures found { IfOk result (λ next. IsPigmentPart tokens.now set.now depths part draft.old at (Ok (record { value = draft.new; next = next }))) }
    ensures fault { IfErr result (λ f. f ≢ NoMemory → IsPigmentPart tokens.now set.now depths part draft.old at (Err f)) }
    ensures within { IfOk result (λ next. (at < next) × (next ≤ length tokens.now)) }
{
    match part {
        PigmentPart::Map => take_map(alloc, tokens, set, depths, at, draft),
        PigmentPart::Parameter(word) => take_size(alloc, tokens, set, depths, word, at, draft),
        PigmentPart::Move => take_move(alloc, tokens, set, depths, at, draft),
        PigmentPart::Other => Err(unfit_at(Wanted::CloseBrace, tokens, at)),
    }
}

/// The pattern of a pigment.
fn take_pattern(
    alloc: Global,
    tokens: &[Token],
    set: &Settings,
    word: PatternWord,
    at: usize,
    draft: &mut PigmentDraft,
) -> Result<usize, ParseFault>
    requires within { at < length tokens.now }
    requires whole { AreWhole set.now }
    ensures found { IfOk result (λ next. IsPainted tokens.now set.now (Beginning.Pattern word) draft.old at (Ok (record { value = draft.new; next = next }))) }
    ensures fault { IfErr result (λ f. f ≢ NoMemory → IsPainted tokens.now set.now (Beginning.Pattern word) draft.old at (Err f)) }
    ensures within { IfOk result (λ next. (at ≤ next) × (next ≤ length tokens.now)) }
{
    let (paint, next) = pattern(alloc, tokens, set, word, at + 1)?;
    draft.paint = paint;
    Ok(next)
}

/// The one colour of a pigment.
fn take_colour(
    alloc: Global,
    tokens: &[Token],
    set: &Settings,
    at: usize,
    draft: &mut PigmentDraft,
) -> Result<usize, ParseFault>
    requires within { at ≤ length tokens.now }
    requires whole { AreWhole set.now }
    ensures found { IfOk result (λ next. IsPainted tokens.now set.now Beginning.Colour draft.old at (Ok (record { value = draft.new; next = next }))) }
    ensures fault { IfErr result (λ f. f ≢ NoMemory → IsPainted tokens.now set.now Beginning.Colour draft.old at (Err f)) }
    ensures within { IfOk result (λ next. (at ≤ next) × (next ≤ length tokens.now)) }
{
    let (colour, next) = colour(alloc, tokens, set, at)?;
    draft.paint = Paint::Plain(colour);
    Ok(next)
}

/// What a pigment begins with, if anything does.
fn painted(
    alloc: Global,
    tokens: &[Token],
    set: &Settings,
    beginning: Beginning,
    at: usize,
    draft: &mut PigmentDraft,
) -> Result<usize, ParseFault>
    requires within { at ≤ length tokens.now }
    requires some { IsTrue (is_pattern beginning) → at < length tokens.now }
    requires whole { AreWhole set.now }
    ensures found { IfOk result (λ next. IsPainted tokens.now set.now beginning draft.old at (Ok (record { value = draft.new; next = next }))) }
    ensures fault { IfErr result (λ f. f ≢ NoMemory → IsPainted tokens.now set.now beginning draft.old at (Err f)) }
    ensures within { IfOk result (λ next. (at ≤ next) × (next ≤ length tokens.now)) }
{
    match beginning {
        Beginning::Pattern(word) => take_pattern(alloc, tokens, set, word, at, draft),
        Beginning::Colour => take_colour(alloc, tokens, set, at, draft),
        Beginning::Neither => Ok(at),
    }
}

impl Block for PigmentDraft {
    ghost use Rattle.item_blocks.specs.Pigments.{pigment_kind};

    ghost kind = { pigment_kind };

    fn leads(word: Option<Word>) -> bool {
        matches!(word, Some(Word::Block(BlockWord::Pigment)))
    }

    fn first(
        &mut self,
        alloc: Global,
        tokens: &[Token],
        set: &Settings,
        _depths: usize,
        _led: bool,
        at: usize,
    ) -> Result<usize, ParseFault> {
        let beginning = begins_by(is_through(tokens, at), word_at(tokens, at));
        painted(alloc, tokens, set, beginning, at, self)
    }

    fn statement(
        &mut self,
        alloc: Global,
        tokens: &[Token],
        set: &Settings,
        depths: usize,
        at: usize,
    ) -> Result<usize, ParseFault> {
        let kind = pigment_part(word_at(tokens, at));
        part(alloc, tokens, set, depths, kind, at, self)
    }

    fn lacks(&self) -> Option<Wanted> {
        None
    }
}
