// Lamps: what is said of them. (Reference manual, light_source)
ghost use Rattle.std.specs.Prelude.{◌≡◌, ◌≢◌, ◌≤◌, ◌<◌, ◌*◌, length, IfOk, IfErr, OnOk, IsSome, IsTrue, Ok, Err, false, unsigned_abs};
ghost use Rattle.scene_expr.specs.Values.{AreWhole};
ghost use Rattle.item_blocks.specs.declared.fault.ParseFault.TheVariants.{NoMemory};
ghost use Rattle.view_blocks.specs.Lamps.{plain_lamp, flagged, nearest_of, lamp_with, lamp_part, is_lamp_part, IsLit, IsLampPart};

use fix_math::{Fix, V3, rounded};
use item_blocks::{
    Block, BlockWord, LampFlag, LampParameter, LampWord, ParseFault, UNIT, Wanted, Word,
    any_vector, any_vector_of, behind_comma, expression, float_of, light, moved, unfit_at, word_at,
};
use scene_expr::{Settings, Value, place_at};
use scene_lexer::{Place, Token};
use scene_model::Rgb;
use std::alloc::Global;
use xform::{Xform, start};

/// The greatest angle of a spotlight: 90 degrees.
const MOST_ANGLE: i64 = 90 << 16;

/// A lamp as it is said: its steps are composed, wherever they stand.
#[derive(Clone, Copy, Debug, PartialEq, Eq)]
pub struct LampDraft {
    pub at: V3,
    /// The first token of its place.
    pub place: Place,
    pub colour: Rgb,
    pub shadowless: bool,
    pub spotlight: bool,
    pub radius: Fix,
    pub falloff: Fix,
    pub tightness: u32,
    pub point_at: V3,
    /// The first token of what it points at, if that is said.
    pub point_place: Option<Place>,
    pub fade_distance: Fix,
    pub fade_power: u32,
    pub xform: Xform,
}

/// What a word says in a lamp.
#[derive(Clone, Copy)]
pub enum LampPart {
    Flag(LampFlag),
    Parameter(LampParameter),
    Move,
    Other,
}

/// The lamp of which nothing is said.
pub fn plain_lamp() -> LampDraft
    ensures { result ≡ plain_lamp }
{
    LampDraft {
        at: V3 {
            x: Fix(0),
            y: Fix(0),
            z: Fix(0),
        },
        place: Place {
            file: 0,
            at: 0,
            line: 1,
        },
        colour: [Fix(0), Fix(0), Fix(0)],
        shadowless: false,
        spotlight: false,
        radius: Fix(1966080),
        falloff: Fix(2949120),
        tightness: 0,
        point_at: V3 {
            x: Fix(0),
            y: Fix(0),
            z: Fix(65536),
        },
        point_place: None,
        fade_distance: Fix(0),
        fade_power: 0,
        xform: start(),
    }
}

fn flag(lamp: &mut LampDraft, flag: LampFlag)
    ensures { lamp.new ≡ flagged lamp.old flag }
{
    match flag {
        LampFlag::Shadowless => {
            lamp.shadowless = true;
        }
        LampFlag::Spotlight => {
            lamp.spotlight = true;
        }
    }
}

/// The nearest whole number.
fn nearest_of(value: Fix) -> u32
    requires { unsigned_abs value ≤ 100 * 65536 }
    ensures { result ≡ nearest_of value }
{
    rounded(value.wide(), 65536).unsigned_abs() as u32
}

/// What a word of a lamp makes of the value behind it.
fn parameter(
    lamp: &mut LampDraft,
    word: LampParameter,
    value: Value,
    place: Place,
) -> Result<(), ParseFault>
    ensures found { OnOk result (lamp_with lamp.old word value place ≡ Ok lamp.new) }
    ensures fault { IfErr result (λ f. lamp_with lamp.old word value place ≡ Err f) }
{
    match word {
        LampParameter::Radius => {
            lamp.radius = float_of(0, MOST_ANGLE, value, place)?;
        }
        LampParameter::Falloff => {
            lamp.falloff = float_of(0, MOST_ANGLE, value, place)?;
        }
        LampParameter::Tightness => {
            lamp.tightness = nearest_of(float_of(0, 100 * UNIT, value, place)?);
        }
        LampParameter::PointAt => {
            lamp.point_at = any_vector_of(value, place)?;
            lamp.point_place = Some(place);
        }
        LampParameter::FadeDistance => {
            lamp.fade_distance = float_of(0, 1 << 36, value, place)?;
        }
        LampParameter::FadePower => {
            lamp.fade_power = nearest_of(float_of(0, 4 * UNIT, value, place)?);
        }
    }
    Ok(())
}

fn lamp_part(word: Option<Word>) -> LampPart
    ensures value { result ≡ lamp_part word }
    ensures some { IsTrue (is_lamp_part result) → IsSome word }
{
    match word {
        Some(Word::Lamp(LampWord::Flag(flag))) => LampPart::Flag(flag),
        Some(Word::Lamp(LampWord::Parameter(word))) => LampPart::Parameter(word),
        Some(Word::Block(BlockWord::Transform)) => LampPart::Move,
        Some(Word::Step(_)) => LampPart::Move,
        _ => LampPart::Other,
    }
}

/// The place and the colour of a lamp.
fn lit(
    alloc: Global,
    tokens: &[Token],
    set: &Settings,
    at: usize,
    lamp: &mut LampDraft,
) -> Result<usize, ParseFault>
    requires within { at ≤ length tokens.now }
    requires whole { AreWhole set.now }
    ensures found { IfOk result (λ next. IsLit tokens.now set.now false lamp.old at (Ok (record { value = lamp.new; next = next }))) }
    ensures fault { IfErr result (λ f. f ≢ NoMemory → IsLit tokens.now set.now false lamp.old at (Err f)) }
    ensures within { IfOk result (λ next. (at ≤ next) × (next ≤ length tokens.now)) }
{
    let (v, comma) = any_vector(alloc, tokens, set, at)?;
    let (colour, next) = light(alloc, tokens, set, behind_comma(tokens, comma))?;
    lamp.at = v;
    lamp.place = place_at(tokens, at);
    lamp.colour = colour;
    Ok(next)
}

/// A parameter of a lamp.
fn take_parameter(
    alloc: Global,
    tokens: &[Token],
    set: &Settings,
    _depths: usize,
    word: LampParameter,
    at: usize,
    lamp: &mut LampDraft,
) -> Result<usize, ParseFault>
    requires within { at < length tokens.now }
    requires whole { AreWhole set.now }
    ensures found { IfOk result (λ next. IsLampPart tokens.now set.now _depths (LampPart.Parameter word) lamp.old at (Ok (record { value = lamp.new; next = next }))) }
    ensures fault { IfErr result (λ f. f ≢ NoMemory → IsLampPart tokens.now set.now _depths (LampPart.Parameter word) lamp.old at (Err f)) }
    ensures within { IfOk result (λ next. (at < next) × (next ≤ length tokens.now)) }
{
    let (value, next) = expression(alloc, tokens, set, at + 1)?;
    parameter(lamp, word, value, place_at(tokens, at + 1))?;
    Ok(next)
}

/// A step of a lamp.
fn take_move(
    alloc: Global,
    tokens: &[Token],
    set: &Settings,
    depths: usize,
    at: usize,
    lamp: &mut LampDraft,
) -> Result<usize, ParseFault>
    requires within { at < length tokens.now }
    requires whole { AreWhole set.now }
    ensures found { IfOk result (λ next. IsLampPart tokens.now set.now depths LampPart.Move lamp.old at (Ok (record { value = lamp.new; next = next }))) }
    ensures fault { IfErr result (λ f. f ≢ NoMemory → IsLampPart tokens.now set.now depths LampPart.Move lamp.old at (Err f)) }
    ensures within { IfOk result (λ next. (at < next) × (next ≤ length tokens.now)) }
{
    let mut xforms = [lamp.xform];
    let next = moved(alloc, tokens, set, depths, at, &mut xforms)?;
    lamp.xform = xforms[0];
    Ok(next)
}

/// A part of a lamp, by its word.
fn part(
    alloc: Global,
    tokens: &[Token],
    set: &Settings,
    depths: usize,
    part: LampPart,
    at: usize,
    lamp: &mut LampDraft,
) -> Result<usize, ParseFault>
    requires within { at ≤ length tokens.now }
    requires some { IsTrue (is_lamp_part part) → at < length tokens.now }
    requires whole { AreWhole set.now }
    ensures found { IfOk result (λ next. IsLampPart tokens.now set.now depths part lamp.old at (Ok (record { value = lamp.new; next = next }))) }
    ensures fault { IfErr result (λ f. f ≢ NoMemory → IsLampPart tokens.now set.now depths part lamp.old at (Err f)) }
    ensures within { IfOk result (λ next. (at < next) × (next ≤ length tokens.now)) }
{
    match part {
        LampPart::Flag(word) => {
            flag(lamp, word);
            Ok(at + 1)
        }
        LampPart::Parameter(word) => { take_parameter(alloc, tokens, set, depths, word, at, lamp) }
        LampPart::Move => take_move(alloc, tokens, set, depths, at, lamp),
        LampPart::Other => Err(unfit_at(Wanted::CloseBrace, tokens, at)),
    }
}

impl Block for LampDraft {
    ghost use Rattle.view_blocks.specs.Lamps.{lamp_kind};

    ghost kind = { lamp_kind };

    fn leads(word: Option<Word>) -> bool {
        matches!(word, Some(Word::Block(BlockWord::LightSource)))
    }

    fn first(
        &mut self,
        alloc: Global,
        tokens: &[Token],
        set: &Settings,
        _depths: usize,
        led: bool,
        at: usize,
    ) -> Result<usize, ParseFault> {
        if led {
            Ok(at)
        } else {
            lit(alloc, tokens, set, at, self)
        }
    }

    fn statement(
        &mut self,
        alloc: Global,
        tokens: &[Token],
        set: &Settings,
        depths: usize,
        at: usize,
    ) -> Result<usize, ParseFault> {
        let kind = lamp_part(word_at(tokens, at));
        part(alloc, tokens, set, depths, kind, at, self)
    }

    fn lacks(&self) -> Option<Wanted> {
        None
    }
}
