// Parameters: the kinds and ranges of their values. (Reference manual, floats, vectors and colours)
ghost use Rattle.std.specs.Prelude.{◌≡◌, ◌≢◌, ◌≤◌, ◌<◌, length, IfOk, IfErr, Ok, Err, pos, ℤ, List};
ghost use Rattle.scene_expr.specs.Values.{AreWhole};
ghost use Rattle.fix_math.specs.declared.fix.V3.{V3};
ghost use Rattle.item_blocks.specs.Parameters.{float_in, vector_in, colour_in, first_three, rgb_from, is_between, is_vector_between, are_between, is_colour, float_of, vector_of, point_of, any_vector_of, any_float_of, rgb_of, light_of, colour_of, IsParameter};
ghost use Rattle.item_blocks.specs.declared.fault.ParseFault.TheVariants.{NoMemory};

use crate::fault::{ParseFault, Wanted};
use crate::tokens::expression;
use fix_math::{Fix, V3};
use scene_expr::{Settings, Value, place_at};
use scene_lexer::{Place, Token};
use scene_model::{Rgb, Rgbft};
use std::alloc::Global;

/// One unit.
pub const UNIT: i64 = 1 << 16;

/// The greatest coordinate: 4096 units.
pub const MOST_COORDINATE: i64 = 1 << 28;

/// The greatest red, green and blue: 256 units.
pub const MOST_CHANNEL: i64 = 1 << 24;

// ---- kinds

fn float_in(value: Value) -> Option<Fix>
    ensures { result ≡ float_in value }
{
    match value {
        Value::Float(a) => Some(a),
        Value::Vector(_vector) => None,
        Value::Color(_numbers) => None,
        Value::Text(_text) => None,
    }
}

fn vector_in(value: Value) -> Option<V3>
    ensures { result ≡ vector_in value }
{
    match value {
        Value::Float(a) => Some(V3 { x: a, y: a, z: a }),
        Value::Vector(v) => Some(v),
        Value::Color(_numbers) => None,
        Value::Text(_text) => None,
    }
}

fn colour_in(value: Value) -> Option<Rgbft>
    ensures { result ≡ colour_in value }
{
    match value {
        Value::Float(a) => Some([a, a, a, a, a]),
        Value::Vector(v) => Some([v.x, v.y, v.z, Fix(0), Fix(0)]),
        Value::Color(numbers) => Some(numbers),
        Value::Text(_text) => None,
    }
}

fn rgb_from(colour: Option<Rgbft>) -> Option<Rgb>
    ensures { result ≡ rgb_from colour }
{
    match colour {
        Some(c) => Some([c[0], c[1], c[2]]),
        None => None,
    }
}

// ---- ranges

fn is_between(low: i64, high: i64, value: Fix) -> bool
    ensures { result ≡ is_between low high value }
{
    low <= value.raw() && value.raw() <= high
}

fn is_vector_between(low: i64, high: i64, value: &V3) -> bool
    ensures { result ≡ is_vector_between low high value.now }
{
    is_between(low, high, value.x)
        && is_between(low, high, value.y)
        && is_between(low, high, value.z)
}

fn are_between(low: i64, high: i64, c: &Rgb) -> bool
    ensures { result ≡ are_between low high c.now }
{
    is_between(low, high, c[0]) && is_between(low, high, c[1]) && is_between(low, high, c[2])
}

fn is_colour(c: &Rgbft) -> bool
    ensures { result ≡ is_colour c.now }
{
    is_between(0, MOST_CHANNEL, c[0])
        && is_between(0, MOST_CHANNEL, c[1])
        && is_between(0, MOST_CHANNEL, c[2])
        && is_between(0, UNIT, c[3])
        && is_between(0, UNIT, c[4])
}

fn wrong_kind(place: Place) -> ParseFault
    ensures { result ≡ ParseFault.Expected place Wanted.Parameter }
{
    ParseFault::Expected {
        place,
        kind: Wanted::Parameter,
    }
}

// ---- values of a kind, in a range

/// A float from a least to a greatest raw number.
pub fn float_of(low: i64, high: i64, value: Value, place: Place) -> Result<Fix, ParseFault>
    ensures value { result ≡ float_of low high value place }
    ensures memory { IfErr result (λ f. f ≢ NoMemory) }
{
    let Some(number) = float_in(value) else {
        return Err(wrong_kind(place));
    };
    if is_between(low, high, number) {
        Ok(number)
    } else {
        Err(ParseFault::ValueRange { place })
    }
}

/// A float of any size.
pub fn any_float_of(value: Value, place: Place) -> Result<Fix, ParseFault>
    ensures value { result ≡ any_float_of value place }
    ensures memory { IfErr result (λ f. f ≢ NoMemory) }
{
    match float_in(value) {
        Some(number) => Ok(number),
        None => Err(wrong_kind(place)),
    }
}

/// A vector, or a float for each of its numbers, from a least to a greatest raw number.
pub fn vector_of(low: i64, high: i64, value: Value, place: Place) -> Result<V3, ParseFault>
    ensures value { result ≡ vector_of low high value place }
    ensures memory { IfErr result (λ f. f ≢ NoMemory) }
{
    let Some(vector) = vector_in(value) else {
        return Err(wrong_kind(place));
    };
    if is_vector_between(low, high, &vector) {
        Ok(vector)
    } else {
        Err(ParseFault::ValueRange { place })
    }
}

/// A point: its coordinates are at most 4096 units in size.
pub fn point_of(value: Value, place: Place) -> Result<V3, ParseFault>
    ensures value { result ≡ point_of value place }
    ensures memory { IfErr result (λ f. f ≢ NoMemory) }
{
    vector_of(-MOST_COORDINATE, MOST_COORDINATE, value, place)
}

/// A vector of any size.
pub fn any_vector_of(value: Value, place: Place) -> Result<V3, ParseFault>
    ensures value { result ≡ any_vector_of value place }
    ensures memory { IfErr result (λ f. f ≢ NoMemory) }
{
    match vector_in(value) {
        Some(vector) => Ok(vector),
        None => Err(wrong_kind(place)),
    }
}

/// Red, green and blue of a colour, from 0 to a greatest raw number: filter and transmit don't count.
pub fn rgb_of(high: i64, value: Value, place: Place) -> Result<Rgb, ParseFault>
    ensures value { result ≡ rgb_of high value place }
    ensures memory { IfErr result (λ f. f ≢ NoMemory) }
{
    let Some(colour) = rgb_from(colour_in(value)) else {
        return Err(wrong_kind(place));
    };
    if are_between(0, high, &colour) {
        Ok(colour)
    } else {
        Err(ParseFault::ValueRange { place })
    }
}

/// The colour of a light: red, green and blue to 256 units.
pub fn light_of(value: Value, place: Place) -> Result<Rgb, ParseFault>
    ensures value { result ≡ light_of value place }
    ensures memory { IfErr result (λ f. f ≢ NoMemory) }
{
    rgb_of(MOST_CHANNEL, value, place)
}

/// A colour: red, green and blue to 256 units, filter and transmit to 1.
pub fn colour_of(value: Value, place: Place) -> Result<Rgbft, ParseFault>
    ensures value { result ≡ colour_of value place }
    ensures memory { IfErr result (λ f. f ≢ NoMemory) }
{
    let Some(colour) = colour_in(value) else {
        return Err(wrong_kind(place));
    };
    if is_colour(&colour) {
        Ok(colour)
    } else {
        Err(ParseFault::ValueRange { place })
    }
}

// ---- parameters

/// A float of any size, and the token behind it.
pub fn any_float(
    alloc: Global,
    tokens: &[Token],
    set: &Settings,
    at: usize,
) -> Result<(Fix, usize), ParseFault>
    requires within { at ≤ length tokens.now }
    requires whole { AreWhole set.now }
    ensures found { IfOk result (λ found. IsParameter ℤ any_float_of tokens.now set.now at (Ok (record { value = found.0; next = found.1 }))) }
    ensures fault { IfErr result (λ f. f ≢ NoMemory → IsParameter ℤ any_float_of tokens.now set.now at (Err f)) }
    ensures within { IfOk result (λ found. (at ≤ found.1) × (found.1 ≤ length tokens.now)) }
{
    let (value, next) = expression(alloc, tokens, set, at)?;
    Ok((any_float_of(value, place_at(tokens, at))?, next))
}

/// A vector of any size, and the token behind it.
pub fn any_vector(
    alloc: Global,
    tokens: &[Token],
    set: &Settings,
    at: usize,
) -> Result<(V3, usize), ParseFault>
    requires within { at ≤ length tokens.now }
    requires whole { AreWhole set.now }
    ensures found { IfOk result (λ found. IsParameter V3 any_vector_of tokens.now set.now at (Ok (record { value = found.0; next = found.1 }))) }
    ensures fault { IfErr result (λ f. f ≢ NoMemory → IsParameter V3 any_vector_of tokens.now set.now at (Err f)) }
    ensures within { IfOk result (λ found. (at ≤ found.1) × (found.1 ≤ length tokens.now)) }
{
    let (value, next) = expression(alloc, tokens, set, at)?;
    Ok((any_vector_of(value, place_at(tokens, at))?, next))
}

/// The colour of a light, and the token behind it.
pub fn light(
    alloc: Global,
    tokens: &[Token],
    set: &Settings,
    at: usize,
) -> Result<(Rgb, usize), ParseFault>
    requires within { at ≤ length tokens.now }
    requires whole { AreWhole set.now }
    ensures found { IfOk result (λ found. IsParameter (List ℤ) light_of tokens.now set.now at (Ok (record { value = found.0; next = found.1 }))) }
    ensures fault { IfErr result (λ f. f ≢ NoMemory → IsParameter (List ℤ) light_of tokens.now set.now at (Err f)) }
    ensures within { IfOk result (λ found. (at ≤ found.1) × (found.1 ≤ length tokens.now)) }
{
    let (value, next) = expression(alloc, tokens, set, at)?;
    Ok((light_of(value, place_at(tokens, at))?, next))
}

/// A colour, and the token behind it.
pub fn colour(
    alloc: Global,
    tokens: &[Token],
    set: &Settings,
    at: usize,
) -> Result<(Rgbft, usize), ParseFault>
    requires within { at ≤ length tokens.now }
    requires whole { AreWhole set.now }
    ensures found { IfOk result (λ found. IsParameter (List ℤ) colour_of tokens.now set.now at (Ok (record { value = found.0; next = found.1 }))) }
    ensures fault { IfErr result (λ f. f ≢ NoMemory → IsParameter (List ℤ) colour_of tokens.now set.now at (Err f)) }
    ensures within { IfOk result (λ found. (at ≤ found.1) × (found.1 ≤ length tokens.now)) }
{
    let (value, next) = expression(alloc, tokens, set, at)?;
    Ok((colour_of(value, place_at(tokens, at))?, next))
}

/// A float from a least to a greatest raw number, and the token behind it.
pub fn float_between(
    alloc: Global,
    tokens: &[Token],
    set: &Settings,
    low: i64,
    high: i64,
    at: usize,
) -> Result<(Fix, usize), ParseFault>
    requires within { at ≤ length tokens.now }
    requires whole { AreWhole set.now }
    ensures found { IfOk result (λ found. IsParameter ℤ (float_of low high) tokens.now set.now at (Ok (record { value = found.0; next = found.1 }))) }
    ensures fault { IfErr result (λ f. f ≢ NoMemory → IsParameter ℤ (float_of low high) tokens.now set.now at (Err f)) }
    ensures within { IfOk result (λ found. (at ≤ found.1) × (found.1 ≤ length tokens.now)) }
{
    let (value, next) = expression(alloc, tokens, set, at)?;
    Ok((float_of(low, high, value, place_at(tokens, at))?, next))
}

/// A point, whose coordinates are at most 4096 units in size, and the token behind it.
pub fn point(
    alloc: Global,
    tokens: &[Token],
    set: &Settings,
    at: usize,
) -> Result<(V3, usize), ParseFault>
    requires within { at ≤ length tokens.now }
    requires whole { AreWhole set.now }
    ensures found { IfOk result (λ found. IsParameter V3 point_of tokens.now set.now at (Ok (record { value = found.0; next = found.1 }))) }
    ensures fault { IfErr result (λ f. f ≢ NoMemory → IsParameter V3 point_of tokens.now set.now at (Err f)) }
    ensures within { IfOk result (λ found. (at ≤ found.1) × (found.1 ≤ length tokens.now)) }
{
    let (value, next) = expression(alloc, tokens, set, at)?;
    Ok((point_of(value, place_at(tokens, at))?, next))
}
