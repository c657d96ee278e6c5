// Parameters of solids and triangles: one behind the other, with or without a comma.
ghost use Rattle.std.specs.Prelude.{◌≡◌, ◌≢◌, ◌≤◌, ◌<◌, ◌^◌, length, IfOk, IfErr, IsTrue, Ok, Err, pos, ◌≤ℤ◌, ℤ, unsigned_abs};
ghost use Rattle.std.specs.Ordering.{int_eq};
ghost use Rattle.fix_math.specs.declared.fix.V3.{V3};
ghost use Rattle.fix_math.specs.Matrices.{IsVectorWithin};
ghost use Rattle.scene_expr.specs.Values.{AreWhole};
ghost use Rattle.scene_model.specs.Amounts.{IsAmount};
ghost use Rattle.item_blocks.specs.Parameters.{vector_in, is_vector_between, checked};
ghost use Rattle.item_blocks.specs.Tokens.{word_at, behind_comma};
ghost use Rattle.item_blocks.specs.declared.fault.ParseFault.TheVariants.{NoMemory};
ghost use Rattle.solid_items.specs.Solids.{origin, is_same, differing, other_of, radius_of, distance_of, IsPoint, IsOther, IsRadius, IsDistance, further, says_open, opening};
ghost use Rattle.solid_items.specs.Sheets.{normal_of, IsNormal};

use fix_math::{Fix, V3};
use item_blocks::{
    MOST_COORDINATE, ModifierWord, ParseFault, Word, any_vector_of, behind_comma, expression,
    float_between, point, point_of, word_at,
};
use scene_expr::{Settings, Value, place_at};
use scene_lexer::{Place, Token};
use std::alloc::Global;

fn is_same(a: &V3, b: &V3) -> bool
    ensures { result ≡ is_same a.now b.now }
{
    a.x.raw() == b.x.raw() && a.y.raw() == b.y.raw() && a.z.raw() == b.z.raw()
}

/// A vector, which differs from another.
fn differing(a: &V3, place: Place, b: V3) -> Result<V3, ParseFault>
    ensures value { result ≡ differing a.now place (Ok b) }
{
    if is_same(a, &b) {
        return Err(ParseFault::ValueRange { place });
    }
    Ok(b)
}

/// A point that differs from another.
fn other_of(a: &V3, value: Value, place: Place) -> Result<V3, ParseFault>
    ensures value { result ≡ other_of a.now value place }
{
    let b = point_of(value, place)?;
    differing(a, place, b)
}

/// A vector that isn't <0, 0, 0>.
fn normal_of(value: Value, place: Place) -> Result<V3, ParseFault>
    ensures value { result ≡ normal_of value place }
{
    let normal = any_vector_of(value, place)?;
    differing(&origin(), place, normal)
}

/// The point <0, 0, 0>.
pub fn origin() -> V3
    ensures { result ≡ origin }
{
    V3 {
        x: Fix(0),
        y: Fix(0),
        z: Fix(0),
    }
}

/// A point, and the token behind it.
pub fn first_point(
    alloc: Global,
    tokens: &[Token],
    set: &Settings,
    at: usize,
) -> Result<(V3, usize), ParseFault>
    requires within { at ≤ length tokens.now }
    requires whole { AreWhole set.now }
    ensures found { IfOk result (λ found. IsPoint tokens.now set.now at (Ok (record { value = found.0; next = found.1 }))) }
    ensures fault { IfErr result (λ f. f ≢ NoMemory → IsPoint tokens.now set.now at (Err f)) }
    ensures within { IfOk result (λ found. (at ≤ found.1) × (found.1 ≤ length tokens.now)) }
    ensures small { IfOk result (λ found. IsVectorWithin (2 ^ 28) found.0) }
{
    let (v, next) = point(alloc, tokens, set, at)?;
    Ok((v, next))
}

/// A further point.
pub fn next_point(
    alloc: Global,
    tokens: &[Token],
    set: &Settings,
    at: usize,
) -> Result<(V3, usize), ParseFault>
    requires within { at ≤ length tokens.now }
    requires whole { AreWhole set.now }
    ensures found { IfOk result (λ found. further IsPoint tokens.now set.now at (Ok (record { value = found.0; next = found.1 }))) }
    ensures fault { IfErr result (λ f. f ≢ NoMemory → further IsPoint tokens.now set.now at (Err f)) }
    ensures within { IfOk result (λ found. (at ≤ found.1) × (found.1 ≤ length tokens.now)) }
    ensures small { IfOk result (λ found. IsVectorWithin (2 ^ 28) found.0) }
{
    let (v, next) = first_point(alloc, tokens, set, behind_comma(tokens, at))?;
    Ok((v, next))
}

/// A point that differs from another, and the token behind it.
pub fn first_other(
    alloc: Global,
    tokens: &[Token],
    set: &Settings,
    a: &V3,
    at: usize,
) -> Result<(V3, usize), ParseFault>
    requires within { at ≤ length tokens.now }
    requires whole { AreWhole set.now }
    ensures found { IfOk result (λ found. IsOther a.now tokens.now set.now at (Ok (record { value = found.0; next = found.1 }))) }
    ensures fault { IfErr result (λ f. f ≢ NoMemory → IsOther a.now tokens.now set.now at (Err f)) }
    ensures within { IfOk result (λ found. (at ≤ found.1) × (found.1 ≤ length tokens.now)) }
    ensures small { IfOk result (λ found. IsVectorWithin (2 ^ 28) found.0) }
    ensures other { IfOk result (λ found. found.0 ≢ a.now) }
{
    let (value, next) = expression(alloc, tokens, set, at)?;
    Ok((other_of(a, value, place_at(tokens, at))?, next))
}

/// A further point, which differs from another.
pub fn next_other(
    alloc: Global,
    tokens: &[Token],
    set: &Settings,
    a: &V3,
    at: usize,
) -> Result<(V3, usize), ParseFault>
    requires within { at ≤ length tokens.now }
    requires whole { AreWhole set.now }
    ensures found { IfOk result (λ found. further (IsOther a.now) tokens.now set.now at (Ok (record { value = found.0; next = found.1 }))) }
    ensures fault { IfErr result (λ f. f ≢ NoMemory → further (IsOther a.now) tokens.now set.now at (Err f)) }
    ensures within { IfOk result (λ found. (at ≤ found.1) × (found.1 ≤ length tokens.now)) }
    ensures small { IfOk result (λ found. IsVectorWithin (2 ^ 28) found.0) }
    ensures other { IfOk result (λ found. found.0 ≢ a.now) }
{
    let (v, next) = first_other(alloc, tokens, set, a, behind_comma(tokens, at))?;
    Ok((v, next))
}

/// A further parameter: a radius.
pub fn next_radius(
    alloc: Global,
    tokens: &[Token],
    set: &Settings,
    at: usize,
) -> Result<(Fix, usize), ParseFault>
    requires within { at ≤ length tokens.now }
    requires whole { AreWhole set.now }
    ensures found { IfOk result (λ found. further IsRadius tokens.now set.now at (Ok (record { value = found.0; next = found.1 }))) }
    ensures fault { IfErr result (λ f. f ≢ NoMemory → further IsRadius tokens.now set.now at (Err f)) }
    ensures within { IfOk result (λ found. (at ≤ found.1) × (found.1 ≤ length tokens.now)) }
    ensures amount { IfOk result (λ found. IsAmount (2 ^ 28) found.0) }
{
    let (radius, next) = float_between(
        alloc,
        tokens,
        set,
        0,
        MOST_COORDINATE,
        behind_comma(tokens, at),
    )?;
    Ok((radius, next))
}

/// A further parameter: a distance or a coefficient.
pub fn next_distance(
    alloc: Global,
    tokens: &[Token],
    set: &Settings,
    at: usize,
) -> Result<(Fix, usize), ParseFault>
    requires within { at ≤ length tokens.now }
    requires whole { AreWhole set.now }
    ensures found { IfOk result (λ found. further IsDistance tokens.now set.now at (Ok (record { value = found.0; next = found.1 }))) }
    ensures fault { IfErr result (λ f. f ≢ NoMemory → further IsDistance tokens.now set.now at (Err f)) }
    ensures within { IfOk result (λ found. (at ≤ found.1) × (found.1 ≤ length tokens.now)) }
    ensures small { IfOk result (λ found. unsigned_abs found.0 ≤ 2 ^ 28) }
{
    let (distance, next) = float_between(
        alloc,
        tokens,
        set,
        -MOST_COORDINATE,
        MOST_COORDINATE,
        behind_comma(tokens, at),
    )?;
    Ok((distance, next))
}

/// A normal, and the token behind it.
pub fn first_normal(
    alloc: Global,
    tokens: &[Token],
    set: &Settings,
    at: usize,
) -> Result<(V3, usize), ParseFault>
    requires within { at ≤ length tokens.now }
    requires whole { AreWhole set.now }
    ensures found { IfOk result (λ found. IsNormal tokens.now set.now at (Ok (record { value = found.0; next = found.1 }))) }
    ensures fault { IfErr result (λ f. f ≢ NoMemory → IsNormal tokens.now set.now at (Err f)) }
    ensures within { IfOk result (λ found. (at ≤ found.1) × (found.1 ≤ length tokens.now)) }
{
    let (value, next) = expression(alloc, tokens, set, at)?;
    Ok((normal_of(value, place_at(tokens, at))?, next))
}

fn says_open(word: Option<Word>) -> bool
    ensures { result ≡ says_open word }
{
    matches!(word, Some(Word::Modifier(ModifierWord::Open)))
}

/// Whether `open` stands here, and the token behind it.
pub fn opening(tokens: &[Token], at: usize) -> (bool, usize)
    requires { at ≤ length tokens.now }
    ensures value { record { value = result.0; next = result.1 } ≡ opening tokens.now at }
    ensures within { (at ≤ result.1) × (result.1 ≤ length tokens.now) }
{
    match word_at(tokens, at) {
        Some(word) => {
            if says_open(Some(word)) {
                (true, at + 1)
            } else {
                (false, at)
            }
        }
        None => (false, at),
    }
}
