// Patterns of colours. (Reference manual, patterns)
ghost use Rattle.std.specs.Prelude.{◌≡◌, ◌≢◌, ◌≤◌, length, IfOk, IfErr, IfSome, Ok, Err};
ghost use Rattle.scene_expr.specs.Values.{AreWhole};
ghost use Rattle.item_blocks.specs.declared.fault.ParseFault.TheVariants.{NoMemory};
ghost use Rattle.item_blocks.specs.declared.words.PatternWord.{PatternWord};
ghost use Rattle.item_blocks.specs.Pigments.{colour_start, IsColourElse, IsTwo, IsThree, IsPattern, blue, green, red, mortar_grey, brick_red};

use crate::fault::ParseFault;
use crate::parameters::{any_vector, colour};
use crate::pigment_parts::is_through;
use crate::tokens::sign_at;
use crate::words::PatternWord;
use fix_math::{Fix, V3};
use scene_expr::Settings;
use scene_lexer::{Token, sign};
use scene_model::Rgbft;
use std::alloc::Global;

/// A colour, or the colours of a pattern.
#[derive(Clone, Copy, Debug, PartialEq, Eq)]
pub enum Paint {
    Plain(Rgbft),
    Checker([Rgbft; 2]),
    /// The mortar, and then the bricks.
    Brick([Rgbft; 2]),
    Hexagon([Rgbft; 3]),
    /// Along this axis, by the colour map.
    Gradient(V3),
}

fn blue() -> Rgbft
    ensures { result ≡ blue }
{
    [Fix(0), Fix(0), Fix(65536), Fix(0), Fix(0)]
}

fn green() -> Rgbft
    ensures { result ≡ green }
{
    [Fix(0), Fix(65536), Fix(0), Fix(0), Fix(0)]
}

fn red() -> Rgbft
    ensures { result ≡ red }
{
    [Fix(65536), Fix(0), Fix(0), Fix(0), Fix(0)]
}

fn mortar_grey() -> Rgbft
    ensures { result ≡ mortar_grey }
{
    [Fix(32768), Fix(32768), Fix(32768), Fix(0), Fix(0)]
}

fn brick_red() -> Rgbft
    ensures { result ≡ brick_red }
{
    [Fix(39322), Fix(9830), Fix(9830), Fix(0), Fix(0)]
}

/// Where a further colour begins, if there is one: behind a comma one must.
fn colour_start(divided: bool, tokens: &[Token], at: usize) -> Option<usize>
    requires { at ≤ length tokens.now }
    ensures value { result ≡ colour_start divided tokens.now at }
    ensures within { IfSome result (λ start. (at ≤ start) × (start ≤ length tokens.now)) }
{
    if divided && sign_at(tokens, at) == sign::COMMA {
        Some(at + 1)
    } else if is_through(tokens, at) {
        None
    } else {
        Some(at)
    }
}

/// A colour of a pattern, or the one that stands for it where it is left out.
fn colour_else(
    alloc: Global,
    tokens: &[Token],
    set: &Settings,
    divided: bool,
    plain: Rgbft,
    at: usize,
) -> Result<(Rgbft, usize), ParseFault>
    requires within { at ≤ length tokens.now }
    requires whole { AreWhole set.now }
    ensures found { IfOk result (λ found. IsColourElse tokens.now set.now (colour_start divided tokens.now at) plain at (Ok (record { value = found.0; next = found.1 }))) }
    ensures fault { IfErr result (λ f. f ≢ NoMemory → IsColourElse tokens.now set.now (colour_start divided tokens.now at) plain at (Err f)) }
    ensures within { IfOk result (λ found. (at ≤ found.1) × (found.1 ≤ length tokens.now)) }
{
    match colour_start(divided, tokens, at) {
        Some(start) => colour(alloc, tokens, set, start),
        None => Ok((plain, at)),
    }
}

/// Two colours of a pattern.
fn two(
    alloc: Global,
    tokens: &[Token],
    set: &Settings,
    a: Rgbft,
    b: Rgbft,
    at: usize,
) -> Result<([Rgbft; 2], usize), ParseFault>
    requires within { at ≤ length tokens.now }
    requires whole { AreWhole set.now }
    ensures found { IfOk result (λ found. IsTwo tokens.now set.now a b at (Ok (record { value = found.0; next = found.1 }))) }
    ensures fault { IfErr result (λ f. f ≢ NoMemory → IsTwo tokens.now set.now a b at (Err f)) }
    ensures within { IfOk result (λ found. (at ≤ found.1) × (found.1 ≤ length tokens.now)) }
{
    let (first, comma) = colour_else(alloc, tokens, set, false, a, at)?;
    let (second, next) = colour_else(alloc, tokens, set, true, b, comma)?;
    Ok(([first, second], next))
}

/// Three colours of a pattern.
fn three(
    alloc: Global,
    tokens: &[Token],
    set: &Settings,
    a: Rgbft,
    b: Rgbft,
    c: Rgbft,
    at: usize,
) -> Result<([Rgbft; 3], usize), ParseFault>
    requires within { at ≤ length tokens.now }
    requires whole { AreWhole set.now }
    ensures found { IfOk result (λ found. IsThree tokens.now set.now a b c at (Ok (record { value = found.0; next = found.1 }))) }
    ensures fault { IfErr result (λ f. f ≢ NoMemory → IsThree tokens.now set.now a b c at (Err f)) }
    ensures within { IfOk result (λ found. (at ≤ found.1) × (found.1 ≤ length tokens.now)) }
{
    let (first, comma) = colour_else(alloc, tokens, set, false, a, at)?;
    let (second, more) = colour_else(alloc, tokens, set, true, b, comma)?;
    let (third, next) = colour_else(alloc, tokens, set, true, c, more)?;
    Ok(([first, second, third], next))
}

/// Squares of two colours.
fn checker(
    alloc: Global,
    tokens: &[Token],
    set: &Settings,
    at: usize,
) -> Result<(Paint, usize), ParseFault>
    requires within { at ≤ length tokens.now }
    requires whole { AreWhole set.now }
    ensures found { IfOk result (λ found. IsPattern tokens.now set.now PatternWord.Checker at (Ok (record { value = found.0; next = found.1 }))) }
    ensures fault { IfErr result (λ f. f ≢ NoMemory → IsPattern tokens.now set.now PatternWord.Checker at (Err f)) }
    ensures within { IfOk result (λ found. (at ≤ found.1) × (found.1 ≤ length tokens.now)) }
{
    let (colours, next) = two(alloc, tokens, set, blue(), green(), at)?;
    Ok((Paint::Checker(colours), next))
}

/// Mortar and bricks.
fn brick(
    alloc: Global,
    tokens: &[Token],
    set: &Settings,
    at: usize,
) -> Result<(Paint, usize), ParseFault>
    requires within { at ≤ length tokens.now }
    requires whole { AreWhole set.now }
    ensures found { IfOk result (λ found. IsPattern tokens.now set.now PatternWord.Brick at (Ok (record { value = found.0; next = found.1 }))) }
    ensures fault { IfErr result (λ f. f ≢ NoMemory → IsPattern tokens.now set.now PatternWord.Brick at (Err f)) }
    ensures within { IfOk result (λ found. (at ≤ found.1) × (found.1 ≤ length tokens.now)) }
{
    let (colours, next) = two(alloc, tokens, set, mortar_grey(), brick_red(), at)?;
    Ok((Paint::Brick(colours), next))
}

/// Hexagons of three colours.
fn hexagon(
    alloc: Global,
    tokens: &[Token],
    set: &Settings,
    at: usize,
) -> Result<(Paint, usize), ParseFault>
    requires within { at ≤ length tokens.now }
    requires whole { AreWhole set.now }
    ensures found { IfOk result (λ found. IsPattern tokens.now set.now PatternWord.Hexagon at (Ok (record { value = found.0; next = found.1 }))) }
    ensures fault { IfErr result (λ f. f ≢ NoMemory → IsPattern tokens.now set.now PatternWord.Hexagon at (Err f)) }
    ensures within { IfOk result (λ found. (at ≤ found.1) × (found.1 ≤ length tokens.now)) }
{
    let (colours, next) = three(alloc, tokens, set, blue(), green(), red(), at)?;
    Ok((Paint::Hexagon(colours), next))
}

/// Colours along an axis.
fn gradient(
    alloc: Global,
    tokens: &[Token],
    set: &Settings,
    at: usize,
) -> Result<(Paint, usize), ParseFault>
    requires within { at ≤ length tokens.now }
    requires whole { AreWhole set.now }
    ensures found { IfOk result (λ found. IsPattern tokens.now set.now PatternWord.Gradient at (Ok (record { value = found.0; next = found.1 }))) }
    ensures fault { IfErr result (λ f. f ≢ NoMemory → IsPattern tokens.now set.now PatternWord.Gradient at (Err f)) }
    ensures within { IfOk result (λ found. (at ≤ found.1) × (found.1 ≤ length tokens.now)) }
{
    let (axis, next) = any_vector(alloc, tokens, set, at)?;
    Ok((Paint::Gradient(axis), next))
}

/// A pattern with its colours.
pub fn pattern(
    alloc: Global,
    tokens: &[Token],
    set: &Settings,
    word: PatternWord,
    at: usize,
) -> Result<(Paint, usize), ParseFault>
    requires within { at ≤ length tokens.now }
    requires whole { AreWhole set.now }
    ensures found { IfOk result (λ found. IsPattern tokens.now set.now word at (Ok (record { value = found.0; next = found.1 }))) }
    ensures fault { IfErr result (λ f. f ≢ NoMemory → IsPattern tokens.now set.now word at (Err f)) }
    ensures within { IfOk result (λ found. (at ≤ found.1) × (found.1 ≤ length tokens.now)) }
{
    match word {
        PatternWord::Checker => checker(alloc, tokens, set, at),
        PatternWord::Brick => brick(alloc, tokens, set, at),
        PatternWord::Hexagon => hexagon(alloc, tokens, set, at),
        PatternWord::Gradient => gradient(alloc, tokens, set, at),
    }
}
