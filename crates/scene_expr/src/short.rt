// Short expressions, read without the levels: a number, or two with an operator between them.
ghost use Rattle.std.specs.Prelude.{◌≡◌, ◌≤◌, ◌<◌, ℕ, suc, nat_eq, false, length, IfSome, IsTrue, Ok, None};
ghost use Rattle.scene_expr.specs.declared.value.Settings.{Settings};
ghost use Rattle.scene_expr.specs.declared.value.Value.{Value};
ghost use Rattle.scene_expr.specs.Grammar.{inner, inner_of, tier_operator, IsFactor};
ghost use Rattle.scene_expr.specs.Heads.{sign_at};
ghost use Rattle.scene_expr.specs.Short.{tiers_in};
ghost use Rattle.scene_expr.specs.Steps.{at_depths, read};

use crate::heads::{is_minus, number_at, sign_at};
use crate::operators::operator_in;
use crate::value::{Level, Value};
use fix_math::Fix;
use scene_lexer::{Token, sign};

/// A factor that is a number, and the number of the token behind it, which is no dot.
#[derive(Clone, Copy)]
struct Plain {
    value: Fix,
    next: usize,
}

/// A number that stands here for itself.
#[inline(always)]
fn unsigned_at(tokens: &[Token], at: usize) -> Option<Plain>
    ensures found { IfSome result (λ plain. (set : Settings) (depths : ℕ) → at_depths IsFactor tokens.now set depths at (Ok (read (Value.Float plain.value) plain.next))) }
    ensures undotted { IfSome result (λ plain. nat_eq (sign_at tokens.now plain.next) 46 ≡ false) }
    ensures within { IfSome result (λ plain. (at ≤ plain.next) × (plain.next ≤ length tokens.now)) }
{
    let value = number_at(tokens, at)?;
    if sign_at(tokens, at + 1) == sign::DOT {
        return None;
    }
    Some(Plain {
        value,
        next: at + 1,
    })
}

/// A number here behind a minus, which opens a depth.
#[inline(always)]
fn negative_at(tokens: &[Token], at: usize, depths: usize) -> Option<Plain>
    ensures found { IfSome result (λ plain. (set : Settings) → at_depths IsFactor tokens.now set depths at (Ok (read (Value.Float plain.value) plain.next))) }
    ensures within { IfSome result (λ plain. (at ≤ plain.next) × (plain.next ≤ length tokens.now)) }
{
    if depths == 0 || !is_minus(tokens, at) {
        return None;
    }
    let Plain { value, next } = unsigned_at(tokens, at + 1)?;
    Some(Plain {
        value: value.negated(),
        next,
    })
}

/// A number here, alone or behind a minus.
#[inline(always)]
fn plain_at(tokens: &[Token], at: usize, depths: usize) -> Option<Plain>
    ensures found { IfSome result (λ plain. (set : Settings) → at_depths IsFactor tokens.now set depths at (Ok (read (Value.Float plain.value) plain.next))) }
    ensures within { IfSome result (λ plain. (at ≤ plain.next) × (plain.next ≤ length tokens.now)) }
{
    match unsigned_at(tokens, at) {
        Some(plain) => Some(plain),
        None => negative_at(tokens, at, depths),
    }
}

/// Whether an operand of a level ends the expression before this token.
#[inline(always)]
fn ends(tokens: &[Token], at: usize, level: Level) -> bool
    ensures alone { IsTrue result → (tier : ℕ) → tier < tiers_in level → tier_operator tier (sign_at tokens.now at) ≡ None }
    ensures unasked { IsTrue result → nat_eq (sign_at tokens.now at) 63 ≡ false }
{
    let code = sign_at(tokens, at);
    if code == sign::QUESTION {
        return false;
    }
    match operator_in(level, code) {
        Some(_operator) => false,
        None => true,
    }
}

/// The value of a number, or of two with an operator between them, where the token behind it can't
/// go on with the expression, and the number of that token. None of all else, and where the
/// operator has a fault.
#[inline(never)]
pub fn short(
    tokens: &[Token],
    at: usize,
    depths: usize,
    level: Level,
    value: &mut Value,
) -> Option<usize>
    ensures found { IfSome result (λ next. (set : Settings) → inner tokens.now set (suc depths) (inner_of level) at (Ok (read value.new next))) }
    ensures within { IfSome result (λ next. (at ≤ next) × (next ≤ length tokens.now)) }
{
    let left = plain_at(tokens, at, depths)?;
    if ends(tokens, left.next, level) {
        *value = Value::Float(left.value);
        return Some(left.next);
    }
    let between = operator_in(level, sign_at(tokens, left.next))?;
    let right = plain_at(tokens, left.next + 1, depths)?;
    if !ends(tokens, right.next, level) {
        return None;
    }
    let made = between.operator.of_numbers(left.value, right.value)?;
    *value = Value::Float(made);
    Some(right.next)
}
