// Expressions, read level by level over one position. (Reference manual, expressions)
// Values are read in place, so that a depth takes little of the stack.
ghost use Rattle.std.specs.Prelude.{◌≡◌, ◌≢◌, ◌≤◌, ◌<◌, ◌+◌, ◌∷◌, ◌++◌, ℕ, suc, nat_eq, length, drop, [], IfOk, IfErr, OnOk, OnErr, IsTrue, true, Ok, Err};
ghost use Rattle.scene_expr.specs.Grammar.{goes_on, made, marked, with_component, inner, inner_of, IsRow, IsOpening, IsBranched, IsBare, IsDotted, IsFactor, IsTier, IsChoice, IsValue};
ghost use Rattle.scene_expr.specs.Grammar.Inner.{Choice, Sum, Factor};
ghost use Rattle.scene_expr.specs.Calls.{called, makes_text};
ghost use Rattle.scene_expr.specs.Colours.{grouped};
ghost use Rattle.scene_expr.specs.Constants.{constant};
ghost use Rattle.scene_expr.specs.Heads.{component_at, head_at, place_at, text_at};
ghost use Rattle.scene_expr.specs.Operators.{applied, chosen};
ghost use Rattle.scene_expr.specs.Memory.{needs_memory};
ghost use Rattle.scene_expr.specs.Steps.{at_depths, read};
ghost use Rattle.scene_expr.specs.Texts.{text_value};
ghost use Rattle.scene_expr.specs.Values.{AreWhole};
ghost use Rattle.scene_expr.specs.declared.heads.Head.{Head};
ghost use Rattle.scene_expr.specs.declared.heads.Opener.{Opener};
ghost use Rattle.scene_expr.specs.declared.value.ExprFault.TheVariants.{NoMemory};

use crate::calls::called;
use crate::colours::{as_colour, black, formed, grouped, taken, with_channel};
use crate::constants::constant;
use crate::heads::{
    Head, Mark, Opener, channel_at, component_at, head_at, passed, place_at, sign_at, text_at,
};
use crate::operators::{Operator, applied, chosen, prefixed, tier_behind, tier_operator};
use crate::short::short;
use crate::texts::text;
use crate::value::{ExprFault, Level, Settings, Trouble, Value};
use crate::words::{Arity, Call, Constant};
use scene_lexer::{Token, sign};
use smallvec::SmallVec;
use std::alloc::Global;
use std::mem::take;

/// A token stands in at most so many brackets, calls, colours, choices and signs.
const MOST_DEPTHS: usize = 128;

/// Between `<` and `>` stand three to five numbers.
const ANGLE: Arity = Arity {
    least: 3,
    most: Some(5),
};

// ---- what is made of values, in place of one of them

/// Puts the value in its place, or answers the fault of the operator or call that stands here.
fn settle(
    tokens: &[Token],
    outcome: Result<Value, Trouble>,
    at: usize,
    value: &mut Value,
) -> Result<(), ExprFault>
    ensures ok { OnOk result ((next : ℕ) → made (outcome) (place_at tokens.now at) next ≡ Ok (read value.new next)) }
    ensures fault { IfErr result (λ f. (next : ℕ) → made (outcome) (place_at tokens.now at) next ≡ Err f) }
    ensures memory { IfErr result (λ f. f ≡ NoMemory → outcome ≡ Err Trouble.NoMemory) }
{
    match outcome {
        Ok(made) => {
            *value = made;
            Ok(())
        }
        Err(trouble) => Err(trouble.at(place_at(tokens, at))),
    }
}

/// What an operator makes of its two sides.
#[inline(never)]
fn operate(
    tokens: &[Token],
    operator: Operator,
    value: &mut Value,
    at: usize,
    right: &mut Value,
) -> Result<(), ExprFault>
    ensures ok { OnOk result ((next : ℕ) → made (applied operator value.old right.old) (place_at tokens.now at) next ≡ Ok (read value.new next)) }
    ensures fault { IfErr result (λ f. (next : ℕ) → made (applied operator value.old right.old) (place_at tokens.now at) next ≡ Err f) }
    ensures memory { IfErr result (λ f. f ≢ NoMemory) }
{
    let outcome = applied(operator, take(value), take(right));
    settle(tokens, outcome, at, value)
}

/// The second or the third part of a choice.
#[inline(never)]
fn choose(
    tokens: &[Token],
    condition: &mut Value,
    value: &mut Value,
    at: usize,
    second: &mut Value,
) -> Result<(), ExprFault>
    ensures ok { OnOk result ((next : ℕ) → made (chosen condition.old value.old second.old) (place_at tokens.now at) next ≡ Ok (read value.new next)) }
    ensures fault { IfErr result (λ f. (next : ℕ) → made (chosen condition.old value.old second.old) (place_at tokens.now at) next ≡ Err f) }
    ensures memory { IfErr result (λ f. f ≢ NoMemory) }
{
    let outcome = chosen(take(condition), take(value), take(second));
    settle(tokens, outcome, at, value)
}

fn marked(mark: Mark, value: Value) -> Result<Value, Trouble>
    ensures value { result ≡ marked mark value }
    ensures memory { IfErr result (λ trouble. trouble ≢ Trouble.NoMemory) }
{
    match mark {
        Mark::Sign(sign) => prefixed(sign, value),
        Mark::Colour => as_colour(value),
        Mark::Form(form) => formed(form, value),
    }
}

/// What a sign or a colour word makes of the factor behind it.
#[inline(never)]
fn mark_in(tokens: &[Token], mark: Mark, at: usize, value: &mut Value) -> Result<(), ExprFault>
    ensures ok { OnOk result ((next : ℕ) → made (marked mark value.old) (place_at tokens.now at) next ≡ Ok (read value.new next)) }
    ensures fault { IfErr result (λ f. (next : ℕ) → made (marked mark value.old) (place_at tokens.now at) next ≡ Err f) }
    ensures memory { IfErr result (λ f. f ≢ NoMemory) }
{
    let outcome = marked(mark, take(value));
    settle(tokens, outcome, at, value)
}

/// What `<` and `>` make of the numbers between them.
#[inline(never)]
fn group_in(
    tokens: &[Token],
    numbers: &[Value],
    at: usize,
    value: &mut Value,
) -> Result<(), ExprFault>
    requires least { 3 ≤ length numbers.now }
    requires most { length numbers.now ≤ 5 }
    ensures ok { OnOk result ((next : ℕ) → made (grouped numbers.now) (place_at tokens.now at) next ≡ Ok (read value.new next)) }
    ensures fault { IfErr result (λ f. (next : ℕ) → made (grouped numbers.now) (place_at tokens.now at) next ≡ Err f) }
    ensures memory { IfErr result (λ f. f ≢ NoMemory) }
{
    settle(tokens, grouped(numbers), at, value)
}

/// What a call makes of its arguments.
#[inline(never)]
fn call_in(
    alloc: Global,
    tokens: &[Token],
    call: Call,
    arguments: &[Value],
    at: usize,
    value: &mut Value,
) -> Result<(), ExprFault>
    ensures ok { OnOk result ((next : ℕ) → made (called call arguments.now) (place_at tokens.now at) next ≡ Ok (read value.new next)) }
    ensures fault { IfErr result (λ f. f ≢ NoMemory → (next : ℕ) → made (called call arguments.now) (place_at tokens.now at) next ≡ Err f) }
    ensures memory { IfErr result (λ f. f ≡ NoMemory → makes_text call ≡ true) }
{
    settle(tokens, called(alloc, call, arguments), at, value)
}

/// The value that a word stands for.
#[inline(never)]
fn constant_in(word: Constant, set: &Settings, value: &mut Value)
    requires { AreWhole set.now }
    ensures { value.new ≡ constant word set.now }
{
    *value = constant(word, set);
}

/// The text that stands here, as a value.
#[inline(never)]
fn literal(alloc: Global, tokens: &[Token], at: usize, value: &mut Value) -> Result<(), ExprFault>
    ensures ok { OnOk result ((next : ℕ) → made (text_value (text_at tokens.now at)) (place_at tokens.now at) next ≡ Ok (read value.new next)) }
    ensures fault { IfErr result (λ f. f ≢ NoMemory → (next : ℕ) → made (text_value (text_at tokens.now at)) (place_at tokens.now at) next ≡ Err f) }
{
    settle(tokens, text(alloc, text_at(tokens, at)), at, value)
}

/// Whether a comma and a further part follow.
fn goes_on(tokens: &[Token], arity: Arity, count: usize, at: usize) -> Result<bool, ExprFault>
    ensures value { result ≡ goes_on arity count tokens.now at }
    ensures within { IfOk result (λ more. IsTrue more → at < length tokens.now) }
    ensures memory { IfErr result (λ f. f ≢ NoMemory) }
{
    let may = match arity.most {
        Some(most) => count < most,
        None => true,
    };
    if may && sign_at(tokens, at) == sign::COMMA {
        Ok(true)
    } else if count < arity.least {
        Err(ExprFault::Expected(place_at(tokens, at)))
    } else {
        Ok(false)
    }
}

/// The component behind a dot.
#[inline(never)]
fn with_component(tokens: &[Token], at: usize, value: &mut Value) -> Result<(), ExprFault>
    requires { at < length tokens.now }
    ensures ok { OnOk result (with_component tokens.now (read value.old at) (component_at tokens.now (at + 1)) ≡ Ok (read value.new (at + 2))) }
    ensures fault { IfErr result (λ f. with_component tokens.now (read value.old at) (component_at tokens.now (at + 1)) ≡ Err f) }
    ensures memory { IfErr result (λ f. f ≢ NoMemory) }
    ensures within { OnOk result (at + 2 ≤ length tokens.now) }
{
    match component_at(tokens, at + 1) {
        Some(part) => {
            let outcome = taken(part, take(value));
            settle(tokens, outcome, at, value)
        }
        None => Err(ExprFault::Expected(place_at(tokens, at + 1))),
    }
}

/// A value with the dots behind it.
fn dotted(tokens: &[Token], at: usize, value: &mut Value) -> Result<usize, ExprFault>
    requires { at ≤ length tokens.now }
    ensures found { IfOk result (λ next. IsDotted tokens.now (read value.old at) (Ok (read value.new next))) }
    ensures fault { IfErr result (λ f. IsDotted tokens.now (read value.old at) (Err f)) }
    ensures memory { IfErr result (λ f. f ≢ NoMemory) }
    ensures within { IfOk result (λ next. (at ≤ next) × (next ≤ length tokens.now)) }
{
    let mut next = at;
    'dots: while sign_at(tokens, next) == sign::DOT {
        with_component(tokens, next, value)?;
        next += 2;
    }
    Ok(next)
}

// ---- what opens a depth: inside it so many depths are left

/// A sign or a colour word, and the factor behind it.
#[cycle(levels)]
#[inline(never)]
fn marked_at(
    alloc: Global,
    tokens: &[Token],
    set: &Settings,
    mark: Mark,
    at: usize,
    depths: usize,
    value: &mut Value,
) -> Result<usize, ExprFault>
    requires within { at < length tokens.now }
    requires whole { AreWhole set.now }
    ensures found { IfOk result (λ next. IsOpening tokens.now (inner tokens.now set.now (suc depths)) (Opener.Mark mark) at (Ok (read value.new next))) }
    ensures fault { IfErr result (λ f. f ≢ NoMemory → IsOpening tokens.now (inner tokens.now set.now (suc depths)) (Opener.Mark mark) at (Err f)) }
    ensures memory { IfErr result (λ f. f ≡ NoMemory → IsTrue (needs_memory (drop at tokens.now))) }
    ensures within { IfOk result (λ next. (at ≤ next) × (next ≤ length tokens.now)) }
{
    let next = factor(alloc, tokens, set, at + 1, depths, value)?;
    mark_in(tokens, mark, at, value)?;
    Ok(next)
}

/// An expression in brackets.
#[cycle(levels)]
#[inline(never)]
fn bracketed(
    alloc: Global,
    tokens: &[Token],
    set: &Settings,
    at: usize,
    depths: usize,
    value: &mut Value,
) -> Result<usize, ExprFault>
    requires within { at < length tokens.now }
    requires whole { AreWhole set.now }
    ensures found { IfOk result (λ next. IsOpening tokens.now (inner tokens.now set.now (suc depths)) Opener.Bracket at (Ok (read value.new next))) }
    ensures fault { IfErr result (λ f. f ≢ NoMemory → IsOpening tokens.now (inner tokens.now set.now (suc depths)) Opener.Bracket at (Err f)) }
    ensures memory { IfErr result (λ f. f ≡ NoMemory → IsTrue (needs_memory (drop at tokens.now))) }
    ensures within { IfOk result (λ next. (at ≤ next) × (next ≤ length tokens.now)) }
{
    let inside = choice(alloc, tokens, set, at + 1, depths, value)?;
    let next = passed(sign::CLOSE_BRACKET, tokens, inside)?;
    Ok(next)
}

/// The numbers behind `<`, and the vector or colour that they make before `>`.
#[cycle(levels)]
#[inline(always)]
fn numbers(
    alloc: Global,
    tokens: &[Token],
    set: &Settings,
    at: usize,
    depths: usize,
    values: &mut SmallVec<Value, 5>,
    value: &mut Value,
) -> Result<usize, ExprFault>
    requires within { at < length tokens.now }
    requires whole { AreWhole set.now }
    requires empty { values.old.items ≡ [] }
    requires room { 5 ≤ values.old.capacity }
    ensures found { IfOk result (λ next. IsOpening tokens.now (inner tokens.now set.now (suc depths)) Opener.Angle at (Ok (read value.new next))) }
    ensures fault { IfErr result (λ f. f ≢ NoMemory → IsOpening tokens.now (inner tokens.now set.now (suc depths)) Opener.Angle at (Err f)) }
    ensures memory { IfErr result (λ f. f ≡ NoMemory → IsTrue (needs_memory (drop at tokens.now))) }
    ensures within { IfOk result (λ next. (at ≤ next) × (next ≤ length tokens.now)) }
{
    let end = row(
        alloc,
        tokens,
        set,
        at + 1,
        depths,
        Level::Sum,
        ANGLE,
        values,
        value,
    )?;
    let next = passed(sign::GREATER, tokens, end)?;
    group_in(tokens, values.as_slice(), at, value)?;
    Ok(next)
}

/// The numbers between `<` and `>`. What it holds is dropped at one place, which keeps its frame small.
#[cycle(levels)]
#[inline(never)]
fn grouped_at(
    alloc: Global,
    tokens: &[Token],
    set: &Settings,
    at: usize,
    depths: usize,
    value: &mut Value,
) -> Result<usize, ExprFault>
    requires within { at < length tokens.now }
    requires whole { AreWhole set.now }
    ensures found { IfOk result (λ next. IsOpening tokens.now (inner tokens.now set.now (suc depths)) Opener.Angle at (Ok (read value.new next))) }
    ensures fault { IfErr result (λ f. f ≢ NoMemory → IsOpening tokens.now (inner tokens.now set.now (suc depths)) Opener.Angle at (Err f)) }
    ensures memory { IfErr result (λ f. f ≡ NoMemory → IsTrue (needs_memory (drop at tokens.now))) }
    ensures within { IfOk result (λ next. (at ≤ next) × (next ≤ length tokens.now)) }
{
    let mut values = SmallVec::new(alloc);
    numbers(alloc, tokens, set, at, depths, &mut values, value)
}

/// The arguments in the brackets behind a call, and what the call makes of them.
#[cycle(levels)]
#[inline(always)]
fn arguments(
    alloc: Global,
    tokens: &[Token],
    set: &Settings,
    call: Call,
    at: usize,
    depths: usize,
    values: &mut SmallVec<Value, 5>,
    value: &mut Value,
) -> Result<usize, ExprFault>
    requires within { at < length tokens.now }
    requires head { head_at tokens.now at ≡ Head.Opener (Opener.Call call) }
    requires whole { AreWhole set.now }
    requires empty { values.old.items ≡ [] }
    requires room { 5 ≤ values.old.capacity }
    ensures found { IfOk result (λ next. IsOpening tokens.now (inner tokens.now set.now (suc depths)) (Opener.Call call) at (Ok (read value.new next))) }
    ensures fault { IfErr result (λ f. f ≢ NoMemory → IsOpening tokens.now (inner tokens.now set.now (suc depths)) (Opener.Call call) at (Err f)) }
    ensures memory { IfErr result (λ f. f ≡ NoMemory → IsTrue (needs_memory (drop at tokens.now))) }
    ensures within { IfOk result (λ next. (at ≤ next) × (next ≤ length tokens.now)) }
{
    let start = passed(sign::OPEN_BRACKET, tokens, at + 1)?;
    let end = row(
        alloc,
        tokens,
        set,
        start,
        depths,
        Level::Choice,
        call.arity(),
        values,
        value,
    )?;
    let next = passed(sign::CLOSE_BRACKET, tokens, end)?;
    call_in(alloc, tokens, call, values.as_slice(), at, value)?;
    Ok(next)
}

/// A call with its arguments. What it holds is dropped at one place, which keeps its frame small.
#[cycle(levels)]
#[inline(never)]
fn called_at(
    alloc: Global,
    tokens: &[Token],
    set: &Settings,
    call: Call,
    at: usize,
    depths: usize,
    value: &mut Value,
) -> Result<usize, ExprFault>
    requires within { at < length tokens.now }
    requires head { head_at tokens.now at ≡ Head.Opener (Opener.Call call) }
    requires whole { AreWhole set.now }
    ensures found { IfOk result (λ next. IsOpening tokens.now (inner tokens.now set.now (suc depths)) (Opener.Call call) at (Ok (read value.new next))) }
    ensures fault { IfErr result (λ f. f ≢ NoMemory → IsOpening tokens.now (inner tokens.now set.now (suc depths)) (Opener.Call call) at (Err f)) }
    ensures memory { IfErr result (λ f. f ≡ NoMemory → IsTrue (needs_memory (drop at tokens.now))) }
    ensures within { IfOk result (λ next. (at ≤ next) × (next ≤ length tokens.now)) }
{
    let mut values = SmallVec::new(alloc);
    arguments(alloc, tokens, set, call, at, depths, &mut values, value)
}

/// The numbers of a colour, each behind its word.
#[cycle(levels)]
#[inline(never)]
fn channels(
    alloc: Global,
    tokens: &[Token],
    set: &Settings,
    at: usize,
    depths: usize,
    value: &mut Value,
) -> Result<usize, ExprFault>
    requires within { at ≤ length tokens.now }
    requires whole { AreWhole set.now }
    ensures found { IfOk result (λ next. IsOpening tokens.now (inner tokens.now set.now (suc depths)) Opener.Channels at (Ok (read value.new next))) }
    ensures fault { IfErr result (λ f. f ≢ NoMemory → IsOpening tokens.now (inner tokens.now set.now (suc depths)) Opener.Channels at (Err f)) }
    ensures memory { IfErr result (λ f. f ≡ NoMemory → IsTrue (needs_memory (drop at tokens.now))) }
    ensures within { IfOk result (λ next. (at ≤ next) × (next ≤ length tokens.now)) }
{
    let mut colour = black();
    let mut next = at;
    'numbers: while let Some(channel) = channel_at(tokens, next) {
        let end = level(alloc, tokens, set, next + 1, depths, SUM, value)?;
        colour = match with_channel(colour, channel, take(value)) {
            Ok(more) => more,
            Err(trouble) => return Err(trouble.at(place_at(tokens, next))),
        };
        next = end;
    }
    *value = Value::Color(colour);
    Ok(next)
}

/// What a token begins that opens a depth.
#[cycle(levels)]
fn opened(
    alloc: Global,
    tokens: &[Token],
    set: &Settings,
    opener: Opener,
    at: usize,
    depths: usize,
    value: &mut Value,
) -> Result<usize, ExprFault>
    requires within { at < length tokens.now }
    requires head { head_at tokens.now at ≡ Head.Opener opener }
    requires whole { AreWhole set.now }
    ensures found { IfOk result (λ next. IsOpening tokens.now (inner tokens.now set.now (suc depths)) opener at (Ok (read value.new next))) }
    ensures fault { IfErr result (λ f. f ≢ NoMemory → IsOpening tokens.now (inner tokens.now set.now (suc depths)) opener at (Err f)) }
    ensures memory { IfErr result (λ f. f ≡ NoMemory → IsTrue (needs_memory (drop at tokens.now))) }
    ensures within { IfOk result (λ next. (at ≤ next) × (next ≤ length tokens.now)) }
{
    match opener {
        Opener::Mark(mark) => marked_at(alloc, tokens, set, mark, at, depths, value),
        Opener::Bracket => bracketed(alloc, tokens, set, at, depths, value),
        Opener::Angle => grouped_at(alloc, tokens, set, at, depths, value),
        Opener::Call(call) => called_at(alloc, tokens, set, call, at, depths, value),
        Opener::Channels => channels(alloc, tokens, set, at, depths, value),
    }
}

/// Adds a part to those that stand before it.
#[inline(never)]
fn push(values: &mut SmallVec<Value, 5>, value: &mut Value) -> Result<(), ExprFault>
    requires room { 5 ≤ values.old.capacity }
    ensures ok { OnOk result (values.new.items ≡ values.old.items ++ value.old ∷ []) }
    ensures fault { IfErr result (λ f. f ≡ NoMemory) }
    ensures memory { OnErr result (5 ≤ length values.old.items) }
    ensures room { 5 ≤ values.new.capacity }
{
    if values.push(take(value)).is_err() {
        return Err(ExprFault::NoMemory);
    }
    Ok(())
}

/// Parts divided by commas, behind a token that opened a depth: so many are left there. Each is read
/// in the place of `value`.
#[cycle(levels)]
#[inline(always)]
fn row(
    alloc: Global,
    tokens: &[Token],
    set: &Settings,
    at: usize,
    depths: usize,
    level: Level,
    arity: Arity,
    values: &mut SmallVec<Value, 5>,
    value: &mut Value,
) -> Result<usize, ExprFault>
    requires within { at ≤ length tokens.now }
    requires whole { AreWhole set.now }
    requires empty { values.old.items ≡ [] }
    requires room { 5 ≤ values.old.capacity }
    ensures found { IfOk result (λ next. IsRow tokens.now (inner tokens.now set.now (suc depths) (inner_of level)) arity [] at (Ok (record { values = values.new.items; next = next }))) }
    ensures fault { IfErr result (λ f. f ≢ NoMemory → IsRow tokens.now (inner tokens.now set.now (suc depths) (inner_of level)) arity [] at (Err f)) }
    ensures memory { IfErr result (λ f. f ≡ NoMemory → IsTrue (needs_memory (drop at tokens.now))) }
    ensures within { IfOk result (λ next. (at ≤ next) × (next ≤ length tokens.now)) }
{
    let mut next = at;
    'parts: loop {
        let end = part(alloc, tokens, set, next, depths, level, value)?;
        push(values, value)?;
        let count = values.as_slice().len();
        if !goes_on(tokens, arity, count, end)? {
            return Ok(end);
        }
        next = end + 1;
    }
}

// ---- the levels

/// What a factor is without the dots behind it.
#[cycle(levels)]
fn bare(
    alloc: Global,
    tokens: &[Token],
    set: &Settings,
    at: usize,
    depths: usize,
    value: &mut Value,
) -> Result<usize, ExprFault>
    requires within { at ≤ length tokens.now }
    requires whole { AreWhole set.now }
    ensures found { IfOk result (λ next. IsBare tokens.now set.now (nat_eq depths 0) (inner tokens.now set.now depths) (head_at tokens.now at) at (Ok (read value.new next))) }
    ensures fault { IfErr result (λ f. f ≢ NoMemory → IsBare tokens.now set.now (nat_eq depths 0) (inner tokens.now set.now depths) (head_at tokens.now at) at (Err f)) }
    ensures memory { IfErr result (λ f. f ≡ NoMemory → IsTrue (needs_memory (drop at tokens.now))) }
    ensures within { IfOk result (λ next. (at ≤ next) × (next ≤ length tokens.now)) }
{
    match head_at(tokens, at) {
        Head::Number(number) => {
            *value = Value::Float(number);
            Ok(at + 1)
        }
        Head::Text => {
            literal(alloc, tokens, at, value)?;
            Ok(at + 1)
        }
        Head::Constant(word) => {
            constant_in(word, set, value);
            Ok(at + 1)
        }
        Head::Opener(opener) => {
            if depths == 0 {
                return Err(ExprFault::Range(place_at(tokens, at)));
            }
            opened(alloc, tokens, set, opener, at, depths - 1, value)
        }
        Head::Unknown => Err(ExprFault::UnknownName(place_at(tokens, at))),
        Head::Nothing => Err(ExprFault::Expected(place_at(tokens, at))),
    }
}

/// A sign before a factor, or a primary with its components.
#[cycle(levels)]
fn factor(
    alloc: Global,
    tokens: &[Token],
    set: &Settings,
    at: usize,
    depths: usize,
    value: &mut Value,
) -> Result<usize, ExprFault>
    requires within { at ≤ length tokens.now }
    requires whole { AreWhole set.now }
    ensures found { IfOk result (λ next. at_depths IsFactor tokens.now set.now depths at (Ok (read value.new next))) }
    ensures fault { IfErr result (λ f. f ≢ NoMemory → at_depths IsFactor tokens.now set.now depths at (Err f)) }
    ensures memory { IfErr result (λ f. f ≡ NoMemory → IsTrue (needs_memory (drop at tokens.now))) }
    ensures within { IfOk result (λ next. (at ≤ next) × (next ≤ length tokens.now)) }
{
    let end = bare(alloc, tokens, set, at, depths, value)?;
    dotted(tokens, end, value)
}

/// How many tiers of operators a sum has.
const SUM: usize = 2;

/// How many there are.
const ALL: usize = 4;

/// A factor, or operands with so many tiers of operators between them.
#[cycle(levels)]
fn level(
    alloc: Global,
    tokens: &[Token],
    set: &Settings,
    at: usize,
    depths: usize,
    tiers: usize,
    value: &mut Value,
) -> Result<usize, ExprFault>
    requires within { at ≤ length tokens.now }
    requires tiers { tiers ≤ 4 }
    requires whole { AreWhole set.now }
    ensures found { IfOk result (λ next. at_depths (IsTier tiers) tokens.now set.now depths at (Ok (read value.new next))) }
    ensures fault { IfErr result (λ f. f ≢ NoMemory → at_depths (IsTier tiers) tokens.now set.now depths at (Err f)) }
    ensures memory { IfErr result (λ f. f ≡ NoMemory → IsTrue (needs_memory (drop at tokens.now))) }
    ensures within { IfOk result (λ next. (at ≤ next) × (next ≤ length tokens.now)) }
{
    let mut next = factor(alloc, tokens, set, at, depths, value)?;
    let mut tier = 0;
    'operators: while tier < tiers {
        match tier_operator(tier, sign_at(tokens, next)) {
            None => {
                tier += 1;
            }
            Some(operator) => {
                let mut right = Value::default();
                let end = level(alloc, tokens, set, next + 1, depths, tier, &mut right)?;
                operate(tokens, operator, value, next, &mut right)?;
                next = end;
                tier = tier_behind(tier);
            }
        }
    }
    Ok(next)
}

/// The second and the third part of a choice, behind its condition and the question mark.
#[cycle(levels)]
#[inline(never)]
fn branched(
    alloc: Global,
    tokens: &[Token],
    set: &Settings,
    at: usize,
    depths: usize,
    value: &mut Value,
) -> Result<usize, ExprFault>
    requires within { at < length tokens.now }
    requires whole { AreWhole set.now }
    ensures found { IfOk result (λ next. IsBranched tokens.now (inner tokens.now set.now (suc depths) Choice) (read value.old at) (Ok (read value.new next))) }
    ensures fault { IfErr result (λ f. f ≢ NoMemory → IsBranched tokens.now (inner tokens.now set.now (suc depths) Choice) (read value.old at) (Err f)) }
    ensures memory { IfErr result (λ f. f ≡ NoMemory → IsTrue (needs_memory (drop at tokens.now))) }
    ensures within { IfOk result (λ next. (at ≤ next) × (next ≤ length tokens.now)) }
{
    let mut condition = take(value);
    let end = choice(alloc, tokens, set, at + 1, depths, value)?;
    let start = passed(sign::COLON, tokens, end)?;
    let mut second = Value::default();
    let next = choice(alloc, tokens, set, start, depths, &mut second)?;
    choose(tokens, &mut condition, value, at, &mut second)?;
    Ok(next)
}

/// A condition alone, or with the two parts of a choice.
#[cycle(levels)]
fn choice(
    alloc: Global,
    tokens: &[Token],
    set: &Settings,
    at: usize,
    depths: usize,
    value: &mut Value,
) -> Result<usize, ExprFault>
    requires within { at ≤ length tokens.now }
    requires whole { AreWhole set.now }
    ensures found { IfOk result (λ next. at_depths IsChoice tokens.now set.now depths at (Ok (read value.new next))) }
    ensures fault { IfErr result (λ f. f ≢ NoMemory → at_depths IsChoice tokens.now set.now depths at (Err f)) }
    ensures memory { IfErr result (λ f. f ≡ NoMemory → IsTrue (needs_memory (drop at tokens.now))) }
    ensures within { IfOk result (λ next. (at ≤ next) × (next ≤ length tokens.now)) }
{
    let asked = level(alloc, tokens, set, at, depths, ALL, value)?;
    if sign_at(tokens, asked) != sign::QUESTION {
        return Ok(asked);
    }
    if depths == 0 {
        return Err(ExprFault::Range(place_at(tokens, asked)));
    }
    let next = branched(alloc, tokens, set, asked, depths - 1, value)?;
    Ok(next)
}

/// A part of a row, at its level.
#[cycle(levels)]
fn part(
    alloc: Global,
    tokens: &[Token],
    set: &Settings,
    at: usize,
    depths: usize,
    part_level: Level,
    value: &mut Value,
) -> Result<usize, ExprFault>
    requires within { at ≤ length tokens.now }
    requires whole { AreWhole set.now }
    ensures found { IfOk result (λ next. inner tokens.now set.now (suc depths) (inner_of part_level) at (Ok (read value.new next))) }
    ensures fault { IfErr result (λ f. f ≢ NoMemory → inner tokens.now set.now (suc depths) (inner_of part_level) at (Err f)) }
    ensures memory { IfErr result (λ f. f ≡ NoMemory → IsTrue (needs_memory (drop at tokens.now))) }
    ensures within { IfOk result (λ next. (at ≤ next) × (next ≤ length tokens.now)) }
{
    if let Some(next) = short(tokens, at, depths, part_level, value) {
        return Ok(next);
    }
    match part_level {
        Level::Choice => choice(alloc, tokens, set, at, depths, value),
        Level::Sum => level(alloc, tokens, set, at, depths, SUM, value),
    }
}

/// The value of the longest expression of a level that begins at the token `at`, and the number of
/// the token behind it, or the first fault. The position only goes forward, and no token is copied.
/// Only a text, or a sixth part of a row, takes memory.
pub fn eval(
    alloc: Global,
    tokens: &[Token],
    at: usize,
    level: Level,
    set: &Settings,
) -> Result<(Value, usize), ExprFault>
    requires within { at ≤ length tokens.now }
    requires whole { AreWhole set.now }
    ensures found { IfOk result (λ found. IsValue tokens.now set.now level at (Ok (record { value = found.0; next = found.1 }))) }
    ensures fault { IfErr result (λ f. f ≢ NoMemory → IsValue tokens.now set.now level at (Err f)) }
    ensures memory { IfErr result (λ f. f ≡ NoMemory → IsTrue (needs_memory (drop at tokens.now))) }
    ensures within { IfOk result (λ found. (at ≤ found.1) × (found.1 ≤ length tokens.now)) }
{
    let mut value = Value::default();
    let next = part(alloc, tokens, set, at, MOST_DEPTHS, level, &mut value)?;
    Ok((value, next))
}
