// What calls make of their arguments. (Reference manual, float, vector and string functions)
ghost use Rattle.std.specs.Prelude.{◌≡◌, ◌≢◌, ◌∷◌, [], List, ℕ, ℤ, Result, IfOk, IfErr, Ok, Err, true};
ghost use Rattle.std.specs.Int.{int_min, int_max};
ghost use Rattle.fix_math.specs.declared.fix.V3.{V3};
ghost use Rattle.scene_expr.specs.Calls.{on_float, on_two_floats, on_three_floats, on_vector, on_two_vectors, on_text, on_floats, vector_value, called, makes_text};
ghost use Rattle.scene_expr.specs.Values.{float};

use crate::numbers::{
    ceil, cosine, cut, degrees, floor, power_to, radians, remainder, root, sine, size, tangent,
    whole_quotient,
};
use crate::texts::{byte_text, concat, length as text_length, written};
use crate::value::{Trouble, Value};
use crate::vectors::{cross, dot, length, rotated};
use crate::words::Call;
use fix_math::{Fix, NumFault, Str, V3, unit};
use std::alloc::Global;

/// What a call makes of its arguments. Only a text needs memory.
#[tactic(auto, unfolding(crate::specs::Calls::called))]
pub fn called(alloc: Global, call: Call, arguments: &[Value]) -> Result<Value, Trouble>
    ensures value { IfOk result (λ value. called call arguments.now ≡ Ok value) }
    ensures trouble { IfErr result (λ trouble. trouble ≢ Trouble.NoMemory → called call arguments.now ≡ Err trouble) }
    ensures memory { IfErr result (λ trouble. trouble ≡ Trouble.NoMemory → makes_text call ≡ true) }
{
    match call {
        Call::Abs => Ok(Value::Float(size(one_float(arguments)?))),
        Call::Ceil => float(Fix::from_raw(ceil(one_float(arguments)?))),
        Call::Floor => float(Fix::from_raw(floor(one_float(arguments)?))),
        Call::Int => Ok(Value::Float(cut(one_float(arguments)?))),
        Call::Sqrt => float(root(one_float(arguments)?)),
        Call::Sin => float(sine(one_float(arguments)?)),
        Call::Cos => float(cosine(one_float(arguments)?)),
        Call::Tan => float(tangent(one_float(arguments)?)),
        Call::Radians => float(radians(one_float(arguments)?)),
        Call::Degrees => float(degrees(one_float(arguments)?)),
        Call::Mod => {
            let (a, b) = two_floats(arguments)?;
            float(remainder(a, b))
        }
        Call::Div => {
            let (a, b) = two_floats(arguments)?;
            float(whole_quotient(a, b))
        }
        Call::Pow => {
            let (a, b) = two_floats(arguments)?;
            float(power_to(a, b))
        }
        Call::Min => least(arguments),
        Call::Max => greatest(arguments),
        Call::Vdot => {
            let (v, w) = two_vectors(arguments)?;
            float(dot(&v, &w))
        }
        Call::Vcross => {
            let (v, w) = two_vectors(arguments)?;
            vector(cross(&v, &w))
        }
        Call::Vrotate => {
            let (v, w) = two_vectors(arguments)?;
            vector(rotated(&v, &w))
        }
        Call::Vlength => float(length(&one_vector(arguments)?)),
        Call::Vnormalize => Ok(Value::Vector(unit(one_vector(arguments)?))),
        Call::Strlen => float(text_length(one_text(arguments)?)),
        Call::Concat => concat(alloc, arguments),
        Call::Chr => byte_text(alloc, one_float(arguments)?),
        Call::Str => {
            let (a, width, places) = three_floats(arguments)?;
            written(alloc, a, width, places)
        }
    }
}

fn float(calculated: Result<Fix, NumFault>) -> Result<Value, Trouble>
    ensures value { result ≡ float calculated }
    ensures memory { IfErr result (λ trouble. trouble ≢ Trouble.NoMemory) }
{
    match calculated {
        Ok(a) => Ok(Value::Float(a)),
        Err(fault) => Err(Trouble::of(fault)),
    }
}

fn vector(calculated: Result<V3, NumFault>) -> Result<Value, Trouble>
    ensures value { result ≡ vector_value calculated }
    ensures memory { IfErr result (λ trouble. trouble ≢ Trouble.NoMemory) }
{
    match calculated {
        Ok(v) => Ok(Value::Vector(v)),
        Err(fault) => Err(Trouble::of(fault)),
    }
}

// ---- kinds of arguments

fn one_float(arguments: &[Value]) -> Result<Fix, Trouble>
    ensures ok { IfOk result (λ a. arguments.now ≡ Value.Float a ∷ []) }
    ensures err { IfErr result (λ trouble. (f : ℤ → Result Value Trouble) → on_float f arguments.now ≡ Err trouble) }
    ensures memory { IfErr result (λ trouble. trouble ≢ Trouble.NoMemory) }
{
    match arguments {
        [Value::Float(a)] => Ok(*a),
        _ => Err(Trouble::Kind),
    }
}

fn two_floats(arguments: &[Value]) -> Result<(Fix, Fix), Trouble>
    ensures ok { IfOk result (λ a. arguments.now ≡ Value.Float a.0 ∷ Value.Float a.1 ∷ []) }
    ensures err { IfErr result (λ trouble. (f : ℤ → ℤ → Result Value Trouble) → on_two_floats f arguments.now ≡ Err trouble) }
    ensures memory { IfErr result (λ trouble. trouble ≢ Trouble.NoMemory) }
{
    match arguments {
        [Value::Float(a), Value::Float(b)] => Ok((*a, *b)),
        _ => Err(Trouble::Kind),
    }
}

fn three_floats(arguments: &[Value]) -> Result<(Fix, Fix, Fix), Trouble>
    ensures ok { IfOk result (λ a. arguments.now ≡ Value.Float a.0 ∷ Value.Float a.1 ∷ Value.Float a.2 ∷ []) }
    ensures err { IfErr result (λ trouble. (f : ℤ → ℤ → ℤ → Result Value Trouble) → on_three_floats f arguments.now ≡ Err trouble) }
    ensures memory { IfErr result (λ trouble. trouble ≢ Trouble.NoMemory) }
{
    match arguments {
        [Value::Float(a), Value::Float(b), Value::Float(c)] => Ok((*a, *b, *c)),
        _ => Err(Trouble::Kind),
    }
}

fn one_vector(arguments: &[Value]) -> Result<V3, Trouble>
    ensures ok { IfOk result (λ v. arguments.now ≡ Value.Vector v ∷ []) }
    ensures err { IfErr result (λ trouble. (f : V3 → Result Value Trouble) → on_vector f arguments.now ≡ Err trouble) }
    ensures memory { IfErr result (λ trouble. trouble ≢ Trouble.NoMemory) }
{
    match arguments {
        [Value::Vector(v)] => Ok(*v),
        _ => Err(Trouble::Kind),
    }
}

fn two_vectors(arguments: &[Value]) -> Result<(V3, V3), Trouble>
    ensures ok { IfOk result (λ v. arguments.now ≡ Value.Vector v.0 ∷ Value.Vector v.1 ∷ []) }
    ensures err { IfErr result (λ trouble. (f : V3 → V3 → Result Value Trouble) → on_two_vectors f arguments.now ≡ Err trouble) }
    ensures memory { IfErr result (λ trouble. trouble ≢ Trouble.NoMemory) }
{
    match arguments {
        [Value::Vector(v), Value::Vector(w)] => Ok((*v, *w)),
        _ => Err(Trouble::Kind),
    }
}

fn one_text(arguments: &[Value]) -> Result<&Str, Trouble>
    ensures ok { IfOk result (λ text. arguments.now ≡ Value.Text text.now ∷ []) }
    ensures err { IfErr result (λ trouble. (f : List ℕ → Result Value Trouble) → on_text f arguments.now ≡ Err trouble) }
    ensures memory { IfErr result (λ trouble. trouble ≢ Trouble.NoMemory) }
{
    match arguments {
        [Value::Text(text)] => Ok(text),
        _ => Err(Trouble::Kind),
    }
}

// ---- the least and the greatest

fn least(arguments: &[Value]) -> Result<Value, Trouble>
    ensures value { result ≡ on_floats int_min arguments.now }
    ensures memory { IfErr result (λ trouble. trouble ≢ Trouble.NoMemory) }
{
    let [Value::Float(first), others @ ..] = arguments else {
        return Err(Trouble::Kind);
    };
    let mut least = *first;
    for other in others {
        let Value::Float(a) = other else {
            return Err(Trouble::Kind);
        };
        if a.raw() < least.raw() {
            least = *a;
        }
    }
    Ok(Value::Float(least))
}

fn greatest(arguments: &[Value]) -> Result<Value, Trouble>
    ensures value { result ≡ on_floats int_max arguments.now }
    ensures memory { IfErr result (λ trouble. trouble ≢ Trouble.NoMemory) }
{
    let [Value::Float(first), others @ ..] = arguments else {
        return Err(Trouble::Kind);
    };
    let mut greatest = *first;
    for other in others {
        let Value::Float(a) = other else {
            return Err(Trouble::Kind);
        };
        if a.raw() > greatest.raw() {
            greatest = *a;
        }
    }
    Ok(Value::Float(greatest))
}
