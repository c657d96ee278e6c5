// Colours: red, green, blue, filter and transmit. (Reference manual, specifying colors)
ghost use Rattle.std.specs.Prelude.{◌≡◌, ◌≢◌, IfErr, ◌≤◌, length, set};
ghost use Rattle.scene_expr.specs.Colours.{
  black,
  kept,
  formed,
  as_colour,
  with_channel,
  along,
  place_of,
  component,
  number_in,
  grouped,
};

use crate::operators::colour_numbers;
use crate::value::{Trouble, Value};
use crate::words::{Axis, Channel, ColourForm, Component};
use fix_math::{Fix, V3};

pub fn black() -> [Fix; 5]
    ensures { result ≡ black }
{
    [Fix(0); 5]
}

/// What the word of a form makes of the value behind it.
pub fn formed(form: ColourForm, value: Value) -> Result<Value, Trouble>
    ensures value { result ≡ formed form value }
    ensures memory { IfErr result (λ trouble. trouble ≢ Trouble.NoMemory) }
{
    match value {
        Value::Float(a) => Ok(Value::Color(kept(form, [a; 5]))),
        Value::Vector(v) => Ok(Value::Color(kept(form, colour_numbers(v)))),
        Value::Color(c) => Ok(Value::Color(kept(form, c))),
        Value::Text(_text) => Err(Trouble::Kind),
    }
}

/// The numbers that the word of a form keeps; `rgbt` takes the fourth for transmit.
fn kept(form: ColourForm, c: [Fix; 5]) -> [Fix; 5]
    ensures { result ≡ kept form c }
{
    match form {
        ColourForm::Rgb => [c[0], c[1], c[2], Fix(0), Fix(0)],
        ColourForm::Rgbf => [c[0], c[1], c[2], c[3], Fix(0)],
        ColourForm::Rgbt => [c[0], c[1], c[2], Fix(0), c[3]],
        ColourForm::Rgbft => c,
    }
}

/// What `color` before a value means.
pub fn as_colour(value: Value) -> Result<Value, Trouble>
    ensures value { result ≡ as_colour value }
    ensures memory { IfErr result (λ trouble. trouble ≢ Trouble.NoMemory) }
{
    match value {
        Value::Float(_number) => Err(Trouble::Kind),
        Value::Vector(v) => Ok(Value::Color(colour_numbers(v))),
        Value::Color(c) => Ok(Value::Color(c)),
        Value::Text(_text) => Err(Trouble::Kind),
    }
}

fn place_of(channel: Channel) -> usize
    ensures value { result ≡ place_of channel }
    ensures within { result ≤ 4 }
{
    match channel {
        Channel::Red => 0,
        Channel::Green => 1,
        Channel::Blue => 2,
        Channel::Filter => 3,
        Channel::Transmit => 4,
    }
}

/// The colour with another number in this place.
pub fn with_channel(colour: [Fix; 5], channel: Channel, value: Value) -> Result<[Fix; 5], Trouble>
    ensures value { result ≡ with_channel colour channel value }
    ensures memory { IfErr result (λ trouble. trouble ≢ Trouble.NoMemory) }
{
    match value {
        Value::Float(a) => Ok(changed(colour, place_of(channel), a)),
        Value::Vector(_vector) => Err(Trouble::Kind),
        Value::Color(_colour) => Err(Trouble::Kind),
        Value::Text(_text) => Err(Trouble::Kind),
    }
}

fn changed(mut colour: [Fix; 5], place: usize, number: Fix) -> [Fix; 5]
    requires { place ≤ 4 }
    ensures { result ≡ set colour place number }
{
    colour[place] = number;
    colour
}

fn along(v: V3, axis: Axis) -> Fix
    ensures { result ≡ along v axis }
{
    match axis {
        Axis::X => v.x,
        Axis::Y => v.y,
        Axis::Z => v.z,
    }
}

/// A component of a vector or of a colour.
pub fn taken(part: Component, value: Value) -> Result<Value, Trouble>
    ensures value { result ≡ component part value }
    ensures memory { IfErr result (λ trouble. trouble ≢ Trouble.NoMemory) }
{
    match part {
        Component::Axis(axis) => taken_along(axis, value),
        Component::Channel(channel) => taken_at(channel, value),
    }
}

fn taken_along(axis: Axis, value: Value) -> Result<Value, Trouble>
    ensures value { result ≡ component (Component.Axis axis) value }
    ensures memory { IfErr result (λ trouble. trouble ≢ Trouble.NoMemory) }
{
    match value {
        Value::Float(_number) => Err(Trouble::Kind),
        Value::Vector(v) => Ok(Value::Float(along(v, axis))),
        Value::Color(_colour) => Err(Trouble::Kind),
        Value::Text(_text) => Err(Trouble::Kind),
    }
}

fn taken_at(channel: Channel, value: Value) -> Result<Value, Trouble>
    ensures value { result ≡ component (Component.Channel channel) value }
    ensures memory { IfErr result (λ trouble. trouble ≢ Trouble.NoMemory) }
{
    match value {
        Value::Float(_number) => Err(Trouble::Kind),
        Value::Vector(_vector) => Err(Trouble::Kind),
        Value::Color(c) => Ok(Value::Float(c[place_of(channel)])),
        Value::Text(_text) => Err(Trouble::Kind),
    }
}

/// The numbers between `<` and `>` as a vector or a colour.
pub fn grouped(values: &[Value]) -> Result<Value, Trouble>
    requires least { 3 ≤ length values.now }
    requires most { length values.now ≤ 5 }
    ensures value { result ≡ grouped values.now }
    ensures memory { IfErr result (λ trouble. trouble ≢ Trouble.NoMemory) }
{
    let x = number_in(&values[0])?;
    let y = number_in(&values[1])?;
    let z = number_in(&values[2])?;
    if values.len() == 3 {
        return Ok(Value::Vector(V3 { x, y, z }));
    }
    let filter = number_in(&values[3])?;
    if values.len() == 4 {
        return Ok(Value::Color([x, y, z, filter, Fix(0)]));
    }
    let transmit = number_in(&values[4])?;
    Ok(Value::Color([x, y, z, filter, transmit]))
}

fn number_in(value: &Value) -> Result<Fix, Trouble>
    ensures value { result ≡ number_in value.now }
    ensures memory { IfErr result (λ trouble. trouble ≢ Trouble.NoMemory) }
{
    match value {
        Value::Float(number) => Ok(*number),
        Value::Vector(_vector) => Err(Trouble::Kind),
        Value::Color(_colour) => Err(Trouble::Kind),
        Value::Text(_text) => Err(Trouble::Kind),
    }
}
