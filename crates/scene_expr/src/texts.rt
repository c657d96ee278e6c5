// The calls of texts. (Reference manual, string functions)
ghost use Rattle.std.specs.Prelude.{◌≡◌, ◌≢◌, ◌-◌, ◌*◌, ◌^◌, ◌≤◌, ◌++◌, length, replicate, pos, IfOk, IfErr, OnOk, Ok, Err, is_some, true};
ghost use Rattle.fix_math.specs.Outcomes.{in_range};
ghost use Rattle.scene_expr.specs.Calls.{joined, on_texts};
ghost use Rattle.scene_expr.specs.Numbers.{natural_of};
ghost use Rattle.scene_expr.specs.Texts.{
  text_value,
  byte_value,
  scaled_to,
  decimals,
  digits_of,
  minus_of,
  number_text,
  spaced,
  str_value,
};

use crate::numbers::natural;
use crate::value::{Trouble, Value};
use fix_math::{Fix, NumFault, Str, rounded};
use itoa::Buffer;
use std::alloc::{AllocError, Global};

// A text has at most so many bytes.
const LIMIT: usize = 65536;

/// How many bytes a text has.
pub fn length(text: &Str) -> Result<Fix, NumFault>
    ensures { result ≡ in_range (pos (length text.now * 65536)) }
{
    Fix::from_raw(text.bytes().len() as i128 * 65536)
}

/// The text of these bytes.
pub fn text(alloc: Global, bytes: &[u8]) -> Result<Value, Trouble>
    ensures value { IfOk result (λ value. text_value bytes.now ≡ Ok value) }
    ensures trouble { IfErr result (λ trouble. trouble ≢ Trouble.NoMemory → text_value bytes.now ≡ Err trouble) }
{
    if bytes.len() > LIMIT {
        return Err(Trouble::Range);
    }
    match Vec::from_slice(alloc, bytes) {
        Ok(copy) => Ok(Value::Text(Str::new(copy))),
        Err(_) => Err(Trouble::NoMemory),
    }
}

/// The text of the bytes of all arguments, one after another.
pub fn concat(alloc: Global, arguments: &[Value]) -> Result<Value, Trouble>
    ensures value { IfOk result (λ value. on_texts text_value (joined arguments.now) ≡ Ok value) }
    ensures trouble { IfErr result (λ trouble. trouble ≢ Trouble.NoMemory → on_texts text_value (joined arguments.now) ≡ Err trouble) }
{
    if !are_texts(arguments) {
        return Err(Trouble::Kind);
    }
    join(alloc, arguments)
}

fn are_texts(arguments: &[Value]) -> bool
    ensures { result ≡ is_some (joined arguments.now) }
{
    for argument in arguments {
        let Value::Text(_) = argument else {
            return false;
        };
    }
    true
}

fn join(alloc: Global, arguments: &[Value]) -> Result<Value, Trouble>
    requires { is_some (joined arguments.now) ≡ true }
    ensures value { IfOk result (λ value. on_texts text_value (joined arguments.now) ≡ Ok value) }
    ensures trouble { IfErr result (λ trouble. trouble ≢ Trouble.NoMemory → on_texts text_value (joined arguments.now) ≡ Err trouble) }
{
    let mut bytes = Vec::new(alloc);
    for argument in arguments {
        let Value::Text(text) = argument else {
            return Err(Trouble::Kind);
        };
        if text.bytes().len() > LIMIT - bytes.len() {
            return Err(Trouble::Range);
        }
        if let Err(_) = bytes.extend_from_slice(text.bytes()) {
            return Err(Trouble::NoMemory);
        }
    }
    Ok(Value::Text(Str::new(bytes)))
}

/// The text of the byte that a number is.
pub fn byte_text(alloc: Global, a: Fix) -> Result<Value, Trouble>
    ensures value { IfOk result (λ value. byte_value (natural_of 255 a) ≡ Ok value) }
    ensures trouble { IfErr result (λ trouble. trouble ≢ Trouble.NoMemory → byte_value (natural_of 255 a) ≡ Err trouble) }
{
    match natural(255, a) {
        Some(byte) => {
            let Ok(bytes) = Vec::from_slice(alloc, [byte as u8].as_slice()) else {
                return Err(Trouble::NoMemory);
            };
            Ok(Value::Text(Str::new(bytes)))
        }
        None => Err(Trouble::Range),
    }
}

// ---- numbers as texts

/// A number as a text of at least so many bytes, with so many decimals.
pub fn written(alloc: Global, a: Fix, width: Fix, places: Fix) -> Result<Value, Trouble>
    ensures value { IfOk result (λ value. str_value a width places ≡ Ok value) }
    ensures trouble { IfErr result (λ trouble. trouble ≢ Trouble.NoMemory → str_value a width places ≡ Err trouble) }
{
    match (natural(64, width), natural(9, places)) {
        (Some(width), Some(places)) => {
            let Ok(bytes) = spaced(alloc, width, a, places) else {
                return Err(Trouble::NoMemory);
            };
            Ok(Value::Text(Str::new(bytes)))
        }
        (Some(_), None) => Err(Trouble::Range),
        (None, _) => Err(Trouble::Range),
    }
}

fn spaced(alloc: Global, width: u32, a: Fix, places: u32) -> Result<Vec<u8>, AllocError>
    requires { places ≤ 9 }
    ensures { IfOk result (λ text. text.items ≡ spaced width (number_text a places)) }
{
    let number = number_text(alloc, a, places)?;
    let mut text = Vec::new(alloc);
    push_padded(&mut text, width, b' ', &number)?;
    Ok(text)
}

fn number_text(alloc: Global, a: Fix, places: u32) -> Result<Vec<u8>, AllocError>
    requires { places ≤ 9 }
    ensures { IfOk result (λ text. text.items ≡ number_text a places) }
{
    let mut text = Vec::new(alloc);
    push_minus(&mut text, a)?;
    push_digits(&mut text, places, scaled(a, places))?;
    Ok(text)
}

fn push_minus(text: &mut Vec<u8>, a: Fix) -> Result<(), AllocError>
    ensures { OnOk result (text.new.items ≡ text.old.items ++ minus_of a) }
{
    if a.raw() < 0 {
        text.extend_from_slice(b"-")?;
    }
    Ok(())
}

fn push_digits(text: &mut Vec<u8>, places: u32, n: u64) -> Result<(), AllocError>
    requires { places ≤ 9 }
    ensures { OnOk result (text.new.items ≡ text.old.items ++ digits_of places n) }
{
    let unit = power_of_ten(places);
    let mut buffer = Buffer::new();
    text.extend_from_slice(buffer.format(n / unit).as_bytes())?;
    push_decimals(text, places, n)?;
    Ok(())
}

fn push_decimals(text: &mut Vec<u8>, places: u32, n: u64) -> Result<(), AllocError>
    requires { places ≤ 9 }
    ensures { OnOk result (text.new.items ≡ text.old.items ++ decimals places n) }
{
    if places == 0 {
        return Ok(());
    }
    text.extend_from_slice(b".")?;
    let mut buffer = Buffer::new();
    let digits = buffer.format(n % power_of_ten(places));
    push_padded(text, places, b'0', digits.as_bytes())?;
    Ok(())
}

// Appends digits, behind so many bytes that they have a width.
fn push_padded(text: &mut Vec<u8>, width: u32, byte: u8, digits: &[u8]) -> Result<(), AllocError>
    ensures { OnOk result (text.new.items ≡ text.old.items ++ (replicate (width - length digits.now) byte ++ digits.now)) }
{
    let missing = (width as usize).saturating_sub(digits.len());
    for _ in 0..missing {
        text.push(byte)?;
    }
    text.extend_from_slice(digits)?;
    Ok(())
}

// The number's size with so many decimals, as a whole number.
fn scaled(a: Fix, places: u32) -> u64
    requires { places ≤ 9 }
    ensures { result ≡ scaled_to places a }
{
    let size = a.raw().unsigned_abs() as i128 * power_of_ten(places) as i128;
    rounded(size, 65536) as u64
}

fn power_of_ten(places: u32) -> u64
    requires { places ≤ 9 }
    ensures value { result ≡ 10 ^ places }
    ensures some { 1 ≤ result }
    ensures small { result ≤ 10 ^ 9 }
{
    10u64.pow(places)
}
