// Expressions with their value or their first fault, by hand from the rules. Numbers are worked out
// with exact whole numbers outside this program, from the formulas.
use crate::{ExprFault, Level, Settings, Value, eval};
use fix_math::Fix;
use scene_lexer::{Place, lex};
use std::alloc::{AllocError, Global};
use std::process::Abort;
use std::test::Fail;

mod classes;
mod limits;
mod numbers;
mod others;
mod rows;

/// A value by its raw numbers or its bytes.
fn shown(alloc: Global, value: &Value) -> Result<String, AllocError> {
    match value {
        Value::Float(number) => {
            let raw = number.raw();
            format!(in alloc; "{raw}")
        }
        Value::Vector(vector) => {
            let x = vector.x.raw();
            let y = vector.y.raw();
            let z = vector.z.raw();
            format!(in alloc; "<{x}, {y}, {z}>")
        }
        Value::Color(colour) => {
            let red = colour[0].raw();
            let green = colour[1].raw();
            let blue = colour[2].raw();
            let filter = colour[3].raw();
            let transmit = colour[4].raw();
            format!(in alloc; "rgbft {red}, {green}, {blue}, {filter}, {transmit}")
        }
        Value::Text(text) => text_shown(alloc, text.bytes()),
    }
}

/// A text, where it is one of UTF-8, else its bytes; of a long one their number alone.
fn text_shown(alloc: Global, bytes: &[u8]) -> Result<String, AllocError> {
    let count = bytes.len();
    if count > 100 {
        return format!(in alloc; "{count} bytes");
    }
    match str::from_utf8(bytes) {
        Ok(text) => format!(in alloc; "'{text}'"),
        Err(_) => format!(in alloc; "{bytes:?}"),
    }
}

/// A fault by its name and place.
fn fault_shown(alloc: Global, name: &str, place: Place) -> Result<String, AllocError> {
    let file = place.file;
    let at = place.at;
    let line = place.line;
    format!(in alloc; "{name} in {file}@{at}:{line}")
}

/// What comes of a text's expression that begins at the token `at`: its value and the number of the
/// token behind it, or its fault.
fn outcome(alloc: Global, text: &[u8], at: usize, level: Level) -> Result<String, AllocError> {
    if text.len() > 200_000 {
        return String::from_str(alloc, "too long for these tables");
    }
    let Ok(tokens) = lex(alloc, 7, text) else {
        return String::from_str(alloc, "no tokens");
    };
    if at > tokens.len() {
        return String::from_str(alloc, "too few tokens");
    }
    let set = Settings {
        clock: Fix(12345),
        initial_clock: Fix(-65536),
        final_clock: Fix(163840),
        frame_number: 3,
        initial_frame: 2,
        final_frame: 2147483647,
        image_width: 320,
        image_height: 240,
    };
    match eval(alloc, tokens.as_slice(), at, level, &set) {
        Ok((value, next)) => {
            let value = shown(alloc, &value)?;
            let value = value.as_str();
            format!(in alloc; "{value} ->{next}")
        }
        Err(ExprFault::Expected(place)) => fault_shown(alloc, "Expected", place),
        Err(ExprFault::UnknownName(place)) => fault_shown(alloc, "UnknownName", place),
        Err(ExprFault::Kind(place)) => fault_shown(alloc, "Kind", place),
        Err(ExprFault::ZeroDivisor(place)) => fault_shown(alloc, "ZeroDivisor", place),
        Err(ExprFault::Range(place)) => fault_shown(alloc, "Range", place),
        Err(ExprFault::NoMemory) => String::from_str(alloc, "no memory"),
    }
}

/// Each text of the table has the outcome beside it.
fn agree(
    rt: &impl Abort,
    alloc: Global,
    level: Level,
    cases: &[(&[u8], &str)],
) -> Result<(), AllocError> {
    for (text, want) in cases {
        let found = outcome(alloc, text, 0, level)?;
        let text = str::from_utf8(text).unwrap_or("?");
        assert_eq!(rt; found.as_str(), *want, "in {text}");
    }
    Ok(())
}

/// Each text of the table has the outcome beside it, from the token on whose number stands before it.
fn agree_from(
    rt: &impl Abort,
    alloc: Global,
    cases: &[(usize, &[u8], &str)],
) -> Result<(), AllocError> {
    for (at, text, want) in cases {
        let found = outcome(alloc, text, *at, Level::Choice)?;
        let text = str::from_utf8(text).unwrap_or("?");
        assert_eq!(rt; found.as_str(), *want, "in {text}");
    }
    Ok(())
}

/// Each sign between each of the pairs is Kind at the sign.
fn refused(
    rt: &impl Abort,
    alloc: Global,
    signs: &[&str],
    pairs: &[(&str, &str)],
) -> Result<(), AllocError> {
    for sign in signs {
        for (left, right) in pairs {
            let text = format!(in alloc; "{left}{sign}{right}")?;
            let found = outcome(alloc, text.as_str().as_bytes(), 0, Level::Choice)?;
            let at = left.len();
            let want = format!(in alloc; "Kind in 7@{at}:1")?;
            assert_eq!(rt; found.as_str(), want.as_str(), "between {left} and {right}");
        }
    }
    Ok(())
}

#[test]
fn expressions_have_their_values(rt: HostRuntime) -> Result<(), Fail> {
    numbers::all(&rt, rt.alloc())?;
    rows::all(&rt, rt.alloc())?;
    others::all(&rt, rt.alloc())?;
    Ok(())
}

#[test]
fn depths_and_lengths_have_their_limits(rt: HostRuntime) -> Result<(), Fail> {
    limits::all(&rt, rt.alloc())?;
    Ok(())
}
