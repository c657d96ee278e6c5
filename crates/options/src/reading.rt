// What the value of an option says. (Reference manual, command-line options and INI files)
ghost use Rattle.std.specs.Prelude.{◌≡◌, ◌≤◌, length, unsigned_abs, nat_le, drop, IfSome};
ghost use Rattle.fix_math.specs.Numbers.{IsInRange};
ghost use Rattle.options.specs.Values.{IsUnsigned};
ghost use Rattle.options.specs.Drafts.{most_of, IsFit, IsRead, IsDraft};
ghost use Rattle.options.specs.Readings.{whole_in, clock_in, threshold_in, smooth_in, truth_in_place, digit_in, letter_in, depth_in, on_in, alone_in, name_in_place, setting_of, taken, switched};

use crate::draft::{Draft, Setting, apply};
use crate::fault::{OptionFault, Where};
use crate::table::{Bits, Clock, Count, Fact, Flag, Name, Reading, switch_of};
use crate::values::{capped_whole, is_whole, signed, truth, unsigned};
use fix_math::Fix;
use image_out::Sort;
use std::alloc::Global;

/// The greatest threshold of supersampling.
const MOST_THRESHOLD: i64 = 3 << 16;

/// The greatest value of a whole number.
fn most(count: Count) -> u32
    ensures { result ≡ most_of count }
{
    match count {
        Count::Width => 8192,
        Count::Height => 8192,
        Count::Workers => 64,
        Count::First => 999_999,
        Count::Last => 999_999,
        Count::From => 999_999,
        Count::To => 999_999,
        Count::Objects => 4096,
        Count::Depth => 9,
    }
}

fn whole(place: Where, count: Count, value: &[u8]) -> Result<Setting, OptionFault>
    ensures value { result ≡ whole_in place count value.now }
    ensures fits { IsFit result }
{
    if !is_whole(value) {
        return Err(OptionFault::BadNumber(place));
    }
    let number = capped_whole(value);
    if 1 <= number && number <= most(count) {
        Ok(Setting::Count(count, number))
    } else {
        Err(OptionFault::Range(place))
    }
}

fn clock(place: Where, clock: Clock, value: Option<Fix>) -> Result<Setting, OptionFault>
    requires { IfSome value IsInRange }
    ensures value { result ≡ clock_in place clock value }
    ensures fits { IsFit result }
{
    match value {
        Some(value) => Ok(Setting::Clock(clock, value)),
        None => Err(OptionFault::BadNumber(place)),
    }
}

fn is_threshold(value: Fix) -> bool
    ensures { result ≡ nat_le (unsigned_abs value) 196608 }
{
    let Fix(raw) = value;
    -MOST_THRESHOLD <= raw && raw <= MOST_THRESHOLD
}

fn threshold(place: Where, value: Option<Fix>) -> Result<Setting, OptionFault>
    requires { IfSome value IsUnsigned }
    ensures value { result ≡ threshold_in place value }
    ensures fits { IsFit result }
{
    match value {
        Some(value) => {
            if is_threshold(value) {
                Ok(Setting::Threshold(value))
            } else {
                Err(OptionFault::Range(place))
            }
        }
        None => Err(OptionFault::BadNumber(place)),
    }
}

fn smooth(place: Where, value: Option<Fix>) -> Result<Setting, OptionFault>
    requires { IfSome value IsUnsigned }
    ensures value { result ≡ smooth_in place value }
    ensures fits { IsFit result }
{
    match value {
        Some(value) => {
            if is_threshold(value) {
                Ok(Setting::Smooth(value))
            } else {
                Err(OptionFault::Range(place))
            }
        }
        None => Err(OptionFault::BadNumber(place)),
    }
}

fn truth_value(place: Where, flag: Flag, value: Option<bool>) -> Result<Setting, OptionFault>
    ensures value { result ≡ truth_in_place place flag value }
    ensures fits { IsFit result }
{
    match value {
        Some(value) => Ok(Setting::Fact(Fact::Flag(flag, value))),
        None => Err(OptionFault::BadNumber(place)),
    }
}

fn digit(place: Where, digit: u8, value: &[u8]) -> Result<Setting, OptionFault>
    ensures value { result ≡ digit_in place digit value.now }
    ensures fits { IsFit result }
{
    match value {
        [only] => {
            if *only == digit {
                Ok(Setting::Fact(Fact::Nothing))
            } else {
                Err(OptionFault::OutOfProfile(place))
            }
        }
        [] => Err(OptionFault::OutOfProfile(place)),
        [_, _, ..] => Err(OptionFault::OutOfProfile(place)),
    }
}

fn letter(place: Where, value: &[u8]) -> Result<Setting, OptionFault>
    ensures value { result ≡ letter_in place value.now }
    ensures fits { IsFit result }
{
    match value {
        [only] => {
            if *only == b'P' {
                Ok(Setting::Fact(Fact::Sort(Sort::Ppm)))
            } else if *only == b'T' {
                Ok(Setting::Fact(Fact::Sort(Sort::Targa)))
            } else if *only == b'C' {
                Ok(Setting::Fact(Fact::Sort(Sort::TargaRle)))
            } else {
                Err(OptionFault::OutOfProfile(place))
            }
        }
        [] => Err(OptionFault::OutOfProfile(place)),
        [_, _, ..] => Err(OptionFault::OutOfProfile(place)),
    }
}

fn depth(place: Where, value: &[u8]) -> Result<Setting, OptionFault>
    ensures value { result ≡ depth_in place value.now }
    ensures fits { IsFit result }
{
    match value {
        [only] => {
            if *only == b'8' {
                Ok(Setting::Bits(Bits::Eight))
            } else {
                Err(OptionFault::OutOfProfile(place))
            }
        }
        [tens, ones] => {
            if *tens == b'1' && *ones == b'6' {
                Ok(Setting::Bits(Bits::Sixteen))
            } else {
                Err(OptionFault::OutOfProfile(place))
            }
        }
        [] => Err(OptionFault::OutOfProfile(place)),
        [_, _, _, ..] => Err(OptionFault::OutOfProfile(place)),
    }
}

fn on(place: Where, value: Option<bool>) -> Result<Setting, OptionFault>
    ensures value { result ≡ on_in place value }
    ensures fits { IsFit result }
{
    match value {
        Some(true) => Ok(Setting::Fact(Fact::Nothing)),
        Some(false) => Err(OptionFault::OutOfProfile(place)),
        None => Err(OptionFault::OutOfProfile(place)),
    }
}

fn alone(place: Where, fact: Fact, value: &[u8]) -> Result<Setting, OptionFault>
    ensures value { result ≡ alone_in place fact value.now }
    ensures fits { IsFit result }
{
    if value.is_empty() {
        Ok(Setting::Fact(fact))
    } else {
        Err(OptionFault::UnknownWord(place))
    }
}

fn name(place: Where, name: Name, value: &[u8]) -> Result<Setting, OptionFault>
    ensures value { result ≡ name_in_place place name value.now }
    ensures fits { IsFit result }
{
    if value.is_empty() {
        Err(OptionFault::Missing(place))
    } else {
        Ok(Setting::Name(name))
    }
}

/// What an option's value says.
fn setting(place: Where, reading: Reading, value: &[u8]) -> Result<Setting, OptionFault>
    ensures value { result ≡ setting_of place reading value.now }
    ensures fits { IsFit result }
{
    match reading {
        Reading::Name(kind) => name(place, kind, value),
        Reading::Count(count) => whole(place, count, value),
        Reading::Clock(kind) => clock(place, kind, signed(value)),
        Reading::Threshold => threshold(place, unsigned(value)),
        Reading::Smooth => {
            if value.is_empty() {
                Ok(Setting::Fact(Fact::Flag(Flag::Antialias, true)))
            } else {
                smooth(place, unsigned(value))
            }
        }
        Reading::Truth(flag) => truth_value(place, flag, truth(value)),
        Reading::Alone(fact) => alone(place, fact, value),
        Reading::Only(only) => digit(place, only, value),
        Reading::Letter => letter(place, value),
        Reading::Depth => depth(place, value),
        Reading::On => on(place, truth(value)),
        Reading::Ignored => Ok(Setting::Fact(Fact::Nothing)),
        Reading::Foreign => Err(OptionFault::OutOfProfile(place)),
    }
}

/// Puts what an option's value says in the place of what was said before.
pub fn take(
    alloc: Global,
    place: Where,
    reading: Reading,
    value: &[u8],
    draft: Draft,
) -> Result<Draft, OptionFault>
    requires { IsDraft draft }
    ensures { IsRead (taken place reading value.now draft) result }
{
    match setting(place, reading, value) {
        Ok(setting) => apply(alloc, place, setting, value, draft),
        Err(fault) => Err(fault),
    }
}

/// The bytes behind so many.
pub fn behind(bytes: &[u8], count: usize) -> &[u8]
    ensures { result.now ≡ drop count bytes.now }
{
    if count < bytes.len() {
        &bytes[count..]
    } else {
        &bytes[bytes.len()..]
    }
}

/// Reads a switch behind its sign.
pub fn switch(
    alloc: Global,
    place: Where,
    is_minus: bool,
    letters: &[u8],
    draft: Draft,
) -> Result<Draft, OptionFault>
    requires { IsDraft draft }
    ensures { IsRead (switched place is_minus letters.now draft) result }
{
    match switch_of(is_minus, letters) {
        Some(found) => take(
            alloc,
            place,
            found.reading,
            behind(letters, found.length),
            draft,
        ),
        None => Err(OptionFault::UnknownWord(place)),
    }
}
