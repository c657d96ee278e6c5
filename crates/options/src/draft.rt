// What the words read so far ask for.
ghost use Rattle.std.specs.Prelude.{◌≡◌, ◌≤◌, IfOk};
ghost use Rattle.options.specs.Drafts.{applied, counted, entered, count_named, names_set, clocked, flagged, facted, named, numbered, most_of, IsFitting, IsSound, IsDraft, IsRead};

use crate::fault::{OptionFault, Where};
use crate::plan::Libraries;
use crate::table::{Bits, Clock, Count, Fact, Flag, Name};
use fix_math::{Fix, Str};
use image_out::Sort;
use std::alloc::{AllocError, Global};

/// What the words read so far ask for, besides names.
#[derive(Clone, Copy)]
pub struct Numbers {
    /// How many balls a generated scene has; 0 where the scene is read.
    pub generate: u32,
    pub width: u32,
    pub height: u32,
    pub sort: Sort,
    pub bits: Bits,
    pub smooth: bool,
    pub threshold: Fix,
    pub depth: u32,
    pub resume: bool,
    pub workers: u32,
    pub animated: bool,
    pub clock: Fix,
    pub first: u32,
    pub last: u32,
    pub initial_clock: Fix,
    pub final_clock: Fix,
    pub cyclic: bool,
    pub from: Option<u32>,
    pub to: Option<u32>,
}

/// What the words read so far ask for.
#[derive(Drop)]
pub struct Draft {
    pub input: Str,
    pub output: Str,
    pub libraries: Libraries,
    pub numbers: Numbers,
}

/// What one option sets. A name stands in the option's value.
#[derive(Clone, Copy)]
pub enum Setting {
    Name(Name),
    Count(Count, u32),
    Clock(Clock, Fix),
    Threshold(Fix),
    /// Supersampling on, with this threshold.
    Smooth(Fix),
    Bits(Bits),
    Fact(Fact),
}

/// The greatest number of library paths.
const MOST_LIBRARIES: usize = 16;

fn counted(numbers: &Numbers, count: Count, value: u32) -> Numbers
    requires least { 1 ≤ value }
    requires most { value ≤ most_of count }
    requires sound { IsSound numbers.now }
    ensures value { result ≡ counted numbers.now count value }
    ensures sound { IsSound result }
{
    match count {
        Count::Width => Numbers {
            width: value,
            ..*numbers
        },
        Count::Height => Numbers {
            height: value,
            ..*numbers
        },
        Count::Workers => Numbers {
            workers: value,
            ..*numbers
        },
        Count::First => Numbers {
            first: value,
            animated: true,
            ..*numbers
        },
        Count::Last => Numbers {
            last: value,
            animated: true,
            ..*numbers
        },
        Count::From => Numbers {
            from: Some(value),
            ..*numbers
        },
        Count::To => Numbers {
            to: Some(value),
            ..*numbers
        },
        Count::Objects => Numbers {
            generate: value,
            ..*numbers
        },
        Count::Depth => Numbers {
            depth: value,
            ..*numbers
        },
    }
}

fn clocked(numbers: &Numbers, clock: Clock, value: Fix) -> Numbers
    requires { IsSound numbers.now }
    ensures value { result ≡ clocked numbers.now clock value }
    ensures sound { IsSound result }
{
    match clock {
        Clock::Single => Numbers {
            clock: value,
            ..*numbers
        },
        Clock::Initial => Numbers {
            initial_clock: value,
            ..*numbers
        },
        Clock::Final => Numbers {
            final_clock: value,
            ..*numbers
        },
    }
}

fn flagged(numbers: &Numbers, flag: Flag, value: bool) -> Numbers
    requires { IsSound numbers.now }
    ensures value { result ≡ flagged numbers.now flag value }
    ensures sound { IsSound result }
{
    match flag {
        Flag::Continue => Numbers {
            resume: value,
            ..*numbers
        },
        Flag::Cyclic => Numbers {
            cyclic: value,
            ..*numbers
        },
        Flag::Antialias => Numbers {
            smooth: value,
            ..*numbers
        },
    }
}

fn facted(numbers: &Numbers, fact: Fact) -> Numbers
    requires { IsSound numbers.now }
    ensures value { result ≡ facted numbers.now fact }
    ensures sound { IsSound result }
{
    match fact {
        Fact::Flag(flag, value) => flagged(numbers, flag, value),
        Fact::Sort(sort) => Numbers { sort, ..*numbers },
        Fact::Ppm(bits) => Numbers {
            sort: Sort::Ppm,
            bits,
            ..*numbers
        },
        Fact::Nothing => *numbers,
    }
}

fn entered(numbers: &Numbers, name: Name) -> Numbers
    requires { IsSound numbers.now }
    ensures value { result ≡ entered numbers.now name }
    ensures sound { IsSound result }
{
    match name {
        Name::Input => Numbers {
            generate: 0,
            ..*numbers
        },
        Name::Output => *numbers,
        Name::Library => *numbers,
    }
}

/// Puts a setting in the place of the one before it.
fn numbered(numbers: &Numbers, setting: Setting) -> Numbers
    requires fits { IsFitting setting }
    requires sound { IsSound numbers.now }
    ensures value { result ≡ numbered numbers.now setting }
    ensures sound { IsSound result }
{
    match setting {
        Setting::Name(name) => entered(numbers, name),
        Setting::Count(count, value) => counted(numbers, count, value),
        Setting::Clock(clock, value) => clocked(numbers, clock, value),
        Setting::Threshold(value) => Numbers {
            threshold: value,
            ..*numbers
        },
        Setting::Smooth(value) => Numbers {
            smooth: true,
            threshold: value,
            ..*numbers
        },
        Setting::Bits(bits) => Numbers { bits, ..*numbers },
        Setting::Fact(fact) => facted(numbers, fact),
    }
}

pub fn copied(alloc: Global, bytes: &[u8]) -> Result<Str, AllocError>
    ensures { IfOk result (λ text. text ≡ bytes.now) }
{
    Ok(Str::new(bytes.to_vec(alloc)?))
}

/// Puts a name in the place of the one before it, or behind the library paths before it.
fn named(
    alloc: Global,
    place: Where,
    name: Name,
    value: &[u8],
    draft: Draft,
) -> Result<Draft, OptionFault>
    requires { IsDraft draft }
    ensures { IsRead (named place name value.now draft) result }
{
    let Draft {
        input,
        output,
        libraries,
        numbers,
    } = draft;
    let mut libraries = libraries;
    if matches!(name, Name::Library) && libraries.len() >= MOST_LIBRARIES {
        return Err(OptionFault::Range(place));
    }
    let Ok(copy) = copied(alloc, value) else {
        return Err(OptionFault::NoMemory);
    };
    match name {
        Name::Input => Ok(Draft {
            input: copy,
            output,
            libraries,
            numbers,
        }),
        Name::Output => Ok(Draft {
            input,
            output: copy,
            libraries,
            numbers,
        }),
        Name::Library => match libraries.push(copy) {
            Ok(()) => Ok(Draft {
                input,
                output,
                libraries,
                numbers,
            }),
            Err(_) => Err(OptionFault::NoMemory),
        },
    }
}

/// The name of a generated scene, where this number asks for one.
fn count_named(
    alloc: Global,
    place: Where,
    count: Count,
    draft: Draft,
) -> Result<Draft, OptionFault>
    requires { IsDraft draft }
    ensures { IsRead (count_named place count draft) result }
{
    match count {
        Count::Objects => named(alloc, place, Name::Input, b"generated.pov", draft),
        Count::Width => Ok(draft),
        Count::Height => Ok(draft),
        Count::Workers => Ok(draft),
        Count::First => Ok(draft),
        Count::Last => Ok(draft),
        Count::From => Ok(draft),
        Count::To => Ok(draft),
        Count::Depth => Ok(draft),
    }
}

/// Puts the names that a setting sets in the place of those before it.
fn names_set(
    alloc: Global,
    place: Where,
    setting: &Setting,
    value: &[u8],
    draft: Draft,
) -> Result<Draft, OptionFault>
    requires { IsDraft draft }
    ensures { IsRead (names_set place setting.now value.now draft) result }
{
    match setting {
        Setting::Name(name) => named(alloc, place, *name, value, draft),
        Setting::Count(count, _number) => count_named(alloc, place, *count, draft),
        Setting::Clock(_clock, _value) => Ok(draft),
        Setting::Threshold(_value) => Ok(draft),
        Setting::Smooth(_value) => Ok(draft),
        Setting::Bits(_bits) => Ok(draft),
        Setting::Fact(_fact) => Ok(draft),
    }
}

/// Puts a setting with its value in the place of the one before it.
pub fn apply(
    alloc: Global,
    place: Where,
    setting: Setting,
    value: &[u8],
    draft: Draft,
) -> Result<Draft, OptionFault>
    requires fits { IsFitting setting }
    requires sound { IsDraft draft }
    ensures { IsRead (applied place setting value.now draft) result }
{
    match names_set(alloc, place, &setting, value, draft) {
        Ok(mut next) => {
            next.numbers = numbered(&next.numbers, setting);
            Ok(next)
        }
        Err(fault) => Err(fault),
    }
}
