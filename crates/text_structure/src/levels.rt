// Which directives of a text stand in which, and the first that stands where it can't.
ghost use Rattle.std.specs.Prelude.{ℕ, List, Result, ◌≡◌, ◌≢◌, ◌<◌, ◌≤◌, ◌^◌, [], length, slice_get, Ok, Err, IfOk, IfErr, OnOk, Some, None};
ghost use Rattle.text_structure.specs.Levels.{leftmost, opener_of, level_of, innermost, may_part, may_choose, may_stand, is_breakable, closed_by, behind, further_open, left_open, structure};

use crate::closer::directive_at;
use crate::mark::{Directive, Mark};
use std::alloc::{AllocError, Global};

/// What kind of directive is open.
#[derive(Clone, Copy, Debug, PartialEq, Eq)]
pub enum Opener {
    /// `#if`, `#ifdef` and `#ifndef`.
    If,
    Switch,
    /// `#while` and `#for`.
    Loop,
    Macro,
}

/// A directive that is open.
#[derive(Clone, Copy, Debug, PartialEq, Eq)]
pub struct Level {
    /// The place of its `#`.
    pub at: usize,
    pub opener: Opener,
    /// Its `#else` came.
    pub parted: bool,
    /// A `#break` in it ends a switch or loop of the same text or macro.
    pub breakable: bool,
}

/// Why the directives of a text don't nest.
#[derive(Clone, Copy, Debug, PartialEq, Eq)]
pub enum Misplaced {
    /// The directive at a place can't stand there.
    Stray(usize),
    /// The directive at a place has no `#end`.
    NoEnd(usize),
    NoMemory,
}

fn opener_of(directive: Directive) -> Option<Opener>
    ensures { result ≡ opener_of directive }
{
    match directive {
        Directive::If => Some(Opener::If),
        Directive::Ifdef => Some(Opener::If),
        Directive::Ifndef => Some(Opener::If),
        Directive::While => Some(Opener::Loop),
        Directive::For => Some(Opener::Loop),
        Directive::Switch => Some(Opener::Switch),
        Directive::Macro => Some(Opener::Macro),
        Directive::End => None,
        Directive::Else => None,
        Directive::Case => None,
        Directive::Range => None,
        Directive::Break => None,
        Directive::Declare => None,
        Directive::Local => None,
        Directive::Undef => None,
        Directive::Include => None,
        Directive::Error => None,
        Directive::Message => None,
        Directive::Version => None,
        Directive::Default => None,
    }
}

fn innermost(levels: &[Level]) -> Option<Level>
    ensures { result ≡ innermost levels.now }
{
    levels.get(levels.len().saturating_sub(1)).copied()
}

fn is_breakable(level: Option<Level>) -> bool
    ensures { result ≡ is_breakable level }
{
    match level {
        Some(level) => level.breakable,
        None => false,
    }
}

fn level_of(levels: &[Level], at: usize, opener: Opener) -> Level
    ensures { result ≡ level_of levels.now at opener }
{
    let breakable = match opener {
        Opener::If => is_breakable(innermost(levels)),
        Opener::Switch => true,
        Opener::Loop => true,
        Opener::Macro => false,
    };
    Level {
        at,
        opener,
        parted: false,
        breakable,
    }
}

fn may_part(level: Option<Level>) -> bool
    ensures { result ≡ may_part level }
{
    match level {
        Some(level) => match level.opener {
            Opener::If => !level.parted,
            Opener::Switch => !level.parted,
            Opener::Loop => false,
            Opener::Macro => false,
        },
        None => false,
    }
}

fn may_choose(level: Option<Level>) -> bool
    ensures { result ≡ may_choose level }
{
    match level {
        Some(level) => match level.opener {
            Opener::Switch => true,
            Opener::If => false,
            Opener::Loop => false,
            Opener::Macro => false,
        },
        None => false,
    }
}

/// Whether a directive may stand behind what is open.
fn may_stand(directive: Directive, levels: &[Level]) -> bool
    ensures { result ≡ may_stand directive levels.now }
{
    match directive {
        Directive::End => !levels.is_empty(),
        Directive::Else => may_part(innermost(levels)),
        Directive::Case => may_choose(innermost(levels)),
        Directive::Range => may_choose(innermost(levels)),
        Directive::Break => is_breakable(innermost(levels)),
        Directive::If => true,
        Directive::Ifdef => true,
        Directive::Ifndef => true,
        Directive::While => true,
        Directive::For => true,
        Directive::Switch => true,
        Directive::Macro => true,
        Directive::Declare => true,
        Directive::Local => true,
        Directive::Undef => true,
        Directive::Include => true,
        Directive::Error => true,
        Directive::Message => true,
        Directive::Version => true,
        Directive::Default => true,
    }
}

/// The innermost directive has its `#else` now.
fn set_parted(levels: &mut Vec<Level>)
    ensures { levels.new.items ≡ closed_by Directive.Else levels.old.items }
{
    let last = levels.len().saturating_sub(1);
    match levels.as_slice().get(last).copied() {
        Some(level) => {
            levels[last] = Level {
                at: level.at,
                opener: level.opener,
                parted: true,
                breakable: level.breakable,
            };
        }
        None => {}
    }
}

/// What is open behind a directive that opens none.
fn close(levels: &mut Vec<Level>, directive: Directive)
    ensures { levels.new.items ≡ closed_by directive levels.old.items }
{
    match directive {
        Directive::End => {
            let _level = levels.pop();
        }
        Directive::Else => set_parted(levels),
        Directive::Case => {}
        Directive::Range => {}
        Directive::Break => {}
        Directive::If => {}
        Directive::Ifdef => {}
        Directive::Ifndef => {}
        Directive::While => {}
        Directive::For => {}
        Directive::Switch => {}
        Directive::Macro => {}
        Directive::Declare => {}
        Directive::Local => {}
        Directive::Undef => {}
        Directive::Include => {}
        Directive::Error => {}
        Directive::Message => {}
        Directive::Version => {}
        Directive::Default => {}
    }
}

/// What is open behind a directive.
fn go_on(levels: &mut Vec<Level>, directive: Directive, at: usize) -> Result<(), AllocError>
    ensures { OnOk result (levels.new.items ≡ behind directive at levels.old.items) }
{
    match opener_of(directive) {
        Some(opener) => {
            let level = level_of(levels.as_slice(), at, opener);
            levels.push(level)?;
        }
        None => close(levels, directive),
    }
    Ok(())
}

/// What the end of a text leaves open.
fn leftmost(levels: &[Level]) -> Result<(), Misplaced>
    ensures ok { OnOk result (leftmost (slice_get levels.now 0) ≡ Ok 0) }
    ensures fault { IfErr result (λ f. leftmost (slice_get levels.now 0) ≡ Err f) }
{
    match levels.get(0).copied() {
        Some(level) => Err(Misplaced::NoEnd(level.at)),
        None => Ok(()),
    }
}

/// Steps over a token.
fn step(levels: &mut Vec<Level>, directive: Option<Directive>, at: usize) -> Result<(), Misplaced>
    ensures ok { OnOk result ((further : List Level → Result (List Level) ℕ) → further_open directive at levels.old.items further ≡ further levels.new.items) }
    ensures fault { IfErr result (λ f. f ≢ Misplaced.NoMemory → (f ≡ Misplaced.Stray at) × ((further : List Level → Result (List Level) ℕ) → further_open directive at levels.old.items further ≡ Err at)) }
{
    match directive {
        Some(directive) => {
            if !may_stand(directive, levels.as_slice()) {
                return Err(Misplaced::Stray(at));
            }
            if go_on(levels, directive, at).is_err() {
                return Err(Misplaced::NoMemory);
            }
        }
        None => {}
    }
    Ok(())
}

/// Tests that the directives of a text nest.
pub fn check_structure(alloc: Global, marks: &[Mark]) -> Result<(), Misplaced>
    requires { length marks.now ≤ 2 ^ 24 }
    ensures ok { OnOk result (structure marks.now ≡ Ok 0) }
    ensures fault { IfErr result (λ f. f ≢ Misplaced.NoMemory → structure marks.now ≡ Err f) }
{
    let mut levels: Vec<Level> = Vec::new(alloc);
    let mut at = 0;
    'tokens: while at < marks.len() {
        step(&mut levels, directive_at(marks, at), at)?;
        at += 1;
    }
    leftmost(levels.as_slice())?;
    Ok(())
}
