// Finishes: how a surface gives light back. (Reference manual, finish)
ghost use Rattle.std.specs.Prelude.{◌≡◌, ◌≢◌, ◌≤◌, ◌<◌, ◌*◌, length, IfOk, IfErr, OnOk, Ok, Err, pos, ◌≤ℤ◌, unsigned_abs, true};
ghost use Rattle.scene_expr.specs.Values.{AreWhole};
ghost use Rattle.item_blocks.specs.declared.fault.ParseFault.TheVariants.{NoMemory};
ghost use Rattle.item_blocks.specs.Tokens.{word_at};
ghost use Rattle.item_blocks.specs.Finishes.{plain_finish, whole_of, gloss_of, finish_with, IsGiven, IsEnclosed, IsValued, is_reflection, is_enclosed, finish_word};

use crate::block::Block;
use crate::fault::{ParseFault, Wanted};
use crate::parameters::{UNIT, float_of, rgb_of};
use crate::tokens::{expression, opened, passed, sign_at, unfit_at, word_at};
use crate::words::{BlockWord, FinishWord, Word};
use fix_math::{Fix, rounded};
use scene_expr::{Settings, Value, place_at};
use scene_lexer::{Place, Token, sign};
use scene_model::Finish;
use std::alloc::Global;

/// The greatest ambient, diffuse and highlights: 16 units.
const MOST_LIGHT: i64 = 1 << 20;

/// The finish of what says nothing of it.
pub fn plain_finish() -> Finish
    ensures { result ≡ plain_finish }
{
    Finish {
        ambient: [Fix(6554), Fix(6554), Fix(6554)],
        diffuse: Fix(39322),
        phong: Fix(0),
        phong_size: 40,
        specular: Fix(0),
        gloss: 20,
        reflection: [Fix(0), Fix(0), Fix(0)],
    }
}

/// A number as the nearest whole one, at least 1.
fn whole_of(value: Fix) -> u32
    requires { unsigned_abs value ≤ 65535 * 65536 }
    ensures { result ≡ whole_of value }
{
    let whole = rounded(value.wide(), 65536).unsigned_abs();
    if whole == 0 { 1 } else { whole as u32 }
}

/// The exponent of the specular highlight, from the raw roughness.
fn gloss_of(roughness: Fix) -> u32
    requires low { pos 1 ≤ℤ roughness }
    requires high { unsigned_abs roughness ≤ 65536 }
    ensures { result ≡ gloss_of roughness }
{
    let gloss = rounded(1 << 32, roughness.wide() * 65536).unsigned_abs();
    if gloss == 0 { 1 } else { gloss as u32 }
}

/// What a word of a finish makes of the value behind it.
fn finish_with(
    finish: &Finish,
    word: FinishWord,
    value: Value,
    place: Place,
) -> Result<Finish, ParseFault>
    ensures { result ≡ finish_with finish.now word value place }
{
    let mut made = *finish;
    match word {
        FinishWord::Ambient => {
            made.ambient = rgb_of(MOST_LIGHT, value, place)?;
        }
        FinishWord::Diffuse => {
            made.diffuse = float_of(0, MOST_LIGHT, value, place)?;
        }
        FinishWord::Phong => {
            made.phong = float_of(0, MOST_LIGHT, value, place)?;
        }
        FinishWord::PhongSize => {
            made.phong_size = whole_of(float_of(UNIT, 65535 * UNIT, value, place)?);
        }
        FinishWord::Specular => {
            made.specular = float_of(0, MOST_LIGHT, value, place)?;
        }
        FinishWord::Roughness => {
            made.gloss = gloss_of(float_of(1, UNIT, value, place)?);
        }
        FinishWord::Reflection => {
            made.reflection = rgb_of(UNIT, value, place)?;
        }
    }
    Ok(made)
}

/// The value of a word, in the finish.
fn give(
    alloc: Global,
    tokens: &[Token],
    set: &Settings,
    word: FinishWord,
    at: usize,
    finish: &mut Finish,
) -> Result<usize, ParseFault>
    requires within { at ≤ length tokens.now }
    requires whole { AreWhole set.now }
    ensures found { IfOk result (λ next. IsGiven tokens.now set.now word finish.old at (Ok (record { value = finish.new; next = next }))) }
    ensures fault { IfErr result (λ f. f ≢ NoMemory → IsGiven tokens.now set.now word finish.old at (Err f)) }
    ensures within { IfOk result (λ next. (at ≤ next) × (next ≤ length tokens.now)) }
{
    let (value, next) = expression(alloc, tokens, set, at)?;
    *finish = finish_with(finish, word, value, place_at(tokens, at))?;
    Ok(next)
}

/// The value of a word in braces.
fn give_enclosed(
    alloc: Global,
    tokens: &[Token],
    set: &Settings,
    depths: usize,
    word: FinishWord,
    at: usize,
    finish: &mut Finish,
) -> Result<usize, ParseFault>
    requires within { at ≤ length tokens.now }
    requires whole { AreWhole set.now }
    ensures found { IfOk result (λ next. IsEnclosed tokens.now set.now depths word finish.old at (Ok (record { value = finish.new; next = next }))) }
    ensures fault { IfErr result (λ f. f ≢ NoMemory → IsEnclosed tokens.now set.now depths word finish.old at (Err f)) }
    ensures within { IfOk result (λ next. (at ≤ next) × (next ≤ length tokens.now)) }
{
    let start = opened(tokens, depths, at)?;
    let end = give(alloc, tokens, set, word, start, finish)?;
    let next = passed(sign::CLOSE_BRACE, Wanted::CloseBrace, tokens, end)?;
    Ok(next)
}

fn is_reflection(word: FinishWord) -> bool
    ensures { result ≡ is_reflection word }
{
    matches!(word, FinishWord::Reflection)
}

/// The value of a word: reflection's may stand in braces.
fn valued(
    alloc: Global,
    tokens: &[Token],
    set: &Settings,
    depths: usize,
    word: FinishWord,
    at: usize,
    finish: &mut Finish,
) -> Result<usize, ParseFault>
    requires within { at ≤ length tokens.now }
    requires whole { AreWhole set.now }
    ensures found { IfOk result (λ next. IsValued tokens.now set.now depths (is_enclosed tokens.now word at) word finish.old at (Ok (record { value = finish.new; next = next }))) }
    ensures fault { IfErr result (λ f. f ≢ NoMemory → IsValued tokens.now set.now depths (is_enclosed tokens.now word at) word finish.old at (Err f)) }
    ensures within { IfOk result (λ next. (at ≤ next) × (next ≤ length tokens.now)) }
{
    if is_reflection(word) && sign_at(tokens, at) == sign::OPEN_BRACE {
        give_enclosed(alloc, tokens, set, depths, word, at, finish)
    } else {
        give(alloc, tokens, set, word, at, finish)
    }
}

fn finish_word(word: Option<Word>) -> Option<FinishWord>
    ensures { result ≡ finish_word word }
{
    match word {
        Some(Word::Finish(word)) => Some(word),
        _ => None,
    }
}

impl Block for Finish {
    ghost use Rattle.item_blocks.specs.Finishes.{finish_kind};

    ghost kind = { finish_kind };

    fn leads(word: Option<Word>) -> bool {
        matches!(word, Some(Word::Block(BlockWord::Finish)))
    }

    fn first(
        &mut self,
        _alloc: Global,
        _tokens: &[Token],
        _set: &Settings,
        _depths: usize,
        _led: bool,
        at: usize,
    ) -> Result<usize, ParseFault> {
        Ok(at)
    }

    fn statement(
        &mut self,
        alloc: Global,
        tokens: &[Token],
        set: &Settings,
        depths: usize,
        at: usize,
    ) -> Result<usize, ParseFault> {
        match finish_word(word_at(tokens, at)) {
            Some(word) => valued(alloc, tokens, set, depths, word, at + 1, self),
            None => Err(unfit_at(Wanted::CloseBrace, tokens, at)),
        }
    }

    fn lacks(&self) -> Option<Wanted> {
        None
    }
}
