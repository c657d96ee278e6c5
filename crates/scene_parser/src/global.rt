// What is said of a whole scene: its settings, and its background. (Reference manual,
// global_settings and background)
ghost use Rattle.std.specs.Prelude.{◌≡◌, ◌≢◌, ◌≤◌, ◌<◌, ◌*◌, length, IfOk, IfErr, OnOk, IsSome, Some, None, Ok, Err, unsigned_abs};
ghost use Rattle.scene_expr.specs.Values.{AreWhole};
ghost use Rattle.item_blocks.specs.declared.fault.ParseFault.TheVariants.{NoMemory};
ghost use Rattle.scene_parser.specs.Globals.{plain_globals, nearest_of, globals_with, global_word, IsSetting, IsBackground};

use fix_math::{Fix, rounded};
use item_blocks::{
    Block, GlobalWord, ParseFault, UNIT, Wanted, Word, expression, float_of, light, light_of,
    opened, passed, unfit_at, word_at,
};
use scene_expr::{Settings, Value, place_at};
use scene_lexer::{Place, Token, sign};
use scene_model::Rgb;
use std::alloc::Global;

/// The settings of a scene.
#[derive(Clone, Copy, Debug, PartialEq, Eq)]
pub struct Globals {
    pub ambient_light: Rgb,
    /// max_trace_level.
    pub levels: u32,
    /// adc_bailout.
    pub adc: Fix,
}

/// What holds where nothing is set.
pub fn plain_globals() -> Globals
    ensures { result ≡ plain_globals }
{
    Globals {
        ambient_light: [Fix(65536), Fix(65536), Fix(65536)],
        levels: 5,
        adc: Fix(257),
    }
}

fn global_word(word: Option<Word>) -> Option<GlobalWord>
    ensures value { result ≡ global_word word }
    ensures some { IsSome result → IsSome word }
{
    match word {
        Some(Word::Global(word)) => Some(word),
        _ => None,
    }
}

/// The nearest whole number.
fn nearest_of(value: Fix) -> u32
    requires { unsigned_abs value ≤ 64 * 65536 }
    ensures { result ≡ nearest_of value }
{
    rounded(value.wide(), 65536).unsigned_abs() as u32
}

/// What a word makes of the value behind it.
fn globals_with(
    globals: &mut Globals,
    word: GlobalWord,
    value: Value,
    place: Place,
) -> Result<(), ParseFault>
    ensures found { OnOk result (globals_with globals.old word value place ≡ Ok globals.new) }
    ensures fault { IfErr result (λ f. globals_with globals.old word value place ≡ Err f) }
{
    match word {
        GlobalWord::AssumedGamma => {
            float_of(UNIT, UNIT, value, place)?;
        }
        GlobalWord::MaxTraceLevel => {
            globals.levels = nearest_of(float_of(UNIT, 64 * UNIT, value, place)?);
        }
        GlobalWord::AmbientLight => {
            globals.ambient_light = light_of(value, place)?;
        }
        GlobalWord::AdcBailout => {
            globals.adc = float_of(0, UNIT, value, place)?;
        }
    }
    Ok(())
}

/// A setting.
fn setting(
    alloc: Global,
    tokens: &[Token],
    set: &Settings,
    word: GlobalWord,
    at: usize,
    globals: &mut Globals,
) -> Result<usize, ParseFault>
    requires within { at < length tokens.now }
    requires whole { AreWhole set.now }
    ensures found { IfOk result (λ next. IsSetting tokens.now set.now (Some word) globals.old at (Ok (record { value = globals.new; next = next }))) }
    ensures fault { IfErr result (λ f. f ≢ NoMemory → IsSetting tokens.now set.now (Some word) globals.old at (Err f)) }
    ensures within { IfOk result (λ next. (at < next) × (next ≤ length tokens.now)) }
{
    let (value, next) = expression(alloc, tokens, set, at + 1)?;
    globals_with(globals, word, value, place_at(tokens, at + 1))?;
    Ok(next)
}

impl Block for Globals {
    ghost use Rattle.scene_parser.specs.Globals.{globals_kind};

    ghost kind = { globals_kind };

    fn leads(_word: Option<Word>) -> bool {
        false
    }

    fn first(
        &mut self,
        _alloc: Global,
        _tokens: &[Token],
        _set: &Settings,
        _depths: usize,
        _led: bool,
        at: usize,
    ) -> Result<usize, ParseFault> {
        Ok(at)
    }

    fn statement(
        &mut self,
        alloc: Global,
        tokens: &[Token],
        set: &Settings,
        _depths: usize,
        at: usize,
    ) -> Result<usize, ParseFault> {
        match global_word(word_at(tokens, at)) {
            Some(word) => setting(alloc, tokens, set, word, at, self),
            None => Err(unfit_at(Wanted::CloseBrace, tokens, at)),
        }
    }

    fn lacks(&self) -> Option<Wanted> {
        None
    }
}

/// The colour of the background, between braces, and the token behind them.
pub fn background(
    alloc: Global,
    tokens: &[Token],
    set: &Settings,
    depths: usize,
    at: usize,
) -> Result<(Rgb, usize), ParseFault>
    requires within { at ≤ length tokens.now }
    requires whole { AreWhole set.now }
    ensures found { IfOk result (λ found. IsBackground tokens.now set.now depths at (Ok (record { value = found.0; next = found.1 }))) }
    ensures fault { IfErr result (λ f. f ≢ NoMemory → IsBackground tokens.now set.now depths at (Err f)) }
    ensures within { IfOk result (λ found. (at < found.1) × (found.1 ≤ length tokens.now)) }
{
    let start = opened(tokens, depths, at)?;
    let (colour, end) = light(alloc, tokens, set, start)?;
    let next = passed(sign::CLOSE_BRACE, Wanted::CloseBrace, tokens, end)?;
    Ok((colour, next))
}
