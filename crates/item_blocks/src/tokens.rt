// What stands at a place of the tokens, and what is at fault where another token does.
ghost use Rattle.std.specs.Prelude.{◌≡◌, ◌≢◌, ◌≤◌, ◌<◌, ◌+◌, length, drop, IfOk, IfErr, IsSome, Ok, Err};
ghost use Rattle.scene_expr.specs.Values.{AreWhole};
ghost use Rattle.scene_expr.specs.Heads.{sign_at};
ghost use Rattle.item_blocks.specs.Tokens.{word_at, spelling_at, unfit, unfit_at, passed, opened, behind_comma, unknown_of, unknown_in, fault_of, IsExpression};
ghost use Rattle.item_blocks.specs.declared.fault.ParseFault.TheVariants.{NoMemory};

use crate::fault::{ParseFault, Wanted};
use crate::words::{Word, word_of};
use scene_expr::{ExprFault, Level, Settings, Value, eval, place_at, word_class};
use scene_lexer::{Kind, Name, Place, Token, sign};
use std::alloc::Global;

/// The code of the sign here; 0 for any other token and for the end.
#[inline]
pub fn sign_at(tokens: &[Token], at: usize) -> u8
    ensures value { result ≡ sign_at tokens.now at }
    ensures within { result ≢ 0 → at < length tokens.now }
{
    match tokens.get(at) {
        Some(token) => match token.kind {
            Kind::Sign(code) => code,
            _ => 0,
        },
        None => 0,
    }
}

/// What the word here says in an item; none for any other token, and for the end.
pub fn word_at(tokens: &[Token], at: usize) -> Option<Word>
    ensures value { result ≡ word_at tokens.now at }
    ensures within { IsSome result → at < length tokens.now }
{
    match tokens.get(at) {
        Some(token) => match &token.kind {
            Kind::Word(name) => word_of(name.bytes()),
            _ => None,
        },
        None => None,
    }
}

fn spelling_at(tokens: &[Token], at: usize) -> Option<Name>
    ensures { result ≡ spelling_at tokens.now at }
{
    match tokens.get(at) {
        Some(token) => match &token.kind {
            Kind::Word(name) => Some(name.copy()),
            _ => None,
        },
        None => None,
    }
}

fn unfit(kind: Wanted, place: Place, word: Option<Name>) -> ParseFault
    ensures value { result ≡ unfit kind place word }
    ensures memory { result ≢ NoMemory }
{
    match word {
        Some(word) => ParseFault::OutOfProfile { place, word },
        None => ParseFault::Expected { place, kind },
    }
}

/// The fault of a token that stands where this is wanted: a word is out of profile.
pub fn unfit_at(kind: Wanted, tokens: &[Token], at: usize) -> ParseFault
    ensures value { result ≡ unfit_at kind tokens.now at }
    ensures memory { result ≢ NoMemory }
{
    unfit(kind, place_at(tokens, at), spelling_at(tokens, at))
}

/// The place behind a sign.
pub fn passed(code: u8, kind: Wanted, tokens: &[Token], at: usize) -> Result<usize, ParseFault>
    requires { code ≢ 0 }
    ensures value { result ≡ passed code kind tokens.now at }
    ensures within { IfOk result (λ next. (next ≡ at + 1) × (at < length tokens.now)) }
    ensures memory { IfErr result (λ f. f ≢ NoMemory) }
{
    if sign_at(tokens, at) == code {
        Ok(at + 1)
    } else {
        Err(unfit_at(kind, tokens, at))
    }
}

/// The place behind an opening brace, inside which so many further ones may be open: 64 in all.
pub fn opened(tokens: &[Token], depths: usize, at: usize) -> Result<usize, ParseFault>
    ensures value { result ≡ opened tokens.now depths at }
    ensures within { IfOk result (λ next. (next ≡ at + 1) × (at < length tokens.now)) }
    ensures depth { IfOk result (λ next. 0 < depths) }
    ensures memory { IfErr result (λ f. f ≢ NoMemory) }
{
    if sign_at(tokens, at) != sign::OPEN_BRACE {
        return Err(unfit_at(Wanted::OpenBrace, tokens, at));
    }
    if depths == 0 {
        return Err(ParseFault::Limit {
            which: 8,
            place: place_at(tokens, at),
        });
    }
    Ok(at + 1)
}

/// The place behind a comma, where there is one.
pub fn behind_comma(tokens: &[Token], at: usize) -> usize
    requires { at ≤ length tokens.now }
    ensures value { result ≡ behind_comma tokens.now at }
    ensures within { (at ≤ result) × (result ≤ length tokens.now) }
{
    if sign_at(tokens, at) == sign::COMMA {
        at + 1
    } else {
        at
    }
}

fn unknown_of(kind: &Kind) -> Option<Name>
    ensures { result ≡ unknown_of kind.now }
{
    match kind {
        Kind::Word(name) => match word_class(name.bytes()) {
            None => Some(name.copy()),
            Some(_) => None,
        },
        _ => None,
    }
}

/// The first word that no expression knows.
fn unknown_in(tokens: &[Token]) -> Option<Name>
    ensures { result ≡ unknown_in tokens.now }
{
    for token in tokens {
        if let Some(name) = unknown_of(&token.kind) {
            return Some(name);
        }
    }
    None
}

fn fault_of(word: Option<Name>, fault: ExprFault) -> ParseFault
    ensures { result ≡ fault_of word fault }
{
    match fault {
        ExprFault::Expected(place) => ParseFault::Expected {
            place,
            kind: Wanted::Parameter,
        },
        ExprFault::UnknownName(place) => unfit(Wanted::Parameter, place, word),
        ExprFault::Kind(place) => ParseFault::Expected {
            place,
            kind: Wanted::Parameter,
        },
        ExprFault::ZeroDivisor(place) => ParseFault::ValueRange { place },
        ExprFault::Range(place) => ParseFault::ValueRange { place },
        ExprFault::NoMemory => ParseFault::NoMemory,
    }
}

/// The longest sum from a token on, and the token behind it.
pub fn expression(
    alloc: Global,
    tokens: &[Token],
    set: &Settings,
    at: usize,
) -> Result<(Value, usize), ParseFault>
    requires within { at ≤ length tokens.now }
    requires whole { AreWhole set.now }
    ensures found { IfOk result (λ found. IsExpression tokens.now set.now at (Ok (record { value = found.0; next = found.1 }))) }
    ensures fault { IfErr result (λ f. f ≢ NoMemory → IsExpression tokens.now set.now at (Err f)) }
    ensures within { IfOk result (λ found. (at ≤ found.1) × (found.1 ≤ length tokens.now)) }
{
    match eval(alloc, tokens, at, Level::Sum, set) {
        Ok((value, next)) => Ok((value, next)),
        Err(fault) => Err(fault_of(unknown_in(&tokens[at..]), fault)),
    }
}
