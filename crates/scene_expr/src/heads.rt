// What stands at a place among the tokens.
ghost use Rattle.std.specs.Prelude.{◌≡◌, ◌≢◌, ◌≤◌, ◌<◌, ◌+◌, IfOk, IfErr, IfSome, IsTrue, length};
ghost use Rattle.scene_expr.specs.Heads.{place_at, sign_at, text_at, channel_at, component_at, sign_head, word_head, head_at, passed};

use crate::operators::{Prefix, prefix_of};
use crate::value::ExprFault;
use crate::words::{
    Call, Channel, ColourForm, Component, Constant, Word, channel_of, component_of, word_of,
};
use fix_math::Fix;
use scene_lexer::{Kind, Place, Token, sign};

/// A sign or a word of colours before a factor.
#[derive(Clone, Copy)]
pub enum Mark {
    Sign(Prefix),
    /// `color` or `colour`.
    Colour,
    Form(ColourForm),
}

/// A token that opens a depth.
#[derive(Clone, Copy)]
pub enum Opener {
    Mark(Mark),
    /// `(`.
    Bracket,
    /// `<`.
    Angle,
    Call(Call),
    /// A number of a colour, by its word.
    Channels,
}

/// What a factor begins with.
#[derive(Clone, Copy)]
pub enum Head {
    Number(Fix),
    Text,
    Constant(Constant),
    Opener(Opener),
    /// A word that no expression begins with.
    Unknown,
    /// The end, or a sign that no expression begins with.
    Nothing,
}

/// The place of a token, or the end of the last one.
pub fn place_at(tokens: &[Token], at: usize) -> Place
    ensures { result ≡ place_at tokens.now at }
{
    if let Some(token) = tokens.get(at) {
        return token.place;
    }
    match tokens.last() {
        Some(token) => Place {
            file: token.place.file,
            at: token.to,
            line: token.place.line,
        },
        None => Place {
            file: 0,
            at: 0,
            line: 1,
        },
    }
}

/// The code of the sign here; 0 for any other token and for the end.
#[inline]
pub fn sign_at(tokens: &[Token], at: usize) -> u8
    ensures { result ≡ sign_at tokens.now at }
{
    match tokens.get(at) {
        Some(token) => match token.kind {
            Kind::Sign(code) => code,
            _ => 0,
        },
        None => 0,
    }
}

/// Whether the sign here is a minus.
#[inline]
pub fn is_minus(tokens: &[Token], at: usize) -> bool
    ensures head { IsTrue result → head_at tokens.now at ≡ Head.Opener (Opener.Mark (Mark.Sign Prefix.Minus)) }
    ensures within { IsTrue result → at < length tokens.now }
{
    match tokens.get(at) {
        Some(token) => match token.kind {
            Kind::Sign(code) => code == sign::MINUS,
            _ => false,
        },
        None => false,
    }
}

/// The number here; none for any other token.
#[inline]
pub fn number_at(tokens: &[Token], at: usize) -> Option<Fix>
    ensures head { IfSome result (λ number. head_at tokens.now at ≡ Head.Number number) }
    ensures within { IfSome result (λ _. at < length tokens.now) }
{
    match tokens.get(at) {
        Some(token) => match token.kind {
            Kind::Number(number) => Some(number),
            _ => None,
        },
        None => None,
    }
}

/// The bytes of the text here; none for any other token.
pub fn text_at(tokens: &[Token], at: usize) -> &[u8]
    ensures { result.now ≡ text_at tokens.now at }
{
    match tokens.get(at) {
        Some(token) => match &token.kind {
            Kind::Text(text) => text.bytes(),
            _ => &[],
        },
        None => &[],
    }
}

/// The number of a colour that the word here names.
pub fn channel_at(tokens: &[Token], at: usize) -> Option<Channel>
    ensures { result ≡ channel_at tokens.now at }
{
    match tokens.get(at) {
        Some(token) => match &token.kind {
            Kind::Word(name) => channel_of(name.bytes()),
            _ => None,
        },
        None => None,
    }
}

/// The component that the word here names.
pub fn component_at(tokens: &[Token], at: usize) -> Option<Component>
    ensures { result ≡ component_at tokens.now at }
{
    match tokens.get(at) {
        Some(token) => match &token.kind {
            Kind::Word(name) => component_of(name.bytes()),
            _ => None,
        },
        None => None,
    }
}

fn sign_head(code: u8) -> Head
    ensures { result ≡ sign_head code }
{
    match code {
        sign::OPEN_BRACKET => Head::Opener(Opener::Bracket),
        sign::LESS => Head::Opener(Opener::Angle),
        _ => match prefix_of(code) {
            Some(sign) => Head::Opener(Opener::Mark(Mark::Sign(sign))),
            None => Head::Nothing,
        },
    }
}

fn word_head(word: Option<Word>) -> Head
    ensures { result ≡ word_head word }
{
    match word {
        None => Head::Unknown,
        Some(Word::Constant(constant)) => Head::Constant(constant),
        Some(Word::Call(call)) => Head::Opener(Opener::Call(call)),
        Some(Word::Colour) => Head::Opener(Opener::Mark(Mark::Colour)),
        Some(Word::Form(form)) => Head::Opener(Opener::Mark(Mark::Form(form))),
        Some(Word::Channel(_)) => Head::Opener(Opener::Channels),
    }
}

/// What the factor begins with that stands here.
#[inline(never)]
pub fn head_at(tokens: &[Token], at: usize) -> Head
    ensures { result ≡ head_at tokens.now at }
{
    match tokens.get(at) {
        Some(token) => match &token.kind {
            Kind::Word(name) => word_head(word_of(name.bytes())),
            Kind::Number(value) => Head::Number(*value),
            Kind::Text(_) => Head::Text,
            Kind::Sign(code) => sign_head(*code),
        },
        None => Head::Nothing,
    }
}

/// The place behind the sign that has to stand here.
pub fn passed(code: u8, tokens: &[Token], at: usize) -> Result<usize, ExprFault>
    requires { code ≢ 0 }
    ensures value { result ≡ passed code tokens.now at }
    ensures within { IfOk result (λ next. next ≤ length tokens.now) }
    ensures behind { IfOk result (λ next. next ≡ at + 1) }
    ensures memory { IfErr result (λ f. f ≢ ExprFault.NoMemory) }
{
    if sign_at(tokens, at) == code {
        Ok(at + 1)
    } else {
        Err(ExprFault::Expected(place_at(tokens, at)))
    }
}
