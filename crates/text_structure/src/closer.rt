// What a list ends with, and what each token is to it.
ghost use Rattle.std.specs.Prelude.{true, ◌≡◌, ◌<◌, ◌≤◌, ◌^◌, ◌+◌, ◌-◌, length, slice_get, IsSome};
ghost use Rattle.text_structure.specs.Turns.{IsAhead, sign_in, sign_at, directive_in, directive_at, is_word, is_block_word, is_block, opens_angle, opens_after, is_colour, closing, is_mixed, is_operand, directive_turn, declare_turn, side_turn, version_turn, sign_turn, bracket_turn, mixed_turn, turn_at, past, past_end, past_brace, past_sign};

use crate::mark::{Directive, Known, Mark};

/// What ends a list of tokens. Whatever it is, a list ends where the body ends in which it stands.
#[derive(Clone, Copy, Debug, PartialEq, Eq)]
pub enum Closer {
    /// The `#end` of a directive.
    End,
    /// The `#end` of a directive, or the `#else`, `#case` or `#range` that divides it.
    Branch,
    /// A `)`, where `(` and `)` alone are counted.
    Parenthesis,
    /// A `}`, where `{` and `}` alone are counted.
    Brace,
    /// The semicolon of a right side, outside brackets.
    Semicolon,
    /// A comma outside brackets.
    Comma,
    Round,
    Square,
    Curly,
    Angle,
}

/// What a token is to a list.
#[derive(Clone, Copy, Debug, PartialEq, Eq)]
pub enum Turn {
    /// The list ends here.
    Stop,
    /// The list goes on at this place.
    Over(usize),
    /// A list of its own begins at `start`; behind it the outer one goes on.
    Inside { inner: Closer, start: usize },
}

fn sign_in(mark: Option<Mark>) -> u8
    ensures { result ≡ sign_in mark }
{
    match mark {
        Some(Mark::Sign(code)) => code,
        Some(Mark::Number) => 0,
        Some(Mark::Text) => 0,
        Some(Mark::Known(_)) => 0,
        Some(Mark::Name(_)) => 0,
        None => 0,
    }
}

/// The token at a place.
pub fn mark_at(marks: &[Mark], at: usize) -> Option<Mark>
    ensures { result ≡ slice_get marks.now at }
{
    marks.get(at).copied()
}

/// The code of the sign at a place; 0 for every other token and beyond the end.
pub fn sign_at(marks: &[Mark], at: usize) -> u8
    ensures value { result ≡ sign_at marks.now at }
    ensures within { 0 < result → at < length marks.now }
{
    sign_in(marks.get(at).copied())
}

fn directive_in(mark: Option<Mark>) -> Option<Directive>
    ensures { result ≡ directive_in mark }
{
    match mark {
        Some(Mark::Known(Known::Directive(directive))) => Some(directive),
        Some(Mark::Known(Known::Block)) => None,
        Some(Mark::Known(Known::Colour)) => None,
        Some(Mark::Known(Known::Defined)) => None,
        Some(Mark::Known(Known::Other)) => None,
        Some(Mark::Sign(_)) => None,
        Some(Mark::Number) => None,
        Some(Mark::Text) => None,
        Some(Mark::Name(_)) => None,
        None => None,
    }
}

/// The directive whose `#` stands at a place.
pub fn directive_at(marks: &[Mark], at: usize) -> Option<Directive>
    requires { at < 2 ^ 62 }
    ensures value { result ≡ directive_at marks.now at }
    ensures within { IsSome result → at + 1 < length marks.now }
{
    if sign_at(marks, at) == b'#' {
        directive_in(mark_at(marks, at + 1))
    } else {
        None
    }
}

/// Whether a word stands here, kept or not.
pub fn is_word(mark: Option<Mark>) -> bool
    ensures { result ≡ is_word mark }
{
    match mark {
        Some(Mark::Known(_)) => true,
        Some(Mark::Name(_)) => true,
        Some(Mark::Sign(_)) => false,
        Some(Mark::Number) => false,
        Some(Mark::Text) => false,
        None => false,
    }
}

fn is_block_word(mark: Option<Mark>) -> bool
    ensures { result ≡ is_block_word mark }
{
    mark == Some(Mark::Known(Known::Block))
}

/// Whether a word of a block and its opening brace stand at a place.
pub fn is_block(marks: &[Mark], at: usize) -> bool
    requires { at < 2 ^ 62 }
    ensures value { result ≡ is_block marks.now at }
    ensures within { result ≡ true → at + 1 < length marks.now }
{
    is_block_word(marks.get(at).copied()) && sign_at(marks, at + 1) == b'{'
}

fn is_colour(mark: Option<Mark>) -> bool
    ensures { result ≡ is_colour mark }
{
    mark == Some(Mark::Known(Known::Colour))
}

/// Whether a `<` opens a vector or colour behind this sign.
fn opens_after(code: u8) -> bool
    ensures { result ≡ opens_after code }
{
    code != 0 && code != b')' && code != b']' && code != b'}' && code != b'>'
}

/// Whether the `<` at a place opens a vector or colour: it stands behind a sign, or behind a word of a colour
/// that doesn't follow a dot.
fn opens_angle(marks: &[Mark], at: usize) -> bool
    ensures { result ≡ opens_angle marks.now at }
{
    if at == 0 {
        return false;
    }
    if opens_after(sign_at(marks, at - 1)) {
        return true;
    }
    if !is_colour(marks.get(at - 1).copied()) {
        return false;
    }
    at == 1 || sign_at(marks, at - 2) != b'.'
}

/// The sign that closes a list; 0 for the `#end` of a directive.
pub fn closing(closer: Closer) -> u8
    ensures { result ≡ closing closer }
{
    match closer {
        Closer::End => 0,
        Closer::Branch => 0,
        Closer::Parenthesis => b')',
        Closer::Brace => b'}',
        Closer::Semicolon => b';',
        Closer::Comma => b',',
        Closer::Round => b')',
        Closer::Square => b']',
        Closer::Curly => b'}',
        Closer::Angle => b'>',
    }
}

/// Whether all brackets and right sides count in a list.
fn is_mixed(closer: Closer) -> bool
    ensures { result ≡ is_mixed closer }
{
    match closer {
        Closer::End => false,
        Closer::Branch => false,
        Closer::Parenthesis => false,
        Closer::Brace => false,
        Closer::Semicolon => true,
        Closer::Comma => true,
        Closer::Round => true,
        Closer::Square => true,
        Closer::Curly => true,
        Closer::Angle => true,
    }
}

/// The right side of a declaration, from the place behind its `=`.
fn side_turn(marks: &[Mark], at: usize) -> Turn
    requires small { at < 2 ^ 61 }
    requires within { (0 < at) × (at ≤ length marks.now) }
    ensures value { result ≡ side_turn marks.now at }
    ensures ahead { IsAhead (at - 1) (length marks.now) result }
{
    if is_block(marks, at) {
        Turn::Inside {
            inner: Closer::Brace,
            start: at + 2,
        }
    } else {
        Turn::Inside {
            inner: Closer::Semicolon,
            start: at,
        }
    }
}

/// A declaration is passed over with its right side.
fn declare_turn(marks: &[Mark], closer: Closer, at: usize) -> Turn
    requires small { at < 2 ^ 60 }
    requires within { at < length marks.now }
    ensures value { result ≡ declare_turn marks.now closer at }
    ensures ahead { IsAhead at (length marks.now) result }
{
    if is_mixed(closer) && is_word(marks.get(at + 2).copied()) && sign_at(marks, at + 3) == b'=' {
        side_turn(marks, at + 4)
    } else {
        Turn::Over(at + 1)
    }
}

fn is_operand(mark: Option<Mark>) -> bool
    ensures { result ≡ is_operand mark }
{
    mark == Some(Mark::Number) || is_word(mark)
}

/// A `#version` is passed over with its number or name and a semicolon.
fn version_turn(marks: &[Mark], at: usize) -> Turn
    requires small { at < 2 ^ 60 }
    requires within { at < length marks.now }
    ensures value { result ≡ version_turn marks.now at }
    ensures ahead { IsAhead at (length marks.now) result }
{
    if is_operand(marks.get(at + 2).copied()) && sign_at(marks, at + 3) == b';' {
        Turn::Over(at + 4)
    } else {
        Turn::Over(at + 1)
    }
}

/// What the `#` of a directive is to a list.
#[inline(never)]
fn directive_turn(marks: &[Mark], closer: Closer, at: usize, directive: Directive) -> Turn
    requires small { at < 2 ^ 60 }
    requires within { at + 1 < length marks.now }
    ensures value { result ≡ directive_turn marks.now closer at directive }
    ensures ahead { IsAhead at (length marks.now) result }
{
    let inside = Turn::Inside {
        inner: Closer::End,
        start: at + 2,
    };
    let divided = if closer == Closer::End {
        Turn::Over(at + 1)
    } else {
        Turn::Stop
    };
    match directive {
        Directive::If => inside,
        Directive::Ifdef => inside,
        Directive::Ifndef => inside,
        Directive::While => inside,
        Directive::For => inside,
        Directive::Switch => inside,
        Directive::Macro => inside,
        Directive::End => Turn::Stop,
        Directive::Else => divided,
        Directive::Case => divided,
        Directive::Range => divided,
        Directive::Declare => declare_turn(marks, closer, at),
        Directive::Local => declare_turn(marks, closer, at),
        Directive::Version => version_turn(marks, at),
        Directive::Break => Turn::Over(at + 1),
        Directive::Undef => Turn::Over(at + 1),
        Directive::Include => Turn::Over(at + 1),
        Directive::Error => Turn::Over(at + 1),
        Directive::Message => Turn::Over(at + 1),
        Directive::Default => Turn::Over(at + 1),
    }
}

/// What a sign is to a list in which it alone opens lists of its own.
#[inline(always)]
fn bracket_turn(closer: Closer, opening: u8, at: usize, code: u8) -> Turn
    requires { at < 2 ^ 60 }
    ensures ahead { IsAhead at (at + 1) result }
    ensures value { result ≡ bracket_turn closer opening at code }
{
    if code == opening {
        Turn::Inside {
            inner: closer,
            start: at + 1,
        }
    } else if code == closing(closer) {
        Turn::Stop
    } else {
        Turn::Over(at + 1)
    }
}

/// What a sign is to a list in which all brackets count.
#[inline(always)]
fn mixed_turn(marks: &[Mark], closer: Closer, at: usize, code: u8) -> Turn
    requires small { at < 2 ^ 60 }
    requires within { at < length marks.now }
    ensures value { result ≡ mixed_turn marks.now closer at code }
    ensures ahead { IsAhead at (length marks.now) result }
{
    let start = at + 1;
    if code == closing(closer) {
        Turn::Stop
    } else if code == b'(' {
        Turn::Inside {
            inner: Closer::Round,
            start,
        }
    } else if code == b'[' {
        Turn::Inside {
            inner: Closer::Square,
            start,
        }
    } else if code == b'{' {
        Turn::Inside {
            inner: Closer::Curly,
            start,
        }
    } else if code == b'<' && opens_angle(marks, at) {
        Turn::Inside {
            inner: Closer::Angle,
            start,
        }
    } else {
        Turn::Over(start)
    }
}

/// What a token is to a list that isn't the `#` of a directive.
#[inline(always)]
fn sign_turn(marks: &[Mark], closer: Closer, at: usize, code: u8) -> Turn
    requires small { at < 2 ^ 60 }
    requires within { at < length marks.now }
    ensures value { result ≡ sign_turn marks.now closer at code }
    ensures ahead { IsAhead at (length marks.now) result }
{
    match closer {
        Closer::End => Turn::Over(at + 1),
        Closer::Branch => Turn::Over(at + 1),
        Closer::Parenthesis => bracket_turn(closer, b'(', at, code),
        Closer::Brace => bracket_turn(closer, b'{', at, code),
        Closer::Semicolon => mixed_turn(marks, closer, at, code),
        Closer::Comma => mixed_turn(marks, closer, at, code),
        Closer::Round => mixed_turn(marks, closer, at, code),
        Closer::Square => mixed_turn(marks, closer, at, code),
        Closer::Curly => mixed_turn(marks, closer, at, code),
        Closer::Angle => mixed_turn(marks, closer, at, code),
    }
}

/// What the token at a place is to a list.
#[inline(always)]
pub fn turn_at(marks: &[Mark], closer: Closer, at: usize) -> Turn
    requires { at < 2 ^ 60 }
    ensures value { result ≡ turn_at marks.now closer at }
    ensures ahead { IsAhead at (length marks.now) result }
{
    if at >= marks.len() {
        return Turn::Stop;
    }
    match directive_at(marks, at) {
        Some(directive) => directive_turn(marks, closer, at, directive),
        None => sign_turn(marks, closer, at, sign_at(marks, at)),
    }
}

/// The place behind the `#end` at which a directive ends.
fn past_end(marks: &[Mark], at: usize) -> usize
    requires { at < 2 ^ 60 }
    ensures value { result ≡ past_end marks.now at }
    ensures within { (at ≤ result) × (at ≤ length marks.now → result ≤ length marks.now) }
{
    if directive_at(marks, at) == Some(Directive::End) {
        at + 2
    } else {
        at
    }
}

/// The place behind a declared block's brace and a semicolon after it.
fn past_brace(marks: &[Mark], at: usize) -> usize
    requires { at < 2 ^ 60 }
    ensures value { result ≡ past_brace marks.now at }
    ensures within { (at ≤ result) × (at ≤ length marks.now → result ≤ length marks.now) }
{
    if sign_at(marks, at) != b'}' {
        at
    } else if sign_at(marks, at + 1) == b';' {
        at + 2
    } else {
        at + 1
    }
}

fn past_sign(marks: &[Mark], code: u8, at: usize) -> usize
    requires small { at < 2 ^ 60 }
    requires sign { 0 < code }
    ensures value { result ≡ past_sign marks.now code at }
    ensures within { (at ≤ result) × (at ≤ length marks.now → result ≤ length marks.now) }
{
    if sign_at(marks, at) == code {
        at + 1
    } else {
        at
    }
}

/// Where a list goes on behind an inner one that ends at a place: behind its closer, or at what ends them both.
#[inline(always)]
pub fn past(marks: &[Mark], inner: Closer, at: usize) -> usize
    requires { at < 2 ^ 60 }
    ensures value { result ≡ past marks.now inner at }
    ensures within { (at ≤ result) × (at ≤ length marks.now → result ≤ length marks.now) }
{
    match inner {
        Closer::End => past_end(marks, at),
        Closer::Branch => at,
        Closer::Brace => past_brace(marks, at),
        Closer::Parenthesis => past_sign(marks, b')', at),
        Closer::Semicolon => past_sign(marks, b';', at),
        Closer::Comma => at,
        Closer::Round => past_sign(marks, b')', at),
        Closer::Square => past_sign(marks, b']', at),
        Closer::Curly => past_sign(marks, b'}', at),
        Closer::Angle => past_sign(marks, b'>', at),
    }
}
