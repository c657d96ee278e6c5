// What the words of a text that aren't directives come to.
ghost use Rattle.std.specs.Prelude.{◌≡◌, ◌≢◌, ◌<◌, ◌≤◌, ◌+◌, ◌++◌, ◌^◌, ◌∷◌, [], map, Some, Ok, Err, IfOk, IfErr, OnOk, OnErr, length, slice_get, option_map};
ghost use Rattle.directive_machine.specs.Moves.{action_of};
ghost use Rattle.directive_machine.specs.State.{stopped, begun, on_ok, counted, given_out};
ghost use Rattle.directive_machine.specs.Words.{handed_token, handed_at, like, rest_of_row, row_of, value_tokens, placed, substituted, is_defined, is_bound_by, truth, handed_truth, begun_defined, commas, arguments, argued, argued_part, may_hold, is_braced, list_argued, word_argued, argument, first_argument, call_of, is_misfit, calling, begun_call, begun_bound};
ghost use Rattle.scope_tables.specs.Names.{found, entered};
ghost use Rattle.directive_machine.specs.Carried.{state_of};
ghost use Rattle.directive_machine.specs.declared.stop.Stop.TheVariants.{NoMemory};

use crate::blocks::{is_closed, is_piece_closed, listed, piece};
use crate::machine::{Machine, is_aside, wrong};
use crate::part::{Call, Lead, Part, Then};
use crate::stop::Stop;
use fix_math::{Fix, Str};
use scene_expr::Value;
use scene_lexer::{Kind, Token};
use scope_tables::{Binding, Macro};
use std::alloc::{AllocError, Global};
use text_structure::{Closer, Known, Mark, Written, is_word, sign_at};

/// A token that has the place of another one.
#[inline(always)]
fn like(token: &Token, kind: Kind) -> Token
    ensures { result ≡ like token.now kind }
{
    Token {
        kind,
        place: token.place,
        to: token.to,
    }
}

/// The fault of a token that the flat list has no room for.
#[cold]
fn full(token: &Token) -> Stop
    ensures { result ≡ Stop.Limit 2 token.now.place }
{
    Stop::Limit {
        which: 2,
        place: token.place,
    }
}

/// A sign is handed out.
#[inline(always)]
fn put_sign(machine: &mut Machine, token: &Token, code: u8) -> Result<(), AllocError>
    ensures state { OnOk result (state_of machine.new ≡ given_out (like token.now (Kind.Sign code) ∷ []) (state_of machine.old)) }
    ensures same { OnErr result (state_of machine.new ≡ state_of machine.old) }
    ensures taken { machine.new.taken ≡ machine.old.taken }
    ensures said { machine.new.messages.items ≡ machine.old.messages.items }
{
    machine.put(like(token, Kind::Sign(code)))
}

/// A number is handed out.
#[inline(always)]
pub fn put_number(machine: &mut Machine, token: &Token, value: Fix) -> Result<(), AllocError>
    ensures state { OnOk result (state_of machine.new ≡ given_out (like token.now (Kind.Number value) ∷ []) (state_of machine.old)) }
    ensures same { OnErr result (state_of machine.new ≡ state_of machine.old) }
    ensures taken { machine.new.taken ≡ machine.old.taken }
    ensures said { machine.new.messages.items ≡ machine.old.messages.items }
{
    machine.put(like(token, Kind::Number(value)))
}

/// A word or a text is handed out.
#[inline(never)]
fn put_word(alloc: Global, machine: &mut Machine, token: &Token) -> Result<(), AllocError>
    ensures state { OnOk result (state_of machine.new ≡ given_out (token.now ∷ []) (state_of machine.old)) }
    ensures same { OnErr result (state_of machine.new ≡ state_of machine.old) }
    ensures taken { machine.new.taken ≡ machine.old.taken }
    ensures said { machine.new.messages.items ≡ machine.old.messages.items }
{
    let copy = token.copy(alloc)?;
    machine.put(copy)
}

/// A token is handed out as it is.
#[inline(always)]
pub fn put_copy(alloc: Global, machine: &mut Machine, token: &Token) -> Result<(), AllocError>
    ensures state { OnOk result (state_of machine.new ≡ given_out (token.now ∷ []) (state_of machine.old)) }
    ensures same { OnErr result (state_of machine.new ≡ state_of machine.old) }
    ensures taken { machine.new.taken ≡ machine.old.taken }
    ensures said { machine.new.messages.items ≡ machine.old.messages.items }
{
    match &token.kind {
        Kind::Sign(code) => put_sign(machine, token, *code),
        Kind::Number(value) => put_number(machine, token, *value),
        Kind::Word(_) => put_word(alloc, machine, token),
        Kind::Text(_) => put_word(alloc, machine, token),
    }
}

/// Hands a token of a text out as it is.
#[inline(always)]
pub fn hand_out(
    alloc: Global,
    source: &Written,
    machine: &mut Machine,
    part: &Part,
    at: usize,
    inner: &mut Part,
) -> Result<Lead, Stop>
    requires place { at < 2 ^ 25 }
    requires taken { machine.old.taken ≤ 16777216 }
    ensures ok { IfOk result (λ action. handed_at source.now part.now at (state_of machine.old) ≡ Ok (begun (action_of action inner.new) (state_of machine.new))) }
    ensures fault { IfErr result (λ f. f ≢ NoMemory → handed_at source.now part.now at (state_of machine.old) ≡ Err (stopped f (state_of machine.new))) }
    ensures more { OnOk result (machine.old.taken ≤ machine.new.taken) }
    ensures within { OnOk result (machine.new.taken ≤ 16777216) }
    ensures said { machine.new.messages.items ≡ machine.old.messages.items }
{
    match source.token(at) {
        Some(token) => {
            if !machine.is_free(part) {
                return Err(full(token));
            }
            match put_copy(alloc, machine, token) {
                Ok(()) => Ok(Lead::Step(at + 1)),
                Err(_) => Err(Stop::NoMemory),
            }
        }
        None => Ok(Lead::Step(at + 1)),
    }
}

/// The tokens of a vector or colour, behind its first number.
fn push_rest(row: &mut Vec<Token>, token: &Token, values: &[Fix]) -> Result<(), AllocError>
    ensures { OnOk result (row.new.items ≡ row.old.items ++ rest_of_row token.now values.now) }
{
    for value in values {
        row.push(like(token, Kind::Sign(b',')))?;
        row.push(like(token, Kind::Number(*value)))?;
    }
    row.push(like(token, Kind::Sign(b'>')))?;
    Ok(())
}

fn row_of(alloc: Global, token: &Token, values: &[Fix]) -> Result<Vec<Token>, AllocError>
    ensures { IfOk result (λ row. row.items ≡ row_of token.now values.now) }
{
    let mut row = Vec::new(alloc);
    match values {
        [first, rest @ ..] => {
            row.push(like(token, Kind::Sign(b'<')))?;
            row.push(like(token, Kind::Number(*first)))?;
            push_rest(&mut row, token, rest)?;
        }
        [] => {}
    }
    Ok(row)
}

fn one_token(alloc: Global, token: Token) -> Result<Vec<Token>, AllocError>
    ensures { IfOk result (λ row. row.items ≡ token ∷ []) }
{
    let mut row = Vec::new(alloc);
    row.push(token)?;
    Ok(row)
}

/// The tokens of a value, at the place of its name.
fn value_tokens(alloc: Global, token: &Token, value: &Value) -> Result<Vec<Token>, AllocError>
    ensures { IfOk result (λ row. row.items ≡ value_tokens token.now value.now) }
{
    match value {
        Value::Float(value) => one_token(alloc, like(token, Kind::Number(*value))),
        Value::Vector(v) => row_of(alloc, token, &[v.x, v.y, v.z]),
        Value::Color(c) => row_of(alloc, token, c),
        Value::Text(text) => {
            let copy = Str::new(Vec::from_slice(alloc, text.bytes())?);
            one_token(alloc, like(token, Kind::Text(copy)))
        }
    }
}

/// The tokens of a block, at the place of its name.
fn block_tokens(alloc: Global, token: &Token, block: &[Token]) -> Result<Vec<Token>, AllocError>
    ensures { IfOk result (λ row. row.items ≡ map (placed token.now) block.now) }
{
    let mut row = Vec::new(alloc);
    for other in block {
        let copy = other.copy(alloc)?;
        row.push(like(token, copy.kind))?;
    }
    Ok(row)
}

/// Hands tokens out in the place of a name.
fn substitute(
    machine: &mut Machine,
    part: &Part,
    token: &Token,
    tokens: Vec<Token>,
    next: usize,
    inner: &mut Part,
) -> Result<Lead, Stop>
    requires taken { machine.old.taken ≤ 16777216 }
    ensures ok { IfOk result (λ action. substituted part.now next token.now tokens.items (state_of machine.old) ≡ Ok (begun (action_of action inner.new) (state_of machine.new))) }
    ensures fault { IfErr result (λ f. f ≢ NoMemory → substituted part.now next token.now tokens.items (state_of machine.old) ≡ Err (stopped f (state_of machine.new))) }
    ensures more { OnOk result (machine.old.taken ≤ machine.new.taken) }
    ensures within { OnOk result (machine.new.taken ≤ 16777216) }
    ensures said { machine.new.messages.items ≡ machine.old.messages.items }
{
    machine.give_all(part, tokens, token.place)?;
    Ok(Lead::Step(next))
}

/// A number is handed out in the place of a name.
#[inline(always)]
fn substitute_number(
    machine: &mut Machine,
    part: &Part,
    token: &Token,
    value: Fix,
    next: usize,
    inner: &mut Part,
) -> Result<Lead, Stop>
    requires taken { machine.old.taken ≤ 16777216 }
    ensures ok { IfOk result (λ action. substituted part.now next token.now (like token.now (Kind.Number value) ∷ []) (state_of machine.old) ≡ Ok (begun (action_of action inner.new) (state_of machine.new))) }
    ensures fault { IfErr result (λ f. f ≢ NoMemory → substituted part.now next token.now (like token.now (Kind.Number value) ∷ []) (state_of machine.old) ≡ Err (stopped f (state_of machine.new))) }
    ensures more { OnOk result (machine.old.taken ≤ machine.new.taken) }
    ensures within { OnOk result (machine.new.taken ≤ 16777216) }
    ensures said { machine.new.messages.items ≡ machine.old.messages.items }
{
    if !machine.is_free(part) {
        return Err(full(token));
    }
    match put_number(machine, token, value) {
        Ok(()) => Ok(Lead::Step(next)),
        Err(_) => Err(Stop::NoMemory),
    }
}

fn is_defined(source: &Written, at: usize, end: usize) -> bool
    requires { at < 2 ^ 24 }
    ensures { result ≡ is_defined source.now at end }
{
    at + 3 < end
        && sign_at(source.marks(), at + 1) == b'('
        && is_word(source.mark(at + 2))
        && sign_at(source.marks(), at + 3) == b')'
}

fn is_bound_by(machine: &Machine, mark: Option<Mark>) -> bool
    ensures { result ≡ is_bound_by mark machine.now.scopes }
{
    match mark {
        Some(Mark::Name(name)) => machine.scopes.find(name).is_some(),
        Some(Mark::Known(_)) => false,
        Some(Mark::Sign(_)) => false,
        Some(Mark::Number) => false,
        Some(Mark::Text) => false,
        None => false,
    }
}

fn truth(held: bool) -> Fix
    ensures { result ≡ truth held }
{
    if held { Fix(65536) } else { Fix(0) }
}

fn give_truth(
    source: &Written,
    machine: &mut Machine,
    part: &Part,
    held: bool,
    at: usize,
    inner: &mut Part,
) -> Result<Lead, Stop>
    requires place { at < 2 ^ 24 }
    requires taken { machine.old.taken ≤ 16777216 }
    ensures ok { IfOk result (λ action. handed_truth (slice_get source.now.tokens at) part.now held (at + 4) (state_of machine.old) ≡ Ok (begun (action_of action inner.new) (state_of machine.new))) }
    ensures fault { IfErr result (λ f. f ≢ NoMemory → handed_truth (slice_get source.now.tokens at) part.now held (at + 4) (state_of machine.old) ≡ Err (stopped f (state_of machine.new))) }
    ensures more { OnOk result (machine.old.taken ≤ machine.new.taken) }
    ensures within { OnOk result (machine.new.taken ≤ 16777216) }
    ensures said { machine.new.messages.items ≡ machine.old.messages.items }
{
    match source.token(at) {
        Some(token) => substitute_number(machine, part, token, truth(held), at + 4, inner),
        None => Ok(Lead::Step(at + 4)),
    }
}

/// `defined(N)`, or the word alone.
#[inline(never)]
pub fn begin_defined(
    alloc: Global,
    source: &Written,
    machine: &mut Machine,
    part: &Part,
    at: usize,
    inner: &mut Part,
) -> Result<Lead, Stop>
    requires place { at < 2 ^ 24 }
    requires taken { machine.old.taken ≤ 16777216 }
    ensures ok { IfOk result (λ action. begun_defined source.now part.now at (state_of machine.old) ≡ Ok (begun (action_of action inner.new) (state_of machine.new))) }
    ensures fault { IfErr result (λ f. f ≢ NoMemory → begun_defined source.now part.now at (state_of machine.old) ≡ Err (stopped f (state_of machine.new))) }
    ensures more { OnOk result (machine.old.taken ≤ machine.new.taken) }
    ensures within { OnOk result (machine.new.taken ≤ 16777216) }
    ensures said { machine.new.messages.items ≡ machine.old.messages.items }
{
    if !is_defined(source, at, part.end) {
        return hand_out(alloc, source, machine, part, at, inner);
    }
    machine.count(source, at + 1)?;
    machine.count(source, at + 2)?;
    machine.count(source, at + 3)?;
    let held = is_bound_by(machine, source.mark(at + 2));
    let action = give_truth(source, machine, part, held, at, inner)?;
    Ok(action)
}

/// How many commas divide the arguments of a call.
fn commas(source: &Written, first: usize, close: usize) -> usize
    requires place { first < 2 ^ 33 }
    ensures value { result ≡ commas source.now close close 0 first }
    ensures small { result ≤ close }
{
    let mut left = close;
    let mut count = 0;
    let mut at = first;
    'commas: while left > 0 {
        left -= 1;
        let comma = source.end(Closer::Comma, at);
        if comma >= close {
            return count;
        }
        count += 1;
        at = comma + 1;
    }
    count
}

/// How many arguments a call has.
fn arguments(source: &Written, at: usize, close: usize) -> usize
    requires place { at < 2 ^ 33 }
    requires close { close < 2 ^ 33 }
    ensures { result ≡ arguments source.now at close }
{
    if at == close {
        0
    } else {
        commas(source, at, close) + 1
    }
}

/// Writes an argument down as a part.
fn argued(
    outer: &Part,
    at: usize,
    end: usize,
    closed: bool,
    from: usize,
    then: Then,
    inner: &mut Part,
)
    ensures { inner.new ≡ argued_part outer.now at end closed from then }
{
    inner.text = outer.text;
    inner.at = at;
    inner.end = end;
    inner.from = from;
    inner.depth = outer.depth;
    inner.closed = closed;
    inner.outer = outer.outer;
    inner.then = then;
}

fn may_hold(mark: Option<Mark>) -> bool
    ensures { result ≡ may_hold mark }
{
    match mark {
        Some(Mark::Name(_)) => true,
        Some(Mark::Known(Known::Block)) => true,
        Some(Mark::Known(Known::Directive(_))) => false,
        Some(Mark::Known(Known::Colour)) => false,
        Some(Mark::Known(Known::Defined)) => false,
        Some(Mark::Known(Known::Other)) => false,
        Some(Mark::Sign(_)) => false,
        Some(Mark::Number) => false,
        Some(Mark::Text) => false,
        None => false,
    }
}

/// Whether an argument is a word and its braces.
fn is_braced(source: &Written, at: usize, end: usize) -> bool
    requires { at < 2 ^ 33 }
    ensures { result ≡ is_braced source.now at end }
{
    may_hold(source.mark(at))
        && sign_at(source.marks(), at + 1) == b'{'
        && source.end(Closer::Brace, at + 2) + 1 == end
}

fn list_argued(
    source: &Written,
    machine: &Machine,
    outer: &Part,
    call: &Call,
    at: usize,
    end: usize,
    closed: bool,
    inner: &mut Part,
)
    requires { at < 2 ^ 33 }
    ensures { list_argued source.now outer.now call.now at end closed (state_of machine.now) ≡ Ok (record { part = inner.new; state = state_of machine.now }) }
{
    if is_braced(source, at, end) {
        argued(
            outer,
            at,
            end,
            closed,
            machine.given(),
            Then::Give(*call),
            inner,
        );
    } else {
        argued(
            outer,
            at,
            end,
            closed,
            machine.given(),
            Then::Pass(*call),
            inner,
        );
    }
}

/// A reference is taken.
fn refer(
    source: &Written,
    machine: &mut Machine,
    outer: &Part,
    call: &Call,
    name: usize,
    at: usize,
    end: usize,
    closed: bool,
    inner: &mut Part,
) -> Result<(), Stop>
    requires taken { machine.old.taken ≤ 16777216 }
    ensures ok { OnOk result (on_ok (counted source.now at (state_of machine.old)) (argued outer.now end end closed (Then.Refer call.now name)) ≡ Ok (record { part = inner.new; state = state_of machine.new })) }
    ensures fault { IfErr result (λ f. on_ok (counted source.now at (state_of machine.old)) (argued outer.now end end closed (Then.Refer call.now name)) ≡ Err (stopped f (state_of machine.new))) }
    ensures more { OnOk result (machine.old.taken ≤ machine.new.taken) }
    ensures within { OnOk result (machine.new.taken ≤ 16777216) }
    ensures said { machine.new.messages.items ≡ machine.old.messages.items }
{
    machine.count(source, at)?;
    argued(
        outer,
        end,
        end,
        closed,
        machine.given(),
        Then::Refer(*call, name),
        inner,
    );
    Ok(())
}

fn word_argued(
    source: &Written,
    machine: &mut Machine,
    outer: &Part,
    call: &Call,
    at: usize,
    end: usize,
    closed: bool,
    inner: &mut Part,
) -> Result<(), Stop>
    requires place { at < 2 ^ 33 }
    requires taken { machine.old.taken ≤ 16777216 }
    ensures ok { OnOk result (word_argued (slice_get source.now.marks at) source.now outer.now call.now at end closed (state_of machine.old) ≡ Ok (record { part = inner.new; state = state_of machine.new })) }
    ensures fault { IfErr result (λ f. word_argued (slice_get source.now.marks at) source.now outer.now call.now at end closed (state_of machine.old) ≡ Err (stopped f (state_of machine.new))) }
    ensures more { OnOk result (machine.old.taken ≤ machine.new.taken) }
    ensures within { OnOk result (machine.new.taken ≤ 16777216) }
    ensures said { machine.new.messages.items ≡ machine.old.messages.items }
{
    match source.mark(at) {
        Some(Mark::Name(name)) => {
            if at + 1 == end {
                refer(source, machine, outer, call, name, at, end, closed, inner)
            } else {
                list_argued(source, machine, outer, call, at, end, closed, inner);
                Ok(())
            }
        }
        Some(Mark::Known(_)) => {
            list_argued(source, machine, outer, call, at, end, closed, inner);
            Ok(())
        },
        Some(Mark::Sign(_)) => {
            list_argued(source, machine, outer, call, at, end, closed, inner);
            Ok(())
        },
        Some(Mark::Number) => {
            list_argued(source, machine, outer, call, at, end, closed, inner);
            Ok(())
        },
        Some(Mark::Text) => {
            list_argued(source, machine, outer, call, at, end, closed, inner);
            Ok(())
        },
        None => {
            list_argued(source, machine, outer, call, at, end, closed, inner);
            Ok(())
        },
    }
}

/// The argument of a call that begins at a place, as a part with the text, the depth and the side of another one.
pub fn argument(
    source: &Written,
    machine: &mut Machine,
    outer: &Part,
    call: &Call,
    at: usize,
    inner: &mut Part,
) -> Result<(), Stop>
    requires place { at < 2 ^ 33 }
    requires taken { machine.old.taken ≤ 16777216 }
    ensures ok { OnOk result (argument source.now outer.now call.now at (state_of machine.old) ≡ Ok (record { part = inner.new; state = state_of machine.new })) }
    ensures fault { IfErr result (λ f. argument source.now outer.now call.now at (state_of machine.old) ≡ Err (stopped f (state_of machine.new))) }
    ensures more { OnOk result (machine.old.taken ≤ machine.new.taken) }
    ensures within { OnOk result (machine.new.taken ≤ 16777216) }
    ensures said { machine.new.messages.items ≡ machine.old.messages.items }
{
    let end = piece(source, at, call.close).end;
    let closed = is_piece_closed(source, at, call.close, call.closed);
    word_argued(source, machine, outer, call, at, end, closed, inner)
}

fn first_argument(
    source: &Written,
    machine: &mut Machine,
    outer: &Part,
    call: &Call,
    at: usize,
    inner: &mut Part,
) -> Result<(), Stop>
    requires place { at < 2 ^ 33 }
    requires taken { machine.old.taken ≤ 16777216 }
    ensures ok { OnOk result (first_argument source.now outer.now call.now at (state_of machine.old) ≡ Ok (record { part = inner.new; state = state_of machine.new })) }
    ensures fault { IfErr result (λ f. first_argument source.now outer.now call.now at (state_of machine.old) ≡ Err (stopped f (state_of machine.new))) }
    ensures more { OnOk result (machine.old.taken ≤ machine.new.taken) }
    ensures within { OnOk result (machine.new.taken ≤ 16777216) }
    ensures said { machine.new.messages.items ≡ machine.old.messages.items }
{
    if at == call.close {
        argued(
            outer,
            at,
            at,
            call.closed,
            machine.given(),
            Then::Enter(*call),
            inner,
        );
        Ok(())
    } else {
        argument(source, machine, outer, call, at, inner)
    }
}

fn call_of(source: &Written, called: Macro, at: usize, end: usize) -> Call
    requires { at < 2 ^ 33 }
    ensures value { result ≡ call_of source.now called at end }
    ensures small { result.close ≤ 2 ^ 32 }
{
    Call {
        called,
        index: 0,
        close: listed(source, at, end).end,
        closed: is_closed(source, at, end),
    }
}

/// Whether a call that is written whole has another number of arguments than its macro.
fn is_misfit(source: &Written, called: Macro, at: usize, end: usize) -> bool
    requires { at < 2 ^ 24 }
    ensures { result ≡ is_misfit source.now called at end }
{
    at + 1 < end
        && sign_at(source.marks(), at + 1) == b'('
        && is_closed(source, at + 2, end)
        && arguments(source, at + 2, listed(source, at + 2, end).end) != called.count
}

fn calling(part: &Part, inside: u32) -> Part
    ensures { result ≡ calling part.now inside }
{
    Part {
        text: part.text,
        depth: inside,
        at: part.at,
        end: part.end,
        closed: part.closed,
        from: part.from,
        outer: is_aside(part),
        then: part.then,
    }
}

/// The scope of a call is begun.
fn wait(machine: &mut Machine) -> Result<(), Stop>
    ensures ok { OnOk result (state_of machine.new ≡ record (state_of machine.old) { waiting = entered machine.old.waiting }) }
    ensures fault { IfErr result (λ f. f ≡ NoMemory) }
    ensures said { machine.new.messages.items ≡ machine.old.messages.items }
{
    if machine.waiting.enter().is_err() {
        return Err(Stop::NoMemory);
    }
    Ok(())
}

/// A call: its `(`, and then its first argument.
fn begin_call(
    source: &Written,
    machine: &mut Machine,
    part: &Part,
    at: usize,
    called: Macro,
    inner: &mut Part,
) -> Result<Lead, Stop>
    requires place { at < 2 ^ 24 }
    requires taken { machine.old.taken ≤ 16777216 }
    ensures ok { IfOk result (λ action. begun_call source.now part.now at called (state_of machine.old) ≡ Ok (begun (action_of action inner.new) (state_of machine.new))) }
    ensures fault { IfErr result (λ f. f ≢ NoMemory → begun_call source.now part.now at called (state_of machine.old) ≡ Err (stopped f (state_of machine.new))) }
    ensures more { OnOk result (machine.old.taken ≤ machine.new.taken) }
    ensures within { OnOk result (machine.new.taken ≤ 16777216) }
    ensures said { machine.new.messages.items ≡ machine.old.messages.items }
{
    let inside = machine.deeper(source, at, part.depth)?;
    if is_misfit(source, called, at, part.end) {
        return Err(wrong(6, source, at));
    }
    machine.pass(b'(', source, at + 1, part.end)?;
    wait(machine)?;
    let call = call_of(source, called, at + 2, part.end);
    let outer = calling(part, inside);
    first_argument(source, machine, &outer, &call, at + 2, inner)?;
    Ok(Lead::Open(call.close + 1))
}

/// A name is handed out, or what it is bound to.
#[inline(always)]
pub fn begin_name(
    alloc: Global,
    source: &Written,
    machine: &mut Machine,
    part: &Part,
    name: usize,
    at: usize,
    inner: &mut Part,
) -> Result<Lead, Stop>
    requires place { at < 2 ^ 24 }
    requires taken { machine.old.taken ≤ 16777216 }
    ensures ok { IfOk result (λ action. begun_bound (found machine.old.scopes name) source.now part.now at (slice_get source.now.tokens at) (state_of machine.old) ≡ Ok (begun (action_of action inner.new) (state_of machine.new))) }
    ensures fault { IfErr result (λ f. f ≢ NoMemory → begun_bound (found machine.old.scopes name) source.now part.now at (slice_get source.now.tokens at) (state_of machine.old) ≡ Err (stopped f (state_of machine.new))) }
    ensures more { OnOk result (machine.old.taken ≤ machine.new.taken) }
    ensures within { OnOk result (machine.new.taken ≤ 16777216) }
    ensures said { machine.new.messages.items ≡ machine.old.messages.items }
{
    match machine.scopes.find(name) {
        Some(Binding::Value(Value::Float(value))) => {
            let value = *value;
            begin_number(alloc, source, machine, part, value, at, inner)
        }
        Some(_) => begin_bound(alloc, source, machine, part, name, at, inner),
        None => hand_out(alloc, source, machine, part, at, inner),
    }
}

/// A name that isn't one of a number.
#[inline(never)]
fn begin_bound(
    alloc: Global,
    source: &Written,
    machine: &mut Machine,
    part: &Part,
    name: usize,
    at: usize,
    inner: &mut Part,
) -> Result<Lead, Stop>
    requires place { at < 2 ^ 24 }
    requires taken { machine.old.taken ≤ 16777216 }
    ensures ok { IfOk result (λ action. begun_bound (found machine.old.scopes name) source.now part.now at (slice_get source.now.tokens at) (state_of machine.old) ≡ Ok (begun (action_of action inner.new) (state_of machine.new))) }
    ensures fault { IfErr result (λ f. f ≢ NoMemory → begun_bound (found machine.old.scopes name) source.now part.now at (slice_get source.now.tokens at) (state_of machine.old) ≡ Err (stopped f (state_of machine.new))) }
    ensures more { OnOk result (machine.old.taken ≤ machine.new.taken) }
    ensures within { OnOk result (machine.new.taken ≤ 16777216) }
    ensures said { machine.new.messages.items ≡ machine.old.messages.items }
{
    match machine.scopes.find(name) {
        Some(Binding::Value(value)) => match source.token(at) {
            Some(token) => match value_tokens(alloc, token, value) {
                Ok(tokens) => substitute(machine, part, token, tokens, at + 1, inner),
                Err(_) => Err(Stop::NoMemory),
            },
            None => hand_out(alloc, source, machine, part, at, inner),
        },
        Some(Binding::Block(block)) => match source.token(at) {
            Some(token) => match block_tokens(alloc, token, block.tokens()) {
                Ok(tokens) => substitute(machine, part, token, tokens, at + 1, inner),
                Err(_) => Err(Stop::NoMemory),
            },
            None => hand_out(alloc, source, machine, part, at, inner),
        },
        Some(Binding::Macro(called)) => {
            let called = *called;
            begin_call(source, machine, part, at, called, inner)
        }
        Some(Binding::Reference(_)) => hand_out(alloc, source, machine, part, at, inner),
        None => hand_out(alloc, source, machine, part, at, inner),
    }
}

/// A name of a number.
#[inline(always)]
fn begin_number(
    alloc: Global,
    source: &Written,
    machine: &mut Machine,
    part: &Part,
    value: Fix,
    at: usize,
    inner: &mut Part,
) -> Result<Lead, Stop>
    requires place { at < 2 ^ 24 }
    requires taken { machine.old.taken ≤ 16777216 }
    ensures ok { IfOk result (λ action. begun_bound (Some (Binding.Value (Value.Float value))) source.now part.now at (slice_get source.now.tokens at) (state_of machine.old) ≡ Ok (begun (action_of action inner.new) (state_of machine.new))) }
    ensures fault { IfErr result (λ f. f ≢ NoMemory → begun_bound (Some (Binding.Value (Value.Float value))) source.now part.now at (slice_get source.now.tokens at) (state_of machine.old) ≡ Err (stopped f (state_of machine.new))) }
    ensures more { OnOk result (machine.old.taken ≤ machine.new.taken) }
    ensures within { OnOk result (machine.new.taken ≤ 16777216) }
    ensures said { machine.new.messages.items ≡ machine.old.messages.items }
{
    match source.token(at) {
        Some(token) => substitute_number(machine, part, token, value, at + 1, inner),
        None => hand_out(alloc, source, machine, part, at, inner),
    }
}
