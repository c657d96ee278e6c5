// The heads of `#if` and its kin, of loops and of `#switch`.
ghost use Rattle.std.specs.Prelude.{◌≡◌, ◌≢◌, ◌<◌, ◌≤◌, ◌^◌, Ok, Err, IfOk, IfErr, OnOk};
ghost use Rattle.directive_machine.specs.Moves.{action_of};
ghost use Rattle.directive_machine.specs.State.{stopped, begun};
ghost use Rattle.directive_machine.specs.Begins.{opened, opened_body, listed, is_closed, otherwise, begun_if, begun_ifdef, is_bound, is_held, chosen, circle, begun_while, piece, is_piece_closed, turns, begun_for, begun_switch};
ghost use Rattle.directive_machine.specs.Carried.{state_of};
ghost use Rattle.directive_machine.specs.declared.stop.Stop.TheVariants.{NoMemory};

use crate::machine::{Machine, is_aside};
use crate::part::{Circle, Lead, Part, Span, Then, Turns};
use crate::stop::Stop;
use text_structure::{Closer, Directive, Written, directive_at};

/// A part that a token of another one opens.
pub fn opened(
    outer: &Part,
    depth: u32,
    list: Span,
    closed: bool,
    from: usize,
    then: Then,
    behind: usize,
    inner: &mut Part,
) -> Lead
    ensures { action_of result inner.new ≡ opened outer.now depth list closed from then behind }
{
    inner.text = outer.text;
    inner.at = list.at;
    inner.end = list.end;
    inner.from = from;
    inner.depth = depth;
    inner.closed = closed;
    inner.outer = is_aside(outer);
    inner.then = then;
    Lead::Open(behind)
}

/// A list behind a `(`, up to its `)` or the end of what it stands in.
pub fn listed(source: &Written, at: usize, limit: usize) -> Span
    ensures value { result ≡ listed source.now at limit }
    ensures small { result.end ≤ 2 ^ 32 }
{
    Span {
        at,
        end: source.end(Closer::Parenthesis, at).min(limit),
    }
}

pub fn is_closed(source: &Written, at: usize, limit: usize) -> bool
    ensures { result ≡ is_closed source.now at limit }
{
    source.end(Closer::Parenthesis, at) < limit
}

/// The body behind an `#else` at a place; none where no `#else` stands there.
pub fn otherwise(source: &Written, at: usize) -> Span
    requires { at < 2 ^ 59 }
    ensures { result ≡ otherwise source.now at }
{
    if directive_at(source.marks(), at) == Some(Directive::Else) {
        Span {
            at: at + 2,
            end: source.end(Closer::Branch, at + 2),
        }
    } else {
        Span { at, end: at }
    }
}

/// A body that is run next.
pub fn body(outer: &Part, depth: u32, list: Span, behind: usize, inner: &mut Part) -> Lead
    ensures { action_of result inner.new ≡ opened_body outer.now depth list behind }
{
    opened(outer, depth, list, false, 0, Then::Plain, behind, inner)
}

/// An `#if`: its `(`, and then its condition.
pub fn begin_if(
    source: &Written,
    machine: &mut Machine,
    part: &Part,
    at: usize,
    inner: &mut Part,
) -> Result<Lead, Stop>
    requires place { at < 2 ^ 24 }
    requires taken { machine.old.taken ≤ 16777216 }
    ensures ok { IfOk result (λ action. begun_if source.now part.now at (state_of machine.old) ≡ Ok (begun (action_of action inner.new) (state_of machine.new))) }
    ensures fault { IfErr result (λ f. begun_if source.now part.now at (state_of machine.old) ≡ Err (stopped f (state_of machine.new))) }
    ensures more { OnOk result (machine.old.taken ≤ machine.new.taken) }
    ensures within { OnOk result (machine.new.taken ≤ 16777216) }
    ensures said { machine.new.messages.items ≡ machine.old.messages.items }
{
    let inside = machine.deeper(source, at, part.depth)?;
    machine.count(source, at + 1)?;
    let limit = source.end(Closer::Branch, at + 2);
    machine.pass(b'(', source, at + 2, limit)?;
    let list = listed(source, at + 3, limit);
    let then = Then::Decide {
        held: Span {
            at: list.end + 1,
            end: limit,
        },
        otherwise: otherwise(source, limit),
    };
    Ok(opened(
        part,
        inside,
        list,
        is_closed(source, at + 3, limit),
        machine.given(),
        then,
        source.end(Closer::End, at + 2) + 2,
        inner,
    ))
}

pub fn chosen(held: bool, first: Span, second: Span) -> Span
    ensures { result ≡ chosen held first second }
{
    if held { first } else { second }
}

fn is_bound(machine: &Machine, name: Option<usize>) -> bool
    ensures { result ≡ is_bound machine.now.scopes name }
{
    match name {
        Some(name) => machine.scopes.find(name).is_some(),
        None => false,
    }
}

/// Whether a name is bound, or isn't, as is wanted.
fn is_held(machine: &Machine, name: Option<usize>, wanted: bool) -> bool
    ensures { result ≡ is_held machine.now.scopes name wanted }
{
    if wanted {
        is_bound(machine, name)
    } else {
        !is_bound(machine, name)
    }
}

/// An `#ifdef` or `#ifndef`: one of its bodies follows.
pub fn begin_ifdef(
    source: &Written,
    machine: &mut Machine,
    part: &Part,
    wanted: bool,
    at: usize,
    inner: &mut Part,
) -> Result<Lead, Stop>
    requires place { at < 2 ^ 24 }
    requires taken { machine.old.taken ≤ 16777216 }
    ensures ok { IfOk result (λ action. begun_ifdef source.now part.now wanted at (state_of machine.old) ≡ Ok (begun (action_of action inner.new) (state_of machine.new))) }
    ensures fault { IfErr result (λ f. begun_ifdef source.now part.now wanted at (state_of machine.old) ≡ Err (stopped f (state_of machine.new))) }
    ensures more { OnOk result (machine.old.taken ≤ machine.new.taken) }
    ensures within { OnOk result (machine.new.taken ≤ 16777216) }
    ensures said { machine.new.messages.items ≡ machine.old.messages.items }
{
    let inside = machine.deeper(source, at, part.depth)?;
    machine.count(source, at + 1)?;
    let limit = source.end(Closer::Branch, at + 2);
    machine.pass(b'(', source, at + 2, limit)?;
    let name = machine.ask(source, at + 3, limit)?;
    machine.pass(b')', source, at + 4, limit)?;
    let held = is_held(machine, name, wanted);
    let first = Span {
        at: at + 5,
        end: limit,
    };
    let list = chosen(held, first, otherwise(source, limit));
    Ok(body(
        part,
        inside,
        list,
        source.end(Closer::End, at + 2) + 2,
        inner,
    ))
}

/// A `#while` as it stands in its text.
fn circle(source: &Written, at: usize) -> Circle
    requires { at < 2 ^ 24 }
    ensures { result ≡ circle source.now at }
{
    let end = source.end(Closer::End, at + 2);
    let condition = listed(source, at + 3, end);
    Circle {
        sign: at + 2,
        condition,
        closed: is_closed(source, at + 3, end),
        body: Span {
            at: condition.end + 1,
            end,
        },
    }
}

/// A `#while`: its `(`, and then its condition.
pub fn begin_while(
    source: &Written,
    machine: &mut Machine,
    part: &Part,
    at: usize,
    inner: &mut Part,
) -> Result<Lead, Stop>
    requires place { at < 2 ^ 24 }
    requires taken { machine.old.taken ≤ 16777216 }
    ensures ok { IfOk result (λ action. begun_while source.now part.now at (state_of machine.old) ≡ Ok (begun (action_of action inner.new) (state_of machine.new))) }
    ensures fault { IfErr result (λ f. begun_while source.now part.now at (state_of machine.old) ≡ Err (stopped f (state_of machine.new))) }
    ensures more { OnOk result (machine.old.taken ≤ machine.new.taken) }
    ensures within { OnOk result (machine.new.taken ≤ 16777216) }
    ensures said { machine.new.messages.items ≡ machine.old.messages.items }
{
    let inside = machine.deeper(source, at, part.depth)?;
    machine.count(source, at + 1)?;
    let circle = circle(source, at);
    machine.pass(b'(', source, at + 2, source.end(Closer::End, at + 2))?;
    Ok(opened(
        part,
        inside,
        circle.condition,
        circle.closed,
        machine.given(),
        Then::Test(circle),
        source.end(Closer::End, at + 2) + 2,
        inner,
    ))
}

/// One of several lists that commas divide.
pub fn piece(source: &Written, at: usize, close: usize) -> Span
    ensures { result ≡ piece source.now at close }
{
    Span {
        at,
        end: source.end(Closer::Comma, at).min(close),
    }
}

/// Whether a comma or the closer of all ends one of several lists.
pub fn is_piece_closed(source: &Written, at: usize, close: usize, closed: bool) -> bool
    ensures { result ≡ is_piece_closed source.now at close closed }
{
    closed || source.end(Closer::Comma, at) < close
}

/// A `#for` as it stands in its text.
fn turns(source: &Written, name: usize, at: usize) -> Turns
    requires { at < 2 ^ 24 }
    ensures { result ≡ turns source.now name at }
{
    let end = source.end(Closer::End, at + 2);
    let list = listed(source, at + 3, end);
    Turns {
        name,
        word: at + 1,
        close: list.end,
        closed: is_closed(source, at + 3, end),
        body: Span {
            at: list.end + 1,
            end,
        },
    }
}

/// A `#for`: its `(`, its variable and a comma, and then its first number.
pub fn begin_for(
    source: &Written,
    machine: &mut Machine,
    part: &Part,
    at: usize,
    inner: &mut Part,
) -> Result<Lead, Stop>
    requires place { at < 2 ^ 24 }
    requires taken { machine.old.taken ≤ 16777216 }
    ensures ok { IfOk result (λ action. begun_for source.now part.now at (state_of machine.old) ≡ Ok (begun (action_of action inner.new) (state_of machine.new))) }
    ensures fault { IfErr result (λ f. begun_for source.now part.now at (state_of machine.old) ≡ Err (stopped f (state_of machine.new))) }
    ensures more { OnOk result (machine.old.taken ≤ machine.new.taken) }
    ensures within { OnOk result (machine.new.taken ≤ 16777216) }
    ensures said { machine.new.messages.items ≡ machine.old.messages.items }
{
    let inside = machine.deeper(source, at, part.depth)?;
    machine.count(source, at + 1)?;
    let end = source.end(Closer::End, at + 2);
    machine.pass(b'(', source, at + 2, end)?;
    let name = machine.name(source, at + 3, end)?;
    machine.pass(b',', source, at + 4, end)?;
    let turns = turns(source, name, at);
    Ok(opened(
        part,
        inside,
        piece(source, at + 5, turns.close),
        is_piece_closed(source, at + 5, turns.close, turns.closed),
        machine.given(),
        Then::From(turns),
        end + 2,
        inner,
    ))
}

/// A `#switch`: its `(`, and then its value.
pub fn begin_switch(
    source: &Written,
    machine: &mut Machine,
    part: &Part,
    at: usize,
    inner: &mut Part,
) -> Result<Lead, Stop>
    requires place { at < 2 ^ 24 }
    requires taken { machine.old.taken ≤ 16777216 }
    ensures ok { IfOk result (λ action. begun_switch source.now part.now at (state_of machine.old) ≡ Ok (begun (action_of action inner.new) (state_of machine.new))) }
    ensures fault { IfErr result (λ f. begun_switch source.now part.now at (state_of machine.old) ≡ Err (stopped f (state_of machine.new))) }
    ensures more { OnOk result (machine.old.taken ≤ machine.new.taken) }
    ensures within { OnOk result (machine.new.taken ≤ 16777216) }
    ensures said { machine.new.messages.items ≡ machine.old.messages.items }
{
    let inside = machine.deeper(source, at, part.depth)?;
    machine.count(source, at + 1)?;
    let limit = source.end(Closer::Branch, at + 2);
    machine.pass(b'(', source, at + 2, limit)?;
    Ok(opened(
        part,
        inside,
        listed(source, at + 3, limit),
        is_closed(source, at + 3, limit),
        machine.given(),
        Then::Choose(limit),
        source.end(Closer::End, at + 2) + 2,
        inner,
    ))
}
