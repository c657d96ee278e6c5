// Declarations, macros, and the other directives without an `#end`.
ghost use Rattle.std.specs.Prelude.{◌≡◌, ◌≢◌, ◌<◌, ◌≤◌, ◌+◌, ◌^◌, Ok, Err, IfOk, IfErr, OnOk, option_map, slice_get};
ghost use Rattle.directive_machine.specs.Moves.{action_of};
ghost use Rattle.directive_machine.specs.State.{stopped, begun, counted};
ghost use Rattle.directive_machine.specs.Declares.{bound_as, has_stop, stop_taken, behind_stop, block_in, block_by, block_at, begun_block, begun_copy, begun_list, begun_side, begun_declare, unbound, begun_undef, refused_at, word_told, told_by, told, all_named, begun_name, begun_message, begun_include, is_float, is_version, version_taken, begun_version, separated, parameters, parameters_of, macro_of, begun_macro};
ghost use Rattle.directive_machine.specs.Carried.{state_of};
ghost use Rattle.directive_machine.specs.declared.stop.Stop.TheVariants.{NoMemory};

use crate::blocks::opened;
use crate::declaration::Declaration;
use crate::machine::{Machine, wrong};
use crate::part::{Lead, Part, Span, Then};
use crate::stop::Stop;
use scene_expr::Value;
use scene_lexer::Token;
use scope_tables::{Binding, Block, Macro};
use std::alloc::{AllocError, Global};
use text_structure::{Closer, Mark, Written, is_block, sign_at};

/// Binds a name as `#local` or `#declare` do.
pub fn bind(
    machine: &mut Machine,
    local: bool,
    name: usize,
    binding: Binding,
) -> Result<(), AllocError>
    ensures ok { OnOk result (state_of machine.new ≡ bound_as local name binding (state_of machine.old)) }
    ensures said { machine.new.messages.items ≡ machine.old.messages.items }
{
    if local {
        machine.scopes.bind(name, binding)?;
    } else {
        machine.scopes.declare(name, binding)?;
    }
    Ok(())
}

fn has_stop(source: &Written, at: usize, end: usize) -> bool
    ensures { result ≡ has_stop source.now at end }
{
    at < end && sign_at(source.marks(), at) == b';'
}

/// Takes a semicolon where one stands.
fn take_stop(source: &Written, machine: &mut Machine, at: usize, end: usize) -> Result<(), Stop>
    requires taken { machine.old.taken ≤ 16777216 }
    ensures ok { OnOk result (stop_taken source.now at end (state_of machine.old) ≡ Ok (state_of machine.new)) }
    ensures fault { IfErr result (λ f. stop_taken source.now at end (state_of machine.old) ≡ Err (stopped f (state_of machine.new))) }
    ensures more { OnOk result (machine.old.taken ≤ machine.new.taken) }
    ensures within { OnOk result (machine.new.taken ≤ 16777216) }
    ensures said { machine.new.messages.items ≡ machine.old.messages.items }
{
    if has_stop(source, at, end) {
        machine.count(source, at)?;
    }
    Ok(())
}

fn behind_stop(source: &Written, at: usize, end: usize) -> usize
    requires { at < 2 ^ 60 }
    ensures { result ≡ behind_stop source.now at end }
{
    if has_stop(source, at, end) {
        at + 1
    } else {
        at
    }
}

/// A block with its word, up to its brace.
fn begin_block(
    source: &Written,
    machine: &mut Machine,
    part: &Part,
    local: bool,
    name: usize,
    at: usize,
    inner: &mut Part,
) -> Result<Lead, Stop>
    requires place { at < 2 ^ 25 }
    requires taken { machine.old.taken ≤ 16777216 }
    ensures ok { IfOk result (λ action. begun_block source.now part.now local name at (state_of machine.old) ≡ Ok (begun (action_of action inner.new) (state_of machine.new))) }
    ensures fault { IfErr result (λ f. begun_block source.now part.now local name at (state_of machine.old) ≡ Err (stopped f (state_of machine.new))) }
    ensures more { OnOk result (machine.old.taken ≤ machine.new.taken) }
    ensures within { OnOk result (machine.new.taken ≤ 16777216) }
    ensures said { machine.new.messages.items ≡ machine.old.messages.items }
{
    let brace = source.end(Closer::Brace, at + 2);
    let list = Span {
        at,
        end: (brace + 1).min(part.end),
    };
    let then = Then::Hold {
        name,
        local,
        stop: has_stop(source, brace + 1, part.end),
    };
    let behind = behind_stop(source, brace + 1, part.end);
    Ok(opened(
        part,
        part.depth,
        list,
        brace < part.end,
        machine.given(),
        then,
        behind,
        inner,
    ))
}

/// The block that the name at a place is bound to.
#[inline(always)]
pub fn block_at<'a>(source: &Written, machine: &'a Machine, at: usize) -> Option<&'a [Token]>
    ensures { option_map (λ block. block.now) result ≡ block_at source.now at machine.now.scopes }
{
    match source.mark(at) {
        Some(Mark::Name(name)) => match machine.scopes.find(name) {
            Some(Binding::Block(block)) => Some(block.tokens()),
            Some(Binding::Value(_)) => None,
            Some(Binding::Macro(_)) => None,
            Some(Binding::Reference(_)) => None,
            None => None,
        },
        Some(Mark::Known(_)) => None,
        Some(Mark::Sign(_)) => None,
        Some(Mark::Number) => None,
        Some(Mark::Text) => None,
        None => None,
    }
}

/// The same tokens again.
pub fn copied(alloc: Global, tokens: &[Token]) -> Result<Vec<Token>, AllocError>
    ensures { IfOk result (λ copy. copy.items ≡ tokens.now) }
{
    let mut copy = Vec::new(alloc);
    for token in tokens {
        copy.push(token.copy(alloc)?)?;
    }
    Ok(copy)
}

/// A bare name of a block, which ends the right side.
fn begin_copy(
    source: &Written,
    machine: &mut Machine,
    part: &Part,
    local: bool,
    name: usize,
    at: usize,
    block: Vec<Token>,
    inner: &mut Part,
) -> Result<Lead, Stop>
    requires place { at < 2 ^ 25 }
    requires taken { machine.old.taken ≤ 16777216 }
    ensures ok { IfOk result (λ action. begun_copy source.now part.now local name at block.items (state_of machine.old) ≡ Ok (begun (action_of action inner.new) (state_of machine.new))) }
    ensures fault { IfErr result (λ f. f ≢ NoMemory → begun_copy source.now part.now local name at block.items (state_of machine.old) ≡ Err (stopped f (state_of machine.new))) }
    ensures more { OnOk result (machine.old.taken ≤ machine.new.taken) }
    ensures within { OnOk result (machine.new.taken ≤ 16777216) }
    ensures said { machine.new.messages.items ≡ machine.old.messages.items }
{
    machine.count(source, at)?;
    take_stop(source, machine, at + 1, part.end)?;
    bind_in(machine, local, name, Binding::Block(Block::new(block)))?;
    Ok(Lead::Step(behind_stop(source, at + 1, part.end)))
}

/// Binds a name; its only fault is want of memory.
pub fn bind_in(
    machine: &mut Machine,
    local: bool,
    name: usize,
    binding: Binding,
) -> Result<(), Stop>
    ensures ok { OnOk result (state_of machine.new ≡ bound_as local name binding (state_of machine.old)) }
    ensures fault { IfErr result (λ f. f ≡ NoMemory) }
    ensures said { machine.new.messages.items ≡ machine.old.messages.items }
{
    if bind(machine, local, name, binding).is_err() {
        return Err(Stop::NoMemory);
    }
    Ok(())
}

/// Every other right side runs to its semicolon.
#[inline(always)]
pub fn open_list(
    source: &Written,
    machine: &Machine,
    part: &Part,
    declaration: Declaration,
    at: usize,
    inner: &mut Part,
) -> Lead
    requires { at < 2 ^ 25 }
    ensures { begun_list source.now part.now declaration.local declaration.name at (state_of machine.now) ≡ Ok (begun (action_of result inner.new) (state_of machine.now)) }
{
    let Declaration { name, local } = declaration;
    let end = source.end(Closer::Semicolon, at);
    let list = Span {
        at,
        end: end.min(part.end),
    };
    opened(
        part,
        part.depth,
        list,
        end < part.end,
        machine.given(),
        Then::Bind { name, local },
        end + 1,
        inner,
    )
}

/// A right side that begins with no block's word.
fn begin_name(
    alloc: Global,
    source: &Written,
    machine: &mut Machine,
    part: &Part,
    local: bool,
    name: usize,
    at: usize,
    inner: &mut Part,
) -> Result<Lead, Stop>
    requires place { at < 2 ^ 25 }
    requires taken { machine.old.taken ≤ 16777216 }
    ensures ok { IfOk result (λ action. begun_name source.now part.now local name at (block_at source.now at machine.old.scopes) (state_of machine.old) ≡ Ok (begun (action_of action inner.new) (state_of machine.new))) }
    ensures fault { IfErr result (λ f. f ≢ NoMemory → begun_name source.now part.now local name at (block_at source.now at machine.old.scopes) (state_of machine.old) ≡ Err (stopped f (state_of machine.new))) }
    ensures more { OnOk result (machine.old.taken ≤ machine.new.taken) }
    ensures within { OnOk result (machine.new.taken ≤ 16777216) }
    ensures said { machine.new.messages.items ≡ machine.old.messages.items }
{
    match block_at(source, machine, at) {
        Some(block) => match copied(alloc, block) {
            Ok(copy) => begin_copy(source, machine, part, local, name, at, copy, inner),
            Err(_) => Err(Stop::NoMemory),
        },
        None => Ok(open_list(
            source,
            machine,
            part,
            Declaration { name, local },
            at,
            inner,
        )),
    }
}

fn begin_side(
    alloc: Global,
    source: &Written,
    machine: &mut Machine,
    part: &Part,
    local: bool,
    name: usize,
    at: usize,
    inner: &mut Part,
) -> Result<Lead, Stop>
    requires place { at < 2 ^ 25 }
    requires taken { machine.old.taken ≤ 16777216 }
    ensures ok { IfOk result (λ action. begun_side source.now part.now local name at (state_of machine.old) ≡ Ok (begun (action_of action inner.new) (state_of machine.new))) }
    ensures fault { IfErr result (λ f. f ≢ NoMemory → begun_side source.now part.now local name at (state_of machine.old) ≡ Err (stopped f (state_of machine.new))) }
    ensures more { OnOk result (machine.old.taken ≤ machine.new.taken) }
    ensures within { OnOk result (machine.new.taken ≤ 16777216) }
    ensures said { machine.new.messages.items ≡ machine.old.messages.items }
{
    if is_block(source.marks(), at) {
        begin_block(source, machine, part, local, name, at, inner)
    } else if at < part.end {
        begin_name(alloc, source, machine, part, local, name, at, inner)
    } else {
        Ok(open_list(
            source,
            machine,
            part,
            Declaration { name, local },
            at,
            inner,
        ))
    }
}

/// A `#declare` or `#local`: its name, its `=` and its right side.
pub fn begin_declare(
    alloc: Global,
    source: &Written,
    machine: &mut Machine,
    part: &Part,
    local: bool,
    at: usize,
    inner: &mut Part,
) -> Result<Lead, Stop>
    requires place { at < 2 ^ 24 }
    requires taken { machine.old.taken ≤ 16777216 }
    ensures ok { IfOk result (λ action. begun_declare source.now part.now local at (state_of machine.old) ≡ Ok (begun (action_of action inner.new) (state_of machine.new))) }
    ensures fault { IfErr result (λ f. f ≢ NoMemory → begun_declare source.now part.now local at (state_of machine.old) ≡ Err (stopped f (state_of machine.new))) }
    ensures more { OnOk result (machine.old.taken ≤ machine.new.taken) }
    ensures within { OnOk result (machine.new.taken ≤ 16777216) }
    ensures said { machine.new.messages.items ≡ machine.old.messages.items }
{
    machine.count(source, at + 1)?;
    let name = machine.name(source, at + 2, part.end)?;
    machine.pass(b'=', source, at + 3, part.end)?;
    let action = begin_side(alloc, source, machine, part, local, name, at + 4, inner)?;
    Ok(action)
}

fn unbind(machine: &mut Machine, name: Option<usize>)
    ensures state { state_of machine.new ≡ unbound name (state_of machine.old) }
    ensures taken { machine.new.taken ≡ machine.old.taken }
    ensures said { machine.new.messages.items ≡ machine.old.messages.items }
{
    match name {
        Some(name) => machine.scopes.remove(name),
        None => {}
    }
}

/// An `#undef`.
pub fn begin_undef(
    source: &Written,
    machine: &mut Machine,
    part: &Part,
    at: usize,
    inner: &mut Part,
) -> Result<Lead, Stop>
    requires place { at < 2 ^ 24 }
    requires taken { machine.old.taken ≤ 16777216 }
    ensures ok { IfOk result (λ action. begun_undef source.now part.now at (state_of machine.old) ≡ Ok (begun (action_of action inner.new) (state_of machine.new))) }
    ensures fault { IfErr result (λ f. begun_undef source.now part.now at (state_of machine.old) ≡ Err (stopped f (state_of machine.new))) }
    ensures more { OnOk result (machine.old.taken ≤ machine.new.taken) }
    ensures within { OnOk result (machine.new.taken ≤ 16777216) }
    ensures said { machine.new.messages.items ≡ machine.old.messages.items }
{
    machine.count(source, at + 1)?;
    let name = machine.ask(source, at + 2, part.end)?;
    unbind(machine, name);
    Ok(Lead::Step(at + 3))
}

fn tell_word(
    source: &Written,
    machine: &Machine,
    part: &Part,
    depth: u32,
    at: usize,
    then: Then,
    inner: &mut Part,
) -> Lead
    requires { at < 2 ^ 25 }
    ensures { word_told source.now part.now depth at then (state_of machine.now) ≡ Ok (begun (action_of result inner.new) (state_of machine.now)) }
{
    if at + 1 < part.end && sign_at(source.marks(), at + 1) == b'(' {
        let close = source.end(Closer::Parenthesis, at + 2);
        let list = Span {
            at,
            end: (close + 1).min(part.end),
        };
        opened(
            part,
            depth,
            list,
            close < part.end,
            machine.given(),
            then,
            close + 1,
            inner,
        )
    } else {
        let list = Span { at, end: at + 1 };
        opened(
            part,
            depth,
            list,
            true,
            machine.given(),
            then,
            at + 1,
            inner,
        )
    }
}

/// What a message says, or the name of a text: a text, a word, or a word with its parentheses.
fn tell(
    source: &Written,
    machine: &mut Machine,
    part: &Part,
    depth: u32,
    at: usize,
    then: Then,
    inner: &mut Part,
) -> Result<Lead, Stop>
    requires place { at < 2 ^ 25 }
    requires taken { machine.old.taken ≤ 16777216 }
    ensures ok { IfOk result (λ action. told source.now part.now depth at then (state_of machine.old) ≡ Ok (begun (action_of action inner.new) (state_of machine.new))) }
    ensures fault { IfErr result (λ f. told source.now part.now depth at then (state_of machine.old) ≡ Err (stopped f (state_of machine.new))) }
    ensures more { OnOk result (machine.old.taken ≤ machine.new.taken) }
    ensures within { OnOk result (machine.new.taken ≤ 16777216) }
    ensures said { machine.new.messages.items ≡ machine.old.messages.items }
{
    if at >= part.end {
        return Err(wrong(4, source, at));
    }
    match source.mark(at) {
        Some(Mark::Text) => {
            let list = Span { at, end: at + 1 };
            Ok(opened(
                part,
                depth,
                list,
                true,
                machine.given(),
                then,
                at + 1,
                inner,
            ))
        }
        Some(Mark::Name(_)) => Ok(tell_word(source, machine, part, depth, at, then, inner)),
        Some(Mark::Known(_)) => Ok(tell_word(source, machine, part, depth, at, then, inner)),
        Some(Mark::Number) => refuse(source, machine, at, inner),
        Some(Mark::Sign(_)) => refuse(source, machine, at, inner),
        None => refuse(source, machine, at, inner),
    }
}

/// A token that doesn't fit is taken, and then refused.
fn refuse(
    source: &Written,
    machine: &mut Machine,
    at: usize,
    inner: &mut Part,
) -> Result<Lead, Stop>
    ensures ok { OnOk result ⊥ }
    ensures fault { IfErr result (λ f. refused_at source.now at (state_of machine.old) ≡ Err (stopped f (state_of machine.new))) }
    ensures said { machine.new.messages.items ≡ machine.old.messages.items }
{
    machine.count(source, at)?;
    Err(wrong(4, source, at))
}

/// A message, or an `#error`.
pub fn begin_message(
    source: &Written,
    machine: &mut Machine,
    part: &Part,
    error: bool,
    at: usize,
    inner: &mut Part,
) -> Result<Lead, Stop>
    requires place { at < 2 ^ 24 }
    requires taken { machine.old.taken ≤ 16777216 }
    ensures ok { IfOk result (λ action. begun_message source.now part.now error at (state_of machine.old) ≡ Ok (begun (action_of action inner.new) (state_of machine.new))) }
    ensures fault { IfErr result (λ f. begun_message source.now part.now error at (state_of machine.old) ≡ Err (stopped f (state_of machine.new))) }
    ensures more { OnOk result (machine.old.taken ≤ machine.new.taken) }
    ensures within { OnOk result (machine.new.taken ≤ 16777216) }
    ensures said { machine.new.messages.items ≡ machine.old.messages.items }
{
    machine.count(source, at + 1)?;
    let then = Then::Say { error, at: at + 2 };
    let action = tell(source, machine, part, part.depth, at + 2, then, inner)?;
    Ok(action)
}

/// An `#include`.
pub fn begin_include(
    source: &Written,
    machine: &mut Machine,
    part: &Part,
    at: usize,
    inner: &mut Part,
) -> Result<Lead, Stop>
    requires place { at < 2 ^ 24 }
    requires taken { machine.old.taken ≤ 16777216 }
    ensures ok { IfOk result (λ action. begun_include source.now part.now at (state_of machine.old) ≡ Ok (begun (action_of action inner.new) (state_of machine.new))) }
    ensures fault { IfErr result (λ f. begun_include source.now part.now at (state_of machine.old) ≡ Err (stopped f (state_of machine.new))) }
    ensures more { OnOk result (machine.old.taken ≤ machine.new.taken) }
    ensures within { OnOk result (machine.new.taken ≤ 16777216) }
    ensures said { machine.new.messages.items ≡ machine.old.messages.items }
{
    let inside = machine.deeper(source, at, part.depth)?;
    machine.count(source, at + 1)?;
    let action = tell(
        source,
        machine,
        part,
        inside,
        at + 2,
        Then::Read(at + 2),
        inner,
    )?;
    Ok(action)
}

/// Whether a number, or a name of a float, stands at a place.
fn is_version(source: &Written, machine: &Machine, at: usize) -> bool
    ensures { result ≡ is_version (slice_get source.now.marks at) machine.now.scopes }
{
    match source.mark(at) {
        Some(Mark::Number) => true,
        Some(Mark::Name(name)) => match machine.scopes.find(name) {
            Some(Binding::Value(Value::Float(_))) => true,
            Some(Binding::Value(Value::Vector(_))) => false,
            Some(Binding::Value(Value::Color(_))) => false,
            Some(Binding::Value(Value::Text(_))) => false,
            Some(Binding::Block(_)) => false,
            Some(Binding::Macro(_)) => false,
            Some(Binding::Reference(_)) => false,
            None => false,
        },
        Some(Mark::Known(_)) => false,
        Some(Mark::Sign(_)) => false,
        Some(Mark::Text) => false,
        None => false,
    }
}

/// A `#version` with its number or name.
pub fn begin_version(
    source: &Written,
    machine: &mut Machine,
    part: &Part,
    at: usize,
    inner: &mut Part,
) -> Result<Lead, Stop>
    requires place { at < 2 ^ 24 }
    requires taken { machine.old.taken ≤ 16777216 }
    ensures ok { IfOk result (λ action. begun_version source.now part.now at (state_of machine.old) ≡ Ok (begun (action_of action inner.new) (state_of machine.new))) }
    ensures fault { IfErr result (λ f. begun_version source.now part.now at (state_of machine.old) ≡ Err (stopped f (state_of machine.new))) }
    ensures more { OnOk result (machine.old.taken ≤ machine.new.taken) }
    ensures within { OnOk result (machine.new.taken ≤ 16777216) }
    ensures said { machine.new.messages.items ≡ machine.old.messages.items }
{
    machine.count(source, at + 1)?;
    if at + 2 >= part.end {
        return Err(wrong(4, source, at + 2));
    }
    machine.count(source, at + 2)?;
    if !is_version(source, machine, at + 2) {
        return Err(wrong(4, source, at + 2));
    }
    take_stop(source, machine, at + 3, part.end)?;
    Ok(Lead::Step(behind_stop(source, at + 3, part.end)))
}

/// Takes the comma or the `)` behind a parameter.
fn separate(source: &Written, machine: &mut Machine, at: usize, end: usize) -> Result<(), Stop>
    ensures ok { OnOk result (separated source.now at end (state_of machine.old) ≡ Ok (state_of machine.new)) }
    ensures fault { IfErr result (λ f. separated source.now at end (state_of machine.old) ≡ Err (stopped f (state_of machine.new))) }
    ensures more { OnOk result (machine.old.taken ≤ machine.new.taken) }
    ensures within { OnOk result (machine.new.taken ≤ 16777216) }
    ensures said { machine.new.messages.items ≡ machine.old.messages.items }
{
    if at >= end {
        return Err(wrong(4, source, at));
    }
    machine.count(source, at)?;
    let code = sign_at(source.marks(), at);
    if code == b',' || code == b')' {
        Ok(())
    } else {
        Err(wrong(4, source, at))
    }
}

/// The number of parameters of a macro, and the place behind their `)`.
fn parameters(
    source: &Written,
    machine: &mut Machine,
    first: usize,
    end: usize,
) -> Result<(usize, usize), Stop>
    requires place { first < 2 ^ 25 }
    requires end { end ≤ 2 ^ 32 }
    requires taken { machine.old.taken ≤ 16777216 }
    ensures ok { IfOk result (λ found. parameters source.now end end 0 first (state_of machine.old) ≡ all_named found.0 found.1 (state_of machine.new)) }
    ensures fault { IfErr result (λ f. parameters source.now end end 0 first (state_of machine.old) ≡ Err (stopped f (state_of machine.new))) }
    ensures more { OnOk result (machine.old.taken ≤ machine.new.taken) }
    ensures within { OnOk result (machine.new.taken ≤ 16777216) }
    ensures said { machine.new.messages.items ≡ machine.old.messages.items }
{
    let mut left = end;
    let mut count = 0;
    let mut at = first;
    'parameters: while left > 0 {
        left -= 1;
        let _name = machine.name(source, at, end)?;
        separate(source, machine, at + 1, end)?;
        if sign_at(source.marks(), at + 1) != b',' {
            return Ok((count + 1, at + 2));
        }
        count += 1;
        at += 2;
    }
    Err(wrong(4, source, at))
}

fn parameters_of(
    source: &Written,
    machine: &mut Machine,
    at: usize,
    end: usize,
) -> Result<(usize, usize), Stop>
    requires place { at < 2 ^ 25 }
    requires end { end ≤ 2 ^ 32 }
    requires taken { machine.old.taken ≤ 16777216 }
    ensures ok { IfOk result (λ found. parameters_of source.now at end (state_of machine.old) ≡ all_named found.0 found.1 (state_of machine.new)) }
    ensures fault { IfErr result (λ f. parameters_of source.now at end (state_of machine.old) ≡ Err (stopped f (state_of machine.new))) }
    ensures more { OnOk result (machine.old.taken ≤ machine.new.taken) }
    ensures within { OnOk result (machine.new.taken ≤ 16777216) }
    ensures said { machine.new.messages.items ≡ machine.old.messages.items }
{
    if at < end && sign_at(source.marks(), at) == b')' {
        machine.count(source, at)?;
        return Ok((0, at + 1));
    }
    let found = parameters(source, machine, at, end)?;
    Ok(found)
}

/// A `#macro`: its name is bound, and its body is passed over.
pub fn begin_macro(
    source: &Written,
    machine: &mut Machine,
    part: &Part,
    at: usize,
    inner: &mut Part,
) -> Result<Lead, Stop>
    requires place { at < 2 ^ 24 }
    requires taken { machine.old.taken ≤ 16777216 }
    ensures ok { IfOk result (λ action. begun_macro source.now part.now at (state_of machine.old) ≡ Ok (begun (action_of action inner.new) (state_of machine.new))) }
    ensures fault { IfErr result (λ f. f ≢ NoMemory → begun_macro source.now part.now at (state_of machine.old) ≡ Err (stopped f (state_of machine.new))) }
    ensures more { OnOk result (machine.old.taken ≤ machine.new.taken) }
    ensures within { OnOk result (machine.new.taken ≤ 16777216) }
    ensures said { machine.new.messages.items ≡ machine.old.messages.items }
{
    machine.count(source, at + 1)?;
    let end = source.end(Closer::End, at + 2);
    let name = machine.name(source, at + 2, end)?;
    machine.pass(b'(', source, at + 3, end)?;
    let (count, body) = parameters_of(source, machine, at + 4, end)?;
    let called = Macro {
        text: part.text,
        parameters: at + 4,
        count,
        body,
        end,
    };
    bind_in(machine, false, name, Binding::Macro(called))?;
    Ok(Lead::Step(end + 2))
}
