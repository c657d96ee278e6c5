// The tokens of a part that begin nothing.
ghost use Rattle.std.specs.Prelude.{◌≡◌, ◌≤◌, ◌+◌, Some, Ok, IsTrue, IsFalse, slice_get};
ghost use Rattle.directive_machine.specs.State.{on_ok, counted, begun};
ghost use Rattle.directive_machine.specs.Moves.{Action};
ghost use Rattle.directive_machine.specs.Words.{handed_at, begun_bound};
ghost use Rattle.directive_machine.specs.Tokens.{begun_mark};
ghost use Rattle.directive_machine.specs.Carried.{state_of};
ghost use Rattle.directive_machine.specs.Passages.{is_step, IsPassage};
ghost use Rattle.directive_machine.specs.Read.{sources_of};
ghost use Rattle.directive_machine.specs.Sources.{text_at};

use crate::machine::Machine;
use crate::part::Part;
use crate::readings::Readings;
use crate::words::{put_copy, put_number};
use fix_math::Fix;
use scene_expr::Value;
use scope_tables::Binding;
use std::alloc::Global;
use text_structure::{Known, Mark, Written};

/// Takes a token that stands for itself.
#[inline(always)]
fn take_copy(alloc: Global, source: &Written, machine: &mut Machine, part: &Part, at: usize) -> bool
    ensures step { IsTrue result → on_ok (counted source.now at (state_of machine.old)) (handed_at source.now part.now at) ≡ Ok (begun (Action.Step (at + 1)) (state_of machine.new)) }
    ensures same { IsFalse result → state_of machine.new ≡ state_of machine.old }
    ensures more { machine.old.taken ≤ machine.new.taken }
    ensures within { IsTrue result → machine.new.taken ≤ 16777216 }
    ensures said { machine.new.messages.items ≡ machine.old.messages.items }
{
    let Some(token) = source.token(at) else {
        return false;
    };
    if !machine.may_take() || !machine.is_free(part) || put_copy(alloc, machine, token).is_err() {
        return false;
    }
    machine.taken += 1;
    true
}

/// Takes a name that is bound to a number.
#[inline(always)]
fn take_number(source: &Written, machine: &mut Machine, part: &Part, value: Fix, at: usize) -> bool
    ensures step { IsTrue result → on_ok (counted source.now at (state_of machine.old)) (begun_bound (Some (Binding.Value (Value.Float value))) source.now part.now at (slice_get source.now.tokens at)) ≡ Ok (begun (Action.Step (at + 1)) (state_of machine.new)) }
    ensures same { IsFalse result → state_of machine.new ≡ state_of machine.old }
    ensures more { machine.old.taken ≤ machine.new.taken }
    ensures within { IsTrue result → machine.new.taken ≤ 16777216 }
    ensures said { machine.new.messages.items ≡ machine.old.messages.items }
{
    let Some(token) = source.token(at) else {
        return false;
    };
    if !machine.may_take() || !machine.is_free(part) || put_number(machine, token, value).is_err() {
        return false;
    }
    machine.taken += 1;
    true
}

/// Takes a name that is bound to a number, or to nothing.
#[inline(never)]
fn take_name(
    alloc: Global,
    source: &Written,
    machine: &mut Machine,
    part: &Part,
    name: usize,
    at: usize,
) -> bool
    ensures step { IsTrue result → on_ok (counted source.now at (state_of machine.old)) (begun_mark (Some (Mark.Name name)) source.now part.now at) ≡ Ok (begun (Action.Step (at + 1)) (state_of machine.new)) }
    ensures same { IsFalse result → state_of machine.new ≡ state_of machine.old }
    ensures more { machine.old.taken ≤ machine.new.taken }
    ensures within { IsTrue result → machine.new.taken ≤ 16777216 }
    ensures said { machine.new.messages.items ≡ machine.old.messages.items }
{
    match machine.scopes.find(name) {
        Some(Binding::Value(Value::Float(value))) => {
            let value = *value;
            take_number(source, machine, part, value, at)
        }
        Some(_) => false,
        None => take_copy(alloc, source, machine, part, at),
    }
}

/// Takes a sign that begins no directive.
#[inline(always)]
fn take_sign(
    alloc: Global,
    source: &Written,
    machine: &mut Machine,
    part: &Part,
    code: u8,
    at: usize,
) -> bool
    ensures step { IsTrue result → on_ok (counted source.now at (state_of machine.old)) (begun_mark (Some (Mark.Sign code)) source.now part.now at) ≡ Ok (begun (Action.Step (at + 1)) (state_of machine.new)) }
    ensures same { IsFalse result → state_of machine.new ≡ state_of machine.old }
    ensures more { machine.old.taken ≤ machine.new.taken }
    ensures within { IsTrue result → machine.new.taken ≤ 16777216 }
    ensures said { machine.new.messages.items ≡ machine.old.messages.items }
{
    if code == b'#' {
        false
    } else {
        take_copy(alloc, source, machine, part, at)
    }
}

/// Takes a word that the language keeps.
#[inline(always)]
fn take_known(
    alloc: Global,
    source: &Written,
    machine: &mut Machine,
    part: &Part,
    known: Known,
    at: usize,
) -> bool
    ensures step { IsTrue result → on_ok (counted source.now at (state_of machine.old)) (begun_mark (Some (Mark.Known known)) source.now part.now at) ≡ Ok (begun (Action.Step (at + 1)) (state_of machine.new)) }
    ensures same { IsFalse result → state_of machine.new ≡ state_of machine.old }
    ensures more { machine.old.taken ≤ machine.new.taken }
    ensures within { IsTrue result → machine.new.taken ≤ 16777216 }
    ensures said { machine.new.messages.items ≡ machine.old.messages.items }
{
    match known {
        Known::Defined => false,
        Known::Directive(_) => take_copy(alloc, source, machine, part, at),
        Known::Block => take_copy(alloc, source, machine, part, at),
        Known::Colour => take_copy(alloc, source, machine, part, at),
        Known::Other => take_copy(alloc, source, machine, part, at),
    }
}

/// Takes a token by what it is to directives.
#[inline(always)]
fn take_mark(
    alloc: Global,
    source: &Written,
    machine: &mut Machine,
    part: &Part,
    mark: Mark,
    at: usize,
) -> bool
    ensures step { IsTrue result → on_ok (counted source.now at (state_of machine.old)) (begun_mark (Some mark) source.now part.now at) ≡ Ok (begun (Action.Step (at + 1)) (state_of machine.new)) }
    ensures same { IsFalse result → state_of machine.new ≡ state_of machine.old }
    ensures more { machine.old.taken ≤ machine.new.taken }
    ensures within { IsTrue result → machine.new.taken ≤ 16777216 }
    ensures said { machine.new.messages.items ≡ machine.old.messages.items }
{
    match mark {
        Mark::Sign(code) => take_sign(alloc, source, machine, part, code, at),
        Mark::Name(name) => take_name(alloc, source, machine, part, name, at),
        Mark::Known(known) => take_known(alloc, source, machine, part, known, at),
        Mark::Number => take_copy(alloc, source, machine, part, at),
        Mark::Text => take_copy(alloc, source, machine, part, at),
    }
}

/// Takes the token at a place, where it begins nothing; else nothing changes. Nor does it where the token can't be
/// taken, for a limit or for want of memory.
#[inline(always)]
fn take(alloc: Global, source: &Written, machine: &mut Machine, part: &Part, at: usize) -> bool
    ensures step { IsTrue result → is_step source.now part.now at (state_of machine.old) (state_of machine.new) }
    ensures same { IsFalse result → state_of machine.new ≡ state_of machine.old }
    ensures more { machine.old.taken ≤ machine.new.taken }
    ensures within { IsTrue result → machine.new.taken ≤ 16777216 }
    ensures said { machine.new.messages.items ≡ machine.old.messages.items }
{
    match source.mark(at) {
        Some(mark) => take_mark(alloc, source, machine, part, mark, at),
        None => false,
    }
}

/// Takes the tokens of a part from a place on that begin nothing, and tells where the next one stands.
fn take_all(alloc: Global, source: &Written, machine: &mut Machine, part: &Part, at: usize) -> usize
    requires { machine.old.taken ≤ 16777216 }
    ensures passage { IsPassage source.now part.now at (state_of machine.old) result (state_of machine.new) }
    ensures more { machine.old.taken ≤ machine.new.taken }
    ensures within { machine.new.taken ≤ 16777216 }
    ensures said { machine.new.messages.items ≡ machine.old.messages.items }
{
    let end = part.end;
    let mut next = at;
    'tokens: while next < end {
        if take(alloc, source, machine, part, next) {
            next += 1;
        } else {
            return next;
        }
    }
    next
}

/// Goes on in a part over the tokens that begin nothing.
#[inline(never)]
pub fn pass_on(
    alloc: Global,
    readings: &Readings,
    machine: &mut Machine,
    part: &Part,
    at: usize,
) -> usize
    requires { machine.old.taken ≤ 16777216 }
    ensures passage { IsPassage (text_at (sources_of readings.now) part.now.text) part.now at (state_of machine.old) result (state_of machine.new) }
    ensures more { machine.old.taken ≤ machine.new.taken }
    ensures within { machine.new.taken ≤ 16777216 }
    ensures said { machine.new.messages.items ≡ machine.old.messages.items }
{
    match readings.text(part.text) {
        Some(source) => take_all(alloc, source, machine, part, at),
        None => at,
    }
}
