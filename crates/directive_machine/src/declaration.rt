// Declarations whose head is whole and whose right side runs to a semicolon.
ghost use Rattle.std.specs.Prelude.{true, false, ◌≡◌, ◌<◌, ◌≤◌, ◌+◌, ◌^◌, Some, None, Ok, IfSome, IsSome, IsTrue, slice_get, nat_lt};
ghost use Rattle.text_structure.specs.declared.mark.Mark.{Mark};
ghost use Rattle.text_structure.specs.Turns.{directive_at, is_block};
ghost use Rattle.directive_machine.specs.State.{most_taken};
ghost use Rattle.directive_machine.specs.Declares.{begun_list, block_at, directive_of};
ghost use Rattle.directive_machine.specs.Tokens.{begun_in};
ghost use Rattle.directive_machine.specs.Carried.{state_of};

use crate::declares::block_at;
use crate::machine::Machine;
use crate::part::Part;
use text_structure::{Directive, Mark, Written, is_block, sign_at};

/// What a declaration binds: the number of the name, and whether it is a `#local`.
#[derive(Clone, Copy, Debug, PartialEq, Eq)]
pub struct Declaration {
    pub name: usize,
    pub local: bool,
}

/// Whether the directive at a place is a `#local`; none where it is no declaration.
#[inline(always)]
fn locality(source: &Written, at: usize) -> Option<bool>
    ensures directive { IfSome result (λ local. directive_at source.now.marks at ≡ Some (directive_of local)) }
{
    match source.directive(at) {
        Some(Directive::Declare) => Some(false),
        Some(Directive::Local) => Some(true),
        Some(_) => None,
        None => None,
    }
}

/// Whether a `#` stands at a place.
#[inline(always)]
fn is_hash(source: &Written, at: usize) -> bool
    ensures sign { IsTrue result → slice_get source.now.marks at ≡ Some (Mark.Sign 35) }
    ensures small { IsTrue result → at < 2 ^ 24 }
{
    match source.mark(at) {
        Some(Mark::Sign(b'#')) => true,
        Some(_) => false,
        None => false,
    }
}

/// The name at a place that isn't a word that the language keeps.
#[inline(always)]
fn name_at(source: &Written, at: usize) -> Option<usize>
    ensures { IfSome result (λ name. slice_get source.now.marks at ≡ Some (Mark.Name name)) }
{
    match source.mark(at) {
        Some(Mark::Name(name)) => Some(name),
        Some(_) => None,
        None => None,
    }
}

/// Whether a right side at a place of a part begins with no block.
#[inline(always)]
fn is_list(source: &Written, machine: &Machine, part: &Part, at: usize) -> bool
    requires { at < 2 ^ 25 }
    ensures within { IsTrue result → nat_lt at part.now.end ≡ true }
    ensures word { IsTrue result → is_block source.now.marks at ≡ false }
    ensures name { IsTrue result → block_at source.now at machine.now.scopes ≡ None }
{
    if at >= part.end || is_block(source.marks(), at) {
        return false;
    }
    match block_at(source, machine, at) {
        Some(_) => false,
        None => true,
    }
}

/// The declaration whose `#` stands at a place, where its head is whole, its four tokens may be taken, and its right
/// side runs to its semicolon.
#[inline(always)]
pub fn whole_declaration(
    source: &Written,
    machine: &Machine,
    part: &Part,
    at: usize,
) -> Option<Declaration>
    ensures head { IfSome result (λ found. begun_in source.now part.now at (state_of machine.now) ≡ begun_list source.now part.now found.local found.name (at + 4) (record (state_of machine.now) { taken = machine.now.taken + 4 })) }
    ensures room { IsSome result → machine.now.taken + 4 ≤ 16777216 }
    ensures place { IsSome result → at < 2 ^ 24 }
{
    if !is_hash(source, at) {
        return None;
    }
    let Some(name) = name_at(source, at + 2) else {
        return None;
    };
    let Some(local) = locality(source, at) else {
        return None;
    };
    if machine.may_take_four()
        && sign_at(source.marks(), at + 3) == b'='
        && is_list(source, machine, part, at + 4)
    {
        Some(Declaration { name, local })
    } else {
        None
    }
}
