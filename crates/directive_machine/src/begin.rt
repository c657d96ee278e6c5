// What the token at a place begins.
ghost use Rattle.std.specs.Prelude.{◌≡◌, ◌≢◌, ◌<◌, ◌≤◌, ◌^◌, Ok, Err, Some, IfOk, IfErr, OnOk, slice_get};
ghost use Rattle.scope_tables.specs.Names.{found};
ghost use Rattle.text_structure.specs.Turns.{directive_at};
ghost use Rattle.directive_machine.specs.Moves.{action_of};
ghost use Rattle.directive_machine.specs.State.{stopped, begun};
ghost use Rattle.directive_machine.specs.Tokens.{begun_default, begun_break, begun_word, begun_directive, begun_mark, begun_in};
ghost use Rattle.directive_machine.specs.Carried.{state_of};
ghost use Rattle.directive_machine.specs.declared.stop.Stop.TheVariants.{NoMemory};

use crate::blocks::{begin_for, begin_if, begin_ifdef, begin_switch, begin_while};
use crate::declaration::whole_declaration;
use crate::declares::{
    begin_declare, begin_include, begin_macro, begin_message, begin_undef, begin_version, open_list,
};
use crate::machine::{Machine, wrong};
use crate::part::{Lead, Part};
use crate::stop::Stop;
use crate::words::{begin_defined, begin_name, hand_out};
use std::alloc::Global;
use text_structure::{Directive, Known, Mark, Written};

/// A `#default` is handed out.
fn begin_default(
    alloc: Global,
    source: &Written,
    machine: &mut Machine,
    part: &Part,
    at: usize,
    inner: &mut Part,
) -> Result<Lead, Stop>
    requires place { at < 2 ^ 24 }
    requires taken { machine.old.taken ≤ 16777216 }
    ensures ok { IfOk result (λ action. begun_default source.now part.now at (state_of machine.old) ≡ Ok (begun (action_of action inner.new) (state_of machine.new))) }
    ensures fault { IfErr result (λ f. f ≢ NoMemory → begun_default source.now part.now at (state_of machine.old) ≡ Err (stopped f (state_of machine.new))) }
    ensures more { OnOk result (machine.old.taken ≤ machine.new.taken) }
    ensures within { OnOk result (machine.new.taken ≤ 16777216) }
    ensures said { machine.new.messages.items ≡ machine.old.messages.items }
{
    let _step = hand_out(alloc, source, machine, part, at, inner)?;
    machine.count(source, at + 1)?;
    hand_out(alloc, source, machine, part, at + 1, inner)
}

/// A `#break`.
fn begin_break(
    source: &Written,
    machine: &mut Machine,
    at: usize,
    inner: &mut Part,
) -> Result<Lead, Stop>
    requires place { at < 2 ^ 24 }
    requires taken { machine.old.taken ≤ 16777216 }
    ensures ok { IfOk result (λ action. begun_break source.now at (state_of machine.old) ≡ Ok (begun (action_of action inner.new) (state_of machine.new))) }
    ensures fault { IfErr result (λ f. begun_break source.now at (state_of machine.old) ≡ Err (stopped f (state_of machine.new))) }
    ensures more { OnOk result (machine.old.taken ≤ machine.new.taken) }
    ensures within { OnOk result (machine.new.taken ≤ 16777216) }
    ensures said { machine.new.messages.items ≡ machine.old.messages.items }
{
    machine.count(source, at + 1)?;
    Ok(Lead::Break)
}

/// A directive by its word.
fn begin_word(
    alloc: Global,
    source: &Written,
    machine: &mut Machine,
    part: &Part,
    directive: Directive,
    at: usize,
    inner: &mut Part,
) -> Result<Lead, Stop>
    requires place { at < 2 ^ 24 }
    requires taken { machine.old.taken ≤ 16777216 }
    ensures ok { IfOk result (λ action. begun_word directive source.now part.now at (state_of machine.old) ≡ Ok (begun (action_of action inner.new) (state_of machine.new))) }
    ensures fault { IfErr result (λ f. f ≢ NoMemory → begun_word directive source.now part.now at (state_of machine.old) ≡ Err (stopped f (state_of machine.new))) }
    ensures more { OnOk result (machine.old.taken ≤ machine.new.taken) }
    ensures within { OnOk result (machine.new.taken ≤ 16777216) }
    ensures said { machine.new.messages.items ≡ machine.old.messages.items }
{
    match directive {
        Directive::If => begin_if(source, machine, part, at, inner),
        Directive::Ifdef => begin_ifdef(source, machine, part, true, at, inner),
        Directive::Ifndef => begin_ifdef(source, machine, part, false, at, inner),
        Directive::While => begin_while(source, machine, part, at, inner),
        Directive::For => begin_for(source, machine, part, at, inner),
        Directive::Switch => begin_switch(source, machine, part, at, inner),
        Directive::Macro => begin_macro(source, machine, part, at, inner),
        Directive::Declare => begin_declare(alloc, source, machine, part, false, at, inner),
        Directive::Local => begin_declare(alloc, source, machine, part, true, at, inner),
        Directive::Undef => begin_undef(source, machine, part, at, inner),
        Directive::Include => begin_include(source, machine, part, at, inner),
        Directive::Error => begin_message(source, machine, part, true, at, inner),
        Directive::Message => begin_message(source, machine, part, false, at, inner),
        Directive::Version => begin_version(source, machine, part, at, inner),
        Directive::Default => begin_default(alloc, source, machine, part, at, inner),
        Directive::Break => begin_break(source, machine, at, inner),
        Directive::End => Err(wrong(3, source, at)),
        Directive::Else => Err(wrong(3, source, at)),
        Directive::Case => Err(wrong(3, source, at)),
        Directive::Range => Err(wrong(3, source, at)),
    }
}

#[inline(never)]
fn begin_directive(
    alloc: Global,
    source: &Written,
    machine: &mut Machine,
    part: &Part,
    directive: Option<Directive>,
    at: usize,
    inner: &mut Part,
) -> Result<Lead, Stop>
    requires place { at < 2 ^ 24 }
    requires taken { machine.old.taken ≤ 16777216 }
    ensures ok { IfOk result (λ action. begun_directive directive source.now part.now at (state_of machine.old) ≡ Ok (begun (action_of action inner.new) (state_of machine.new))) }
    ensures fault { IfErr result (λ f. f ≢ NoMemory → begun_directive directive source.now part.now at (state_of machine.old) ≡ Err (stopped f (state_of machine.new))) }
    ensures more { OnOk result (machine.old.taken ≤ machine.new.taken) }
    ensures within { OnOk result (machine.new.taken ≤ 16777216) }
    ensures said { machine.new.messages.items ≡ machine.old.messages.items }
{
    match directive {
        Some(directive) => begin_word(alloc, source, machine, part, directive, at, inner),
        None => Err(wrong(1, source, at)),
    }
}

#[inline(always)]
fn begin_sign(
    alloc: Global,
    source: &Written,
    machine: &mut Machine,
    part: &Part,
    code: u8,
    at: usize,
    inner: &mut Part,
) -> Result<Lead, Stop>
    requires place { at < 2 ^ 24 }
    requires taken { machine.old.taken ≤ 16777216 }
    ensures ok { IfOk result (λ action. begun_mark (Some (Mark.Sign code)) source.now part.now at (state_of machine.old) ≡ Ok (begun (action_of action inner.new) (state_of machine.new))) }
    ensures fault { IfErr result (λ f. f ≢ NoMemory → begun_mark (Some (Mark.Sign code)) source.now part.now at (state_of machine.old) ≡ Err (stopped f (state_of machine.new))) }
    ensures more { OnOk result (machine.old.taken ≤ machine.new.taken) }
    ensures within { OnOk result (machine.new.taken ≤ 16777216) }
    ensures said { machine.new.messages.items ≡ machine.old.messages.items }
{
    if code == b'#' {
        let directive = source.directive(at);
        begin_directive(alloc, source, machine, part, directive, at, inner)
    } else {
        hand_out(alloc, source, machine, part, at, inner)
    }
}

#[inline(always)]
fn begin_known(
    alloc: Global,
    source: &Written,
    machine: &mut Machine,
    part: &Part,
    known: Known,
    at: usize,
    inner: &mut Part,
) -> Result<Lead, Stop>
    requires place { at < 2 ^ 24 }
    requires taken { machine.old.taken ≤ 16777216 }
    ensures ok { IfOk result (λ action. begun_mark (Some (Mark.Known known)) source.now part.now at (state_of machine.old) ≡ Ok (begun (action_of action inner.new) (state_of machine.new))) }
    ensures fault { IfErr result (λ f. f ≢ NoMemory → begun_mark (Some (Mark.Known known)) source.now part.now at (state_of machine.old) ≡ Err (stopped f (state_of machine.new))) }
    ensures more { OnOk result (machine.old.taken ≤ machine.new.taken) }
    ensures within { OnOk result (machine.new.taken ≤ 16777216) }
    ensures said { machine.new.messages.items ≡ machine.old.messages.items }
{
    match known {
        Known::Defined => begin_defined(alloc, source, machine, part, at, inner),
        Known::Directive(_) => hand_out(alloc, source, machine, part, at, inner),
        Known::Block => hand_out(alloc, source, machine, part, at, inner),
        Known::Colour => hand_out(alloc, source, machine, part, at, inner),
        Known::Other => hand_out(alloc, source, machine, part, at, inner),
    }
}

#[inline(always)]
fn begin_mark(
    alloc: Global,
    source: &Written,
    machine: &mut Machine,
    part: &Part,
    mark: Mark,
    at: usize,
    inner: &mut Part,
) -> Result<Lead, Stop>
    requires place { at < 2 ^ 24 }
    requires taken { machine.old.taken ≤ 16777216 }
    ensures ok { IfOk result (λ action. begun_mark (Some mark) source.now part.now at (state_of machine.old) ≡ Ok (begun (action_of action inner.new) (state_of machine.new))) }
    ensures fault { IfErr result (λ f. f ≢ NoMemory → begun_mark (Some mark) source.now part.now at (state_of machine.old) ≡ Err (stopped f (state_of machine.new))) }
    ensures more { OnOk result (machine.old.taken ≤ machine.new.taken) }
    ensures within { OnOk result (machine.new.taken ≤ 16777216) }
    ensures said { machine.new.messages.items ≡ machine.old.messages.items }
{
    match mark {
        Mark::Sign(code) => begin_sign(alloc, source, machine, part, code, at, inner),
        Mark::Name(name) => begin_name(alloc, source, machine, part, name, at, inner),
        Mark::Known(known) => begin_known(alloc, source, machine, part, known, at, inner),
        Mark::Number => hand_out(alloc, source, machine, part, at, inner),
        Mark::Text => hand_out(alloc, source, machine, part, at, inner),
    }
}

/// What the token at a place of a part begins, step by step.
#[inline(always)]
fn begin_token(
    alloc: Global,
    source: &Written,
    machine: &mut Machine,
    part: &Part,
    at: usize,
    inner: &mut Part,
) -> Result<Lead, Stop>
    ensures ok { IfOk result (λ action. begun_in source.now part.now at (state_of machine.old) ≡ Ok (begun (action_of action inner.new) (state_of machine.new))) }
    ensures fault { IfErr result (λ f. f ≢ NoMemory → begun_in source.now part.now at (state_of machine.old) ≡ Err (stopped f (state_of machine.new))) }
    ensures more { OnOk result (machine.old.taken < machine.new.taken) }
    ensures within { OnOk result (machine.new.taken ≤ 16777216) }
    ensures said { machine.new.messages.items ≡ machine.old.messages.items }
{
    match source.mark(at) {
        Some(mark) => {
            machine.count(source, at)?;
            begin_mark(alloc, source, machine, part, mark, at, inner)
        }
        None => Err(Stop::NoMemory),
    }
}

/// What the token at a place of a part begins. A place beyond the text is never asked for.
#[inline(always)]
pub fn begin(
    alloc: Global,
    source: &Written,
    machine: &mut Machine,
    part: &Part,
    at: usize,
    inner: &mut Part,
) -> Result<Lead, Stop>
    ensures ok { IfOk result (λ action. begun_in source.now part.now at (state_of machine.old) ≡ Ok (begun (action_of action inner.new) (state_of machine.new))) }
    ensures fault { IfErr result (λ f. f ≢ NoMemory → begun_in source.now part.now at (state_of machine.old) ≡ Err (stopped f (state_of machine.new))) }
    ensures more { OnOk result (machine.old.taken < machine.new.taken) }
    ensures within { OnOk result (machine.new.taken ≤ 16777216) }
    ensures said { machine.new.messages.items ≡ machine.old.messages.items }
{
    match whole_declaration(source, machine, part, at) {
        Some(found) => {
            machine.taken += 4;
            Ok(open_list(source, machine, part, found, at + 4, inner))
        }
        None => begin_token(alloc, source, machine, part, at, inner),
    }
}
