// Blocks that are declared, and lists that were handed out aside.
ghost use Rattle.std.specs.Prelude.{◌≡◌, ◌≢◌, ◌<◌, ◌≤◌, ◌+◌, Some, Ok, Err, IfOk, IfErr, OnOk, drop};
ghost use Rattle.directive_machine.specs.Moves.{next_of};
ghost use Rattle.directive_machine.specs.State.{stopped, settled, restored};
ghost use Rattle.directive_machine.specs.Holds.{closes_last, is_block_kind, is_one_block, held_block, stop_passed, made_block};
ghost use Rattle.directive_machine.specs.Weights.{is_light};
ghost use Rattle.scene_expr.specs.Heads.{sign_of};
ghost use Rattle.directive_machine.specs.Carried.{state_of};
ghost use Rattle.directive_machine.specs.declared.stop.Stop.TheVariants.{NoMemory};

use crate::declares::{bind_in, copied};
use crate::machine::{Machine, wrong};
use crate::part::{Part, Rest};
use crate::stop::Stop;
use scene_lexer::{Kind, Token};
use scope_tables::{Binding, Block};
use std::alloc::Global;
use text_structure::{Known, Written, known_of};

/// The tokens from a number on.
pub fn behind(list: &[Token], from: usize) -> &[Token]
    ensures { result.now ≡ drop from list.now }
{
    if from < list.len() {
        &list[from..]
    } else {
        &[]
    }
}

fn kind_is_block(kind: &Kind) -> bool
    ensures { result ≡ is_block_kind kind.now }
{
    match kind {
        Kind::Word(word) => known_of(word.bytes()) == Some(Known::Block),
        Kind::Number(_) => false,
        Kind::Text(_) => false,
        Kind::Sign(_) => false,
    }
}

fn sign_of(token: &Token) -> u8
    ensures { result ≡ sign_of (Some token.now) }
{
    match token.kind {
        Kind::Sign(code) => code,
        Kind::Word(_) => 0,
        Kind::Number(_) => 0,
        Kind::Text(_) => 0,
    }
}

/// Whether the tokens behind an opening brace end with its closing one.
fn closes_last(tokens: &[Token]) -> bool
    ensures { result ≡ closes_last 0 tokens.now }
{
    let mut depth: usize = 0;
    let mut at = 0;
    'tokens: while at < tokens.len() {
        let code = sign_of(&tokens[at]);
        if at + 1 == tokens.len() {
            return code == b'}' && depth == 0;
        }
        if code == b'{' {
            depth += 1;
        } else if code == b'}' {
            if depth == 0 {
                return false;
            }
            depth -= 1;
        }
        at += 1;
    }
    false
}

/// Whether a list is one block: a block's word and its braces, and nothing more.
fn is_one_block(list: &[Token]) -> bool
    ensures { result ≡ is_one_block list.now }
{
    match list {
        [word, brace, tokens @ ..] => {
            sign_of(brace) == b'{' && kind_is_block(&word.kind) && closes_last(tokens)
        }
        _ => false,
    }
}

impl Machine {
    /// Whether the list that was handed out aside is one block.
    pub fn is_one_block(&self, from: usize) -> bool
        ensures { result ≡ is_one_block (drop from self.now.out.items) }
    {
        is_one_block(behind(self.out.as_slice(), from))
    }

    /// The tokens that were handed out aside are taken away.
    pub fn take_aside(&mut self, alloc: Global, from: usize) -> Result<Block, Stop>
        ensures list { IfOk result (λ list. list ≡ drop from self.old.out.items) }
        ensures state { OnOk result (state_of self.new ≡ restored from (state_of self.old)) }
        ensures fault { IfErr result (λ f. f ≡ NoMemory) }
        ensures said { self.new.messages.items ≡ self.old.messages.items }
    {
        match copied(alloc, behind(self.out.as_slice(), from)) {
            Ok(list) => {
                self.out.truncate(from);
                Ok(Block::new(list))
            }
            Err(_) => Err(Stop::NoMemory),
        }
    }
}

/// A block is bound.
pub fn hold(
    alloc: Global,
    machine: &mut Machine,
    part: &Part,
    name: usize,
    local: bool,
    further: &mut Part,
) -> Result<Rest, Stop>
    requires taken { machine.old.taken ≤ 16777216 }
    ensures ok { IfOk result (λ next. held_block part.now name local (state_of machine.old) ≡ Ok (settled (next_of next further.new) (state_of machine.new))) }
    ensures fault { IfErr result (λ f. f ≢ NoMemory → held_block part.now name local (state_of machine.old) ≡ Err (stopped f (state_of machine.new))) }
    ensures light { IfOk result (λ next. is_light (next_of next further.new)) }
    ensures more { OnOk result (machine.old.taken ≤ machine.new.taken) }
    ensures within { OnOk result (machine.new.taken ≤ 16777216) }
    ensures said { machine.new.messages.items ≡ machine.old.messages.items }
{
    let block = machine.take_aside(alloc, part.from)?;
    bind_in(machine, local, name, Binding::Block(block))?;
    Ok(Rest::Done(false))
}

fn pass_stop(source: &Written, machine: &mut Machine, stop: bool, at: usize) -> Result<(), Stop>
    requires taken { machine.old.taken ≤ 16777216 }
    ensures ok { OnOk result (stop_passed source.now stop at (state_of machine.old) ≡ Ok (state_of machine.new)) }
    ensures fault { IfErr result (λ f. stop_passed source.now stop at (state_of machine.old) ≡ Err (stopped f (state_of machine.new))) }
    ensures more { OnOk result (machine.old.taken ≤ machine.new.taken) }
    ensures within { OnOk result (machine.new.taken ≤ 16777216) }
    ensures said { machine.new.messages.items ≡ machine.old.messages.items }
{
    if stop {
        machine.count(source, at)?;
    }
    Ok(())
}

/// A declared block, and a semicolon after it.
pub fn make_block(
    alloc: Global,
    source: &Written,
    machine: &mut Machine,
    part: &Part,
    name: usize,
    local: bool,
    stop: bool,
    further: &mut Part,
) -> Result<Rest, Stop>
    requires taken { machine.old.taken ≤ 16777216 }
    ensures ok { IfOk result (λ next. made_block source.now part.now name local stop (state_of machine.old) ≡ Ok (settled (next_of next further.new) (state_of machine.new))) }
    ensures fault { IfErr result (λ f. f ≢ NoMemory → made_block source.now part.now name local stop (state_of machine.old) ≡ Err (stopped f (state_of machine.new))) }
    ensures light { IfOk result (λ next. is_light (next_of next further.new)) }
    ensures more { OnOk result (machine.old.taken ≤ machine.new.taken) }
    ensures within { OnOk result (machine.new.taken ≤ 16777216) }
    ensures said { machine.new.messages.items ≡ machine.old.messages.items }
{
    if !part.closed {
        return Err(wrong(4, source, part.end));
    }
    pass_stop(source, machine, stop, part.end)?;
    hold(alloc, machine, part, name, local, further)
}
