// Blocks: braces round statements. A block of the same word may stand first, whose contents come
// first.
ghost use Rattle.std.specs.Prelude.{◌≡◌, ◌≢◌, ◌≤◌, ◌<◌, ◌+◌, ℕ, suc, Bool, List, Option, length, IfOk, IfErr, IsTrue, IsSome, Ok, Err, Result};
ghost use Rattle.scene_expr.specs.Values.{AreWhole};
ghost use Rattle.scene_expr.specs.declared.value.Settings.{Settings};
ghost use Rattle.scene_lexer.specs.declared.token.Token.{Token};
ghost use Rattle.item_blocks.specs.declared.fault.ParseFault.TheVariants.{NoMemory};
ghost use Rattle.item_blocks.specs.declared.fault.Wanted.{Wanted};
ghost use Rattle.item_blocks.specs.declared.words.Word.{Word};
ghost use Rattle.item_blocks.specs.Tokens.{word_at};
ghost use Rattle.item_blocks.specs.Blocks.{Kind, Statement, IsLed, IsOwn, IsBlock};

use crate::fault::{ParseFault, Wanted};
use crate::tokens::{opened, sign_at, word_at};
use crate::words::Word;
use scene_expr::{Settings, place_at};
use scene_lexer::{Token, sign};
use std::alloc::Global;

/// What is read between braces, from a state on.
pub trait Block {
    /// What this kind of block holds.
    ghost kind: { List Token → Settings → Kind Self };

    /// Whether a word is the block's own.
    fn leads(word: Option<Word>) -> bool
        ensures value { (tokens : List Token) (set : Settings) → result ≡ (kind tokens set).leads word }
        ensures some { IsTrue result → IsSome word };

    /// What stands before the statements; `led` tells whether a block of the own word does. So many
    /// further braces may be open.
    fn first(
        &mut self,
        alloc: Global,
        tokens: &[Token],
        set: &Settings,
        depths: usize,
        led: bool,
        at: usize,
    ) -> Result<usize, ParseFault>
        requires within { at ≤ length tokens.now }
        requires whole { AreWhole set.now }
        ensures found { IfOk result (λ next. (kind tokens.now set.now).first depths led self.old at (Ok (record { value = self.new; next = next }))) }
        ensures fault { IfErr result (λ f. f ≢ NoMemory → (kind tokens.now set.now).first depths led self.old at (Err f)) }
        ensures within { IfOk result (λ next. (at ≤ next) × (next ≤ length tokens.now)) };

    /// A statement, and the token behind it.
    fn statement(
        &mut self,
        alloc: Global,
        tokens: &[Token],
        set: &Settings,
        depths: usize,
        at: usize,
    ) -> Result<usize, ParseFault>
        requires within { at ≤ length tokens.now }
        requires whole { AreWhole set.now }
        ensures found { IfOk result (λ next. (kind tokens.now set.now).statement depths self.old at (Ok (record { value = self.new; next = next }))) }
        ensures fault { IfErr result (λ f. f ≢ NoMemory → (kind tokens.now set.now).statement depths self.old at (Err f)) }
        ensures within { IfOk result (λ next. (at < next) × (next ≤ length tokens.now)) };

    /// What is missing where the block is closed.
    fn lacks(&self) -> Option<Wanted>
        ensures { (tokens : List Token) (set : Settings) → result ≡ (kind tokens set).lacks self.now };
}

/// A block of the own word that stands first, where there is one.
#[cycle(blocks)]
fn led<B: Block>(
    alloc: Global,
    tokens: &[Token],
    set: &Settings,
    depths: usize,
    leads: bool,
    at: usize,
    block: &mut B,
) -> Result<usize, ParseFault>
    requires within { at ≤ length tokens.now }
    requires depth { 0 < depths }
    requires some { IsTrue leads → IsSome (word_at tokens.now at) }
    requires whole { AreWhole set.now }
    ensures found { IfOk result (λ next. IsLed leads (IsOwn (B.kind tokens.now set.now) tokens.now depths) block.old at (Ok (record { value = block.new; next = next }))) }
    ensures fault { IfErr result (λ f. f ≢ NoMemory → IsLed leads (IsOwn (B.kind tokens.now set.now) tokens.now depths) block.old at (Err f)) }
    ensures within { IfOk result (λ next. (at ≤ next) × (next ≤ length tokens.now)) }
{
    if leads {
        braced(alloc, tokens, set, depths - 1, at + 1, block)
    } else {
        Ok(at)
    }
}

/// A block, from its opening brace on, and the token behind it. So many further braces may be open.
#[cycle(blocks)]
pub fn braced<B: Block>(
    alloc: Global,
    tokens: &[Token],
    set: &Settings,
    depths: usize,
    at: usize,
    block: &mut B,
) -> Result<usize, ParseFault>
    requires within { at ≤ length tokens.now }
    requires whole { AreWhole set.now }
    ensures found { IfOk result (λ next. IsBlock (B.kind tokens.now set.now) tokens.now depths block.old at (Ok (record { value = block.new; next = next }))) }
    ensures fault { IfErr result (λ f. f ≢ NoMemory → IsBlock (B.kind tokens.now set.now) tokens.now depths block.old at (Err f)) }
    ensures within { IfOk result (λ next. (at < next) × (next ≤ length tokens.now)) }
{
    let start = opened(tokens, depths, at)?;
    let leads = B::leads(word_at(tokens, start));
    let begun = led(alloc, tokens, set, depths, leads, start, block)?;
    let mut next = block.first(alloc, tokens, set, depths - 1, leads, begun)?;
    'statements: while sign_at(tokens, next) != sign::CLOSE_BRACE {
        next = block.statement(alloc, tokens, set, depths - 1, next)?;
    }
    match block.lacks() {
        None => Ok(next + 1),
        Some(kind) => Err(ParseFault::Expected {
            place: place_at(tokens, next),
            kind,
        }),
    }
}
