// What an expansion carries along, and its smallest steps.
ghost use Rattle.std.specs.Prelude.{true, ◌≡◌, ◌≢◌, ◌<◌, ◌≤◌, ◌+◌, ◌^◌, ℕ, List, [], ◌∷◌, ◌++◌, length, drop, Ok, Err, IfOk, IfErr, OnOk, OnErr, nat_lt, slice_get, IsTrue};
ghost use Rattle.directive_machine.specs.State.{most_taken, counted, deeper, matched, passed, asked, asked_by, named, named_by, handed, is_aside, is_evaluated, stopped, restored, is_free, given_out};
ghost use Rattle.scene_expr.specs.Heads.{place_at};
ghost use Rattle.directive_machine.specs.Carried.{state_of};
ghost use Rattle.directive_machine.specs.declared.stop.Stop.TheVariants.{NoMemory, TextFault};

use crate::part::{Part, Then};
use crate::stop::Stop;
use scene_expr::place_at;
use scene_lexer::{Place, Token};
use scope_tables::Names;
use std::alloc::AllocError;
use text_structure::{Mark, Written, sign_at};

/// An expansion takes at most so many tokens.
const MOST_TAKEN: u32 = 16_777_216;

/// The flat list has at most so many tokens.
pub const MOST_HANDED: usize = 4_194_304;

/// Directives, calls and included texts stand in one another at most so deep.
const MOST_DEPTHS: u32 = 64;

/// The scopes, those of calls whose arguments are read, the count of tokens taken, the tokens handed out, and the
/// messages.
#[derive(Drop)]
pub struct Machine {
    pub scopes: Names,
    pub waiting: Names,
    pub taken: u32,
    pub out: Vec<Token>,
    pub messages: Vec<u8>,
}

/// A directive's fault of a kind at a token.
pub fn wrong(kind: u8, source: &Written, at: usize) -> Stop
    ensures { result ≡ Stop.Directive kind (place_at source.now.tokens at) }
{
    Stop::Directive {
        kind,
        place: place_at(source.tokens(), at),
    }
}

/// A step that reads no text has no fault of the texts.
pub fn of_step(stop: Stop) -> Stop
    ensures same { result ≢ NoMemory → result ≡ stop }
    ensures outside { result ≢ TextFault }
{
    match stop {
        Stop::Lex(fault) => Stop::Lex(fault),
        Stop::Expr(fault) => Stop::Expr(fault),
        Stop::Directive { kind, place } => Stop::Directive { kind, place },
        Stop::Absent { name, place } => Stop::Absent { name, place },
        Stop::TextFault => Stop::NoMemory,
        Stop::UserError { text, place } => Stop::UserError { text, place },
        Stop::Limit { which, place } => Stop::Limit { which, place },
        Stop::NoMemory => Stop::NoMemory,
    }
}

fn limit(which: u8, source: &Written, at: usize) -> Stop
    ensures { result ≡ Stop.Limit which (place_at source.now.tokens at) }
{
    Stop::Limit {
        which,
        place: place_at(source.tokens(), at),
    }
}

/// Whether a list that is made into this is kept aside from the flat list.
fn is_evaluated(then: &Then) -> bool
    ensures { result ≡ is_evaluated then.now }
{
    match then {
        Then::Plain => false,
        Then::Leave => false,
        Then::Again(_) => false,
        Then::Fall(_) => false,
        Then::Turn(_, _, _, _) => false,
        Then::Bind { .. } => true,
        Then::Hold { .. } => true,
        Then::Decide { .. } => true,
        Then::Test(_) => true,
        Then::Choose(_) => true,
        Then::Case(_) => true,
        Then::Low(_) => true,
        Then::High(_, _) => true,
        Then::From(_) => true,
        Then::To(_, _) => true,
        Then::By(_, _, _) => true,
        Then::Pass(_) => true,
        Then::Give(_) => true,
        Then::Refer(_, _) => true,
        Then::Enter(_) => true,
        Then::Say { .. } => true,
        Then::Read(_) => true,
    }
}

/// Whether the tokens of a part are kept aside from the flat list.
pub fn is_aside(part: &Part) -> bool
    ensures { result ≡ is_aside part.now }
{
    part.outer || is_evaluated(&part.then)
}

impl Machine {
    /// Counts a token that is taken.
    pub fn count(&mut self, source: &Written, at: usize) -> Result<(), Stop>
        ensures ok { OnOk result (counted source.now at (state_of self.old) ≡ Ok (state_of self.new)) }
        ensures fault { IfErr result (λ f. counted source.now at (state_of self.old) ≡ Err (stopped f (state_of self.new))) }
        ensures more { OnOk result (self.new.taken ≡ self.old.taken + 1) }
        ensures within { OnOk result (self.new.taken ≤ 16777216) }
        ensures said { self.new.messages.items ≡ self.old.messages.items }
    {
        if self.taken < MOST_TAKEN {
            self.taken += 1;
            Ok(())
        } else {
            Err(limit(1, source, at))
        }
    }

    /// One depth further in.
    pub fn deeper(&self, source: &Written, at: usize, depth: u32) -> Result<u32, Stop>
        ensures ok { IfOk result (λ inside. deeper source.now at depth (state_of self.now) ≡ Ok inside) }
        ensures fault { IfErr result (λ f. deeper source.now at depth (state_of self.now) ≡ Err (stopped f (state_of self.now))) }
    {
        if depth < MOST_DEPTHS {
            Ok(depth + 1)
        } else {
            Err(limit(3, source, at))
        }
    }

    /// Takes the sign that a head wants.
    pub fn pass(&mut self, code: u8, source: &Written, at: usize, end: usize) -> Result<(), Stop>
        ensures ok { OnOk result (passed code source.now at end (state_of self.old) ≡ Ok (state_of self.new)) }
        ensures fault { IfErr result (λ f. passed code source.now at end (state_of self.old) ≡ Err (stopped f (state_of self.new))) }
        ensures more { OnOk result (self.new.taken ≡ self.old.taken + 1) }
        ensures within { OnOk result (self.new.taken ≤ 16777216) }
        ensures said { self.new.messages.items ≡ self.old.messages.items }
    {
        if at >= end {
            return Err(wrong(4, source, at));
        }
        self.count(source, at)?;
        if sign_at(source.marks(), at) == code {
            Ok(())
        } else {
            Err(wrong(4, source, at))
        }
    }

    /// Takes the name that a head asks for; none where it is a word that the language keeps.
    pub fn ask(&mut self, source: &Written, at: usize, end: usize) -> Result<Option<usize>, Stop>
        ensures ok { IfOk result (λ name. asked source.now at end (state_of self.old) ≡ Ok (record { name = name; state = state_of self.new })) }
        ensures fault { IfErr result (λ f. asked source.now at end (state_of self.old) ≡ Err (stopped f (state_of self.new))) }
        ensures more { OnOk result (self.new.taken ≡ self.old.taken + 1) }
        ensures within { OnOk result (self.new.taken ≤ 16777216) }
        ensures said { self.new.messages.items ≡ self.old.messages.items }
    {
        if at >= end {
            return Err(wrong(4, source, at));
        }
        self.count(source, at)?;
        match source.mark(at) {
            Some(Mark::Name(name)) => Ok(Some(name)),
            Some(Mark::Known(_)) => Ok(None),
            Some(Mark::Sign(_)) => Err(wrong(4, source, at)),
            Some(Mark::Number) => Err(wrong(4, source, at)),
            Some(Mark::Text) => Err(wrong(4, source, at)),
            None => Err(wrong(4, source, at)),
        }
    }

    /// Takes the name that a head binds.
    pub fn name(&mut self, source: &Written, at: usize, end: usize) -> Result<usize, Stop>
        ensures ok { IfOk result (λ name. named source.now at end (state_of self.old) ≡ Ok (record { name = name; state = state_of self.new })) }
        ensures fault { IfErr result (λ f. named source.now at end (state_of self.old) ≡ Err (stopped f (state_of self.new))) }
        ensures more { OnOk result (self.new.taken ≡ self.old.taken + 1) }
        ensures within { OnOk result (self.new.taken ≤ 16777216) }
        ensures said { self.new.messages.items ≡ self.old.messages.items }
    {
        match self.ask(source, at, end)? {
            Some(name) => Ok(name),
            None => Err(wrong(5, source, at)),
        }
    }

    /// How many tokens were handed out.
    pub fn given(&self) -> usize
        ensures { result ≡ length self.now.out.items }
    {
        self.out.as_slice().len()
    }

    /// Whether one more token may be taken.
    #[inline(always)]
    pub fn may_take(&self) -> bool
        ensures { result ≡ nat_lt self.now.taken most_taken }
    {
        self.taken < MOST_TAKEN
    }

    /// Whether four more tokens may be taken.
    #[inline(always)]
    pub fn may_take_four(&self) -> bool
        ensures first { IsTrue result → nat_lt self.now.taken most_taken ≡ true }
        ensures second { IsTrue result → nat_lt (self.now.taken + 1) most_taken ≡ true }
        ensures third { IsTrue result → nat_lt (self.now.taken + 1 + 1) most_taken ≡ true }
        ensures fourth { IsTrue result → nat_lt (self.now.taken + 1 + 1 + 1) most_taken ≡ true }
        ensures room { IsTrue result → self.now.taken + 4 ≤ 16777216 }
    {
        self.taken < MOST_TAKEN - 3
    }

    /// Whether a part may hand out one more token.
    #[inline(always)]
    pub fn is_free(&self, part: &Part) -> bool
        ensures { result ≡ is_free part.now (state_of self.now) }
    {
        is_aside(part) || self.out.len() < MOST_HANDED
    }

    /// Puts a token behind those that were handed out.
    #[inline(always)]
    pub fn put(&mut self, token: Token) -> Result<(), AllocError>
        ensures state { OnOk result (state_of self.new ≡ given_out (token ∷ []) (state_of self.old)) }
        ensures same { OnErr result (state_of self.new ≡ state_of self.old) }
        ensures taken { self.new.taken ≡ self.old.taken }
        ensures said { self.new.messages.items ≡ self.old.messages.items }
    {
        self.out.reserve(1)?;
        self.out.push_reserved(token);
        Ok(())
    }

    /// Hands out tokens of one place.
    pub fn give_all(&mut self, part: &Part, tokens: Vec<Token>, place: Place) -> Result<(), Stop>
        ensures ok { OnOk result (handed part.now tokens.items place (state_of self.old) ≡ Ok (state_of self.new)) }
        ensures fault { IfErr result (λ f. f ≢ NoMemory → handed part.now tokens.items place (state_of self.old) ≡ Err (stopped f (state_of self.new))) }
        ensures taken { OnOk result (self.new.taken ≡ self.old.taken) }
        ensures said { self.new.messages.items ≡ self.old.messages.items }
    {
        if !is_aside(part) && self.out.len().saturating_add(tokens.len()) > MOST_HANDED {
            return Err(Stop::Limit { which: 2, place });
        }
        let mut tokens = tokens;
        if self.out.append(&mut tokens).is_err() {
            return Err(Stop::NoMemory);
        }
        Ok(())
    }
}
