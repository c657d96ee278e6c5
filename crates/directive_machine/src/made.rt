// What is made of the value of a part, and of a part that isn't evaluated.
ghost use Rattle.std.specs.Prelude.{true, ◌≡◌, ◌≢◌, ◌<◌, ◌≤◌, ◌+◌, None, Ok, Err, IfOk, IfErr, OnOk, OnErr, drop};
ghost use Rattle.scene_expr.specs.Values.{AreWhole};
ghost use Rattle.directive_machine.specs.Moves.{next_of};
ghost use Rattle.directive_machine.specs.State.{State, stopped, settled};
ghost use Rattle.directive_machine.specs.Values.{IsWhole, IsEvaluated, stop_of, closed, given};
ghost use Rattle.directive_machine.specs.Nexts.{float};
ghost use Rattle.directive_machine.specs.Holds.{text_of, said};
ghost use Rattle.directive_machine.specs.Settles.{made, is_plain, settled_by};
ghost use Rattle.directive_machine.specs.Weights.{is_light};
ghost use Rattle.directive_machine.specs.Carried.{state_of};
ghost use Rattle.directive_machine.specs.declared.stop.Stop.TheVariants.{NoMemory};

use crate::declared_blocks::behind;
use crate::declares::bind_in;
use crate::machine::{Machine, wrong};
use crate::part::{Choice, Circle, Part, Rest, Span, Then, Turns};
use crate::settle::{
    decided, goes_on, make_by, make_case, make_from, make_high, make_low, make_to, next_case,
    tested,
};
use crate::stop::Stop;
use fix_math::{Fix, Str};
use scene_expr::{ExprFault, Level, Settings, Value, eval, place_at};
use scene_lexer::{Place, Token};
use scope_tables::Binding;
use std::alloc::Global;
use text_structure::Written;

/// The greatest number of bytes of messages.
const MOST_MESSAGES: usize = 1_048_576;

/// A value, and the place of the first token of its list.
#[derive(Drop)]
pub struct Valued {
    pub value: Value,
    pub first: Place,
}

/// A fault of an expression.
fn stop_of(fault: ExprFault) -> Stop
    ensures { result ≡ stop_of fault }
{
    match fault {
        ExprFault::NoMemory => Stop::NoMemory,
        ExprFault::Expected(place) => Stop::Expr(ExprFault::Expected(place)),
        ExprFault::UnknownName(place) => Stop::Expr(ExprFault::UnknownName(place)),
        ExprFault::Kind(place) => Stop::Expr(ExprFault::Kind(place)),
        ExprFault::ZeroDivisor(place) => Stop::Expr(ExprFault::ZeroDivisor(place)),
        ExprFault::Range(place) => Stop::Expr(ExprFault::Range(place)),
    }
}

/// The value of a whole list.
fn whole(alloc: Global, list: &[Token], set: &Settings) -> Result<Value, ExprFault>
    requires { AreWhole set.now }
    ensures value { IfOk result (λ value. IsWhole set.now list.now (Ok value)) }
    ensures fault { IfErr result (λ f. f ≢ ExprFault.NoMemory → IsWhole set.now list.now (Err f)) }
{
    let (value, next) = eval(alloc, list, 0, Level::Choice, set)?;
    if next == list.len() {
        Ok(value)
    } else {
        Err(ExprFault::Expected(place_at(list, next)))
    }
}

impl Machine {
    /// The value of the list that was handed out aside, which is taken away.
    pub fn evaluate(&mut self, alloc: Global, set: &Settings, from: usize) -> Result<Valued, Stop>
        requires { AreWhole set.now }
        ensures value { IfOk result (λ found. IsEvaluated set.now from (state_of self.old) (Ok (record { value = found.value; first = found.first; state = state_of self.new }))) }
        ensures fault { IfErr result (λ f. f ≢ NoMemory → IsEvaluated set.now from (state_of self.old) (Err (stopped f (state_of self.new)))) }
        ensures taken { OnOk result (self.new.taken ≡ self.old.taken) }
        ensures said { self.new.messages.items ≡ self.old.messages.items }
    {
        let list = behind(self.out.as_slice(), from);
        let first = place_at(list, 0);
        match whole(alloc, list, set) {
            Ok(value) => {
                self.out.truncate(from);
                Ok(Valued { value, first })
            }
            Err(fault) => Err(stop_of(fault)),
        }
    }
}

/// The float that a directive takes.
fn float(value: Value, first: Place) -> Result<Fix, Stop>
    ensures ok { IfOk result (λ x. (s : State) → float (given value first s) ≡ Ok x) }
    ensures fault { IfErr result (λ f. (s : State) → float (given value first s) ≡ Err (stopped f s)) }
{
    match value {
        Value::Float(x) => Ok(x),
        Value::Vector(_) => Err(Stop::Expr(ExprFault::Kind(first))),
        Value::Color(_) => Err(Stop::Expr(ExprFault::Kind(first))),
        Value::Text(_text) => Err(Stop::Expr(ExprFault::Kind(first))),
    }
}

/// The text that a directive takes.
pub fn text_of(value: Value, first: Place) -> Result<Str, Stop>
    ensures ok { IfOk result (λ text. (s : State) → text_of (given value first s) ≡ Ok text) }
    ensures fault { IfErr result (λ f. (s : State) → text_of (given value first s) ≡ Err (stopped f s)) }
{
    match value {
        Value::Text(text) => Ok(text),
        Value::Float(_) => Err(Stop::Expr(ExprFault::Kind(first))),
        Value::Vector(_) => Err(Stop::Expr(ExprFault::Kind(first))),
        Value::Color(_) => Err(Stop::Expr(ExprFault::Kind(first))),
    }
}

/// The condition of an `#if`.
fn make_decision(
    source: &Written,
    machine: &mut Machine,
    part: &Part,
    held: Span,
    otherwise: Span,
    value: Value,
    first: Place,
    further: &mut Part,
) -> Result<Rest, Stop>
    requires taken { machine.old.taken ≤ 16777216 }
    ensures ok { IfOk result (λ next. made source.now None part.now (Then.Decide held otherwise) (given value first (state_of machine.old)) ≡ Ok (settled (next_of next further.new) (state_of machine.new))) }
    ensures fault { IfErr result (λ f. made source.now None part.now (Then.Decide held otherwise) (given value first (state_of machine.old)) ≡ Err (stopped f (state_of machine.new))) }
    ensures light { IfOk result (λ next. is_light (next_of next further.new)) }
    ensures more { OnOk result (machine.old.taken ≤ machine.new.taken) }
    ensures within { OnOk result (machine.new.taken ≤ 16777216) }
    ensures said { machine.new.messages.items ≡ machine.old.messages.items }
{
    let x = float(value, first)?;
    Ok(decided(part, held, otherwise, x, further))
}

/// The condition of a `#while`.
fn make_test(
    source: &Written,
    machine: &mut Machine,
    part: &Part,
    circle: &Circle,
    value: Value,
    first: Place,
    further: &mut Part,
) -> Result<Rest, Stop>
    requires taken { machine.old.taken ≤ 16777216 }
    ensures ok { IfOk result (λ next. made source.now None part.now (Then.Test circle.now) (given value first (state_of machine.old)) ≡ Ok (settled (next_of next further.new) (state_of machine.new))) }
    ensures fault { IfErr result (λ f. made source.now None part.now (Then.Test circle.now) (given value first (state_of machine.old)) ≡ Err (stopped f (state_of machine.new))) }
    ensures light { IfOk result (λ next. is_light (next_of next further.new)) }
    ensures more { OnOk result (machine.old.taken ≤ machine.new.taken) }
    ensures within { OnOk result (machine.new.taken ≤ 16777216) }
    ensures said { machine.new.messages.items ≡ machine.old.messages.items }
{
    let x = float(value, first)?;
    Ok(tested(part, circle, x, further))
}

/// The value of a `#switch`.
fn make_choice(
    source: &Written,
    machine: &mut Machine,
    part: &Part,
    first_case: usize,
    value: Value,
    first: Place,
    further: &mut Part,
) -> Result<Rest, Stop>
    requires taken { machine.old.taken ≤ 16777216 }
    ensures ok { IfOk result (λ next. made source.now None part.now (Then.Choose first_case) (given value first (state_of machine.old)) ≡ Ok (settled (next_of next further.new) (state_of machine.new))) }
    ensures fault { IfErr result (λ f. made source.now None part.now (Then.Choose first_case) (given value first (state_of machine.old)) ≡ Err (stopped f (state_of machine.new))) }
    ensures light { IfOk result (λ next. is_light (next_of next further.new)) }
    ensures more { OnOk result (machine.old.taken ≤ machine.new.taken) }
    ensures within { OnOk result (machine.new.taken ≤ 16777216) }
    ensures said { machine.new.messages.items ≡ machine.old.messages.items }
{
    let x = float(value, first)?;
    next_case(source, machine, part, x, None, first_case, further)
}

/// The value of a `#case`.
fn make_asked_case(
    source: &Written,
    machine: &mut Machine,
    part: &Part,
    choice: &Choice,
    value: Value,
    first: Place,
    further: &mut Part,
) -> Result<Rest, Stop>
    requires taken { machine.old.taken ≤ 16777216 }
    ensures ok { IfOk result (λ next. made source.now None part.now (Then.Case choice.now) (given value first (state_of machine.old)) ≡ Ok (settled (next_of next further.new) (state_of machine.new))) }
    ensures fault { IfErr result (λ f. made source.now None part.now (Then.Case choice.now) (given value first (state_of machine.old)) ≡ Err (stopped f (state_of machine.new))) }
    ensures light { IfOk result (λ next. is_light (next_of next further.new)) }
    ensures more { OnOk result (machine.old.taken ≤ machine.new.taken) }
    ensures within { OnOk result (machine.new.taken ≤ 16777216) }
    ensures said { machine.new.messages.items ≡ machine.old.messages.items }
{
    let x = float(value, first)?;
    make_case(source, machine, part, choice, x, further)
}

/// The first number of a `#range`.
fn make_asked_low(
    source: &Written,
    machine: &mut Machine,
    part: &Part,
    choice: &Choice,
    value: Value,
    first: Place,
    further: &mut Part,
) -> Result<Rest, Stop>
    requires taken { machine.old.taken ≤ 16777216 }
    ensures ok { IfOk result (λ next. made source.now None part.now (Then.Low choice.now) (given value first (state_of machine.old)) ≡ Ok (settled (next_of next further.new) (state_of machine.new))) }
    ensures fault { IfErr result (λ f. made source.now None part.now (Then.Low choice.now) (given value first (state_of machine.old)) ≡ Err (stopped f (state_of machine.new))) }
    ensures light { IfOk result (λ next. is_light (next_of next further.new)) }
    ensures more { OnOk result (machine.old.taken ≤ machine.new.taken) }
    ensures within { OnOk result (machine.new.taken ≤ 16777216) }
    ensures said { machine.new.messages.items ≡ machine.old.messages.items }
{
    let x = float(value, first)?;
    make_low(source, machine, part, choice, x, further)
}

/// The second number of a `#range`.
fn make_asked_high(
    source: &Written,
    machine: &mut Machine,
    part: &Part,
    choice: &Choice,
    low: Fix,
    value: Value,
    first: Place,
    further: &mut Part,
) -> Result<Rest, Stop>
    requires taken { machine.old.taken ≤ 16777216 }
    ensures ok { IfOk result (λ next. made source.now None part.now (Then.High choice.now low) (given value first (state_of machine.old)) ≡ Ok (settled (next_of next further.new) (state_of machine.new))) }
    ensures fault { IfErr result (λ f. made source.now None part.now (Then.High choice.now low) (given value first (state_of machine.old)) ≡ Err (stopped f (state_of machine.new))) }
    ensures light { IfOk result (λ next. is_light (next_of next further.new)) }
    ensures more { OnOk result (machine.old.taken ≤ machine.new.taken) }
    ensures within { OnOk result (machine.new.taken ≤ 16777216) }
    ensures said { machine.new.messages.items ≡ machine.old.messages.items }
{
    let x = float(value, first)?;
    make_high(source, machine, part, choice, low, x, further)
}

/// The first number of a `#for`.
fn make_turns_from(
    source: &Written,
    machine: &mut Machine,
    part: &Part,
    turns: &Turns,
    value: Value,
    first: Place,
    further: &mut Part,
) -> Result<Rest, Stop>
    requires taken { machine.old.taken ≤ 16777216 }
    ensures ok { IfOk result (λ next. made source.now None part.now (Then.From turns.now) (given value first (state_of machine.old)) ≡ Ok (settled (next_of next further.new) (state_of machine.new))) }
    ensures fault { IfErr result (λ f. made source.now None part.now (Then.From turns.now) (given value first (state_of machine.old)) ≡ Err (stopped f (state_of machine.new))) }
    ensures light { IfOk result (λ next. is_light (next_of next further.new)) }
    ensures more { OnOk result (machine.old.taken ≤ machine.new.taken) }
    ensures within { OnOk result (machine.new.taken ≤ 16777216) }
    ensures said { machine.new.messages.items ≡ machine.old.messages.items }
{
    let x = float(value, first)?;
    make_from(source, machine, part, turns, x, further)
}

/// The last number of a `#for`.
fn make_turns_to(
    source: &Written,
    machine: &mut Machine,
    part: &Part,
    turns: &Turns,
    start: Fix,
    value: Value,
    first: Place,
    further: &mut Part,
) -> Result<Rest, Stop>
    requires taken { machine.old.taken ≤ 16777216 }
    ensures ok { IfOk result (λ next. made source.now None part.now (Then.To turns.now start) (given value first (state_of machine.old)) ≡ Ok (settled (next_of next further.new) (state_of machine.new))) }
    ensures fault { IfErr result (λ f. f ≢ NoMemory → made source.now None part.now (Then.To turns.now start) (given value first (state_of machine.old)) ≡ Err (stopped f (state_of machine.new))) }
    ensures light { IfOk result (λ next. is_light (next_of next further.new)) }
    ensures more { OnOk result (machine.old.taken ≤ machine.new.taken) }
    ensures within { OnOk result (machine.new.taken ≤ 16777216) }
    ensures said { machine.new.messages.items ≡ machine.old.messages.items }
{
    let x = float(value, first)?;
    make_to(source, machine, part, turns, start, x, further)
}

/// The step of a `#for`.
fn make_turns_by(
    source: &Written,
    machine: &mut Machine,
    part: &Part,
    turns: &Turns,
    start: Fix,
    last: Fix,
    value: Value,
    first: Place,
    further: &mut Part,
) -> Result<Rest, Stop>
    requires taken { machine.old.taken ≤ 16777216 }
    ensures ok { IfOk result (λ next. made source.now None part.now (Then.By turns.now start last) (given value first (state_of machine.old)) ≡ Ok (settled (next_of next further.new) (state_of machine.new))) }
    ensures fault { IfErr result (λ f. f ≢ NoMemory → made source.now None part.now (Then.By turns.now start last) (given value first (state_of machine.old)) ≡ Err (stopped f (state_of machine.new))) }
    ensures light { IfOk result (λ next. is_light (next_of next further.new)) }
    ensures more { OnOk result (machine.old.taken ≤ machine.new.taken) }
    ensures within { OnOk result (machine.new.taken ≤ 16777216) }
    ensures said { machine.new.messages.items ≡ machine.old.messages.items }
{
    let x = float(value, first)?;
    make_by(source, machine, part, turns, start, last, x, further)
}

/// What a message or an `#error` says.
fn say(
    source: &Written,
    machine: &mut Machine,
    error: bool,
    at: usize,
    text: Str,
    further: &mut Part,
) -> Result<Rest, Stop>
    requires taken { machine.old.taken ≤ 16777216 }
    ensures ok { IfOk result (λ next. said source.now at error text (state_of machine.old) ≡ Ok (settled (next_of next further.new) (state_of machine.new))) }
    ensures fault { IfErr result (λ f. f ≢ NoMemory → said source.now at error text (state_of machine.old) ≡ Err (stopped f (state_of machine.new))) }
    ensures light { IfOk result (λ next. is_light (next_of next further.new)) }
    ensures more { OnOk result (machine.old.taken ≤ machine.new.taken) }
    ensures within { OnOk result (machine.new.taken ≤ 16777216) }
    ensures said { OnErr result (machine.new.messages.items ≡ machine.old.messages.items) }
{
    if error {
        return Err(Stop::UserError {
            text,
            place: place_at(source.tokens(), at),
        });
    }
    if machine.messages.len().saturating_add(text.bytes().len()) > MOST_MESSAGES {
        return Err(Stop::Limit {
            which: 6,
            place: place_at(source.tokens(), at),
        });
    }
    if machine.messages.extend_from_slice(text.bytes()).is_err() {
        return Err(Stop::NoMemory);
    }
    Ok(Rest::Done(false))
}

/// The text of a message.
fn make_said(
    source: &Written,
    machine: &mut Machine,
    part: &Part,
    error: bool,
    at: usize,
    value: Value,
    first: Place,
    further: &mut Part,
) -> Result<Rest, Stop>
    requires taken { machine.old.taken ≤ 16777216 }
    ensures ok { IfOk result (λ next. made source.now None part.now (Then.Say error at) (given value first (state_of machine.old)) ≡ Ok (settled (next_of next further.new) (state_of machine.new))) }
    ensures fault { IfErr result (λ f. f ≢ NoMemory → made source.now None part.now (Then.Say error at) (given value first (state_of machine.old)) ≡ Err (stopped f (state_of machine.new))) }
    ensures light { IfOk result (λ next. is_light (next_of next further.new)) }
    ensures more { OnOk result (machine.old.taken ≤ machine.new.taken) }
    ensures within { OnOk result (machine.new.taken ≤ 16777216) }
    ensures said { OnErr result (machine.new.messages.items ≡ machine.old.messages.items) }
{
    let text = text_of(value, first)?;
    say(source, machine, error, at, text, further)
}

/// A right side that is an expression.
pub fn make_bound(
    source: &Written,
    machine: &mut Machine,
    part: &Part,
    name: usize,
    local: bool,
    value: Value,
    first: Place,
    further: &mut Part,
) -> Result<Rest, Stop>
    requires taken { machine.old.taken ≤ 16777216 }
    ensures ok { IfOk result (λ next. made source.now None part.now (Then.Bind name local) (given value first (state_of machine.old)) ≡ Ok (settled (next_of next further.new) (state_of machine.new))) }
    ensures fault { IfErr result (λ f. f ≢ NoMemory → made source.now None part.now (Then.Bind name local) (given value first (state_of machine.old)) ≡ Err (stopped f (state_of machine.new))) }
    ensures light { IfOk result (λ next. is_light (next_of next further.new)) }
    ensures more { OnOk result (machine.old.taken ≤ machine.new.taken) }
    ensures within { OnOk result (machine.new.taken ≤ 16777216) }
    ensures said { machine.new.messages.items ≡ machine.old.messages.items }
{
    bind_in(machine, local, name, Binding::Value(value))?;
    Ok(Rest::Done(false))
}

/// What a value makes that doesn't bind an argument.
pub fn make_plain(
    source: &Written,
    machine: &mut Machine,
    part: &Part,
    value: Value,
    first: Place,
    further: &mut Part,
) -> Result<Rest, Stop>
    requires plain { is_plain part.now.then ≡ true }
    requires taken { machine.old.taken ≤ 16777216 }
    ensures ok { IfOk result (λ next. made source.now None part.now part.now.then (given value first (state_of machine.old)) ≡ Ok (settled (next_of next further.new) (state_of machine.new))) }
    ensures fault { IfErr result (λ f. f ≢ NoMemory → made source.now None part.now part.now.then (given value first (state_of machine.old)) ≡ Err (stopped f (state_of machine.new))) }
    ensures light { IfOk result (λ next. is_light (next_of next further.new)) }
    ensures more { OnOk result (machine.old.taken ≤ machine.new.taken) }
    ensures within { OnOk result (machine.new.taken ≤ 16777216) }
    ensures said { OnErr result (machine.new.messages.items ≡ machine.old.messages.items) }
{
    match &part.then {
        Then::Bind { name, local } => make_bound(
            source, machine, part, *name, *local, value, first, further,
        ),
        Then::Decide { held, otherwise } => make_decision(
            source, machine, part, *held, *otherwise, value, first, further,
        ),
        Then::Test(circle) => make_test(source, machine, part, circle, value, first, further),
        Then::Choose(case) => make_choice(source, machine, part, *case, value, first, further),
        Then::Case(choice) => make_asked_case(source, machine, part, choice, value, first, further),
        Then::Low(choice) => make_asked_low(source, machine, part, choice, value, first, further),
        Then::High(choice, low) => make_asked_high(
            source, machine, part, choice, *low, value, first, further,
        ),
        Then::From(turns) => make_turns_from(source, machine, part, turns, value, first, further),
        Then::To(turns, start) => make_turns_to(
            source, machine, part, turns, *start, value, first, further,
        ),
        Then::By(turns, start, last) => make_turns_by(
            source, machine, part, turns, *start, *last, value, first, further,
        ),
        Then::Say { error, at } => make_said(
            source, machine, part, *error, *at, value, first, further,
        ),
        Then::Plain => Ok(Rest::Done(false)),
        Then::Leave => Ok(Rest::Done(false)),
        Then::Hold { .. } => Ok(Rest::Done(false)),
        Then::Again(_) => Ok(Rest::Done(false)),
        Then::Fall(_) => Ok(Rest::Done(false)),
        Then::Turn(_, _, _, _) => Ok(Rest::Done(false)),
        Then::Pass(_) => Ok(Rest::Done(false)),
        Then::Give(_) => Ok(Rest::Done(false)),
        Then::Refer(_, _) => Ok(Rest::Done(false)),
        Then::Enter(_) => Ok(Rest::Done(false)),
        Then::Read(_) => Ok(Rest::Done(false)),
    }
}

/// Takes the closer of a list.
pub fn close(source: &Written, machine: &mut Machine, part: &Part) -> Result<(), Stop>
    ensures ok { OnOk result (closed source.now part.now (state_of machine.old) ≡ Ok (state_of machine.new)) }
    ensures fault { IfErr result (λ f. closed source.now part.now (state_of machine.old) ≡ Err (stopped f (state_of machine.new))) }
    ensures more { OnOk result (machine.new.taken ≡ machine.old.taken + 1) }
    ensures within { OnOk result (machine.new.taken ≤ 16777216) }
    ensures said { machine.new.messages.items ≡ machine.old.messages.items }
{
    if !part.closed {
        return Err(wrong(4, source, part.end));
    }
    machine.count(source, part.end)?;
    Ok(())
}

/// The body of a `#while`: its condition follows.
pub fn turn_again(
    source: &Written,
    machine: &mut Machine,
    part: &Part,
    circle: &Circle,
    further: &mut Part,
) -> Result<Rest, Stop>
    requires taken { machine.old.taken ≤ 16777216 }
    ensures ok { IfOk result (λ next. settled_by source.now None part.now (Then.Again circle.now) (state_of machine.old) ≡ Ok (settled (next_of next further.new) (state_of machine.new))) }
    ensures fault { IfErr result (λ f. settled_by source.now None part.now (Then.Again circle.now) (state_of machine.old) ≡ Err (stopped f (state_of machine.new))) }
    ensures light { IfOk result (λ next. is_light (next_of next further.new)) }
    ensures more { OnOk result (machine.old.taken ≤ machine.new.taken) }
    ensures within { OnOk result (machine.new.taken ≤ 16777216) }
    ensures strict { OnOk result (machine.old.taken < machine.new.taken) }
    ensures said { machine.new.messages.items ≡ machine.old.messages.items }
{
    machine.pass(b'(', source, circle.sign, circle.body.end)?;
    Ok(goes_on(
        machine,
        part,
        circle.condition,
        circle.closed,
        Then::Test(*circle),
        further,
    ))
}
