// What is made of each part, once it is expanded.
ghost use Rattle.std.specs.Prelude.{◌≡◌, ◌≢◌, ◌<◌, ◌≤◌, ◌+◌, ◌^◌, ◌+ℤ◌, ℤ, ℕ, pos, Some, None, Ok, Err, IfOk, IfErr, OnOk, length, drop, slice_get, option_map};
ghost use Rattle.std.specs.Ordering.{int_eq};
ghost use Rattle.fix_math.specs.Outcomes.{in_range};
ghost use Rattle.text_structure.specs.Turns.{directive_at};
ghost use Rattle.directive_machine.specs.Moves.{next_of};
ghost use Rattle.directive_machine.specs.State.{stopped, settled, restored, on_ok, counted, passed};
ghost use Rattle.directive_machine.specs.Begins.{chosen};
ghost use Rattle.directive_machine.specs.Nexts.{done, next_part, goes_on, run_next, decided_next, tested_next, is_true, decided, tested};
ghost use Rattle.directive_machine.specs.Cases.{fallen_next, no_case_next, fallen_else_next, choice, case_taken, asked_case, asked_range, fallen, no_case, case_by, next_by, next_case, matched_case, made_low, made_high, fallen_case, fallen_else, fallen_by};
ghost use Rattle.directive_machine.specs.Rounds.{numbered, goes_round, tried, begun_turns, made_from, made_to, made_by, turned_by, turned};
ghost use Rattle.directive_machine.specs.Weights.{is_light, is_lighter, is_turn, keeps_measure, weight};
ghost use Rattle.directive_machine.specs.Carried.{state_of};
ghost use Rattle.directive_machine.specs.declared.stop.Stop.TheVariants.{NoMemory};

use crate::blocks::{chosen, is_closed, is_piece_closed, listed, piece};
use crate::machine::{Machine, wrong};
use crate::part::{Choice, Circle, Part, Rest, Span, Then, Turns};
use crate::stop::Stop;
use fix_math::{Fix, NumFault, add};
use scene_expr::{ExprFault, Value, place_at};
use scope_tables::Binding;
use text_structure::{Closer, Directive, Written, sign_at};

/// Writes the part down that follows another one.
fn follow(part: &Part, list: Span, closed: bool, from: usize, then: Then, further: &mut Part)
    ensures { further.new ≡ next_part part.now list closed from then }
{
    further.text = part.text;
    further.at = list.at;
    further.end = list.end;
    further.from = from;
    further.depth = part.depth;
    further.closed = closed;
    further.outer = part.outer;
    further.then = then;
}

/// A list that is evaluated follows.
pub fn goes_on(
    machine: &Machine,
    part: &Part,
    list: Span,
    closed: bool,
    then: Then,
    further: &mut Part,
) -> Rest
    ensures value { goes_on part.now list closed then (state_of machine.now) ≡ Ok (settled (next_of result further.new) (state_of machine.now)) }
    ensures light { weight then < 2 ^ 66 → is_light (next_of result further.new) }
{
    follow(part, list, closed, machine.given(), then, further);
    Rest::Further
}

/// A body follows.
fn runs(part: &Part, list: Span, then: Then, further: &mut Part) -> Rest
    ensures value { next_of result further.new ≡ run_next part.now list then }
    ensures light { weight then < 2 ^ 66 → is_light (next_of result further.new) }
{
    follow(part, list, false, 0, then, further);
    Rest::Further
}

fn is_true(value: Fix) -> bool
    ensures { result ≡ is_true value }
{
    value.raw() != 0
}

/// A condition of an `#if`: one of its bodies follows.
pub fn decided(part: &Part, held: Span, otherwise: Span, value: Fix, further: &mut Part) -> Rest
    ensures value { next_of result further.new ≡ decided_next part.now held otherwise value }
    ensures light { is_light (next_of result further.new) }
{
    runs(
        part,
        chosen(is_true(value), held, otherwise),
        Then::Plain,
        further,
    )
}

/// A condition of a `#while`: its body follows, or the loop ends.
pub fn tested(part: &Part, circle: &Circle, value: Fix, further: &mut Part) -> Rest
    ensures value { next_of result further.new ≡ tested_next part.now circle.now value }
    ensures light { is_light (next_of result further.new) }
{
    if is_true(value) {
        runs(part, circle.body, Then::Again(*circle), further)
    } else {
        Rest::Done(false)
    }
}

fn choice(source: &Written, value: Fix, otherwise: Option<usize>, at: usize) -> Choice
    requires { at < 2 ^ 33 }
    ensures { result ≡ choice source.now value otherwise at }
{
    let limit = source.end(Closer::Branch, at + 2);
    Choice {
        value,
        otherwise,
        close: listed(source, at + 3, limit).end,
        body: listed(source, at + 3, limit).end + 1,
        closed: is_closed(source, at + 3, limit),
    }
}

/// Takes the `#`, the word and the `(` of a case.
fn take_case(source: &Written, machine: &mut Machine, at: usize) -> Result<(), Stop>
    requires place { at < 2 ^ 33 }
    ensures ok { OnOk result (case_taken source.now at (state_of machine.old) ≡ Ok (state_of machine.new)) }
    ensures fault { IfErr result (λ f. case_taken source.now at (state_of machine.old) ≡ Err (stopped f (state_of machine.new))) }
    ensures more { OnOk result (machine.old.taken < machine.new.taken) }
    ensures within { OnOk result (machine.new.taken ≤ 16777216) }
    ensures said { machine.new.messages.items ≡ machine.old.messages.items }
{
    machine.count(source, at)?;
    machine.count(source, at + 1)?;
    machine.pass(b'(', source, at + 2, source.end(Closer::Branch, at + 2))?;
    Ok(())
}

/// A `#case` is asked.
fn ask_case(
    source: &Written,
    machine: &mut Machine,
    part: &Part,
    value: Fix,
    otherwise: Option<usize>,
    at: usize,
    further: &mut Part,
) -> Result<Rest, Stop>
    requires place { at < 2 ^ 33 }
    requires taken { machine.old.taken ≤ 16777216 }
    ensures ok { IfOk result (λ next. asked_case source.now part.now value otherwise at (state_of machine.old) ≡ Ok (settled (next_of next further.new) (state_of machine.new))) }
    ensures fault { IfErr result (λ f. asked_case source.now part.now value otherwise at (state_of machine.old) ≡ Err (stopped f (state_of machine.new))) }
    ensures light { IfOk result (λ next. is_light (next_of next further.new)) }
    ensures more { OnOk result (machine.old.taken ≤ machine.new.taken) }
    ensures within { OnOk result (machine.new.taken ≤ 16777216) }
    ensures said { machine.new.messages.items ≡ machine.old.messages.items }
{
    take_case(source, machine, at)?;
    let choice = choice(source, value, otherwise, at);
    let closed = choice.closed;
    let list = Span {
        at: at + 3,
        end: choice.close,
    };
    Ok(goes_on(machine, part, list, closed, Then::Case(choice), further))
}

/// A `#range` is asked.
fn ask_range(
    source: &Written,
    machine: &mut Machine,
    part: &Part,
    value: Fix,
    otherwise: Option<usize>,
    at: usize,
    further: &mut Part,
) -> Result<Rest, Stop>
    requires place { at < 2 ^ 33 }
    requires taken { machine.old.taken ≤ 16777216 }
    ensures ok { IfOk result (λ next. asked_range source.now part.now value otherwise at (state_of machine.old) ≡ Ok (settled (next_of next further.new) (state_of machine.new))) }
    ensures fault { IfErr result (λ f. asked_range source.now part.now value otherwise at (state_of machine.old) ≡ Err (stopped f (state_of machine.new))) }
    ensures light { IfOk result (λ next. is_light (next_of next further.new)) }
    ensures more { OnOk result (machine.old.taken ≤ machine.new.taken) }
    ensures within { OnOk result (machine.new.taken ≤ 16777216) }
    ensures said { machine.new.messages.items ≡ machine.old.messages.items }
{
    take_case(source, machine, at)?;
    let choice = choice(source, value, otherwise, at);
    Ok(goes_on(
        machine,
        part,
        piece(source, at + 3, choice.close),
        is_piece_closed(source, at + 3, choice.close, choice.closed),
        Then::Low(choice),
        further,
    ))
}

/// A body of a switch that begins at a place.
fn fallen(source: &Written, part: &Part, at: usize, parted: bool, further: &mut Part) -> Rest
    ensures value { next_of result further.new ≡ fallen_next source.now part.now at parted }
    ensures light { is_light (next_of result further.new) }
{
    let list = Span {
        at,
        end: source.end(Closer::Branch, at),
    };
    runs(part, list, Then::Fall(parted), further)
}

fn no_case(source: &Written, part: &Part, otherwise: Option<usize>, further: &mut Part) -> Rest
    ensures value { next_of result further.new ≡ no_case_next source.now part.now otherwise }
    ensures light { is_light (next_of result further.new) }
{
    match otherwise {
        Some(body) => fallen(source, part, body, true, further),
        None => Rest::Done(false),
    }
}

/// The case that is asked at a place, or the body of an `#else` that came.
fn case_by(
    source: &Written,
    machine: &mut Machine,
    part: &Part,
    value: Fix,
    otherwise: Option<usize>,
    at: usize,
    further: &mut Part,
) -> Result<Rest, Stop>
    requires taken { machine.old.taken ≤ 16777216 }
    ensures ok { IfOk result (λ next. case_by (directive_at source.now.marks at) source.now part.now value otherwise at (state_of machine.old) ≡ Ok (settled (next_of next further.new) (state_of machine.new))) }
    ensures fault { IfErr result (λ f. case_by (directive_at source.now.marks at) source.now part.now value otherwise at (state_of machine.old) ≡ Err (stopped f (state_of machine.new))) }
    ensures light { IfOk result (λ next. is_light (next_of next further.new)) }
    ensures more { OnOk result (machine.old.taken ≤ machine.new.taken) }
    ensures within { OnOk result (machine.new.taken ≤ 16777216) }
    ensures said { machine.new.messages.items ≡ machine.old.messages.items }
{
    match source.directive(at) {
        Some(Directive::Case) => ask_case(source, machine, part, value, otherwise, at, further),
        Some(Directive::Range) => ask_range(source, machine, part, value, otherwise, at, further),
        _ => Ok(no_case(source, part, otherwise, further)),
    }
}

/// Behind an `#else` the further cases are asked before it is taken.
fn behind_else(
    source: &Written,
    machine: &mut Machine,
    part: &Part,
    value: Fix,
    at: usize,
    further: &mut Part,
) -> Result<Rest, Stop>
    requires place { at < 2 ^ 24 }
    requires taken { machine.old.taken ≤ 16777216 }
    ensures ok { IfOk result (λ next. next_by (Some Directive.Else) source.now part.now value None at (state_of machine.old) ≡ Ok (settled (next_of next further.new) (state_of machine.new))) }
    ensures fault { IfErr result (λ f. next_by (Some Directive.Else) source.now part.now value None at (state_of machine.old) ≡ Err (stopped f (state_of machine.new))) }
    ensures light { IfOk result (λ next. is_light (next_of next further.new)) }
    ensures more { OnOk result (machine.old.taken ≤ machine.new.taken) }
    ensures within { OnOk result (machine.new.taken ≤ 16777216) }
    ensures said { machine.new.messages.items ≡ machine.old.messages.items }
{
    let next = source.end(Closer::Branch, at + 2);
    case_by(source, machine, part, value, Some(at + 2), next, further)
}

/// The case that is asked next.
pub fn next_case(
    source: &Written,
    machine: &mut Machine,
    part: &Part,
    value: Fix,
    otherwise: Option<usize>,
    at: usize,
    further: &mut Part,
) -> Result<Rest, Stop>
    requires taken { machine.old.taken ≤ 16777216 }
    ensures ok { IfOk result (λ next. next_case source.now part.now value otherwise at (state_of machine.old) ≡ Ok (settled (next_of next further.new) (state_of machine.new))) }
    ensures fault { IfErr result (λ f. next_case source.now part.now value otherwise at (state_of machine.old) ≡ Err (stopped f (state_of machine.new))) }
    ensures light { IfOk result (λ next. is_light (next_of next further.new)) }
    ensures more { OnOk result (machine.old.taken ≤ machine.new.taken) }
    ensures within { OnOk result (machine.new.taken ≤ 16777216) }
    ensures said { machine.new.messages.items ≡ machine.old.messages.items }
{
    match source.directive(at) {
        Some(Directive::Else) => behind_else(source, machine, part, value, at, further),
        _ => case_by(source, machine, part, value, otherwise, at, further),
    }
}

/// Behind the head of a case: its body, or the next case.
fn match_case(
    source: &Written,
    machine: &mut Machine,
    part: &Part,
    choice: &Choice,
    held: bool,
    further: &mut Part,
) -> Result<Rest, Stop>
    requires taken { machine.old.taken ≤ 16777216 }
    ensures ok { IfOk result (λ next. matched_case source.now part.now choice.now held (state_of machine.old) ≡ Ok (settled (next_of next further.new) (state_of machine.new))) }
    ensures fault { IfErr result (λ f. matched_case source.now part.now choice.now held (state_of machine.old) ≡ Err (stopped f (state_of machine.new))) }
    ensures light { IfOk result (λ next. is_light (next_of next further.new)) }
    ensures more { OnOk result (machine.old.taken ≤ machine.new.taken) }
    ensures within { OnOk result (machine.new.taken ≤ 16777216) }
    ensures said { machine.new.messages.items ≡ machine.old.messages.items }
{
    if held {
        Ok(fallen(source, part, choice.body, false, further))
    } else {
        let next = source.end(Closer::Branch, choice.body);
        next_case(
            source,
            machine,
            part,
            choice.value,
            choice.otherwise,
            next,
            further,
        )
    }
}

/// The value of a `#case`.
pub fn make_case(
    source: &Written,
    machine: &mut Machine,
    part: &Part,
    choice: &Choice,
    value: Fix,
    further: &mut Part,
) -> Result<Rest, Stop>
    requires taken { machine.old.taken ≤ 16777216 }
    ensures ok { IfOk result (λ next. matched_case source.now part.now choice.now (int_eq choice.now.value value) (state_of machine.old) ≡ Ok (settled (next_of next further.new) (state_of machine.new))) }
    ensures fault { IfErr result (λ f. matched_case source.now part.now choice.now (int_eq choice.now.value value) (state_of machine.old) ≡ Err (stopped f (state_of machine.new))) }
    ensures light { IfOk result (λ next. is_light (next_of next further.new)) }
    ensures more { OnOk result (machine.old.taken ≤ machine.new.taken) }
    ensures within { OnOk result (machine.new.taken ≤ 16777216) }
    ensures said { machine.new.messages.items ≡ machine.old.messages.items }
{
    let held = choice.value.raw() == value.raw();
    match_case(source, machine, part, choice, held, further)
}

/// The first number of a `#range`.
pub fn make_low(
    source: &Written,
    machine: &mut Machine,
    part: &Part,
    choice: &Choice,
    low: Fix,
    further: &mut Part,
) -> Result<Rest, Stop>
    requires taken { machine.old.taken ≤ 16777216 }
    ensures ok { IfOk result (λ next. made_low source.now part.now choice.now low (state_of machine.old) ≡ Ok (settled (next_of next further.new) (state_of machine.new))) }
    ensures fault { IfErr result (λ f. made_low source.now part.now choice.now low (state_of machine.old) ≡ Err (stopped f (state_of machine.new))) }
    ensures light { IfOk result (λ next. is_light (next_of next further.new)) }
    ensures more { OnOk result (machine.old.taken ≤ machine.new.taken) }
    ensures within { OnOk result (machine.new.taken ≤ 16777216) }
    ensures said { machine.new.messages.items ≡ machine.old.messages.items }
{
    if part.end >= choice.close {
        return Err(wrong(4, source, part.end));
    }
    Ok(goes_on(
        machine,
        part,
        piece(source, part.end + 1, choice.close),
        is_piece_closed(source, part.end + 1, choice.close, choice.closed),
        Then::High(*choice, low),
        further,
    ))
}

/// The second number of a `#range`.
pub fn make_high(
    source: &Written,
    machine: &mut Machine,
    part: &Part,
    choice: &Choice,
    low: Fix,
    high: Fix,
    further: &mut Part,
) -> Result<Rest, Stop>
    requires taken { machine.old.taken ≤ 16777216 }
    ensures ok { IfOk result (λ next. made_high source.now part.now choice.now low high (state_of machine.old) ≡ Ok (settled (next_of next further.new) (state_of machine.new))) }
    ensures fault { IfErr result (λ f. made_high source.now part.now choice.now low high (state_of machine.old) ≡ Err (stopped f (state_of machine.new))) }
    ensures light { IfOk result (λ next. is_light (next_of next further.new)) }
    ensures more { OnOk result (machine.old.taken ≤ machine.new.taken) }
    ensures within { OnOk result (machine.new.taken ≤ 16777216) }
    ensures said { machine.new.messages.items ≡ machine.old.messages.items }
{
    if part.end < choice.close {
        return Err(wrong(4, source, part.end));
    }
    let value = choice.value.raw();
    let held = low.raw() <= value && value <= high.raw();
    match_case(source, machine, part, choice, held, further)
}

/// A body that was run through to the next case: the head of that is passed over.
fn fall_case(
    source: &Written,
    machine: &mut Machine,
    part: &Part,
    parted: bool,
    at: usize,
    further: &mut Part,
) -> Result<Rest, Stop>
    requires place { at < 2 ^ 24 }
    requires taken { machine.old.taken ≤ 16777216 }
    ensures ok { IfOk result (λ next. fallen_case source.now part.now parted at (state_of machine.old) ≡ Ok (settled (next_of next further.new) (state_of machine.new))) }
    ensures fault { IfErr result (λ f. fallen_case source.now part.now parted at (state_of machine.old) ≡ Err (stopped f (state_of machine.new))) }
    ensures light { IfOk result (λ next. is_light (next_of next further.new)) }
    ensures more { OnOk result (machine.old.taken ≤ machine.new.taken) }
    ensures within { OnOk result (machine.new.taken ≤ 16777216) }
    ensures strict { OnOk result (machine.old.taken < machine.new.taken) }
    ensures said { machine.new.messages.items ≡ machine.old.messages.items }
{
    machine.count(source, at)?;
    machine.count(source, at + 1)?;
    if sign_at(source.marks(), at + 2) != b'(' {
        return Err(wrong(4, source, at + 2));
    }
    let limit = source.end(Closer::Branch, at + 2);
    if !is_closed(source, at + 3, limit) {
        return Err(wrong(4, source, limit));
    }
    let body = listed(source, at + 3, limit).end + 1;
    Ok(fallen(source, part, body, parted, further))
}

/// The `#else` behind a body that was run through to it.
fn fall_else(source: &Written, part: &Part, parted: bool, at: usize, further: &mut Part) -> Rest
    requires { at < 2 ^ 24 }
    ensures value { next_of result further.new ≡ fallen_else_next source.now part.now parted at }
    ensures lighter { is_lighter (next_of result further.new) (weight (Then.Fall parted)) }
{
    if parted {
        Rest::Done(false)
    } else {
        fallen(source, part, at + 2, true, further)
    }
}

/// A body of a switch that was run through.
pub fn fall(
    source: &Written,
    machine: &mut Machine,
    part: &Part,
    parted: bool,
    further: &mut Part,
) -> Result<Rest, Stop>
    requires taken { machine.old.taken ≤ 16777216 }
    ensures ok { IfOk result (λ next. fallen_by (directive_at source.now.marks part.now.end) source.now part.now parted part.now.end (state_of machine.old) ≡ Ok (settled (next_of next further.new) (state_of machine.new))) }
    ensures fault { IfErr result (λ f. fallen_by (directive_at source.now.marks part.now.end) source.now part.now parted part.now.end (state_of machine.old) ≡ Err (stopped f (state_of machine.new))) }
    ensures more { IfOk result (λ next. keeps_measure (next_of next further.new) machine.old.taken machine.new.taken (weight (Then.Fall parted))) }
    ensures within { OnOk result (machine.new.taken ≤ 16777216) }
    ensures said { machine.new.messages.items ≡ machine.old.messages.items }
{
    match source.directive(part.end) {
        Some(Directive::Case) => fall_case(source, machine, part, parted, part.end, further),
        Some(Directive::Range) => fall_case(source, machine, part, parted, part.end, further),
        Some(Directive::Else) => Ok(fall_else(source, part, parted, part.end, further)),
        _ => Ok(Rest::Done(false)),
    }
}

/// The variable of a `#for` has its number.
pub fn number(machine: &mut Machine, turns: &Turns, number: Fix) -> Result<(), Stop>
    ensures ok { OnOk result (state_of machine.new ≡ numbered turns.now number (state_of machine.old)) }
    ensures fault { IfErr result (λ f. f ≡ NoMemory) }
    ensures said { machine.new.messages.items ≡ machine.old.messages.items }
{
    let binding = Binding::Value(Value::Float(number));
    if machine.scopes.bind(turns.name, binding).is_err() {
        return Err(Stop::NoMemory);
    }
    Ok(())
}

fn goes_round(number: Fix, last: Fix, step: Fix) -> bool
    ensures { result ≡ goes_round number last step }
{
    if step.raw() > 0 {
        number.raw() <= last.raw()
    } else {
        last.raw() <= number.raw()
    }
}

/// A number is tried: the variable has it, and the body runs or the loop ends.
fn try_number(
    machine: &mut Machine,
    part: &Part,
    turns: &Turns,
    first: Fix,
    last: Fix,
    step: Fix,
    further: &mut Part,
) -> Result<Rest, Stop>
    requires taken { machine.old.taken ≤ 16777216 }
    ensures ok { IfOk result (λ next. tried part.now turns.now first last step (state_of machine.old) ≡ Ok (settled (next_of next further.new) (state_of machine.new))) }
    ensures fault { IfErr result (λ f. f ≡ NoMemory) }
    ensures round { IfOk result (λ next. is_turn (next_of next further.new) first last step) }
    ensures same { OnOk result (machine.new.taken ≡ machine.old.taken) }
    ensures said { machine.new.messages.items ≡ machine.old.messages.items }
{
    number(machine, turns, first)?;
    if goes_round(first, last, step) {
        Ok(runs(
            part,
            turns.body,
            Then::Turn(*turns, first, last, step),
            further,
        ))
    } else {
        Ok(Rest::Done(false))
    }
}

fn begin_turns(
    source: &Written,
    machine: &mut Machine,
    part: &Part,
    turns: &Turns,
    first: Fix,
    last: Fix,
    step: Fix,
    further: &mut Part,
) -> Result<Rest, Stop>
    requires taken { machine.old.taken ≤ 16777216 }
    ensures ok { IfOk result (λ next. begun_turns source.now part.now turns.now first last step (state_of machine.old) ≡ Ok (settled (next_of next further.new) (state_of machine.new))) }
    ensures fault { IfErr result (λ f. f ≢ NoMemory → begun_turns source.now part.now turns.now first last step (state_of machine.old) ≡ Err (stopped f (state_of machine.new))) }
    ensures light { IfOk result (λ next. is_light (next_of next further.new)) }
    ensures more { OnOk result (machine.old.taken ≤ machine.new.taken) }
    ensures within { OnOk result (machine.new.taken ≤ 16777216) }
    ensures said { machine.new.messages.items ≡ machine.old.messages.items }
{
    if step.raw() == 0 {
        return Err(wrong(7, source, turns.word));
    }
    let next = try_number(machine, part, turns, first, last, step, further)?;
    Ok(next)
}

/// The first number of a `#for`.
pub fn make_from(
    source: &Written,
    machine: &mut Machine,
    part: &Part,
    turns: &Turns,
    first: Fix,
    further: &mut Part,
) -> Result<Rest, Stop>
    requires taken { machine.old.taken ≤ 16777216 }
    ensures ok { IfOk result (λ next. made_from source.now part.now turns.now first (state_of machine.old) ≡ Ok (settled (next_of next further.new) (state_of machine.new))) }
    ensures fault { IfErr result (λ f. made_from source.now part.now turns.now first (state_of machine.old) ≡ Err (stopped f (state_of machine.new))) }
    ensures light { IfOk result (λ next. is_light (next_of next further.new)) }
    ensures more { OnOk result (machine.old.taken ≤ machine.new.taken) }
    ensures within { OnOk result (machine.new.taken ≤ 16777216) }
    ensures said { machine.new.messages.items ≡ machine.old.messages.items }
{
    if part.end >= turns.close {
        return Err(wrong(4, source, part.end));
    }
    Ok(goes_on(
        machine,
        part,
        piece(source, part.end + 1, turns.close),
        is_piece_closed(source, part.end + 1, turns.close, turns.closed),
        Then::To(*turns, first),
        further,
    ))
}

/// The last number of a `#for`.
pub fn make_to(
    source: &Written,
    machine: &mut Machine,
    part: &Part,
    turns: &Turns,
    first: Fix,
    last: Fix,
    further: &mut Part,
) -> Result<Rest, Stop>
    requires taken { machine.old.taken ≤ 16777216 }
    ensures ok { IfOk result (λ next. made_to source.now part.now turns.now first last (state_of machine.old) ≡ Ok (settled (next_of next further.new) (state_of machine.new))) }
    ensures fault { IfErr result (λ f. f ≢ NoMemory → made_to source.now part.now turns.now first last (state_of machine.old) ≡ Err (stopped f (state_of machine.new))) }
    ensures light { IfOk result (λ next. is_light (next_of next further.new)) }
    ensures more { OnOk result (machine.old.taken ≤ machine.new.taken) }
    ensures within { OnOk result (machine.new.taken ≤ 16777216) }
    ensures said { machine.new.messages.items ≡ machine.old.messages.items }
{
    if part.end >= turns.close {
        return begin_turns(
            source,
            machine,
            part,
            turns,
            first,
            last,
            Fix(65536),
            further,
        );
    }
    Ok(goes_on(
        machine,
        part,
        piece(source, part.end + 1, turns.close),
        is_piece_closed(source, part.end + 1, turns.close, turns.closed),
        Then::By(*turns, first, last),
        further,
    ))
}

/// The step of a `#for`.
pub fn make_by(
    source: &Written,
    machine: &mut Machine,
    part: &Part,
    turns: &Turns,
    first: Fix,
    last: Fix,
    step: Fix,
    further: &mut Part,
) -> Result<Rest, Stop>
    requires taken { machine.old.taken ≤ 16777216 }
    ensures ok { IfOk result (λ next. made_by source.now part.now turns.now first last step (state_of machine.old) ≡ Ok (settled (next_of next further.new) (state_of machine.new))) }
    ensures fault { IfErr result (λ f. f ≢ NoMemory → made_by source.now part.now turns.now first last step (state_of machine.old) ≡ Err (stopped f (state_of machine.new))) }
    ensures light { IfOk result (λ next. is_light (next_of next further.new)) }
    ensures more { OnOk result (machine.old.taken ≤ machine.new.taken) }
    ensures within { OnOk result (machine.new.taken ≤ 16777216) }
    ensures said { machine.new.messages.items ≡ machine.old.messages.items }
{
    if part.end < turns.close {
        return Err(wrong(4, source, part.end));
    }
    begin_turns(source, machine, part, turns, first, last, step, further)
}

/// The body of a `#for`: the next number is tried.
pub fn turn(
    source: &Written,
    machine: &mut Machine,
    part: &Part,
    turns: &Turns,
    old: Fix,
    last: Fix,
    step: Fix,
    further: &mut Part,
) -> Result<Rest, Stop>
    requires taken { machine.old.taken ≤ 16777216 }
    ensures ok { IfOk result (λ next. turned source.now part.now turns.now old last step (state_of machine.old) ≡ Ok (settled (next_of next further.new) (state_of machine.new))) }
    ensures fault { IfErr result (λ f. f ≢ NoMemory → turned source.now part.now turns.now old last step (state_of machine.old) ≡ Err (stopped f (state_of machine.new))) }
    ensures more { IfOk result (λ next. keeps_measure (next_of next further.new) machine.old.taken machine.new.taken (weight (Then.Turn turns.now old last step))) }
    ensures within { OnOk result (machine.new.taken ≤ 16777216) }
    ensures said { machine.new.messages.items ≡ machine.old.messages.items }
{
    if step.raw() == 0 {
        return Ok(Rest::Done(false));
    }
    match add(old, step) {
        Ok(next) => try_number(machine, part, turns, next, last, step, further),
        Err(_) => Err(Stop::Expr(ExprFault::Range(place_at(source.tokens(), turns.word)))),
    }
}
