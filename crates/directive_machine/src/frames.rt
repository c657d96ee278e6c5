// The parts of a scene, on a stack of frames.
ghost use Rattle.std.specs.Prelude.{true, false, ◌≡◌, ◌≢◌, ◌<◌, ◌≤◌, ◌+◌, ◌^◌, ◌++◌, ◌∷◌, [], List, Some, None, Ok, Err, IfOk, IfErr, OnOk, OnErr, IsErrOf};
ghost use Rattle.shelf.specs.Causes.{HasCause};
ghost use Rattle.scene_expr.specs.Values.{AreWhole};
ghost use Rattle.directive_machine.specs.declared.texts.Text.{Text};
ghost use Rattle.directive_machine.specs.Moves.{action_of, next_of};
ghost use Rattle.directive_machine.specs.State.{stopped, settled, begun};
ghost use Rattle.directive_machine.specs.Carried.{state_of};
ghost use Rattle.directive_machine.specs.Course.{Outcome, given, halted, after, came};
ghost use Rattle.directive_machine.specs.Fronts.{IsFront, said_by};
ghost use Rattle.directive_machine.specs.Read.{sources_of, course_of};
ghost use Rattle.directive_machine.specs.Sources.{text_at};
ghost use Rattle.directive_machine.specs.Ways.{begun_at, read_at, home_number, IsToldIn, IsSettledBy, IsSettled};
ghost use Rattle.directive_machine.specs.Expands.{Expands};
ghost use Rattle.directive_machine.specs.Weights.{distance, keeps_measure, weight};
ghost use Rattle.directive_machine.specs.declared.stop.Stop.TheVariants.{NoMemory, TextFault};

use crate::begin::begin;
use crate::include::include;
use crate::machine::Machine;
use crate::part::{Frame, Lead, Part, Rest, Then};
use crate::passage::pass_on;
use crate::readings::Readings;
use crate::stop::Stop;
use crate::texts::Texts;
use crate::told::{give_up, tell, tell_argument};
use fix_math::{Fix, Str};
use scene_expr::Settings;
use std::alloc::Global;
use text_structure::{Written, one_end};

/// The place of an include's name.
fn read_at(then: &Then) -> Option<usize>
    ensures { result ≡ read_at then.now }
{
    match then {
        Then::Read(at) => Some(*at),
        Then::Plain => None,
        Then::Leave => None,
        Then::Again(_) => None,
        Then::Fall(_) => None,
        Then::Turn(_, _, _, _) => None,
        Then::Bind { .. } => None,
        Then::Hold { .. } => None,
        Then::Decide { .. } => None,
        Then::Test(_) => None,
        Then::Choose(_) => None,
        Then::Case(_) => None,
        Then::Low(_) => None,
        Then::High(_, _) => None,
        Then::From(_) => None,
        Then::To(_, _) => None,
        Then::By(_, _, _) => None,
        Then::Pass(_) => None,
        Then::Give(_) => None,
        Then::Refer(_, _) => None,
        Then::Enter(_) => None,
        Then::Say { .. } => None,
    }
}

/// The text of the macro that an argument is given to.
fn home_number(then: &Then) -> Option<usize>
    ensures { result ≡ home_number then.now }
{
    match then {
        Then::Pass(call) => Some(call.called.text),
        Then::Give(call) => Some(call.called.text),
        Then::Refer(call, _) => Some(call.called.text),
        Then::Read(_) => None,
        Then::Plain => None,
        Then::Leave => None,
        Then::Again(_) => None,
        Then::Fall(_) => None,
        Then::Turn(_, _, _, _) => None,
        Then::Bind { .. } => None,
        Then::Hold { .. } => None,
        Then::Decide { .. } => None,
        Then::Test(_) => None,
        Then::Choose(_) => None,
        Then::Case(_) => None,
        Then::Low(_) => None,
        Then::High(_, _) => None,
        Then::From(_) => None,
        Then::To(_, _) => None,
        Then::By(_, _, _) => None,
        Then::Enter(_) => None,
        Then::Say { .. } => None,
    }
}

/// What is made of an argument; the number is that of its macro's text.
fn tell_home(
    alloc: Global,
    set: &Settings,
    readings: &Readings,
    source: &Written,
    machine: &mut Machine,
    part: &Part,
    number: usize,
    further: &mut Part,
) -> Result<Rest, Stop>
    requires whole { AreWhole set.now }
    requires source { text_at (sources_of readings.now) part.now.text ≡ source.now }
    requires home { home_number part.now.then ≡ Some number }
    requires taken { machine.old.taken ≤ 16777216 }
    ensures ok { IfOk result (λ next. IsToldIn set.now part.now (course_of machine.old readings.now) (Ok (settled (next_of next further.new) (state_of machine.new)))) }
    ensures fault { IfErr result (λ f. f ≢ NoMemory → IsToldIn set.now part.now (course_of machine.old readings.now) (Err (stopped f (state_of machine.new)))) }
    ensures more { IfOk result (λ next. keeps_measure (next_of next further.new) machine.old.taken machine.new.taken (weight part.now.then)) }
    ensures within { OnOk result (machine.new.taken ≤ 16777216) }
    ensures said { machine.new.messages.items ≡ machine.old.messages.items }
{
    match readings.text(number) {
        Some(home) => { tell_argument(alloc, set, source, home, machine, part, further) }
        None => Err(Stop::NoMemory),
    }
}

/// What is made of a part of a text that reads no text.
fn tell_source(
    alloc: Global,
    set: &Settings,
    readings: &Readings,
    source: &Written,
    machine: &mut Machine,
    part: &Part,
    further: &mut Part,
) -> Result<Rest, Stop>
    requires whole { AreWhole set.now }
    requires source { text_at (sources_of readings.now) part.now.text ≡ source.now }
    requires read { read_at part.now.then ≡ None }
    requires taken { machine.old.taken ≤ 16777216 }
    ensures ok { IfOk result (λ next. IsToldIn set.now part.now (course_of machine.old readings.now) (Ok (settled (next_of next further.new) (state_of machine.new)))) }
    ensures fault { IfErr result (λ f. f ≢ NoMemory → IsToldIn set.now part.now (course_of machine.old readings.now) (Err (stopped f (state_of machine.new)))) }
    ensures more { IfOk result (λ next. keeps_measure (next_of next further.new) machine.old.taken machine.new.taken (weight part.now.then)) }
    ensures within { OnOk result (machine.new.taken ≤ 16777216) }
    ensures said { OnErr result (machine.new.messages.items ≡ machine.old.messages.items) }
{
    match home_number(&part.then) {
        Some(number) => { tell_home(alloc, set, readings, source, machine, part, number, further) }
        None => { tell(alloc, set, source, machine, part, further) }
    }
}

/// What is made of a part that reads no text.
fn tell_in(
    alloc: Global,
    set: &Settings,
    readings: &Readings,
    machine: &mut Machine,
    part: &Part,
    further: &mut Part,
) -> Result<Rest, Stop>
    requires whole { AreWhole set.now }
    requires read { read_at part.now.then ≡ None }
    requires taken { machine.old.taken ≤ 16777216 }
    ensures ok { IfOk result (λ next. IsToldIn set.now part.now (course_of machine.old readings.now) (Ok (settled (next_of next further.new) (state_of machine.new)))) }
    ensures fault { IfErr result (λ f. f ≢ NoMemory → IsToldIn set.now part.now (course_of machine.old readings.now) (Err (stopped f (state_of machine.new)))) }
    ensures more { IfOk result (λ next. keeps_measure (next_of next further.new) machine.old.taken machine.new.taken (weight part.now.then)) }
    ensures within { OnOk result (machine.new.taken ≤ 16777216) }
    ensures outside { IfErr result (λ f. f ≢ TextFault) }
    ensures said { OnErr result (machine.new.messages.items ≡ machine.old.messages.items) }
{
    match readings.text(part.text) {
        Some(source) => { tell_source(alloc, set, readings, source, machine, part, further) }
        None => Err(Stop::NoMemory),
    }
}

/// What is made of a part whose run came to its end.
fn settle_by<T: Texts>(
    alloc: Global,
    set: &Settings,
    libraries: &[Str],
    texts: &mut T,
    readings: &mut Readings,
    machine: &mut Machine,
    part: &Part,
    further: &mut Part,
) -> Result<Rest, Stop>
    requires whole { AreWhole set.now }
    requires taken { machine.old.taken ≤ 16777216 }
    ensures ok { IfOk result (λ next. (h : List Text) → T.held texts.old ≡ Some h → IsSettledBy (read_at part.now.then) (given set.now libraries.now h) part.now (course_of machine.old readings.old) (Ok (came (next_of next further.new) (course_of machine.new readings.new)))) }
    ensures fault { IfErr result (λ f. f ≢ NoMemory → f ≢ TextFault → (h : List Text) → T.held texts.old ≡ Some h → IsSettledBy (read_at part.now.then) (given set.now libraries.now h) part.now (course_of machine.old readings.old) (Err (halted f (course_of machine.new readings.new)))) }
    ensures cause { HasCause (T.faults texts.old) (T.faults texts.new) (IsErrOf result TextFault) }
    ensures held { T.held texts.new ≡ T.held texts.old }
    ensures more { IfOk result (λ next. keeps_measure (next_of next further.new) machine.old.taken machine.new.taken (weight part.now.then)) }
    ensures within { OnOk result (machine.new.taken ≤ 16777216) }
    ensures said { OnErr result (machine.new.messages.items ≡ machine.old.messages.items) }
{
    match read_at(&part.then) {
        Some(at) => {
            include(
                alloc, set, libraries, texts, readings, machine, part, at, further,
            )
        }
        None => { tell_in(alloc, set, readings, machine, part, further) }
    }
}

/// What is made of a part whose run is over.
fn settle<T: Texts>(
    alloc: Global,
    set: &Settings,
    libraries: &[Str],
    texts: &mut T,
    readings: &mut Readings,
    machine: &mut Machine,
    part: &Part,
    broken: bool,
    further: &mut Part,
) -> Result<Rest, Stop>
    requires whole { AreWhole set.now }
    requires taken { machine.old.taken ≤ 16777216 }
    ensures ok { IfOk result (λ next. (h : List Text) → T.held texts.old ≡ Some h → IsSettled (given set.now libraries.now h) part.now (after (course_of machine.old readings.old) broken) (Ok (came (next_of next further.new) (course_of machine.new readings.new)))) }
    ensures fault { IfErr result (λ f. f ≢ NoMemory → f ≢ TextFault → (h : List Text) → T.held texts.old ≡ Some h → IsSettled (given set.now libraries.now h) part.now (after (course_of machine.old readings.old) broken) (Err (halted f (course_of machine.new readings.new)))) }
    ensures cause { HasCause (T.faults texts.old) (T.faults texts.new) (IsErrOf result TextFault) }
    ensures held { T.held texts.new ≡ T.held texts.old }
    ensures more { IfOk result (λ next. keeps_measure (next_of next further.new) machine.old.taken machine.new.taken (weight part.now.then)) }
    ensures within { OnOk result (machine.new.taken ≤ 16777216) }
    ensures said { OnErr result (machine.new.messages.items ≡ machine.old.messages.items) }
{
    if broken {
        let broken = give_up(machine, part)?;
        Ok(Rest::Done(broken))
    } else {
        settle_by(
            alloc, set, libraries, texts, readings, machine, part, further,
        )
    }
}

/// What the token at a place of a part begins.
#[inline(never)]
fn step(
    alloc: Global,
    readings: &Readings,
    machine: &mut Machine,
    part: &Part,
    at: usize,
    inner: &mut Part,
) -> Result<Lead, Stop>
    ensures ok { IfOk result (λ action. begun_at (sources_of readings.now) part.now at (state_of machine.old) ≡ Ok (begun (action_of action inner.new) (state_of machine.new))) }
    ensures fault { IfErr result (λ f. f ≢ NoMemory → begun_at (sources_of readings.now) part.now at (state_of machine.old) ≡ Err (stopped f (state_of machine.new))) }
    ensures outside { IfErr result (λ f. f ≢ TextFault) }
    ensures more { OnOk result (machine.old.taken < machine.new.taken) }
    ensures within { OnOk result (machine.new.taken ≤ 16777216) }
    ensures said { machine.new.messages.items ≡ machine.old.messages.items }
{
    match readings.text(part.text) {
        Some(source) => { begin(alloc, source, machine, part, at, inner) }
        None => Err(Stop::NoMemory),
    }
}

/// A part waits for the one that it opened.
fn wait(frames: &mut Vec<Frame>, part: Part, at: usize) -> Result<(), Stop>
    ensures ok { OnOk result (frames.new.items ≡ frames.old.items ++ record { part = part; at = at } ∷ []) }
    ensures fault { IfErr result (λ f. f ≡ NoMemory) }
{
    if frames.push(Frame { part, at }).is_err() {
        return Err(Stop::NoMemory);
    }
    Ok(())
}

/// A part has nothing left to run, or gives up.
fn is_over(at: usize, end: usize, broken: bool) -> bool
    ensures over { result ≡ true → broken ≡ false → end ≤ at }
    ensures runs { result ≡ false → broken ≡ false }
    ensures within { result ≡ false → at < end }
{
    broken || at >= end
}

/// A place for a part.
fn blank() -> Part {
    Part {
        text: 0,
        at: 0,
        end: 0,
        from: 0,
        depth: 0,
        closed: false,
        outer: false,
        then: Then::Plain,
    }
}

/// No part has as many rounds as a token is worth.
fn weigh(part: &Part)
    ensures { weight part.now.then < 2 ^ 66 }
{
    match &part.then {
        Then::Turn(_, number, last, _) => measure(*number, *last),
        Then::Read(_) => {}
        Then::Plain => {}
        Then::Leave => {}
        Then::Again(_) => {}
        Then::Fall(_) => {}
        Then::Bind { .. } => {}
        Then::Hold { .. } => {}
        Then::Decide { .. } => {}
        Then::Test(_) => {}
        Then::Choose(_) => {}
        Then::Case(_) => {}
        Then::Low(_) => {}
        Then::High(_, _) => {}
        Then::From(_) => {}
        Then::To(_, _) => {}
        Then::By(_, _, _) => {}
        Then::Pass(_) => {}
        Then::Give(_) => {}
        Then::Refer(_, _) => {}
        Then::Enter(_) => {}
        Then::Say { .. } => {}
    }
}

/// How many numbers at most lie between two.
fn measure(number: Fix, last: Fix)
    ensures { distance number last + 2 < 2 ^ 66 }
{}

/// Expands a part, and tells whether a `#break` goes on behind it.
pub fn expand_part<T: Texts>(
    alloc: Global,
    set: &Settings,
    libraries: &[Str],
    texts: &mut T,
    readings: &mut Readings,
    machine: &mut Machine,
    whole: Part,
) -> Result<bool, Stop>
    requires whole { AreWhole set.now }
    requires taken { machine.old.taken ≤ 16777216 }
    ensures ok { IfOk result (λ broken. (h : List Text) → T.held texts.old ≡ Some h → Expands (given set.now libraries.now h) whole whole.at (course_of machine.old readings.old) (Ok (after (course_of machine.new readings.new) broken))) }
    ensures fault { IfErr result (λ f. f ≢ NoMemory → f ≢ TextFault → (h : List Text) → T.held texts.old ≡ Some h → Expands (given set.now libraries.now h) whole whole.at (course_of machine.old readings.old) (Err (halted f (course_of machine.new readings.new)))) }
    ensures said { IfErr result (λ f. (h : List Text) → T.held texts.old ≡ Some h → (r : Outcome) → Expands (given set.now libraries.now h) whole whole.at (course_of machine.old readings.old) r → IsFront machine.new.messages.items (said_by r)) }
    ensures cause { HasCause (T.faults texts.old) (T.faults texts.new) (IsErrOf result TextFault) }
    ensures held { T.held texts.new ≡ T.held texts.old }
{
    one_end();
    let mut frames: Vec<Frame> = Vec::new(alloc);
    let mut at = whole.at;
    let mut part = whole;
    let mut inner = blank();
    let mut broken = false;
    'steps: loop {
        if is_over(at, part.end, broken) {
            match settle(
                alloc, set, libraries, texts, readings, machine, &part, broken, &mut inner,
            )? {
                Rest::Further => {
                    at = pass_on(alloc, readings, machine, &inner, inner.at);
                    part = inner;
                    broken = false;
                }
                Rest::Done(given_up) => match frames.pop() {
                    Some(outer) => {
                        at = outer.at;
                        part = outer.part;
                        broken = given_up;
                    }
                    None => return Ok(given_up),
                },
            }
        } else {
            match step(alloc, readings, machine, &part, at, &mut inner)? {
                Lead::Step(next) => {
                    at = pass_on(alloc, readings, machine, &part, next);
                }
                Lead::Break => {
                    broken = true;
                }
                Lead::Open(behind) => {
                    weigh(&inner);
                    wait(&mut frames, part, behind)?;
                    at = pass_on(alloc, readings, machine, &inner, inner.at);
                    part = inner;
                }
            }
        }
    }
}
