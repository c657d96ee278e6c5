// What is made of an expanded part that names no text.
ghost use Rattle.std.specs.Prelude.{true, false, ◌≡◌, ◌≢◌, ◌<◌, ◌≤◌, ◌^◌, ◌+ℤ◌, Some, None, Ok, Err, IfOk, IfErr, OnOk, OnErr, drop};
ghost use Rattle.scene_expr.specs.Values.{AreWhole};
ghost use Rattle.directive_machine.specs.Moves.{next_of, Next};
ghost use Rattle.directive_machine.specs.State.{stopped, settled, restored};
ghost use Rattle.directive_machine.specs.Values.{IsEvaluated, IsValued, closed, given};
ghost use Rattle.directive_machine.specs.Holds.{held_block, is_one_block};
ghost use Rattle.directive_machine.specs.Settles.{made, is_plain, is_told, is_argument, settled_by, given_up, dropped};
ghost use Rattle.directive_machine.specs.Parts.{IsMade, IsSide, IsSideBy, IsExpression, IsTold};
ghost use Rattle.directive_machine.specs.Weights.{is_light, keeps_measure, weight};
ghost use Rattle.directive_machine.specs.Carried.{state_of};
ghost use Rattle.directive_machine.specs.declared.stop.Stop.TheVariants.{NoMemory};

use crate::arguments::{call_at_once, give, make_argument, refer};
use crate::declared_blocks::{hold, make_block};
use crate::machine::Machine;
use crate::made::{Valued, close, make_bound, make_plain, turn_again};
use crate::part::{Call, Part, Rest, Then};
use crate::settle::{fall, number, turn};
use crate::stop::Stop;
use scene_expr::Settings;
use scope_tables::Binding;
use std::alloc::Global;
use text_structure::Written;

/// The value of a list that was handed out aside, behind its closer.
pub fn value(
    alloc: Global,
    set: &Settings,
    source: &Written,
    machine: &mut Machine,
    part: &Part,
) -> Result<Valued, Stop>
    requires { AreWhole set.now }
    ensures value { IfOk result (λ found. IsValued set.now source.now part.now (state_of machine.old) (Ok (given found.value found.first (state_of machine.new)))) }
    ensures fault { IfErr result (λ f. f ≢ NoMemory → IsValued set.now source.now part.now (state_of machine.old) (Err (stopped f (state_of machine.new)))) }
    ensures more { OnOk result (machine.old.taken < machine.new.taken) }
    ensures within { OnOk result (machine.new.taken ≤ 16777216) }
    ensures said { machine.new.messages.items ≡ machine.old.messages.items }
{
    close(source, machine, part)?;
    let found = machine.evaluate(alloc, set, part.from)?;
    Ok(found)
}

/// What a value makes that binds no argument.
fn make_value(
    alloc: Global,
    set: &Settings,
    source: &Written,
    machine: &mut Machine,
    part: &Part,
    further: &mut Part,
) -> Result<Rest, Stop>
    requires whole { AreWhole set.now }
    requires plain { is_plain part.now.then ≡ true }
    ensures ok { IfOk result (λ next. IsMade set.now source.now None part.now (state_of machine.old) (Ok (settled (next_of next further.new) (state_of machine.new)))) }
    ensures fault { IfErr result (λ f. f ≢ NoMemory → IsMade set.now source.now None part.now (state_of machine.old) (Err (stopped f (state_of machine.new)))) }
    ensures light { IfOk result (λ next. is_light (next_of next further.new)) }
    ensures more { OnOk result (machine.old.taken < machine.new.taken) }
    ensures within { OnOk result (machine.new.taken ≤ 16777216) }
    ensures said { OnErr result (machine.new.messages.items ≡ machine.old.messages.items) }
{
    let found = value(alloc, set, source, machine, part)?;
    let next = make_plain(source, machine, part, found.value, found.first, further)?;
    Ok(next)
}

/// An argument that is evaluated.
pub fn pass_value(
    alloc: Global,
    set: &Settings,
    source: &Written,
    home: &Written,
    machine: &mut Machine,
    part: &Part,
    call: &Call,
    further: &mut Part,
) -> Result<Rest, Stop>
    requires whole { AreWhole set.now }
    requires pass { part.now.then ≡ Then.Pass call.now }
    ensures ok { IfOk result (λ next. IsMade set.now source.now (Some home.now) part.now (state_of machine.old) (Ok (settled (next_of next further.new) (state_of machine.new)))) }
    ensures fault { IfErr result (λ f. f ≢ NoMemory → IsMade set.now source.now (Some home.now) part.now (state_of machine.old) (Err (stopped f (state_of machine.new)))) }
    ensures light { IfOk result (λ next. is_light (next_of next further.new)) }
    ensures more { OnOk result (machine.old.taken < machine.new.taken) }
    ensures within { OnOk result (machine.new.taken ≤ 16777216) }
    ensures said { machine.new.messages.items ≡ machine.old.messages.items }
{
    let found = value(alloc, set, source, machine, part)?;
    let next = make_argument(
        source,
        home,
        machine,
        part,
        call,
        Binding::Value(found.value),
        further,
    )?;
    Ok(next)
}

/// A right side behind its semicolon: one block, or else an expression.
fn make_side_by(
    alloc: Global,
    set: &Settings,
    source: &Written,
    machine: &mut Machine,
    part: &Part,
    name: usize,
    local: bool,
    further: &mut Part,
) -> Result<Rest, Stop>
    requires whole { AreWhole set.now }
    requires taken { machine.old.taken ≤ 16777216 }
    ensures ok { IfOk result (λ next. IsSideBy set.now source.now part.now name local (state_of machine.old) (Ok (settled (next_of next further.new) (state_of machine.new)))) }
    ensures fault { IfErr result (λ f. f ≢ NoMemory → IsSideBy set.now source.now part.now name local (state_of machine.old) (Err (stopped f (state_of machine.new)))) }
    ensures light { IfOk result (λ next. is_light (next_of next further.new)) }
    ensures more { OnOk result (machine.old.taken ≤ machine.new.taken) }
    ensures within { OnOk result (machine.new.taken ≤ 16777216) }
    ensures said { machine.new.messages.items ≡ machine.old.messages.items }
{
    if machine.is_one_block(part.from) {
        hold(alloc, machine, part, name, local, further)
    } else {
        make_expression(alloc, set, source, machine, part, name, local, further)
    }
}

fn make_expression(
    alloc: Global,
    set: &Settings,
    source: &Written,
    machine: &mut Machine,
    part: &Part,
    name: usize,
    local: bool,
    further: &mut Part,
) -> Result<Rest, Stop>
    requires whole { AreWhole set.now }
    requires taken { machine.old.taken ≤ 16777216 }
    ensures ok { IfOk result (λ next. IsExpression set.now source.now part.now name local (state_of machine.old) (Ok (settled (next_of next further.new) (state_of machine.new)))) }
    ensures fault { IfErr result (λ f. f ≢ NoMemory → IsExpression set.now source.now part.now name local (state_of machine.old) (Err (stopped f (state_of machine.new)))) }
    ensures light { IfOk result (λ next. is_light (next_of next further.new)) }
    ensures more { OnOk result (machine.old.taken ≤ machine.new.taken) }
    ensures within { OnOk result (machine.new.taken ≤ 16777216) }
    ensures said { machine.new.messages.items ≡ machine.old.messages.items }
{
    let found = machine.evaluate(alloc, set, part.from)?;
    let next = make_bound(
        source,
        machine,
        part,
        name,
        local,
        found.value,
        found.first,
        further,
    )?;
    Ok(next)
}

/// A right side.
fn make_side(
    alloc: Global,
    set: &Settings,
    source: &Written,
    machine: &mut Machine,
    part: &Part,
    name: usize,
    local: bool,
    further: &mut Part,
) -> Result<Rest, Stop>
    requires whole { AreWhole set.now }
    ensures ok { IfOk result (λ next. IsSide set.now source.now part.now name local (state_of machine.old) (Ok (settled (next_of next further.new) (state_of machine.new)))) }
    ensures fault { IfErr result (λ f. f ≢ NoMemory → IsSide set.now source.now part.now name local (state_of machine.old) (Err (stopped f (state_of machine.new)))) }
    ensures light { IfOk result (λ next. is_light (next_of next further.new)) }
    ensures more { OnOk result (machine.old.taken < machine.new.taken) }
    ensures within { OnOk result (machine.new.taken ≤ 16777216) }
    ensures said { machine.new.messages.items ≡ machine.old.messages.items }
{
    close(source, machine, part)?;
    let next = make_side_by(alloc, set, source, machine, part, name, local, further)?;
    Ok(next)
}

/// What is made of a part that binds no argument and names no text.
pub fn tell(
    alloc: Global,
    set: &Settings,
    source: &Written,
    machine: &mut Machine,
    part: &Part,
    further: &mut Part,
) -> Result<Rest, Stop>
    requires whole { AreWhole set.now }
    requires told { is_told part.now.then ≡ true }
    requires taken { machine.old.taken ≤ 16777216 }
    ensures ok { IfOk result (λ next. IsTold set.now source.now None part.now part.now.then (state_of machine.old) (Ok (settled (next_of next further.new) (state_of machine.new)))) }
    ensures fault { IfErr result (λ f. f ≢ NoMemory → IsTold set.now source.now None part.now part.now.then (state_of machine.old) (Err (stopped f (state_of machine.new)))) }
    ensures more { IfOk result (λ next. keeps_measure (next_of next further.new) machine.old.taken machine.new.taken (weight part.now.then)) }
    ensures within { OnOk result (machine.new.taken ≤ 16777216) }
    ensures said { OnErr result (machine.new.messages.items ≡ machine.old.messages.items) }
{
    match &part.then {
        Then::Bind { name, local } => make_side(
            alloc, set, source, machine, part, *name, *local, further,
        ),
        Then::Decide { .. } => make_value(alloc, set, source, machine, part, further),
        Then::Test(_) => make_value(alloc, set, source, machine, part, further),
        Then::Choose(_) => make_value(alloc, set, source, machine, part, further),
        Then::Case(_) => make_value(alloc, set, source, machine, part, further),
        Then::Low(_) => make_value(alloc, set, source, machine, part, further),
        Then::High(_, _) => make_value(alloc, set, source, machine, part, further),
        Then::From(_) => make_value(alloc, set, source, machine, part, further),
        Then::To(_, _) => make_value(alloc, set, source, machine, part, further),
        Then::By(_, _, _) => make_value(alloc, set, source, machine, part, further),
        Then::Say { .. } => make_value(alloc, set, source, machine, part, further),
        Then::Plain => Ok(Rest::Done(false)),
        Then::Leave => {
            machine.scopes.leave();
            Ok(Rest::Done(false))
        }
        Then::Hold { name, local, stop } => make_block(
            alloc, source, machine, part, *name, *local, *stop, further,
        ),
        Then::Again(circle) => turn_again(source, machine, part, circle, further),
        Then::Fall(parted) => fall(source, machine, part, *parted, further),
        Then::Turn(turns, old, last, step) => turn(
            source, machine, part, turns, *old, *last, *step, further,
        ),
        Then::Enter(call) => call_at_once(source, machine, part, call, further),
        Then::Pass(_) => Ok(Rest::Done(false)),
        Then::Give(_) => Ok(Rest::Done(false)),
        Then::Refer(_, _) => Ok(Rest::Done(false)),
        Then::Read(_) => Ok(Rest::Done(false)),
    }
}

/// What is made of an argument; `home` is the text of the macro.
pub fn tell_argument(
    alloc: Global,
    set: &Settings,
    source: &Written,
    home: &Written,
    machine: &mut Machine,
    part: &Part,
    further: &mut Part,
) -> Result<Rest, Stop>
    requires whole { AreWhole set.now }
    requires argument { is_argument part.now.then ≡ true }
    requires taken { machine.old.taken ≤ 16777216 }
    ensures ok { IfOk result (λ next. IsTold set.now source.now (Some home.now) part.now part.now.then (state_of machine.old) (Ok (settled (next_of next further.new) (state_of machine.new)))) }
    ensures fault { IfErr result (λ f. f ≢ NoMemory → IsTold set.now source.now (Some home.now) part.now part.now.then (state_of machine.old) (Err (stopped f (state_of machine.new)))) }
    ensures more { IfOk result (λ next. keeps_measure (next_of next further.new) machine.old.taken machine.new.taken (weight part.now.then)) }
    ensures within { OnOk result (machine.new.taken ≤ 16777216) }
    ensures said { machine.new.messages.items ≡ machine.old.messages.items }
{
    match &part.then {
        Then::Pass(call) => pass_value(alloc, set, source, home, machine, part, call, further),
        Then::Give(call) => give(alloc, source, home, machine, part, call, further),
        Then::Refer(call, name) => refer(source, home, machine, part, call, *name, further),
        _ => Ok(Rest::Done(false)),
    }
}

/// Gives up the scope of a call whose arguments are read, and the list aside. The `#break` goes on.
fn drop_call(machine: &mut Machine, from: usize) -> bool
    ensures value { settled (Next.Done result) (state_of machine.new) ≡ settled (Next.Done true) (dropped (restored from (state_of machine.old))) }
    ensures taken { machine.new.taken ≡ machine.old.taken }
    ensures said { machine.new.messages.items ≡ machine.old.messages.items }
{
    machine.out.truncate(from);
    machine.waiting.leave();
    true
}

/// What a `#break` gives up, and whether it goes on behind that.
pub fn give_up(machine: &mut Machine, part: &Part) -> Result<bool, Stop>
    ensures ok { IfOk result (λ broken. given_up part.now part.now.then (state_of machine.old) ≡ settled (Next.Done broken) (state_of machine.new)) }
    ensures fault { IfErr result (λ f. f ≡ NoMemory) }
    ensures taken { OnOk result (machine.new.taken ≡ machine.old.taken) }
    ensures said { machine.new.messages.items ≡ machine.old.messages.items }
{
    match &part.then {
        Then::Plain => Ok(true),
        Then::Leave => {
            machine.scopes.leave();
            Ok(true)
        }
        Then::Again(_) => Ok(false),
        Then::Fall(_) => Ok(false),
        Then::Turn(turns, old, _, _) => {
            number(machine, turns, *old)?;
            Ok(false)
        }
        Then::Test(_) => Ok(end_loop(machine, part.from)),
        Then::Choose(_) => Ok(end_loop(machine, part.from)),
        Then::Case(_) => Ok(end_loop(machine, part.from)),
        Then::Low(_) => Ok(end_loop(machine, part.from)),
        Then::High(_, _) => Ok(end_loop(machine, part.from)),
        Then::From(_) => Ok(end_loop(machine, part.from)),
        Then::To(_, _) => Ok(end_loop(machine, part.from)),
        Then::By(_, _, _) => Ok(end_loop(machine, part.from)),
        Then::Pass(_) => Ok(drop_call(machine, part.from)),
        Then::Give(_) => Ok(drop_call(machine, part.from)),
        Then::Refer(_, _) => Ok(drop_call(machine, part.from)),
        Then::Enter(_) => Ok(drop_call(machine, part.from)),
        Then::Bind { .. } => Ok(give_list_up(machine, part.from)),
        Then::Hold { .. } => Ok(give_list_up(machine, part.from)),
        Then::Decide { .. } => Ok(give_list_up(machine, part.from)),
        Then::Say { .. } => Ok(give_list_up(machine, part.from)),
        Then::Read(_) => Ok(give_list_up(machine, part.from)),
    }
}

/// The head of a loop or switch is given up, and the loop with it: the `#break` ends here.
fn end_loop(machine: &mut Machine, from: usize) -> bool
    ensures value { settled (Next.Done result) (state_of machine.new) ≡ settled (Next.Done false) (restored from (state_of machine.old)) }
    ensures taken { machine.new.taken ≡ machine.old.taken }
    ensures said { machine.new.messages.items ≡ machine.old.messages.items }
{
    machine.out.truncate(from);
    false
}

/// A list aside is given up. The `#break` goes on.
fn give_list_up(machine: &mut Machine, from: usize) -> bool
    ensures value { settled (Next.Done result) (state_of machine.new) ≡ settled (Next.Done true) (restored from (state_of machine.old)) }
    ensures taken { machine.new.taken ≡ machine.old.taken }
    ensures said { machine.new.messages.items ≡ machine.old.messages.items }
{
    machine.out.truncate(from);
    true
}
