// The arguments of a call, and the call itself.
ghost use Rattle.std.specs.Prelude.{◌≡◌, ◌≢◌, ◌<◌, ◌≤◌, ◌+◌, ◌^◌, Some, None, Ok, Err, IfOk, IfErr, OnOk};
ghost use Rattle.directive_machine.specs.Moves.{next_of};
ghost use Rattle.directive_machine.specs.State.{stopped, settled, on_ok};
ghost use Rattle.directive_machine.specs.Arguments.{parameter_in, parameter_by, with_argument, called_state, called_part, made_call, next_call, further_argument, made_argument};
ghost use Rattle.directive_machine.specs.Settles.{settled_by};
ghost use Rattle.directive_machine.specs.Weights.{is_light};
ghost use Rattle.directive_machine.specs.Words.{argument};
ghost use Rattle.directive_machine.specs.Carried.{state_of};
ghost use Rattle.directive_machine.specs.declared.stop.Stop.TheVariants.{NoMemory};

use crate::machine::Machine;
use crate::made::close;
use crate::part::{Call, Part, Rest, Then};
use crate::stop::Stop;
use crate::words::argument;
use scope_tables::{Binding, Macro};
use std::alloc::Global;
use text_structure::{Mark, Written};

fn parameter_in(mark: Option<Mark>) -> Option<usize>
    ensures { result ≡ parameter_in mark }
{
    match mark {
        Some(Mark::Name(name)) => Some(name),
        Some(Mark::Known(_)) => None,
        Some(Mark::Sign(_)) => None,
        Some(Mark::Number) => None,
        Some(Mark::Text) => None,
        None => None,
    }
}

/// The parameter of a macro that has this number.
fn parameter(home: &Written, called: Macro, index: usize) -> Option<usize>
    ensures { result ≡ parameter_by (Some home.now) called index }
{
    if index >= called.count || called.parameters > home.len() || index > home.len() {
        return None;
    }
    parameter_in(home.mark(called.parameters + 2 * index))
}

/// The parameter has its argument.
fn pass(machine: &mut Machine, name: Option<usize>, binding: Binding) -> Result<(), Stop>
    ensures ok { OnOk result (state_of machine.new ≡ with_argument name binding (state_of machine.old)) }
    ensures fault { IfErr result (λ f. f ≡ NoMemory) }
    ensures said { machine.new.messages.items ≡ machine.old.messages.items }
{
    match name {
        Some(name) => {
            if machine.waiting.bind(name, binding).is_err() {
                return Err(Stop::NoMemory);
            }
        }
        None => {}
    }
    Ok(())
}

/// The scope of a call is entered.
fn enter(machine: &mut Machine) -> Result<(), Stop>
    ensures ok { OnOk result (state_of machine.new ≡ called_state (state_of machine.old)) }
    ensures fault { IfErr result (λ f. f ≡ NoMemory) }
    ensures said { machine.new.messages.items ≡ machine.old.messages.items }
{
    if machine.scopes.take_over(&mut machine.waiting).is_err() {
        return Err(Stop::NoMemory);
    }
    Ok(())
}

/// Writes the body of a macro down, which is left with its scope.
fn follow(part: &Part, called: Macro, further: &mut Part)
    ensures { further.new ≡ called_part part.now called }
{
    further.text = called.text;
    further.at = called.body;
    further.end = called.end;
    further.from = 0;
    further.depth = part.depth;
    further.closed = false;
    further.outer = part.outer;
    further.then = Then::Leave;
}

/// The body of a macro follows, in its scope.
fn make_call(
    machine: &mut Machine,
    part: &Part,
    called: Macro,
    further: &mut Part,
) -> Result<Rest, Stop>
    requires taken { machine.old.taken ≤ 16777216 }
    ensures ok { IfOk result (λ next. made_call part.now called (state_of machine.old) ≡ Ok (settled (next_of next further.new) (state_of machine.new))) }
    ensures fault { IfErr result (λ f. f ≢ NoMemory → made_call part.now called (state_of machine.old) ≡ Err (stopped f (state_of machine.new))) }
    ensures light { IfOk result (λ next. is_light (next_of next further.new)) }
    ensures more { OnOk result (machine.old.taken ≤ machine.new.taken) }
    ensures within { OnOk result (machine.new.taken ≤ 16777216) }
    ensures said { machine.new.messages.items ≡ machine.old.messages.items }
{
    enter(machine)?;
    follow(part, called, further);
    Ok(Rest::Further)
}

fn next_call(call: &Call) -> Call
    ensures { result ≡ next_call call.now }
{
    Call {
        called: call.called,
        index: if call.index < call.called.count {
            call.index + 1
        } else {
            call.index
        },
        close: call.close,
        closed: call.closed,
    }
}

/// The next argument follows.
fn make_next(
    source: &Written,
    machine: &mut Machine,
    part: &Part,
    call: &Call,
    at: usize,
    further: &mut Part,
) -> Result<Rest, Stop>
    requires place { at < 2 ^ 33 }
    requires taken { machine.old.taken ≤ 16777216 }
    ensures ok { IfOk result (λ next. on_ok (argument source.now part.now call.now at (state_of machine.old)) further_argument ≡ Ok (settled (next_of next further.new) (state_of machine.new))) }
    ensures fault { IfErr result (λ f. f ≢ NoMemory → on_ok (argument source.now part.now call.now at (state_of machine.old)) further_argument ≡ Err (stopped f (state_of machine.new))) }
    ensures light { IfOk result (λ next. is_light (next_of next further.new)) }
    ensures more { OnOk result (machine.old.taken ≤ machine.new.taken) }
    ensures within { OnOk result (machine.new.taken ≤ 16777216) }
    ensures said { machine.new.messages.items ≡ machine.old.messages.items }
{
    argument(source, machine, part, call, at, further)?;
    Ok(Rest::Further)
}

/// An argument is bound; the next one follows, or the body.
pub fn make_argument(
    source: &Written,
    home: &Written,
    machine: &mut Machine,
    part: &Part,
    call: &Call,
    binding: Binding,
    further: &mut Part,
) -> Result<Rest, Stop>
    requires taken { machine.old.taken ≤ 16777216 }
    ensures ok { IfOk result (λ next. made_argument source.now (Some home.now) part.now call.now binding (state_of machine.old) ≡ Ok (settled (next_of next further.new) (state_of machine.new))) }
    ensures fault { IfErr result (λ f. f ≢ NoMemory → made_argument source.now (Some home.now) part.now call.now binding (state_of machine.old) ≡ Err (stopped f (state_of machine.new))) }
    ensures light { IfOk result (λ next. is_light (next_of next further.new)) }
    ensures more { OnOk result (machine.old.taken ≤ machine.new.taken) }
    ensures within { OnOk result (machine.new.taken ≤ 16777216) }
    ensures said { machine.new.messages.items ≡ machine.old.messages.items }
{
    pass(machine, parameter(home, call.called, call.index), binding)?;
    if part.end < call.close.min(source.len()) {
        make_next(
            source,
            machine,
            part,
            &next_call(call),
            part.end + 1,
            further,
        )
    } else {
        make_call(machine, part, call.called, further)
    }
}

/// An argument that is a block.
pub fn give(
    alloc: Global,
    source: &Written,
    home: &Written,
    machine: &mut Machine,
    part: &Part,
    call: &Call,
    further: &mut Part,
) -> Result<Rest, Stop>
    requires taken { machine.old.taken ≤ 16777216 }
    ensures ok { IfOk result (λ next. settled_by source.now (Some home.now) part.now (Then.Give call.now) (state_of machine.old) ≡ Ok (settled (next_of next further.new) (state_of machine.new))) }
    ensures fault { IfErr result (λ f. f ≢ NoMemory → settled_by source.now (Some home.now) part.now (Then.Give call.now) (state_of machine.old) ≡ Err (stopped f (state_of machine.new))) }
    ensures light { IfOk result (λ next. is_light (next_of next further.new)) }
    ensures more { OnOk result (machine.old.taken ≤ machine.new.taken) }
    ensures within { OnOk result (machine.new.taken ≤ 16777216) }
    ensures strict { OnOk result (machine.old.taken < machine.new.taken) }
    ensures said { machine.new.messages.items ≡ machine.old.messages.items }
{
    close(source, machine, part)?;
    let block = machine.take_aside(alloc, part.from)?;
    make_argument(
        source,
        home,
        machine,
        part,
        call,
        Binding::Block(block),
        further,
    )
}

/// An argument that refers to a name.
pub fn refer(
    source: &Written,
    home: &Written,
    machine: &mut Machine,
    part: &Part,
    call: &Call,
    name: usize,
    further: &mut Part,
) -> Result<Rest, Stop>
    requires taken { machine.old.taken ≤ 16777216 }
    ensures ok { IfOk result (λ next. settled_by source.now (Some home.now) part.now (Then.Refer call.now name) (state_of machine.old) ≡ Ok (settled (next_of next further.new) (state_of machine.new))) }
    ensures fault { IfErr result (λ f. f ≢ NoMemory → settled_by source.now (Some home.now) part.now (Then.Refer call.now name) (state_of machine.old) ≡ Err (stopped f (state_of machine.new))) }
    ensures light { IfOk result (λ next. is_light (next_of next further.new)) }
    ensures more { OnOk result (machine.old.taken ≤ machine.new.taken) }
    ensures within { OnOk result (machine.new.taken ≤ 16777216) }
    ensures strict { OnOk result (machine.old.taken < machine.new.taken) }
    ensures said { machine.new.messages.items ≡ machine.old.messages.items }
{
    close(source, machine, part)?;
    make_argument(
        source,
        home,
        machine,
        part,
        call,
        Binding::Reference(name),
        further,
    )
}

/// A call without arguments.
pub fn call_at_once(
    source: &Written,
    machine: &mut Machine,
    part: &Part,
    call: &Call,
    further: &mut Part,
) -> Result<Rest, Stop>
    requires taken { machine.old.taken ≤ 16777216 }
    ensures ok { IfOk result (λ next. settled_by source.now None part.now (Then.Enter call.now) (state_of machine.old) ≡ Ok (settled (next_of next further.new) (state_of machine.new))) }
    ensures fault { IfErr result (λ f. f ≢ NoMemory → settled_by source.now None part.now (Then.Enter call.now) (state_of machine.old) ≡ Err (stopped f (state_of machine.new))) }
    ensures light { IfOk result (λ next. is_light (next_of next further.new)) }
    ensures more { OnOk result (machine.old.taken ≤ machine.new.taken) }
    ensures within { OnOk result (machine.new.taken ≤ 16777216) }
    ensures strict { OnOk result (machine.old.taken < machine.new.taken) }
    ensures said { machine.new.messages.items ≡ machine.old.messages.items }
{
    close(source, machine, part)?;
    make_call(machine, part, call.called, further)
}
