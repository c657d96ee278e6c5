// Texts that are looked for and included.
ghost use Rattle.std.specs.Prelude.{◌≡◌, ◌≢◌, ◌<◌, ◌≤◌, List, Some, Ok, Err, IfOk, IfErr, OnOk, IsErrOf};
ghost use Rattle.shelf.specs.Causes.{HasCause};
ghost use Rattle.scene_expr.specs.Heads.{place_at};
ghost use Rattle.scene_expr.specs.Values.{AreWhole};
ghost use Rattle.scope_tables.specs.Names.{entered};
ghost use Rattle.directive_machine.specs.declared.texts.Text.{Text};
ghost use Rattle.directive_machine.specs.Moves.{next_of};
ghost use Rattle.directive_machine.specs.State.{stopped};
ghost use Rattle.directive_machine.specs.Carried.{state_of};
ghost use Rattle.directive_machine.specs.Sources.{found_under, found_beneath, found_text, beneath, text_at, opened};
ghost use Rattle.directive_machine.specs.Course.{given, halted, came};
ghost use Rattle.directive_machine.specs.Read.{sources_of, course_of};
ghost use Rattle.directive_machine.specs.Includes.{asking, included, included_next, IsAsked, IsIncludedBy, IsIncluded};
ghost use Rattle.directive_machine.specs.Weights.{is_light, keeps_measure};
ghost use Rattle.directive_machine.specs.declared.stop.Stop.TheVariants.{NoMemory, TextFault};

use crate::flat::Source;
use crate::machine::Machine;
use crate::made::text_of;
use crate::part::{Part, Rest, Then};
use crate::readings::Readings;
use crate::stop::Stop;
use crate::texts::{ReadFail, Texts};
use crate::told::value;
use fix_math::Str;
use scene_expr::{Settings, place_at};
use scene_lexer::Place;
use std::alloc::Global;
use text_structure::Written;

/// The text that is held under a name.
pub fn look<T: Texts>(alloc: Global, texts: &mut T, name: Vec<u8>) -> Result<Option<Source>, Stop>
    ensures found { IfOk result (λ found. (h : List Text) → T.held texts.old ≡ Some h → found_under h name.items ≡ found) }
    ensures fault { IfErr result (λ f. f ≢ NoMemory → f ≡ TextFault) }
    ensures cause { HasCause (T.faults texts.old) (T.faults texts.new) (IsErrOf result TextFault) }
    ensures held { T.held texts.new ≡ T.held texts.old }
{
    match texts.read(alloc, name.as_slice()) {
        Ok(Some(bytes)) => Ok(Some(Source {
            name: Str::new(name),
            text: Str::new(bytes),
        })),
        Ok(None) => Ok(None),
        Err(ReadFail::Failed) => Err(Stop::TextFault),
        Err(ReadFail::NoMemory) => Err(Stop::NoMemory),
    }
}

/// A name beneath a library path.
fn beneath(alloc: Global, path: &[u8], name: &[u8]) -> Result<Vec<u8>, Stop>
    ensures name { IfOk result (λ found. found.items ≡ beneath path.now name.now) }
    ensures fault { IfErr result (λ f. f ≡ NoMemory) }
{
    let Ok(mut joined) = path.to_vec(alloc) else {
        return Err(Stop::NoMemory);
    };
    if joined.push(b'/').is_err() {
        return Err(Stop::NoMemory);
    }
    if joined.extend_from_slice(name).is_err() {
        return Err(Stop::NoMemory);
    }
    Ok(joined)
}

/// The text of a name under the first library path that has it.
fn find_beneath<T: Texts>(
    alloc: Global,
    libraries: &[Str],
    texts: &mut T,
    name: &[u8],
) -> Result<Option<Source>, Stop>
    ensures found { IfOk result (λ found. (h : List Text) → T.held texts.old ≡ Some h → found_beneath h libraries.now name.now ≡ found) }
    ensures fault { IfErr result (λ f. f ≢ NoMemory → f ≡ TextFault) }
    ensures cause { HasCause (T.faults texts.old) (T.faults texts.new) (IsErrOf result TextFault) }
    ensures held { T.held texts.new ≡ T.held texts.old }
{
    let mut rest = libraries;
    'paths: while let [path, paths @ ..] = rest {
        let name = beneath(alloc, path.bytes(), name)?;
        let found = look(alloc, texts, name)?;
        if found.is_some() {
            return Ok(found);
        }
        rest = paths;
    }
    Ok(None)
}

/// The text of a name: under the name itself, and then under the library paths.
fn find<T: Texts>(
    alloc: Global,
    libraries: &[Str],
    texts: &mut T,
    name: &[u8],
) -> Result<Option<Source>, Stop>
    ensures found { IfOk result (λ found. (h : List Text) → T.held texts.old ≡ Some h → found_text h libraries.now name.now ≡ found) }
    ensures fault { IfErr result (λ f. f ≢ NoMemory → f ≡ TextFault) }
    ensures cause { HasCause (T.faults texts.old) (T.faults texts.new) (IsErrOf result TextFault) }
    ensures held { T.held texts.new ≡ T.held texts.old }
{
    let Ok(copy) = name.to_vec(alloc) else {
        return Err(Stop::NoMemory);
    };
    let found = look(alloc, texts, copy)?;
    if found.is_some() {
        return Ok(found);
    }
    find_beneath(alloc, libraries, texts, name)
}

/// The name of an included text.
fn ask(
    alloc: Global,
    set: &Settings,
    source: &Written,
    machine: &mut Machine,
    part: &Part,
) -> Result<Str, Stop>
    requires { AreWhole set.now }
    ensures name { IfOk result (λ name. IsAsked set.now source.now part.now (state_of machine.old) (Ok (asking name (state_of machine.new)))) }
    ensures fault { IfErr result (λ f. f ≢ NoMemory → IsAsked set.now source.now part.now (state_of machine.old) (Err (stopped f (state_of machine.new)))) }
    ensures more { OnOk result (machine.old.taken < machine.new.taken) }
    ensures within { OnOk result (machine.new.taken ≤ 16777216) }
    ensures said { machine.new.messages.items ≡ machine.old.messages.items }
{
    let found = value(alloc, set, source, machine, part)?;
    let name = text_of(found.value, found.first)?;
    Ok(name)
}

/// The name of an included text, and the place of its first token.
fn ask_in(
    alloc: Global,
    set: &Settings,
    readings: &Readings,
    machine: &mut Machine,
    part: &Part,
    at: usize,
) -> Result<(Str, Place), Stop>
    requires { AreWhole set.now }
    ensures name { IfOk result (λ asked. IsAsked set.now (text_at (sources_of readings.now) part.now.text) part.now (state_of machine.old) (Ok (asking asked.0 (state_of machine.new)))) }
    ensures place { IfOk result (λ asked. asked.1 ≡ place_at (text_at (sources_of readings.now) part.now.text).tokens at) }
    ensures fault { IfErr result (λ f. f ≢ NoMemory → f ≢ TextFault → IsAsked set.now (text_at (sources_of readings.now) part.now.text) part.now (state_of machine.old) (Err (stopped f (state_of machine.new)))) }
    ensures outside { IfErr result (λ f. f ≢ TextFault) }
    ensures more { OnOk result (machine.old.taken < machine.new.taken) }
    ensures within { OnOk result (machine.new.taken ≤ 16777216) }
    ensures said { machine.new.messages.items ≡ machine.old.messages.items }
{
    match readings.text(part.text) {
        Some(source) => {
            let name = ask(alloc, set, source, machine, part)?;
            Ok((name, place_at(source.tokens(), at)))
        }
        None => Err(Stop::NoMemory),
    }
}

/// Writes the whole of a text down that is included; it is left with its scope.
fn lay(part: &Part, number: usize, end: usize, further: &mut Part)
    ensures { further.new ≡ included part.now number end }
{
    further.text = number;
    further.at = 0;
    further.end = end;
    further.from = 0;
    further.depth = part.depth;
    further.closed = false;
    further.outer = part.outer;
    further.then = Then::Leave;
}

/// The scope of an included text is entered.
fn enter(machine: &mut Machine) -> Result<(), Stop>
    ensures ok { OnOk result (state_of machine.new ≡ record (state_of machine.old) { scopes = entered machine.old.scopes }) }
    ensures fault { IfErr result (λ f. f ≡ NoMemory) }
    ensures said { machine.new.messages.items ≡ machine.old.messages.items }
{
    if machine.scopes.enter().is_err() {
        return Err(Stop::NoMemory);
    }
    Ok(())
}

/// The text of a number follows, in a scope of its own.
fn follow(
    readings: &Readings,
    machine: &mut Machine,
    part: &Part,
    number: usize,
    further: &mut Part,
) -> Result<Rest, Stop>
    ensures ok { IfOk result (λ next. came (next_of next further.new) (course_of machine.new readings.now) ≡ included_next part.now (state_of machine.old) (opened number (sources_of readings.now))) }
    ensures fault { IfErr result (λ f. f ≡ NoMemory) }
    ensures light { IfOk result (λ next. is_light (next_of next further.new)) }
    ensures taken { OnOk result (machine.new.taken ≡ machine.old.taken) }
    ensures said { machine.new.messages.items ≡ machine.old.messages.items }
{
    let Some(length) = readings.length(number) else {
        return Err(Stop::NoMemory);
    };
    enter(machine)?;
    lay(part, number, length, further);
    Ok(Rest::Further)
}

/// A text that was found is taken in.
fn take_in(
    alloc: Global,
    readings: &mut Readings,
    machine: &mut Machine,
    part: &Part,
    file: Source,
    name: Str,
    place: Place,
    further: &mut Part,
) -> Result<Rest, Stop>
    ensures ok { IfOk result (λ next. IsIncludedBy (Some file) name part.now place (course_of machine.old readings.old) (Ok (came (next_of next further.new) (course_of machine.new readings.new)))) }
    ensures fault { IfErr result (λ f. f ≢ NoMemory → IsIncludedBy (Some file) name part.now place (course_of machine.old readings.old) (Err (halted f (course_of machine.new readings.new)))) }
    ensures outside { IfErr result (λ f. f ≢ TextFault) }
    ensures light { IfOk result (λ next. is_light (next_of next further.new)) }
    ensures taken { OnOk result (machine.new.taken ≡ machine.old.taken) }
    ensures said { machine.new.messages.items ≡ machine.old.messages.items }
{
    let number = readings.open(alloc, file, place)?;
    let next = follow(readings, machine, part, number, further)?;
    Ok(next)
}

/// An include: its text follows.
pub fn include<T: Texts>(
    alloc: Global,
    set: &Settings,
    libraries: &[Str],
    texts: &mut T,
    readings: &mut Readings,
    machine: &mut Machine,
    part: &Part,
    at: usize,
    further: &mut Part,
) -> Result<Rest, Stop>
    requires whole { AreWhole set.now }
    ensures ok { IfOk result (λ next. (h : List Text) → T.held texts.old ≡ Some h → IsIncluded (given set.now libraries.now h) at part.now (course_of machine.old readings.old) (Ok (came (next_of next further.new) (course_of machine.new readings.new)))) }
    ensures fault { IfErr result (λ f. f ≢ NoMemory → f ≢ TextFault → (h : List Text) → T.held texts.old ≡ Some h → IsIncluded (given set.now libraries.now h) at part.now (course_of machine.old readings.old) (Err (halted f (course_of machine.new readings.new)))) }
    ensures cause { HasCause (T.faults texts.old) (T.faults texts.new) (IsErrOf result TextFault) }
    ensures held { T.held texts.new ≡ T.held texts.old }
    ensures more { IfOk result (λ next. keeps_measure (next_of next further.new) machine.old.taken machine.new.taken 2) }
    ensures within { OnOk result (machine.new.taken ≤ 16777216) }
    ensures said { machine.new.messages.items ≡ machine.old.messages.items }
{
    let (name, place) = ask_in(alloc, set, readings, machine, part, at)?;
    match find(alloc, libraries, texts, name.bytes())? {
        Some(file) => {
            let next = take_in(alloc, readings, machine, part, file, name, place, further)?;
            Ok(next)
        }
        None => Err(Stop::Absent { name, place }),
    }
}
