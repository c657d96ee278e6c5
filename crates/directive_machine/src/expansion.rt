// What a scene comes to once its directives are carried out.
ghost use Rattle.std.specs.Prelude.{◌≡◌, ◌≢◌, [], List, Result, Some, option_copied, Ok, Err, IfOk, IfErr, OnOk, IsErrOf};
ghost use Rattle.shelf.specs.Causes.{HasCause};
ghost use Rattle.scene_expr.specs.Values.{AreWhole};
ghost use Rattle.directive_machine.specs.declared.texts.Text.{Text};
ghost use Rattle.directive_machine.specs.Carried.{state_of};
ghost use Rattle.directive_machine.specs.Course.{Course, Halted, halted};
ghost use Rattle.directive_machine.specs.Fronts.{IsFront, said_in};
ghost use Rattle.directive_machine.specs.Read.{sources_of, course_of};
ghost use Rattle.directive_machine.specs.Expansions.{first_state, no_sources, start, first_text, whole_part, IsExpanded, IsExpandedFrom, IsExpansion, ComesTo, StopsAt, Reaches, handed};
ghost use Rattle.directive_machine.specs.Sources.{opened};
ghost use Rattle.directive_machine.specs.declared.stop.Stop.TheVariants.{NoMemory, TextFault};

use crate::flat::{Flat, Source};
use crate::frames::expand_part;
use crate::include::look;
use crate::machine::Machine;
use crate::part::{Part, Then};
use crate::readings::Readings;
use crate::stop::Stop;
use crate::texts::Texts;
use fix_math::Str;
use scene_expr::Settings;
use scene_lexer::Place;
use scope_tables::Names;
use std::alloc::Global;
use text_structure::one_end;

/// The start of the first text.
const START: Place = Place {
    file: 0,
    at: 0,
    line: 1,
};

/// The first text: the one that is given, or the one under its name.
fn first_text<T: Texts>(
    alloc: Global,
    first: &[u8],
    given: Option<&[u8]>,
    texts: &mut T,
) -> Result<Option<Source>, Stop>
    ensures found { IfOk result (λ found. (h : List Text) → T.held texts.old ≡ Some h → first_text h first.now (option_copied given.entry) ≡ found) }
    ensures fault { IfErr result (λ f. f ≢ NoMemory → f ≡ TextFault) }
    ensures cause { HasCause (T.faults texts.old) (T.faults texts.new) (IsErrOf result TextFault) }
    ensures held { T.held texts.new ≡ T.held texts.old }
{
    let Ok(name) = first.to_vec(alloc) else {
        return Err(Stop::NoMemory);
    };
    match given {
        Some(bytes) => match bytes.to_vec(alloc) {
            Ok(text) => Ok(Some(Source {
                name: Str::new(name),
                text: Str::new(text),
            })),
            Err(_) => Err(Stop::NoMemory),
        },
        None => look(alloc, texts, name),
    }
}

/// No name is bound, and nothing handed out.
fn start(alloc: Global) -> Result<Machine, Stop>
    ensures state { IfOk result (λ machine. state_of machine ≡ first_state) }
    ensures fault { IfErr result (λ f. f ≡ NoMemory) }
{
    let mut scopes = Names::new(alloc);
    if scopes.enter().is_err() {
        return Err(Stop::NoMemory);
    }
    Ok(Machine {
        scopes,
        waiting: Names::new(alloc),
        taken: 0,
        out: Vec::new(alloc),
        messages: Vec::new(alloc),
    })
}

fn whole(number: usize, end: usize) -> Part
    ensures { result ≡ whole_part number end }
{
    Part {
        text: number,
        depth: 0,
        at: 0,
        end,
        closed: false,
        from: 0,
        outer: false,
        then: Then::Plain,
    }
}

fn absent(alloc: Global, name: &[u8]) -> Stop
    ensures absent { result ≢ NoMemory → result ≡ Stop.Absent name.now start }
    ensures outside { result ≢ TextFault }
{
    match name.to_vec(alloc) {
        Ok(name) => Stop::Absent {
            name: Str::new(name),
            place: START,
        },
        Err(_) => Stop::NoMemory,
    }
}

/// Expands a text that was read, from its first token to its end.
fn expand_whole<T: Texts>(
    alloc: Global,
    number: usize,
    libraries: &[Str],
    set: &Settings,
    texts: &mut T,
    readings: &mut Readings,
    machine: &mut Machine,
) -> Result<(), Stop>
    requires whole { AreWhole set.now }
    requires state { state_of machine.old ≡ first_state }
    ensures ok { OnOk result ((h : List Text) → T.held texts.old ≡ Some h → IsExpanded (record { settings = set.now; libraries = libraries.now; held = h }) (opened number (sources_of readings.old)) (Ok (course_of machine.new readings.new))) }
    ensures fault { IfErr result (λ f. f ≢ NoMemory → f ≢ TextFault → (h : List Text) → T.held texts.old ≡ Some h → IsExpanded (record { settings = set.now; libraries = libraries.now; held = h }) (opened number (sources_of readings.old)) (Err (halted f (course_of machine.new readings.new)))) }
    ensures said { IfErr result (λ f. (h : List Text) → T.held texts.old ≡ Some h → (r : Result Course Halted) → IsExpanded (record { settings = set.now; libraries = libraries.now; held = h }) (opened number (sources_of readings.old)) r → IsFront machine.new.messages.items (said_in r)) }
    ensures cause { HasCause (T.faults texts.old) (T.faults texts.new) (IsErrOf result TextFault) }
    ensures held { T.held texts.new ≡ T.held texts.old }
{
    let Some(length) = readings.length(number) else {
        return Err(Stop::NoMemory);
    };
    let part = whole(number, length);
    expand_part(alloc, set, libraries, texts, readings, machine, part)?;
    Ok(())
}

/// Takes the first text in, and expands it.
fn expand_text<T: Texts>(
    alloc: Global,
    file: Source,
    libraries: &[Str],
    set: &Settings,
    texts: &mut T,
    readings: &mut Readings,
    machine: &mut Machine,
) -> Result<(), Stop>
    requires whole { AreWhole set.now }
    requires state { state_of machine.old ≡ first_state }
    requires sources { sources_of readings.old ≡ no_sources }
    ensures ok { OnOk result ((h : List Text) → T.held texts.old ≡ Some h → Reaches (IsExpandedFrom (record { settings = set.now; libraries = libraries.now; held = h }) file) (handed (course_of machine.new readings.new))) }
    ensures fault { IfErr result (λ f. f ≢ NoMemory → f ≢ TextFault → (h : List Text) → T.held texts.old ≡ Some h → IsExpandedFrom (record { settings = set.now; libraries = libraries.now; held = h }) file (Err (halted f (course_of machine.new readings.new)))) }
    ensures said { IfErr result (λ f. (h : List Text) → T.held texts.old ≡ Some h → (r : Result Course Halted) → IsExpandedFrom (record { settings = set.now; libraries = libraries.now; held = h }) file r → IsFront machine.new.messages.items (said_in r)) }
    ensures cause { HasCause (T.faults texts.old) (T.faults texts.new) (IsErrOf result TextFault) }
    ensures held { T.held texts.new ≡ T.held texts.old }
{
    one_end();
    let found = readings.open_first(alloc, file, START)?;
    match found {
        Some(tokens) => {
            machine.out = tokens;
            Ok(())
        }
        None => {
            expand_whole(alloc, 0, libraries, set, texts, readings, machine)?;
            Ok(())
        }
    }
}

/// Looks for the first text, and expands it.
fn expand_first<T: Texts>(
    alloc: Global,
    first: &[u8],
    given: Option<&[u8]>,
    libraries: &[Str],
    set: &Settings,
    texts: &mut T,
    readings: &mut Readings,
    machine: &mut Machine,
) -> Result<(), Stop>
    requires whole { AreWhole set.now }
    requires state { state_of machine.old ≡ first_state }
    requires sources { sources_of readings.old ≡ no_sources }
    ensures ok { OnOk result ((h : List Text) → T.held texts.old ≡ Some h → Reaches (IsExpansion (record { settings = set.now; libraries = libraries.now; held = h }) first.now (option_copied given.entry)) (handed (course_of machine.new readings.new))) }
    ensures fault { IfErr result (λ f. f ≢ NoMemory → f ≢ TextFault → (h : List Text) → T.held texts.old ≡ Some h → IsExpansion (record { settings = set.now; libraries = libraries.now; held = h }) first.now (option_copied given.entry) (Err (halted f (course_of machine.new readings.new)))) }
    ensures said { IfErr result (λ f. (h : List Text) → T.held texts.old ≡ Some h → (r : Result Course Halted) → IsExpansion (record { settings = set.now; libraries = libraries.now; held = h }) first.now (option_copied given.entry) r → IsFront machine.new.messages.items (said_in r)) }
    ensures cause { HasCause (T.faults texts.old) (T.faults texts.new) (IsErrOf result TextFault) }
    ensures held { T.held texts.new ≡ T.held texts.old }
{
    match first_text(alloc, first, given, texts)? {
        Some(file) => {
            expand_text(alloc, file, libraries, set, texts, readings, machine)?;
            Ok(())
        }
        None => Err(absent(alloc, first)),
    }
}

/// What a scene comes to once its directives are carried out, by the name of its first text. A text that is given
/// is the first one, and isn't looked for. `messages` gains the bytes of the messages, and `names` the names under
/// which texts were found, in order of first reading, up to the end or the fault. Whatever stops it, what was said up
/// to there stands first in what is said by all that the texts come to.
pub fn expand<T: Texts>(
    alloc: Global,
    first: &[u8],
    given: Option<&[u8]>,
    libraries: &[Str],
    set: &Settings,
    texts: &mut T,
    messages: &mut Vec<u8>,
    names: &mut Vec<Str>,
) -> Result<Flat, Stop>
    requires whole { AreWhole set.now }
    requires messages { messages.old.items ≡ [] }
    requires names { names.old.items ≡ [] }
    ensures found { IfOk result (λ flat. (h : List Text) → T.held texts.old ≡ Some h → ComesTo (record { settings = set.now; libraries = libraries.now; held = h }) first.now (option_copied given.entry) (record { tokens = flat.tokens.items; files = flat.files.items; messages = messages.new.items; names = names.new.items })) }
    ensures fault { IfErr result (λ f. f ≢ NoMemory → f ≢ TextFault → (h : List Text) → T.held texts.old ≡ Some h → StopsAt (record { settings = set.now; libraries = libraries.now; held = h }) first.now (option_copied given.entry) (record { stop = f; messages = messages.new.items; names = names.new.items })) }
    ensures said { IfErr result (λ f. (h : List Text) → T.held texts.old ≡ Some h → (r : Result Course Halted) → IsExpansion (record { settings = set.now; libraries = libraries.now; held = h }) first.now (option_copied given.entry) r → IsFront messages.new.items (said_in r)) }
    ensures cause { HasCause (T.faults texts.old) (T.faults texts.new) (IsErrOf result TextFault) }
    ensures held { T.held texts.new ≡ T.held texts.old }
{
    let mut machine = start(alloc)?;
    let mut readings = Readings::new(alloc);
    let found = expand_first(
        alloc,
        first,
        given,
        libraries,
        set,
        texts,
        &mut readings,
        &mut machine,
    );
    *messages = machine.messages;
    *names = readings.names;
    match found {
        Ok(()) => Ok(Flat {
            tokens: machine.out,
            files: readings.files,
        }),
        Err(stop) => Err(stop),
    }
}
