// What a run says of how it ends.
ghost use Rattle.std.specs.Prelude.{◌≡◌, ◌≤◌, ◌⊎◌, ◌++◌, ℕ, List, [], IfOk, IsErr, OnErr, OnOk};
ghost use Rattle.std.specs.Fmt.{decimal};
ghost use Rattle.shelf.specs.Causes.{HasCause};
ghost use Rattle.shelf.specs.Stream.{with_bytes, GrewByLess};
ghost use Rattle.povfix.specs.Lines.{absent_line, limit_line, line_left, line_of, messages_left, option_line, place_line, balls_line, scene_line, sides_line, summary_line, summary_of, text_line, where_line, IsPlaced, IsReported, Says};
ghost use Rattle.povfix.specs.Steps.{IsSummed};

use crate::ending::Ending;
use crate::outcome::Fault;
use options::{Plan, Where};
use shelf::{Failed, Sink};
use std::alloc::{AllocError, Global};

fn push_number(alloc: Global, line: &mut Vec<u8>, number: u32) -> Result<(), AllocError>
    ensures { OnOk result (line.new.items ≡ line.old.items ++ decimal number) }
{
    let digits = number.to_string(alloc)?;
    line.extend_from_slice(digits.as_bytes())?;
    Ok(())
}

fn push_where(alloc: Global, line: &mut Vec<u8>, place: Where) -> Result<(), AllocError>
    ensures { OnOk result (line.new.items ≡ line.old.items ++ where_line place) }
{
    match place {
        Where::Word(number) => {
            line.extend_from_slice(b"word ")?;
            push_number(alloc, line, number)
        }
        Where::Line(number) => {
            line.extend_from_slice(b"line ")?;
            push_number(alloc, line, number)
        }
    }
}

/// Puts the place in a scene text behind what the line says.
fn push_place(alloc: Global, line: &mut Vec<u8>, name: &[u8], number: u32) -> Result<(), AllocError>
    ensures { OnOk result (line.new.items ≡ line.old.items ++ place_line name.now number) }
{
    line.extend_from_slice(b" at ")?;
    line.extend_from_slice(name)?;
    line.extend_from_slice(b":")?;
    push_number(alloc, line, number)
}

/// Puts the text of an error of the scene's maker behind its place.
fn push_text(line: &mut Vec<u8>, letter: u8, text: &[u8]) -> Result<(), AllocError>
    ensures { OnOk result (line.new.items ≡ line.old.items ++ text_line letter text.now) }
{
    if letter == b'U' {
        line.push(b' ')?;
        line.extend_from_slice(text)?;
    }
    Ok(())
}

fn option_line(alloc: Global, kind: u8, place: Where) -> Result<Vec<u8>, AllocError>
    ensures { IfOk result (λ line. line.items ≡ option_line kind place) }
{
    let mut line = Vec::new(alloc);
    line.extend_from_slice(b"option fault ")?;
    push_number(alloc, &mut line, u32::from(kind))?;
    line.extend_from_slice(b" at ")?;
    push_where(alloc, &mut line, place)?;
    line.extend_from_slice(b"\n")?;
    Ok(line)
}

fn scene_line(
    alloc: Global,
    name: &[u8],
    text: &[u8],
    letter: u8,
    kind: u8,
    number: u32,
) -> Result<Vec<u8>, AllocError>
    ensures { IfOk result (λ line. line.items ≡ scene_line name.now text.now letter kind number) }
{
    let mut line = Vec::new(alloc);
    line.extend_from_slice(b"scene fault ")?;
    line.push(letter)?;
    push_number(alloc, &mut line, u32::from(kind))?;
    push_place(alloc, &mut line, name, number)?;
    push_text(&mut line, letter, text)?;
    line.extend_from_slice(b"\n")?;
    Ok(line)
}

fn limit_line(alloc: Global, name: &[u8], which: u8, number: u32) -> Result<Vec<u8>, AllocError>
    ensures { IfOk result (λ line. line.items ≡ limit_line name.now which number) }
{
    let mut line = Vec::new(alloc);
    line.extend_from_slice(b"limit ")?;
    push_number(alloc, &mut line, u32::from(which))?;
    push_place(alloc, &mut line, name, number)?;
    line.extend_from_slice(b"\n")?;
    Ok(line)
}

fn absent_line(alloc: Global, name: &[u8]) -> Result<Vec<u8>, AllocError>
    ensures { IfOk result (λ line. line.items ≡ absent_line name.now) }
{
    let mut line = Vec::new(alloc);
    line.extend_from_slice(b"absent ")?;
    line.extend_from_slice(name)?;
    line.extend_from_slice(b"\n")?;
    Ok(line)
}

/// Writes bytes, and leaves the sink alone where there are none.
pub fn write_if_any<K: Sink>(sink: &mut K, bytes: &[u8]) -> Result<(), Failed>
    ensures all { OnOk result (K.written sink.new ≡ with_bytes (K.written sink.old) bytes.now) }
    ensures part { OnErr result (GrewByLess (K.written sink.old) (K.written sink.new) bytes.now) }
    ensures cause { HasCause (K.faults sink.old) (K.faults sink.new) (IsErr result) }
    ensures quiet { bytes.now ≡ [] → sink.new ≡ sink.old }
{
    if bytes.is_empty() {
        return Ok(());
    }
    sink.write(bytes)?;
    Ok(())
}

/// Writes a line. Where the sink fails, it has a part of it.
fn say<K: Sink>(messages: &mut K, line: &[u8])
    ensures said { Says (K.written messages.old) (K.written messages.new) (K.faults messages.old) (K.faults messages.new) line.now }
    ensures later { K.faults messages.old ≤ K.faults messages.new }
{
    match messages.write(line) {
        Ok(()) => {}
        Err(_) => {}
    }
}

/// Writes the line of a fault, or that there is no memory for it, which takes the fault's place.
fn say_placed<K: Sink>(messages: &mut K, line: Result<Vec<u8>, AllocError>, fault: Fault) -> Fault
    ensures reported { (bytes : List ℕ) → IfOk line (λ written. written.items ≡ bytes) → IsReported (K.written messages.old) (K.written messages.new) (K.faults messages.old) (K.faults messages.new) bytes fault result }
    ensures later { K.faults messages.old ≤ K.faults messages.new }
{
    match line {
        Ok(line) => {
            say(messages, &line);
            fault
        }
        Err(_) => {
            say(messages, b"no memory\n");
            Fault::NoMemory
        }
    }
}

/// Writes the line of a fault to the sink, with the name of the text in which it stands and the text of an error, and
/// nothing where messages couldn't be written. Where there is no memory for the line, that is the fault.
fn report_line<K: Sink>(
    alloc: Global,
    messages: &mut K,
    name: &[u8],
    text: &[u8],
    fault: Fault,
) -> Fault
    ensures said { Says (K.written messages.old) (K.written messages.new) (K.faults messages.old) (K.faults messages.new) (line_of name.now text.now result) }
    ensures fault { (result ≡ fault) ⊎ ((result ≡ Fault.NoMemory) × IsPlaced fault) }
    ensures later { K.faults messages.old ≤ K.faults messages.new }
{
    match fault {
        Fault::Done => Fault::Done,
        Fault::OptionFault(kind, place) => {
            let line = option_line(alloc, kind, place);
            say_placed(messages, line, Fault::OptionFault(kind, place))
        }
        Fault::SceneFault(letter, kind, place) => {
            let line = scene_line(alloc, name, text, letter, kind, place.line);
            say_placed(messages, line, Fault::SceneFault(letter, kind, place))
        }
        Fault::Limit(which, place) => {
            let line = limit_line(alloc, name, which, place.line);
            say_placed(messages, line, Fault::Limit(which, place))
        }
        Fault::Absent(absent) => {
            let line = absent_line(alloc, absent.bytes());
            say_placed(messages, line, Fault::Absent(absent))
        }
        Fault::TextFault => {
            say(messages, b"text fault\n");
            Fault::TextFault
        }
        Fault::ShelfFault => {
            say(messages, b"shelf fault\n");
            Fault::ShelfFault
        }
        Fault::MessageFault => Fault::MessageFault,
        Fault::NoMemory => {
            say(messages, b"no memory\n");
            Fault::NoMemory
        }
    }
}

/// Puts the count of a generated scene's balls first.
fn push_balls(alloc: Global, line: &mut Vec<u8>, balls: u32) -> Result<(), AllocError>
    ensures { OnOk result (line.new.items ≡ line.old.items ++ balls_line balls) }
{
    line.extend_from_slice(b"generated ")?;
    push_number(alloc, line, balls)?;
    line.extend_from_slice(b" objects, ")?;
    Ok(())
}

/// Puts the sides of a picture behind what the line says.
fn push_sides(alloc: Global, line: &mut Vec<u8>, width: u32, height: u32) -> Result<(), AllocError>
    ensures { OnOk result (line.new.items ≡ line.old.items ++ sides_line width height) }
{
    push_number(alloc, line, width)?;
    line.extend_from_slice(b"x")?;
    push_number(alloc, line, height)
}

/// The summary of a generated scene, of whose pictures the bytes have this sum.
fn summary(alloc: Global, plan: &Plan, total: u64) -> Result<Vec<u8>, AllocError>
    ensures { IfOk result (λ line. line.items ≡ summary_line plan.now.generate plan.now.width plan.now.height total) }
{
    let mut line = Vec::new(alloc);
    push_balls(alloc, &mut line, plan.generate)?;
    push_sides(alloc, &mut line, plan.width, plan.height)?;
    line.extend_from_slice(b", sum ")?;
    let digits = total.to_string(alloc)?;
    line.extend_from_slice(digits.as_bytes())?;
    line.extend_from_slice(b"\n")?;
    Ok(line)
}

/// Says the summary of a generated scene, once all its frames are drawn; nothing of a scene that is read.
pub fn summed<K: Sink>(alloc: Global, messages: &mut K, plan: &Plan, total: u64) -> Fault
    ensures said { IsSummed (summary_of plan.now.generate plan.now.width plan.now.height total)
        (K.written messages.old) (K.written messages.new) (K.faults messages.old) (K.faults messages.new) result }
    ensures later { K.faults messages.old ≤ K.faults messages.new }
{
    if plan.generate == 0 {
        return Fault::Done;
    }
    match summary(alloc, plan, total) {
        Ok(line) => match messages.write(&line) {
            Ok(()) => Fault::Done,
            Err(_) => Fault::MessageFault,
        },
        Err(_) => {
            say(messages, b"no memory\n");
            Fault::NoMemory
        }
    }
}

/// Writes what is left to say of a fault to the sink: the messages up to it, and its line where these could be written.
pub fn report<K: Sink>(alloc: Global, messages: &mut K, ending: Ending) -> Fault
    ensures said { Says (K.written messages.old) (K.written messages.new) (K.faults messages.old) (K.faults messages.new) (messages_left ending.report ++ line_left ending.report result) }
    ensures fault { (result ≡ ending.fault) ⊎ ((result ≡ Fault.NoMemory) × IsPlaced ending.fault) }
    ensures later { K.faults messages.old ≤ K.faults messages.new }
{
    let Ending { fault, report } = ending;
    match report {
        Some(report) => match write_if_any(messages, &report.messages) {
            Ok(()) => report_line(
                alloc,
                messages,
                report.name.bytes(),
                report.text.bytes(),
                fault,
            ),
            Err(_) => fault,
        },
        None => report_line(alloc, messages, b"", b"", fault),
    }
}
