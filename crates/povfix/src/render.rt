// The top call: from words and texts to picture files.
ghost use Rattle.std.specs.Prelude.{◌≡◌, ◌≢◌, ◌⊎◌, ◌≤◌, ◌*◌, ◌^◌, ℕ, List, [], Some, length, map, take, string_bytes, IfOk, IfErr};
ghost use Rattle.image_out.specs.Files.{file_of};
ghost use Rattle.image_out.specs.Sizes.{picture_length};
ghost use Rattle.shelf.specs.Causes.{Rose};
ghost use Rattle.shelf.specs.Disk.{SameContents, SameOthers, Tells};
ghost use Rattle.directive_machine.specs.declared.texts.Text.{Text};
ghost use Rattle.options.specs.Frames.{picture_name, IsFrame};
ghost use Rattle.options.specs.Plans.{plan_of, IsPlan};
ghost use Rattle.povfix.specs.Conversions.{status_of};
ghost use Rattle.povfix.specs.Frames.{frame_of, frames_in, AreStored, IsStored};
ghost use Rattle.povfix.specs.Moments.{AllStay, OthersStay};
ghost use Rattle.povfix.specs.Runs.{IsPlanned};
ghost use Rattle.povfix.specs.Said.{IsSaid};
ghost use Rattle.povfix.specs.Steps.{fault_of, IsCourse, IsCut, IsDone, IsEnd};
ghost use Rattle.povfix.specs.Verdict.{IsCaused, IsVerdict, Verdict};

use crate::conversions::status;
use crate::drawing::{draw, total};
use crate::ending::Ending;
use crate::expansion::{expanded, parsed};
use crate::law::one_verdict;
use crate::outcome::{Fault, Outcome};
use crate::say::{report, summed};
use crate::store::store;
use directive_machine::{Texts, one_expansion};
use image_out::{Picture, put, room};
use options::{Plan, file_name, names_differ};
use shelf::{Shelf, Sink};
use std::alloc::{AllocError, Global};
use std::thread::Threads;

/// The picture in the form of its file.
fn filed(alloc: Global, plan: &Plan, picture: &[u8]) -> Result<Vec<u8>, AllocError>
    requires plan { IsPlan plan.now }
    requires whole { length picture.now ≡ picture_length plan.now.width plan.now.height plan.now.bits }
    ensures { IfOk result (λ file. file.items ≡ file_of plan.now.sort plan.now.width plan.now.height plan.now.bits picture.now) }
{
    let room = room(plan.sort, plan.width, plan.height, plan.bits);
    let mut file = Vec::with_capacity(alloc, room as usize)?;
    let picture = Picture {
        width: plan.width,
        height: plan.height,
        bits: plan.bits,
        bytes: picture,
    };
    put(plan.sort, &picture, &mut file);
    Ok(file)
}

/// One frame, from its scene's texts to its picture file in the storage: the sum of the bytes of its picture.
fn rendered<T: Texts, S: Shelf, K: Sink>(
    rt: &(impl Threads + Sync),
    alloc: Global,
    plan: &Plan,
    number: u32,
    texts: &mut T,
    shelf: &mut S,
    messages: &mut K,
) -> Result<u64, Ending>
    requires plan { IsPlan plan.now }
    requires frame { IsFrame plan.now number }
    ensures stored { IfOk result (λ total. (h : List Text) → T.held texts.old ≡ Some h → IsStored (frame_of plan.now number) h (S.holds shelf.new)) }
    ensures durable { IfOk result (λ total. (h : List Text) → T.held texts.old ≡ Some h → IsStored (frame_of plan.now number) h (S.images shelf.new (S.moment shelf.new))) }
    ensures said { IfOk result (IsDone (frame_of plan.now number) (T.held texts.old) (K.written messages.old) (K.written messages.new)) }
    ensures small { IfOk result (λ total. total ≤ 2 ^ 35) }
    ensures cut { IfErr result (IsCut (frame_of plan.now number) (T.held texts.old) (T.faults texts.old) (T.faults texts.new)
        (S.faults shelf.old) (S.faults shelf.new) (K.faults messages.old) (K.faults messages.new) (K.written messages.old) (K.written messages.new)) }
    ensures kept { IfErr result (λ ending. ending.fault ≢ Fault.ShelfFault → SameContents (S.holds shelf.old) (S.holds shelf.new)) }
    ensures crash_kept { IfErr result (λ ending. ending.fault ≢ Fault.ShelfFault → AllStay (S.moment shelf.old) (S.moment shelf.new) (S.images shelf.old) (S.images shelf.new)) }
    ensures others { SameOthers (picture_name plan.now number) (S.holds shelf.old) (S.holds shelf.new) }
    ensures crash_others { OthersStay (picture_name plan.now number) (S.moment shelf.old) (S.moment shelf.new) (S.images shelf.old) (S.images shelf.new) }
    ensures tells { Tells (S.holds shelf.old) (S.holds shelf.new) }
    ensures texts { T.held texts.new ≡ T.held texts.old }
    ensures texts_later { T.faults texts.old ≤ T.faults texts.new }
    ensures shelf_later { S.faults shelf.old ≤ S.faults shelf.new }
    ensures sink_later { K.faults messages.old ≤ K.faults messages.new }
{
    one_expansion();
    let found = expanded(alloc, plan, number, texts, messages)?;
    let scene = parsed(alloc, plan, number, found)?;
    let picture = draw(rt, alloc, plan, scene)?;
    let file = filed(alloc, plan, &picture)?;
    let name = file_name(alloc, plan, number)?;
    store(alloc, shelf, name.bytes(), &file)?;
    Ok(total(&picture))
}

/// One frame, and the report of its fault.
fn frame<T: Texts, S: Shelf, K: Sink>(
    rt: &(impl Threads + Sync),
    alloc: Global,
    plan: &Plan,
    number: u32,
    texts: &mut T,
    shelf: &mut S,
    messages: &mut K,
) -> Result<u64, Fault>
    requires plan { IsPlan plan.now }
    requires frame { IsFrame plan.now number }
    ensures stored { IfOk result (λ total. (h : List Text) → T.held texts.old ≡ Some h → IsStored (frame_of plan.now number) h (S.holds shelf.new)) }
    ensures durable { IfOk result (λ total. (h : List Text) → T.held texts.old ≡ Some h → IsStored (frame_of plan.now number) h (S.images shelf.new (S.moment shelf.new))) }
    ensures said { IfOk result (IsDone (frame_of plan.now number) (T.held texts.old) (K.written messages.old) (K.written messages.new)) }
    ensures small { IfOk result (λ total. total ≤ 2 ^ 35) }
    ensures end { IfErr result (IsEnd (frame_of plan.now number) (T.held texts.old) (T.faults texts.old) (T.faults texts.new)
        (S.faults shelf.old) (S.faults shelf.new) (K.faults messages.old) (K.faults messages.new) (S.holds shelf.old) (S.holds shelf.new)
        (S.moment shelf.old) (S.moment shelf.new) (S.images shelf.old) (S.images shelf.new) (K.written messages.old) (K.written messages.new)) }
    ensures others { SameOthers (picture_name plan.now number) (S.holds shelf.old) (S.holds shelf.new) }
    ensures crash_others { OthersStay (picture_name plan.now number) (S.moment shelf.old) (S.moment shelf.new) (S.images shelf.old) (S.images shelf.new) }
    ensures tells { Tells (S.holds shelf.old) (S.holds shelf.new) }
    ensures texts { T.held texts.new ≡ T.held texts.old }
    ensures texts_later { T.faults texts.old ≤ T.faults texts.new }
    ensures shelf_later { S.faults shelf.old ≤ S.faults shelf.new }
    ensures sink_later { K.faults messages.old ≤ K.faults messages.new }
{
    one_expansion();
    match rendered(rt, alloc, plan, number, texts, shelf, messages) {
        Ok(total) => Ok(total),
        Err(ending) => Err(report(alloc, messages, ending)),
    }
}

/// How far the frames of a run came.
#[derive(Drop)]
struct Course {
    /// How many are finished.
    finished: u32,
    /// The sum of the bytes of all their pictures, or the fault that ended them.
    end: Result<u64, Fault>,
}

/// The frames one after another, up to the first fault. What a frame needed is given back before the next one begins.
fn frames<T: Texts, S: Shelf, K: Sink>(
    rt: &(impl Threads + Sync),
    alloc: Global,
    plan: &Plan,
    texts: &mut T,
    shelf: &mut S,
    messages: &mut K,
) -> Course
    requires plan { IsPlan plan.now }
    ensures course { IsCourse plan.now (T.held texts.old) (T.faults texts.old) (T.faults texts.new)
        (S.faults shelf.old) (S.faults shelf.new) (K.faults messages.old) (K.faults messages.new) (S.holds shelf.old) (S.holds shelf.new)
        (S.moment shelf.old) (S.moment shelf.new) (S.images shelf.old) (S.images shelf.new) (K.written messages.old) (K.written messages.new) result.finished result.end }
    ensures texts { T.held texts.new ≡ T.held texts.old }
{
    names_differ();
    let count = plan.to - plan.from + 1;
    let mut total = 0;
    for finished in 0..count {
        match frame(
            rt,
            alloc,
            plan,
            plan.from + finished,
            texts,
            shelf,
            messages,
        ) {
            Ok(more) => total += more,
            Err(fault) => {
                return Course {
                    finished,
                    end: Err(fault),
                };
            }
        }
    }
    Course {
        finished: count,
        end: Ok(total),
    }
}

/// How the run ends; the storage is handed back.
fn ended<S: Shelf>(alloc: Global, shelf: S, finished: u32, fault: Fault) -> Outcome<S>
    ensures shelf { result.shelf ≡ shelf }
    ensures fault { result.fault ≡ fault }
    ensures status { result.status ≡ status_of result.fault }
    ensures finished { result.finished ≡ finished }
    ensures traced { result.traced.items ≡ [] }
{
    Outcome {
        status: status(&fault),
        fault,
        traced: Vec::new(alloc),
        finished,
        shelf,
    }
}

/// Renders the frames that the words ask for, one after another. The sink takes the messages of each scene as its
/// directives are carried out, and behind them the line of a fault, or the summary of a generated scene. The words are those
/// behind the program's own name. Over texts that tell what they hold the clauses pin the answer and the count of finished
/// frames; over others the run still goes by one plan or one refusal, and changes no files but those of its frames. Over
/// storage that tells what a read gives and what a crash leaves they pin what is left in it, at every moment of the call.
pub fn run<T: Texts, S: Shelf + Send, K: Sink>(
    rt: &(impl Threads + Sync),
    alloc: Global,
    words: &[String],
    texts: &mut T,
    mut shelf: S,
    messages: &mut K,
) -> Outcome<S>
    ensures planned { IsPlanned (T.held texts.old) (map string_bytes words.now) (S.holds shelf) (S.holds result.shelf)
        (S.moment shelf) (S.moment result.shelf) (S.images shelf) (S.images result.shelf) result.finished result.fault }
    ensures stored { (h : List Text) → T.held texts.old ≡ Some h
        → AreStored (take result.finished (frames_in (plan_of h (map string_bytes words.now)))) h (S.holds result.shelf) }
    ensures durable { (h : List Text) → T.held texts.old ≡ Some h
        → AreStored (take result.finished (frames_in (plan_of h (map string_bytes words.now)))) h (S.images result.shelf (S.moment result.shelf)) }
    ensures caused { (h : List Text) → T.held texts.old ≡ Some h
        → IsCaused (plan_of h (map string_bytes words.now)) h result.finished result.fault }
    ensures complete { (h : List Text) → T.held texts.old ≡ Some h
        → (count : ℕ) (verdict : Verdict) → IsVerdict (plan_of h (map string_bytes words.now)) h count verdict
        → ¬ Rose (T.faults texts.old) (T.faults texts.new) → ¬ Rose (S.faults shelf) (S.faults result.shelf)
        → ((result.fault ≡ verdict.fault) × (result.finished ≡ count)) ⊎ (result.fault ≡ Fault.NoMemory) ⊎ (result.fault ≡ Fault.MessageFault) }
    ensures text_fault { result.fault ≡ Fault.TextFault → Rose (T.faults texts.old) (T.faults texts.new) }
    ensures shelf_fault { result.fault ≡ Fault.ShelfFault → Rose (S.faults shelf) (S.faults result.shelf) }
    ensures message_fault { result.fault ≡ Fault.MessageFault → Rose (K.faults messages.old) (K.faults messages.new) }
    ensures tells { Tells (S.holds shelf) (S.holds result.shelf) }
    ensures texts { T.held texts.new ≡ T.held texts.old }
    ensures said { (h : List Text) → T.held texts.old ≡ Some h
        → IsSaid (plan_of h (map string_bytes words.now)) h result.finished result.fault
        (K.written messages.old) (K.written messages.new) (K.faults messages.old) (K.faults messages.new) }
    ensures status { result.status ≡ status_of result.fault }
    ensures traced { result.traced.items ≡ [] }
{
    one_verdict();
    let plan = match options::read(alloc, words, texts) {
        Ok(plan) => plan,
        Err(refusal) => {
            let fault = report(alloc, messages, Ending::from(Fault::from(refusal)));
            return ended(alloc, shelf, 0, fault);
        }
    };
    let Course { finished, end } = frames(rt, alloc, &plan, texts, &mut shelf, messages);
    match end {
        Ok(total) => {
            let fault = summed(alloc, messages, &plan, total);
            ended(alloc, shelf, finished, fault)
        }
        Err(fault) => ended(alloc, shelf, finished, fault),
    }
}
