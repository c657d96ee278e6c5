// The plan of the words. (Reference manual, command-line options and INI files)
ghost use Rattle.std.specs.Prelude.{◌≡◌, ◌≤◌, ◌+◌, ◌-◌, List, Some, length, map, string_bytes, IfOk, IfSome, IsErrOf, nat_le, nat_lt};
ghost use Rattle.std.specs.Option.{option_copied};
ghost use Rattle.std.specs.Str.Lines.{lines};
ghost use Rattle.shelf.specs.Causes.{HasCause};
ghost use Rattle.directive_machine.specs.declared.texts.Text.{Text};
ghost use Rattle.options.specs.Drafts.{IsSound, IsDraft, IsRead, first_draft};
ghost use Rattle.options.specs.Outcomes.{Answers, Reads};
ghost use Rattle.options.specs.Plans.{ini_length, lacks, text_read, plain_read, word_read, words_read, from_of, to_of, is_in_range, bits_of, antialias_of, plan_by, completed, plan_of, IsPlan};

use crate::draft::{Draft, Numbers};
use crate::fault::{OptionFault, Where};
use crate::ini::{enclosed, has_section, is_signed, read_lines};
use crate::names::{front_length, image_name};
use crate::plan::{Antialias, Libraries, Plan};
use crate::reading::{behind, switch, take};
use crate::table::{Bits, Name, Reading};
use directive_machine::{ReadFail, Texts};
use fix_math::{Fix, Str};
use image_out::Sort;
use std::alloc::{AllocError, Global};

/// The greatest number of words.
const MOST_WORDS: usize = 65_536;

/// The greatest length of an INI file, in bytes.
const MOST_TEXT: usize = 1 << 24;

/// The greatest number of frames that are rendered.
const MOST_FRAMES: u32 = 10_000;

/// The greatest number of pixels of a picture.
const MOST_PIXELS: u64 = 1 << 24;

/// How many bytes of a word name an INI file; none where it is another word.
fn ini_length(word: &[u8]) -> Option<usize>
    ensures value { result ≡ ini_length word.now }
    ensures within { IfSome result (λ n. n ≤ length word.now) }
{
    if is_signed(word) || word.ends_with(b".pov") {
        return None;
    }
    if word.ends_with(b".ini") {
        return Some(word.len());
    }
    let front = front_length(b'[', word).saturating_sub(1);
    if word.ends_with(b"]") && word[..front].ends_with(b".ini") {
        Some(front)
    } else {
        None
    }
}

/// Whether a section is asked for and isn't there.
fn lacks(chosen: Option<&[u8]>, text: &[u8]) -> bool
    ensures { result ≡ lacks (option_copied chosen.entry) (lines text.now) }
{
    match chosen {
        Some(name) => !has_section(name, text),
        None => false,
    }
}

/// Reads an INI file that is there.
fn read_text(
    alloc: Global,
    number: u32,
    chosen: Option<&[u8]>,
    text: &[u8],
    draft: Draft,
) -> Result<Draft, OptionFault>
    requires { IsDraft draft }
    ensures { IsRead (text_read number (option_copied chosen.entry) draft (Some text.now)) result }
{
    if text.len() > MOST_TEXT {
        return Err(OptionFault::BadLine(Where::Line(1)));
    }
    if lacks(chosen, text) {
        return Err(OptionFault::AbsentIni(Where::Word(number)));
    }
    read_lines(alloc, chosen, text, draft)
}

/// Reads a word that names no INI file.
fn read_plain(alloc: Global, number: u32, word: &[u8], draft: Draft) -> Result<Draft, OptionFault>
    requires { IsDraft draft }
    ensures { IsRead (plain_read number word.now draft) result }
{
    let [first, letters @ ..] = word else {
        return Err(OptionFault::UnknownWord(Where::Word(number)));
    };
    if *first == b'+' || *first == b'-' {
        return switch(alloc, Where::Word(number), *first == b'-', letters, draft);
    }
    if word.ends_with(b".pov") {
        return take(
            alloc,
            Where::Word(number),
            Reading::Name(Name::Input),
            word,
            draft,
        );
    }
    Err(OptionFault::UnknownWord(Where::Word(number)))
}

/// Reads a word, and the INI file that it names.
fn read_word<T: Texts>(
    alloc: Global,
    number: u32,
    word: &[u8],
    texts: &mut T,
    draft: Draft,
) -> Result<Draft, OptionFault>
    requires { IsDraft draft }
    ensures read { (h : List Text) → T.held texts.old ≡ Some h → Reads (word_read h number word.now draft) result }
    ensures sound { IfOk result (λ next. IsDraft next) }
    ensures cause { HasCause (T.faults texts.old) (T.faults texts.new) (IsErrOf result OptionFault.TextFault) }
    ensures held { T.held texts.new ≡ T.held texts.old }
{
    let Some(length) = ini_length(word) else {
        return read_plain(alloc, number, word, draft);
    };
    match texts.read(alloc, &word[..length]) {
        Ok(Some(text)) => read_text(
            alloc,
            number,
            enclosed(b'[', b']', behind(word, length)),
            &text,
            draft,
        ),
        Ok(None) => Err(OptionFault::AbsentIni(Where::Word(number))),
        Err(ReadFail::Failed) => Err(OptionFault::TextFault),
        Err(ReadFail::NoMemory) => Err(OptionFault::NoMemory),
    }
}

/// Reads all words, of which a later one wins over an earlier one.
fn read_words<T: Texts>(
    alloc: Global,
    words: &[String],
    texts: &mut T,
) -> Result<Draft, OptionFault>
    requires { length words.now ≤ 65536 }
    ensures read { (h : List Text) → T.held texts.old ≡ Some h
        → Reads (words_read h 1 (map string_bytes words.now) first_draft) result }
    ensures sound { IfOk result (λ draft. IsDraft draft) }
    ensures cause { HasCause (T.faults texts.old) (T.faults texts.new) (IsErrOf result OptionFault.TextFault) }
    ensures held { T.held texts.new ≡ T.held texts.old }
{
    let mut draft = first_draft(alloc);
    let mut number = 0;
    for word in words {
        number += 1;
        draft = match read_word(alloc, number, word.as_bytes(), texts, draft) {
            Ok(next) => next,
            Err(fault) => return Err(fault),
        };
    }
    Ok(draft)
}

/// Before any word is read.
fn first_draft(alloc: Global) -> Draft
    ensures value { result ≡ first_draft }
    ensures sound { IsDraft result }
{
    let numbers = Numbers {
        generate: 0,
        width: 320,
        height: 240,
        sort: Sort::Ppm,
        bits: Bits::Eight,
        smooth: false,
        threshold: Fix(19661),
        depth: 3,
        resume: false,
        workers: 4,
        animated: false,
        clock: Fix(0),
        first: 1,
        last: 1,
        initial_clock: Fix(0),
        final_clock: Fix(65536),
        cyclic: false,
        from: None,
        to: None,
    };
    Draft {
        input: Str::new(Vec::new(alloc)),
        output: Str::new(Vec::new(alloc)),
        libraries: Libraries::new(alloc),
        numbers,
    }
}

fn from_of(numbers: &Numbers) -> u32
    ensures { result ≡ from_of numbers.now }
{
    match numbers.from {
        Some(frame) => frame,
        None => numbers.first,
    }
}

fn to_of(numbers: &Numbers) -> u32
    ensures { result ≡ to_of numbers.now }
{
    match numbers.to {
        Some(frame) => frame,
        None => numbers.last,
    }
}

/// Whether the frames and the picture are in their ranges.
fn is_in_range(numbers: &Numbers) -> bool
    requires { IsSound numbers.now }
    ensures { result ≡ is_in_range numbers.now }
{
    let from = from_of(numbers);
    let to = to_of(numbers);
    numbers.first <= numbers.last
        && numbers.first <= from
        && to <= numbers.last
        && from <= to
        && to - from < MOST_FRAMES
        && u64::from(numbers.width) * u64::from(numbers.height) <= MOST_PIXELS
}

fn bits_of(sort: Sort, bits: Bits) -> u32
    ensures { result ≡ bits_of sort bits }
{
    match sort {
        Sort::Ppm => match bits {
            Bits::Eight => 8,
            Bits::Sixteen => 16,
        },
        Sort::Targa => 8,
        Sort::TargaRle => 8,
    }
}

fn antialias_of(numbers: &Numbers) -> Option<Antialias>
    ensures { result ≡ antialias_of numbers.now }
{
    if numbers.smooth {
        Some(Antialias {
            threshold: numbers.threshold,
            depth: numbers.depth,
        })
    } else {
        None
    }
}

/// The plan that the words ask for.
fn planned(alloc: Global, draft: Draft) -> Result<Plan, AllocError>
    ensures { IfOk result (λ plan. plan ≡ plan_by draft) }
{
    let output = image_name(
        alloc,
        draft.numbers.sort,
        draft.input.bytes(),
        draft.output.bytes(),
    )?;
    let from = from_of(&draft.numbers);
    let to = to_of(&draft.numbers);
    let antialias = antialias_of(&draft.numbers);
    let bits = bits_of(draft.numbers.sort, draft.numbers.bits);
    let Draft {
        input,
        output: _output,
        libraries,
        numbers,
    } = draft;
    Ok(Plan {
        input,
        generate: numbers.generate,
        output,
        width: numbers.width,
        height: numbers.height,
        sort: numbers.sort,
        bits,
        antialias,
        resume: numbers.resume,
        workers: numbers.workers,
        libraries,
        animated: numbers.animated,
        clock: numbers.clock,
        first: numbers.first,
        last: numbers.last,
        initial_clock: numbers.initial_clock,
        final_clock: numbers.final_clock,
        cyclic: numbers.cyclic,
        from,
        to,
    })
}

/// What is left to see once all words are read.
fn complete(alloc: Global, draft: Draft) -> Result<Plan, OptionFault>
    requires { IsDraft draft }
    ensures value { Answers (completed draft) result }
    ensures range { IfOk result (λ plan. IsPlan plan) }
{
    if draft.input.bytes().is_empty() {
        return Err(OptionFault::Missing(Where::Word(0)));
    }
    if !is_in_range(&draft.numbers) {
        return Err(OptionFault::Range(Where::Word(0)));
    }
    let Ok(plan) = planned(alloc, draft) else {
        return Err(OptionFault::NoMemory);
    };
    Ok(plan)
}

/// Reads the command words and the INI files that they name: the plan of the run, or the first refusal with its word
/// or line. The words are those behind the program's own name. Over texts that tell what they hold the answer is
/// pinned, but for want of memory and for a reading that fails.
pub fn read<T: Texts>(alloc: Global, words: &[String], texts: &mut T) -> Result<Plan, OptionFault>
    ensures read { (h : List Text) → T.held texts.old ≡ Some h → Reads (plan_of h (map string_bytes words.now)) result }
    ensures range { IfOk result (λ plan. IsPlan plan) }
    ensures cause { HasCause (T.faults texts.old) (T.faults texts.new) (IsErrOf result OptionFault.TextFault) }
    ensures held { T.held texts.new ≡ T.held texts.old }
{
    if words.len() > MOST_WORDS {
        return Err(OptionFault::Range(Where::Word(0)));
    }
    match read_words(alloc, words, texts) {
        Ok(draft) => complete(alloc, draft),
        Err(fault) => Err(fault),
    }
}
