// Steps of transforms, and what they move. (Reference manual, transformations)
ghost use Rattle.std.specs.Prelude.{◌≡◌, ◌≢◌, ◌≤◌, ◌<◌, ◌+◌, ◌-◌, ◌∷◌, ◌++◌, suc, length, [], take, IfOk, IfErr, OnOk, Ok, Err, true, false, Some};
ghost use Rattle.scene_expr.specs.Values.{AreWhole};
ghost use Rattle.item_blocks.specs.Tokens.{word_at};
ghost use Rattle.item_blocks.specs.Steps.{all_moved, moved_by, divided, IsNumbers, IsMatrix, vector_step, IsVectorStep, IsStep, IsTaken, IsBraces, is_transform, behind_transform, IsInside, IsMovedIn, step_part};
ghost use Rattle.item_blocks.specs.declared.fault.ParseFault.TheVariants.{NoMemory};

use crate::fault::{ParseFault, Wanted};
use crate::parameters::{any_float, any_vector};
use crate::tokens::{opened, passed, sign_at, unfit_at, word_at};
use crate::words::{BlockWord, StepWord, VectorStep, Word};
use fix_math::{Fix, V3};
use scene_expr::{Settings, place_at};
use scene_lexer::{Place, Token, sign};
use std::alloc::Global;
use xform::{Step, Xform, XformFault, then};

/// What a word says among steps: a step, or a transform of many.
#[derive(Clone, Copy)]
pub enum StepPart {
    One(StepWord),
    Many,
    Neither,
}

/// Moves each of the things, in their order.
fn move_all(step: &Step, xforms: &mut [Xform]) -> Result<(), XformFault>
    ensures found { OnOk result (all_moved step.now xforms.old ≡ Ok xforms.new) }
    ensures fault { IfErr result (λ fault. all_moved step.now xforms.old ≡ Err fault) }
{
    'things: for i in 0..xforms.len() {
        xforms[i] = then(&xforms[i], step)?;
    }
    Ok(())
}

/// Moves each of the things, by a step whose parameter stands here.
fn move_by(step: &Step, place: Place, xforms: &mut [Xform]) -> Result<(), ParseFault>
    ensures found { OnOk result (moved_by step.now place xforms.old ≡ Ok xforms.new) }
    ensures fault { IfErr result (λ f. moved_by step.now place xforms.old ≡ Err f) }
{
    match move_all(step, xforms) {
        Ok(()) => Ok(()),
        Err(fault) => Err(ParseFault::Xform { place, fault }),
    }
}

/// The place behind the comma of a matrix, if so many numbers follow.
fn divided(more: usize, tokens: &[Token], at: usize) -> Result<usize, ParseFault>
    requires { at ≤ length tokens.now }
    ensures value { result ≡ divided more tokens.now at }
    ensures within { IfOk result (λ next. (at ≤ next) × (next ≤ length tokens.now)) }
{
    if more == 0 {
        Ok(at)
    } else {
        passed(sign::COMMA, Wanted::Parameter, tokens, at)
    }
}

/// The twelve numbers of a matrix, with commas between them.
fn numbers(
    alloc: Global,
    tokens: &[Token],
    set: &Settings,
    at: usize,
) -> Result<([Fix; 12], usize), ParseFault>
    requires within { at ≤ length tokens.now }
    requires whole { AreWhole set.now }
    ensures found { IfOk result (λ found. IsNumbers tokens.now set.now 12 [] at (Ok (record { value = found.0; next = found.1 }))) }
    ensures fault { IfErr result (λ f. f ≢ NoMemory → IsNumbers tokens.now set.now 12 [] at (Err f)) }
    ensures within { IfOk result (λ found. (at ≤ found.1) × (found.1 ≤ length tokens.now)) }
{
    let mut v = [Fix(0); 12];
    let mut next = at;
    'numbers: for i in 0..12 {
        let (number, end) = any_float(alloc, tokens, set, next)?;
        v[i] = number;
        next = divided(11 - i, tokens, end)?;
    }
    Ok((v, next))
}

/// Twelve numbers between `<` and `>`.
fn matrix(
    alloc: Global,
    tokens: &[Token],
    set: &Settings,
    at: usize,
) -> Result<(Step, usize), ParseFault>
    requires within { at ≤ length tokens.now }
    requires whole { AreWhole set.now }
    ensures found { IfOk result (λ found. IsMatrix tokens.now set.now at (Ok (record { value = found.0; next = found.1 }))) }
    ensures fault { IfErr result (λ f. f ≢ NoMemory → IsMatrix tokens.now set.now at (Err f)) }
    ensures within { IfOk result (λ found. (at ≤ found.1) × (found.1 ≤ length tokens.now)) }
{
    let start = passed(sign::LESS, Wanted::Parameter, tokens, at)?;
    let (numbers, end) = numbers(alloc, tokens, set, start)?;
    let next = passed(sign::GREATER, Wanted::Parameter, tokens, end)?;
    Ok((Step::Matrix(numbers), next))
}

fn vector_step(kind: VectorStep, v: V3) -> Step
    ensures { result ≡ vector_step kind v }
{
    match kind {
        VectorStep::Translate => Step::Translate(v),
        VectorStep::Scale => Step::Scale(v),
        VectorStep::Rotate => Step::Rotate(v),
    }
}

/// A step by its vector.
fn by_vector(
    alloc: Global,
    tokens: &[Token],
    set: &Settings,
    kind: VectorStep,
    at: usize,
) -> Result<(Step, usize), ParseFault>
    requires within { at ≤ length tokens.now }
    requires whole { AreWhole set.now }
    ensures found { IfOk result (λ found. IsVectorStep tokens.now set.now kind at (Ok (record { value = found.0; next = found.1 }))) }
    ensures fault { IfErr result (λ f. f ≢ NoMemory → IsVectorStep tokens.now set.now kind at (Err f)) }
    ensures within { IfOk result (λ found. (at ≤ found.1) × (found.1 ≤ length tokens.now)) }
{
    let (v, next) = any_vector(alloc, tokens, set, at)?;
    Ok((vector_step(kind, v), next))
}

/// The step of a word, by the parameter behind it.
fn step(
    alloc: Global,
    tokens: &[Token],
    set: &Settings,
    word: StepWord,
    at: usize,
) -> Result<(Step, usize), ParseFault>
    requires within { at ≤ length tokens.now }
    requires whole { AreWhole set.now }
    ensures found { IfOk result (λ found. IsStep tokens.now set.now word at (Ok (record { value = found.0; next = found.1 }))) }
    ensures fault { IfErr result (λ f. f ≢ NoMemory → IsStep tokens.now set.now word at (Err f)) }
    ensures within { IfOk result (λ found. (at ≤ found.1) × (found.1 ≤ length tokens.now)) }
{
    match word {
        StepWord::Vector(kind) => by_vector(alloc, tokens, set, kind, at),
        StepWord::Matrix => matrix(alloc, tokens, set, at),
    }
}

/// Takes the step of a word, by the parameter behind it, and answers the token behind that.
fn take_step(
    alloc: Global,
    tokens: &[Token],
    set: &Settings,
    word: StepWord,
    at: usize,
    xforms: &mut [Xform],
) -> Result<usize, ParseFault>
    requires within { at ≤ length tokens.now }
    requires whole { AreWhole set.now }
    ensures found { IfOk result (λ next. IsTaken tokens.now set.now word xforms.old at (Ok (record { value = xforms.new; next = next }))) }
    ensures fault { IfErr result (λ f. f ≢ NoMemory → IsTaken tokens.now set.now word xforms.old at (Err f)) }
    ensures within { IfOk result (λ next. (at ≤ next) × (next ≤ length tokens.now)) }
{
    let (step, next) = step(alloc, tokens, set, word, at)?;
    move_by(&step, place_at(tokens, at), xforms)?;
    Ok(next)
}

fn is_transform(word: Option<Word>) -> bool
    ensures { result ≡ is_transform word }
{
    matches!(word, Some(Word::Block(BlockWord::Transform)))
}

/// The place behind a second `transform`, where there is one.
fn behind_transform(tokens: &[Token], at: usize) -> usize
    requires { at ≤ length tokens.now }
    ensures value { result ≡ behind_transform tokens.now at }
    ensures within { (at ≤ result) × (result ≤ length tokens.now) }
{
    if is_transform(word_at(tokens, at)) {
        at + 1
    } else {
        at
    }
}

fn step_part(word: Option<Word>) -> StepPart
    ensures { result ≡ step_part word }
{
    match word {
        Some(Word::Step(step)) => StepPart::One(step),
        Some(Word::Block(BlockWord::Transform)) => StepPart::Many,
        _ => StepPart::Neither,
    }
}

/// Moves things, in their order, by the step or the transform whose word stands here, and answers the
/// token behind it. So many further braces may be open.
#[cycle(steps)]
pub fn moved(
    alloc: Global,
    tokens: &[Token],
    set: &Settings,
    depths: usize,
    at: usize,
    xforms: &mut [Xform],
) -> Result<usize, ParseFault>
    requires within { at ≤ length tokens.now }
    requires whole { AreWhole set.now }
    ensures found { IfOk result (λ next. IsMovedIn tokens.now set.now depths xforms.old at (Ok (record { value = xforms.new; next = next }))) }
    ensures fault { IfErr result (λ f. f ≢ NoMemory → IsMovedIn tokens.now set.now depths xforms.old at (Err f)) }
    ensures within { IfOk result (λ next. (at < next) × (next ≤ length tokens.now)) }
{
    match step_part(word_at(tokens, at)) {
        StepPart::One(word) => take_step(alloc, tokens, set, word, at + 1, xforms),
        StepPart::Many => {
            let start = behind_transform(tokens, at + 1);
            braces(alloc, tokens, set, depths, start, xforms)
        }
        StepPart::Neither => Err(unfit_at(Wanted::Step, tokens, at)),
    }
}

/// The braces of a transform with its steps.
#[cycle(steps)]
fn braces(
    alloc: Global,
    tokens: &[Token],
    set: &Settings,
    depths: usize,
    at: usize,
    xforms: &mut [Xform],
) -> Result<usize, ParseFault>
    requires within { at ≤ length tokens.now }
    requires whole { AreWhole set.now }
    ensures found { IfOk result (λ next. IsBraces tokens.now depths (IsInside tokens.now set.now depths) xforms.old at (Ok (record { value = xforms.new; next = next }))) }
    ensures fault { IfErr result (λ f. f ≢ NoMemory → IsBraces tokens.now depths (IsInside tokens.now set.now depths) xforms.old at (Err f)) }
    ensures within { IfOk result (λ next. (at < next) × (next ≤ length tokens.now)) }
{
    let start = opened(tokens, depths, at)?;
    let mut next = start;
    'steps: while sign_at(tokens, next) != sign::CLOSE_BRACE {
        next = moved(alloc, tokens, set, depths - 1, next, xforms)?;
    }
    Ok(next + 1)
}
