// From the texts of a scene to its tokens, with the messages on the way.
ghost use Rattle.std.specs.Prelude.{◌≡◌, ◌≢◌, ◌≤◌, ℕ, List, [], Some, Ok, Err, option_map, IfOk, IfErr};
ghost use Rattle.directive_machine.specs.declared.texts.Text.{Text};
ghost use Rattle.scene_expr.specs.Values.{AreWhole};
ghost use Rattle.scene_model.specs.Valid.{Valid};
ghost use Rattle.scene_parser.specs.Seen.{scene_seen};
ghost use Rattle.options.specs.Frames.{settings_of, IsFrame};
ghost use Rattle.options.specs.Plans.{IsPlan};
ghost use Rattle.povfix.specs.Frames.{frame_of, generated_for};
ghost use Rattle.povfix.specs.Scenes.{IsRead};
ghost use Rattle.povfix.specs.Steps.{IsCarried, IsCut, IsUnparsed};

use crate::conversions::of_stop;
use crate::ending::Ending;
use crate::outcome::Fault;
use crate::say::write_if_any;
use directive_machine::{Flat, Texts, expand};
use fix_math::Str;
use options::{Plan, generated, settings};
use scene_expr::Settings;
use scene_lexer::{Place, Token};
use scene_model::Scene;
use scene_parser::parse;
use shelf::Sink;
use std::alloc::{AllocError, Global};

/// What the directives of a scene come to.
#[derive(Drop)]
pub struct Expansion {
    pub flat: Flat,
    /// The names of its texts, by their numbers.
    pub names: Vec<Str>,
}

/// The text that is generated in place of one that is read.
fn generated_for(alloc: Global, plan: &Plan) -> Result<Option<Vec<u8>>, AllocError>
    requires plan { IsPlan plan.now }
    ensures { IfOk result (λ text. option_map (λ bytes. bytes.items) text ≡ generated_for plan.now.generate) }
{
    if plan.generate == 0 {
        return Ok(None);
    }
    let text = generated(alloc, plan.generate)?;
    Ok(Some(text))
}

/// Carries out the directives of a frame's scene and writes its messages. Where they stop, the messages up to there are
/// left to be written before the line of the fault.
pub fn expanded<T: Texts, K: Sink>(
    alloc: Global,
    plan: &Plan,
    number: u32,
    texts: &mut T,
    sink: &mut K,
) -> Result<Expansion, Ending>
    requires plan { IsPlan plan.now }
    requires frame { IsFrame plan.now number }
    ensures found { IfOk result (λ found. (h : List Text) → T.held texts.old ≡ Some h → IsCarried (frame_of plan.now number) h (K.written sink.old) (K.written sink.new) found) }
    ensures cut { IfErr result (λ ending. (shelf : ℕ) → IsCut (frame_of plan.now number) (T.held texts.old) (T.faults texts.old) (T.faults texts.new)
        shelf shelf (K.faults sink.old) (K.faults sink.new) (K.written sink.old) (K.written sink.new) ending) }
    ensures texts { T.held texts.new ≡ T.held texts.old }
    ensures texts_later { T.faults texts.old ≤ T.faults texts.new }
    ensures sink_later { K.faults sink.old ≤ K.faults sink.new }
{
    let text = generated_for(alloc, plan)?;
    let mut messages = Vec::new(alloc);
    let mut names = Vec::new(alloc);
    let found = expand(
        alloc,
        plan.input.bytes(),
        text.as_deref(),
        plan.libraries.paths(),
        &settings(plan, number),
        texts,
        &mut messages,
        &mut names,
    );
    match found {
        Ok(flat) => match write_if_any(sink, &messages) {
            Ok(()) => Ok(Expansion { flat, names }),
            Err(_) => Err(Ending::from(Fault::MessageFault)),
        },
        Err(stop) => {
            let (fault, text) = of_stop(alloc, stop);
            Err(Ending::in_scene(alloc, fault, messages, names, text))
        }
    }
}

/// The place of a fault that stands at no token: the start of the first text.
const START: Place = Place {
    file: 0,
    at: 0,
    line: 1,
};

/// The scene of tokens. One with triangles is refused, since they aren't drawn yet.
fn read(alloc: Global, tokens: &[Token], set: &Settings) -> Result<Scene, Fault>
    requires { AreWhole set.now }
    ensures scene { IfOk result (λ scene. IsRead tokens.now set.now (Ok (scene_seen scene))) }
    ensures valid { IfOk result Valid }
    ensures flat { IfOk result (λ scene. scene.sheets.items ≡ []) }
    ensures fault { IfErr result (λ fault. fault ≢ Fault.NoMemory → IsRead tokens.now set.now (Err fault)) }
{
    let scene = parse(alloc, tokens, set)?;
    if scene.sheets.is_empty() {
        Ok(scene)
    } else {
        Err(Fault::SceneFault(b'P', 2, START))
    }
}

/// The scene of a frame's tokens.
pub fn parsed(alloc: Global, plan: &Plan, number: u32, found: Expansion) -> Result<Scene, Ending>
    requires plan { IsPlan plan.now }
    requires frame { IsFrame plan.now number }
    ensures scene { IfOk result (λ scene. IsRead found.flat.tokens.items (settings_of plan.now number) (Ok (scene_seen scene))) }
    ensures valid { IfOk result Valid }
    ensures flat { IfOk result (λ scene. scene.sheets.items ≡ []) }
    ensures fault { IfErr result (IsUnparsed (settings_of plan.now number) found) }
{
    match read(alloc, &found.flat.tokens, &settings(plan, number)) {
        Ok(scene) => Ok(scene),
        Err(fault) => Err(Ending::in_scene(
            alloc,
            fault,
            Vec::new(alloc),
            found.names,
            Str::new(Vec::new(alloc)),
        )),
    }
}
