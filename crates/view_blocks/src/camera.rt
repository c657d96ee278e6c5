// Cameras: what is said of them. (Reference manual, camera)
ghost use Rattle.std.specs.Prelude.{◌≡◌, ◌≢◌, ◌≤◌, ◌<◌, length, IfOk, IfErr, OnOk, IsSome, IsTrue, Ok, Err};
ghost use Rattle.scene_expr.specs.Values.{AreWhole};
ghost use Rattle.item_blocks.specs.declared.fault.ParseFault.TheVariants.{NoMemory};
ghost use Rattle.view_blocks.specs.Cameras.{plain_camera, flagged_camera, camera_with, camera_part, is_camera_part, IsCameraPart};

use fix_math::{Fix, V3};
use item_blocks::{
    Block, BlockWord, CameraFlag, CameraParameter, CameraWord, ParseFault, UNIT, Wanted, Word,
    expression, float_of, moved, point_of, unfit_at, word_at,
};
use scene_expr::{Settings, Value, place_at};
use scene_lexer::{Place, Token};
use std::alloc::Global;
use xform::{Xform, start};

/// What a camera looks at, and the first token of it.
#[derive(Clone, Copy, Debug, PartialEq, Eq)]
pub struct Aim {
    pub at: V3,
    pub place: Place,
}

/// A camera as it is said: its steps are composed, wherever they stand, and so are angle and aim.
#[derive(Clone, Copy, Debug, PartialEq, Eq)]
pub struct CameraDraft {
    pub orthographic: bool,
    pub location: V3,
    pub direction: V3,
    pub right: V3,
    pub up: V3,
    pub sky: V3,
    /// The angle in degrees, if one is said.
    pub angle: Option<Fix>,
    pub look_at: Option<Aim>,
    pub xform: Xform,
}

/// What a word says in a camera.
#[derive(Clone, Copy)]
pub enum CameraPart {
    Flag(CameraFlag),
    Parameter(CameraParameter),
    Move,
    Other,
}

/// The camera of which nothing is said.
pub fn plain_camera() -> CameraDraft
    ensures { result ≡ plain_camera }
{
    CameraDraft {
        orthographic: false,
        location: V3 {
            x: Fix(0),
            y: Fix(0),
            z: Fix(0),
        },
        direction: V3 {
            x: Fix(0),
            y: Fix(0),
            z: Fix(65536),
        },
        right: V3 {
            x: Fix(87163),
            y: Fix(0),
            z: Fix(0),
        },
        up: V3 {
            x: Fix(0),
            y: Fix(65536),
            z: Fix(0),
        },
        sky: V3 {
            x: Fix(0),
            y: Fix(65536),
            z: Fix(0),
        },
        angle: None,
        look_at: None,
        xform: start(),
    }
}

fn flag(camera: &mut CameraDraft, flag: CameraFlag)
    ensures { camera.new ≡ flagged_camera camera.old flag }
{
    match flag {
        CameraFlag::Perspective => {
            camera.orthographic = false;
        }
        CameraFlag::Orthographic => {
            camera.orthographic = true;
        }
    }
}

/// What a word of a camera makes of the value behind it.
fn parameter(
    camera: &mut CameraDraft,
    word: CameraParameter,
    value: Value,
    place: Place,
) -> Result<(), ParseFault>
    ensures found { OnOk result (camera_with camera.old word value place ≡ Ok camera.new) }
    ensures fault { IfErr result (λ f. camera_with camera.old word value place ≡ Err f) }
{
    match word {
        CameraParameter::Location => {
            camera.location = point_of(value, place)?;
        }
        CameraParameter::Direction => {
            camera.direction = point_of(value, place)?;
        }
        CameraParameter::Right => {
            camera.right = point_of(value, place)?;
        }
        CameraParameter::Up => {
            camera.up = point_of(value, place)?;
        }
        CameraParameter::Sky => {
            camera.sky = point_of(value, place)?;
        }
        CameraParameter::Angle => {
            camera.angle = Some(float_of(1, 180 * UNIT - 1, value, place)?);
        }
        CameraParameter::LookAt => {
            camera.look_at = Some(Aim {
                at: point_of(value, place)?,
                place,
            });
        }
    }
    Ok(())
}

fn camera_part(word: Option<Word>) -> CameraPart
    ensures value { result ≡ camera_part word }
    ensures some { IsTrue (is_camera_part result) → IsSome word }
{
    match word {
        Some(Word::Camera(CameraWord::Flag(flag))) => CameraPart::Flag(flag),
        Some(Word::Camera(CameraWord::Parameter(word))) => CameraPart::Parameter(word),
        Some(Word::Block(BlockWord::Transform)) => CameraPart::Move,
        Some(Word::Step(_)) => CameraPart::Move,
        _ => CameraPart::Other,
    }
}

/// A parameter of a camera.
fn take_parameter(
    alloc: Global,
    tokens: &[Token],
    set: &Settings,
    _depths: usize,
    word: CameraParameter,
    at: usize,
    camera: &mut CameraDraft,
) -> Result<usize, ParseFault>
    requires within { at < length tokens.now }
    requires whole { AreWhole set.now }
    ensures found { IfOk result (λ next. IsCameraPart tokens.now set.now _depths (CameraPart.Parameter word) camera.old at (Ok (record { value = camera.new; next = next }))) }
    ensures fault { IfErr result (λ f. f ≢ NoMemory → IsCameraPart tokens.now set.now _depths (CameraPart.Parameter word) camera.old at (Err f)) }
    ensures within { IfOk result (λ next. (at < next) × (next ≤ length tokens.now)) }
{
    let (value, next) = expression(alloc, tokens, set, at + 1)?;
    parameter(camera, word, value, place_at(tokens, at + 1))?;
    Ok(next)
}

/// A step of a camera.
fn take_move(
    alloc: Global,
    tokens: &[Token],
    set: &Settings,
    depths: usize,
    at: usize,
    camera: &mut CameraDraft,
) -> Result<usize, ParseFault>
    requires within { at < length tokens.now }
    requires whole { AreWhole set.now }
    ensures found { IfOk result (λ next. IsCameraPart tokens.now set.now depths CameraPart.Move camera.old at (Ok (record { value = camera.new; next = next }))) }
    ensures fault { IfErr result (λ f. f ≢ NoMemory → IsCameraPart tokens.now set.now depths CameraPart.Move camera.old at (Err f)) }
    ensures within { IfOk result (λ next. (at < next) × (next ≤ length tokens.now)) }
{
    let mut xforms = [camera.xform];
    let next = moved(alloc, tokens, set, depths, at, &mut xforms)?;
    camera.xform = xforms[0];
    Ok(next)
}

/// A part of a camera, by its word.
fn part(
    alloc: Global,
    tokens: &[Token],
    set: &Settings,
    depths: usize,
    part: CameraPart,
    at: usize,
    camera: &mut CameraDraft,
) -> Result<usize, ParseFault>
    requires within { at ≤ length tokens.now }
    requires some { IsTrue (is_camera_part part) → at < length tokens.now }
    requires whole { AreWhole set.now }
    ensures found { IfOk result (λ next. IsCameraPart tokens.now set.now depths part camera.old at (Ok (record { value = camera.new; next = next }))) }
    ensures fault { IfErr result (λ f. f ≢ NoMemory → IsCameraPart tokens.now set.now depths part camera.old at (Err f)) }
    ensures within { IfOk result (λ next. (at < next) × (next ≤ length tokens.now)) }
{
    match part {
        CameraPart::Flag(word) => {
            flag(camera, word);
            Ok(at + 1)
        }
        CameraPart::Parameter(word) => {
            take_parameter(alloc, tokens, set, depths, word, at, camera)
        }
        CameraPart::Move => take_move(alloc, tokens, set, depths, at, camera),
        CameraPart::Other => Err(unfit_at(Wanted::CloseBrace, tokens, at)),
    }
}

impl Block for CameraDraft {
    ghost use Rattle.view_blocks.specs.Cameras.{camera_kind};

    ghost kind = { camera_kind };

    fn leads(word: Option<Word>) -> bool {
        matches!(word, Some(Word::Block(BlockWord::Camera)))
    }

    fn first(
        &mut self,
        _alloc: Global,
        _tokens: &[Token],
        _set: &Settings,
        _depths: usize,
        _led: bool,
        at: usize,
    ) -> Result<usize, ParseFault> {
        Ok(at)
    }

    fn statement(
        &mut self,
        alloc: Global,
        tokens: &[Token],
        set: &Settings,
        depths: usize,
        at: usize,
    ) -> Result<usize, ParseFault> {
        let kind = camera_part(word_at(tokens, at));
        part(alloc, tokens, set, depths, kind, at, self)
    }

    fn lacks(&self) -> Option<Wanted> {
        None
    }
}
