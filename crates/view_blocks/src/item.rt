// Lamps and cameras from their words on.
ghost use Rattle.std.specs.Prelude.{◌≡◌, ◌≢◌, ◌≤◌, ◌<◌, ◌+◌, length, IfOk, IfErr, Ok, Err};
ghost use Rattle.scene_expr.specs.Values.{AreWhole};
ghost use Rattle.scene_model.specs.Looks.{IsLight, IsCamera};
ghost use Rattle.item_blocks.specs.declared.fault.ParseFault.TheVariants.{NoMemory};
ghost use Rattle.view_blocks.specs.Lights.{IsLampItem};
ghost use Rattle.view_blocks.specs.Views.{IsCameraItem, default_camera};

use crate::camera::plain_camera;
use crate::lamp::plain_lamp;
use crate::light::light_of;
use crate::view::camera_of;
use item_blocks::{ParseFault, braced};
use scene_expr::{Settings, place_at};
use scene_lexer::Token;
use scene_model::{Camera, Light};
use std::alloc::Global;

/// A lamp, whose word `light_source` stands at this token, and the token behind it. So many further
/// braces may be open.
pub fn read_lamp(
    alloc: Global,
    tokens: &[Token],
    set: &Settings,
    depths: usize,
    at: usize,
) -> Result<(Light, usize), ParseFault>
    requires within { at < length tokens.now }
    requires whole { AreWhole set.now }
    ensures found { IfOk result (λ found. IsLampItem tokens.now set.now depths at (Ok (record { value = found.0; next = found.1 }))) }
    ensures fault { IfErr result (λ f. f ≢ NoMemory → IsLampItem tokens.now set.now depths at (Err f)) }
    ensures within { IfOk result (λ found. (at < found.1) × (found.1 ≤ length tokens.now)) }
    ensures valid { IfOk result (λ found. IsLight found.0) }
{
    let mut lamp = plain_lamp();
    let next = braced(alloc, tokens, set, depths, at + 1, &mut lamp)?;
    let light = light_of(&lamp)?;
    Ok((light, next))
}

/// A camera, whose word `camera` stands at this token, and the token behind it. So many further
/// braces may be open.
pub fn read_camera(
    alloc: Global,
    tokens: &[Token],
    set: &Settings,
    depths: usize,
    at: usize,
) -> Result<(Camera, usize), ParseFault>
    requires within { at < length tokens.now }
    requires whole { AreWhole set.now }
    ensures found { IfOk result (λ found. IsCameraItem tokens.now set.now depths at (Ok (record { value = found.0; next = found.1 }))) }
    ensures fault { IfErr result (λ f. f ≢ NoMemory → IsCameraItem tokens.now set.now depths at (Err f)) }
    ensures within { IfOk result (λ found. (at < found.1) × (found.1 ≤ length tokens.now)) }
    ensures valid { IfOk result (λ found. IsCamera found.0) }
{
    let mut draft = plain_camera();
    let next = braced(alloc, tokens, set, depths, at + 1, &mut draft)?;
    let camera = camera_of(place_at(tokens, at), &draft)?;
    Ok((camera, next))
}

/// The camera of a scene that has none.
pub fn default_camera() -> Camera
    ensures value { result ≡ default_camera }
    ensures valid { IsCamera result }
{
    let draft = plain_camera();
    Camera {
        location: draft.location,
        direction: draft.direction,
        right: draft.right,
        up: draft.up,
        orthographic: draft.orthographic,
    }
}
