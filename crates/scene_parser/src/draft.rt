// What is read of a scene so far, and what each item changes of it.
ghost use Rattle.std.specs.Prelude.{◌≡◌, ◌≢◌, ◌≤◌, ◌<◌, ◌++◌, ◌∷◌, [], length, IfOk, IfErr, IfSome, Ok, Err};
ghost use Rattle.scene_model.specs.Amounts.{IsRgb};
ghost use Rattle.scene_model.specs.Looks.{IsCamera, IsLight};
ghost use Rattle.scene_model.specs.Valid.{Valid};
ghost use Rattle.item_blocks.specs.declared.fault.ParseFault.TheVariants.{NoMemory};
ghost use Rattle.item_blocks.specs.Sound.{IsSoundMaterial};
ghost use Rattle.object_items.specs.Objects.{object_seen};
ghost use Rattle.object_items.specs.Sound.{IsSoundObject};
ghost use Rattle.scene_parser.specs.Scenes.{draft_seen, nothing_read, with_camera, with_background, with_light, globals_of, with_globals, with_default, draft_with};
ghost use Rattle.scene_parser.specs.Seen.{scene_seen};
ghost use Rattle.scene_parser.specs.Sound.{IsGood, IsSoundGlobals};

use crate::default::{DefaultTexture, plain_default};
use crate::global::{Globals, plain_globals};
use crate::list::added;
use crate::placed::{number_of, place_object};
use fix_math::Fix;
use item_blocks::{ParseFault, no_texture};
use object_items::ObjectDraft;
use scene_lexer::Token;
use scene_model::{Camera, Fade, Light, Rgb, Scene, Spotlight, Texture};
use std::alloc::Global;
use view_blocks::default_camera;

/// What is read so far, and what counts for the items that follow.
#[derive(Drop)]
pub struct Draft {
    pub scene: Scene,
    /// The default texture in force.
    pub default: DefaultTexture,
    /// Its number among the textures of the scene.
    pub standard: u32,
}

/// The lamps of a scene with one more.
fn lit(lights: Vec<Light>, light: &Light) -> Result<Vec<Light>, ParseFault>
    ensures found { IfOk result (λ new. new.items ≡ lights.items ++ light.now ∷ []) }
    ensures memory { IfErr result (λ f. f ≡ NoMemory) }
{
    let spot: Option<Spotlight> = light.spot;
    let fade: Option<Fade> = light.fade;
    let colour = light.colour;
    added(
        lights,
        Light {
            at: light.at,
            colour,
            shadowless: light.shadowless,
            spot,
            fade,
        },
    )
}

impl Draft {
    /// A scene of which nothing is said.
    pub fn new(alloc: Global) -> Result<Draft, ParseFault>
        ensures found { IfOk result (λ draft. draft_seen draft ≡ nothing_read) }
        ensures memory { IfErr result (λ f. f ≡ NoMemory) }
        ensures good { IfOk result IsGood }
    {
        let globals = plain_globals();
        let ambient_light = globals.ambient_light;
        let background = [Fix(0), Fix(0), Fix(0)];
        let texture = no_texture().made(alloc, &no_texture())?;
        let textures: Vec<Texture> = added(Vec::new(alloc), texture)?;
        let scene = Scene {
            camera: default_camera(),
            lights: Vec::new(alloc),
            objects: Vec::new(alloc),
            leaves: Vec::new(alloc),
            sheets: Vec::new(alloc),
            textures,
            background,
            ambient_light,
            levels: globals.levels,
            adc: globals.adc,
        };
        Ok(Draft {
            scene,
            default: plain_default(),
            standard: 0,
        })
    }

    pub fn with_camera(self, camera: Camera) -> Draft
        requires good { IsGood self }
        requires camera { IsCamera camera }
        ensures value { draft_seen result ≡ with_camera camera (draft_seen self) }
        ensures good { IsGood result }
    {
        let mut draft = self;
        draft.scene.camera = camera;
        draft
    }

    pub fn with_background(self, colour: Rgb) -> Draft
        requires good { IsGood self }
        requires colour { IsRgb colour }
        ensures value { draft_seen result ≡ with_background colour (draft_seen self) }
        ensures good { IsGood result }
    {
        let mut draft = self;
        draft.scene.background = colour;
        draft
    }

    /// With a lamp more.
    pub fn with_light(self, light: &Light) -> Result<Draft, ParseFault>
        requires good { IsGood self }
        requires light { IsLight light.now }
        requires few { length self.scene.lights.items < 256 }
        ensures found { IfOk result (λ draft. draft_seen draft ≡ with_light light.now (draft_seen self)) }
        ensures memory { IfErr result (λ f. f ≡ NoMemory) }
        ensures good { IfOk result IsGood }
    {
        let Draft {
            scene,
            default,
            standard,
        } = self;
        let mut scene = scene;
        scene.lights = lit(scene.lights, light)?;
        Ok(Draft {
            scene,
            default,
            standard,
        })
    }

    /// The settings so far.
    pub fn globals(&self) -> Globals
        requires good { IsGood self.now }
        ensures value { result ≡ globals_of (draft_seen self.now) }
        ensures sound { IsSoundGlobals result }
    {
        Globals {
            ambient_light: self.scene.ambient_light,
            levels: self.scene.levels,
            adc: self.scene.adc,
        }
    }

    pub fn with_globals(self, globals: &Globals) -> Draft
        requires good { IsGood self }
        requires globals { IsSoundGlobals globals.now }
        ensures value { draft_seen result ≡ with_globals globals.now (draft_seen self) }
        ensures good { IsGood result }
    {
        let mut draft = self;
        let ambient_light = globals.ambient_light;
        draft.scene.ambient_light = ambient_light;
        draft.scene.levels = globals.levels;
        draft.scene.adc = globals.adc;
        draft
    }

    /// A scene with a default texture for the items that follow.
    pub fn over(alloc: Global, scene: Scene, default: DefaultTexture) -> Result<Draft, ParseFault>
        requires scene { Valid scene }
        requires default { IsSoundMaterial default.looks }
        ensures found { IfOk result (λ draft. draft_seen draft ≡ with_default default (scene_seen scene)) }
        ensures memory { IfErr result (λ f. f ≡ NoMemory) }
        ensures good { IfOk result IsGood }
    {
        let standard = number_of(scene.textures.len())?;
        let texture = no_texture().made(alloc, &default.looks.texture)?;
        let mut scene = scene;
        scene.textures = added(scene.textures, texture)?;
        Ok(Draft {
            scene,
            default,
            standard,
        })
    }

    /// With an object more, as it was read.
    pub fn with_object(
        self,
        alloc: Global,
        tokens: &[Token],
        object: ObjectDraft,
    ) -> Result<Draft, ParseFault>
        requires good { IsGood self }
        requires object { IsSoundObject (length self.scene.leaves.items) (length self.scene.sheets.items) object }
        ensures found { IfOk result (λ draft. draft_with tokens.now (object_seen object) (draft_seen self) ≡ Ok (draft_seen draft)) }
        ensures fault { IfErr result (λ f. f ≢ NoMemory → draft_with tokens.now (object_seen object) (draft_seen self) ≡ Err f) }
        ensures good { IfOk result IsGood }
    {
        let Draft {
            scene,
            default,
            standard,
        } = self;
        let scene = place_object(
            alloc,
            tokens,
            &default.looks.texture,
            standard,
            object,
            scene,
        )?;
        Ok(Draft {
            scene,
            default,
            standard,
        })
    }
}
