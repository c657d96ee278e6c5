// The words of items, parameters and modifiers. (Reference manual, scene description language)
ghost use Rattle.std.specs.Prelude.{◌≡◌};
ghost use Rattle.item_blocks.specs.Words.{meaning_in, word_of};

use scene_model::Op;

/// The word of a solid.
#[derive(Clone, Copy)]
pub enum SolidWord {
    Sphere,
    Box,
    Plane,
    Cylinder,
    Cone,
    Quadric,
}

/// A word before braces that hold other blocks.
#[derive(Clone, Copy)]
pub enum BlockWord {
    Object,
    Mesh,
    Texture,
    Pigment,
    Finish,
    Interior,
    Material,
    Transform,
    Camera,
    LightSource,
    /// `color_map` or `colour_map`.
    ColourMap,
    Background,
    GlobalSettings,
    BoundedBy,
}

/// A word among the modifiers of an object.
#[derive(Clone, Copy)]
pub enum ModifierWord {
    Open,
    Inverse,
    NoShadow,
    Hollow,
    Hierarchy,
    InsideVector,
}

/// The word of a step that has a vector.
#[derive(Clone, Copy)]
pub enum VectorStep {
    Translate,
    Scale,
    Rotate,
}

/// The word of a step of a transform.
#[derive(Clone, Copy)]
pub enum StepWord {
    Vector(VectorStep),
    Matrix,
}

/// The word of a pattern of colours.
#[derive(Clone, Copy)]
pub enum PatternWord {
    Checker,
    Brick,
    Hexagon,
    Gradient,
}

/// The word of a parameter of a pigment.
#[derive(Clone, Copy)]
pub enum PigmentWord {
    BrickSize,
    Mortar,
}

/// The word of a parameter of a finish.
#[derive(Clone, Copy)]
pub enum FinishWord {
    Ambient,
    Diffuse,
    Phong,
    PhongSize,
    Specular,
    Roughness,
    Reflection,
}

/// A word of a camera that stands alone: the kind of its rays.
#[derive(Clone, Copy)]
pub enum CameraFlag {
    Perspective,
    Orthographic,
}

/// The word of a parameter of a camera.
#[derive(Clone, Copy)]
pub enum CameraParameter {
    Location,
    Direction,
    Right,
    Up,
    Sky,
    Angle,
    LookAt,
}

/// A word inside a camera.
#[derive(Clone, Copy)]
pub enum CameraWord {
    Flag(CameraFlag),
    Parameter(CameraParameter),
}

/// A word of a lamp that stands alone.
#[derive(Clone, Copy)]
pub enum LampFlag {
    Shadowless,
    Spotlight,
}

/// The word of a parameter of a lamp.
#[derive(Clone, Copy)]
pub enum LampParameter {
    Radius,
    Falloff,
    Tightness,
    PointAt,
    FadeDistance,
    FadePower,
}

/// A word inside a lamp.
#[derive(Clone, Copy)]
pub enum LampWord {
    Flag(LampFlag),
    Parameter(LampParameter),
}

/// The word of a global setting.
#[derive(Clone, Copy)]
pub enum GlobalWord {
    AssumedGamma,
    MaxTraceLevel,
    AmbientLight,
    AdcBailout,
}

/// A word of items, parameters and modifiers.
#[derive(Clone, Copy)]
pub enum Word {
    Solid(SolidWord),
    Group(Op),
    Triangle,
    SmoothTriangle,
    Block(BlockWord),
    Modifier(ModifierWord),
    Step(StepWord),
    Pattern(PatternWord),
    Pigment(PigmentWord),
    Finish(FinishWord),
    Ior,
    Camera(CameraWord),
    Lamp(LampWord),
    Global(GlobalWord),
}

/// The words of items, each with what it says. The definitions read this very table.
static WORDS: [(&[u8], Word); 72] = [
    (b"sphere", Word::Solid(SolidWord::Sphere)),
    (b"box", Word::Solid(SolidWord::Box)),
    (b"plane", Word::Solid(SolidWord::Plane)),
    (b"cylinder", Word::Solid(SolidWord::Cylinder)),
    (b"cone", Word::Solid(SolidWord::Cone)),
    (b"quadric", Word::Solid(SolidWord::Quadric)),
    (b"triangle", Word::Triangle),
    (b"smooth_triangle", Word::SmoothTriangle),
    (b"union", Word::Group(Op::Union)),
    (b"merge", Word::Group(Op::Merge)),
    (b"intersection", Word::Group(Op::Intersection)),
    (b"difference", Word::Group(Op::Difference)),
    (b"object", Word::Block(BlockWord::Object)),
    (b"mesh", Word::Block(BlockWord::Mesh)),
    (b"texture", Word::Block(BlockWord::Texture)),
    (b"pigment", Word::Block(BlockWord::Pigment)),
    (b"finish", Word::Block(BlockWord::Finish)),
    (b"interior", Word::Block(BlockWord::Interior)),
    (b"material", Word::Block(BlockWord::Material)),
    (b"transform", Word::Block(BlockWord::Transform)),
    (b"camera", Word::Block(BlockWord::Camera)),
    (b"light_source", Word::Block(BlockWord::LightSource)),
    (b"color_map", Word::Block(BlockWord::ColourMap)),
    (b"colour_map", Word::Block(BlockWord::ColourMap)),
    (b"background", Word::Block(BlockWord::Background)),
    (b"global_settings", Word::Block(BlockWord::GlobalSettings)),
    (b"bounded_by", Word::Block(BlockWord::BoundedBy)),
    (
        b"translate",
        Word::Step(StepWord::Vector(VectorStep::Translate)),
    ),
    (b"scale", Word::Step(StepWord::Vector(VectorStep::Scale))),
    (b"rotate", Word::Step(StepWord::Vector(VectorStep::Rotate))),
    (b"matrix", Word::Step(StepWord::Matrix)),
    (b"open", Word::Modifier(ModifierWord::Open)),
    (b"inverse", Word::Modifier(ModifierWord::Inverse)),
    (b"no_shadow", Word::Modifier(ModifierWord::NoShadow)),
    (b"hollow", Word::Modifier(ModifierWord::Hollow)),
    (b"hierarchy", Word::Modifier(ModifierWord::Hierarchy)),
    (b"inside_vector", Word::Modifier(ModifierWord::InsideVector)),
    (b"checker", Word::Pattern(PatternWord::Checker)),
    (b"brick", Word::Pattern(PatternWord::Brick)),
    (b"hexagon", Word::Pattern(PatternWord::Hexagon)),
    (b"gradient", Word::Pattern(PatternWord::Gradient)),
    (b"brick_size", Word::Pigment(PigmentWord::BrickSize)),
    (b"mortar", Word::Pigment(PigmentWord::Mortar)),
    (b"ambient", Word::Finish(FinishWord::Ambient)),
    (b"diffuse", Word::Finish(FinishWord::Diffuse)),
    (b"phong", Word::Finish(FinishWord::Phong)),
    (b"phong_size", Word::Finish(FinishWord::PhongSize)),
    (b"specular", Word::Finish(FinishWord::Specular)),
    (b"roughness", Word::Finish(FinishWord::Roughness)),
    (b"reflection", Word::Finish(FinishWord::Reflection)),
    (b"ior", Word::Ior),
    (
        b"perspective",
        Word::Camera(CameraWord::Flag(CameraFlag::Perspective)),
    ),
    (
        b"orthographic",
        Word::Camera(CameraWord::Flag(CameraFlag::Orthographic)),
    ),
    (
        b"location",
        Word::Camera(CameraWord::Parameter(CameraParameter::Location)),
    ),
    (
        b"direction",
        Word::Camera(CameraWord::Parameter(CameraParameter::Direction)),
    ),
    (
        b"right",
        Word::Camera(CameraWord::Parameter(CameraParameter::Right)),
    ),
    (
        b"up",
        Word::Camera(CameraWord::Parameter(CameraParameter::Up)),
    ),
    (
        b"sky",
        Word::Camera(CameraWord::Parameter(CameraParameter::Sky)),
    ),
    (
        b"angle",
        Word::Camera(CameraWord::Parameter(CameraParameter::Angle)),
    ),
    (
        b"look_at",
        Word::Camera(CameraWord::Parameter(CameraParameter::LookAt)),
    ),
    (
        b"shadowless",
        Word::Lamp(LampWord::Flag(LampFlag::Shadowless)),
    ),
    (
        b"spotlight",
        Word::Lamp(LampWord::Flag(LampFlag::Spotlight)),
    ),
    (
        b"radius",
        Word::Lamp(LampWord::Parameter(LampParameter::Radius)),
    ),
    (
        b"falloff",
        Word::Lamp(LampWord::Parameter(LampParameter::Falloff)),
    ),
    (
        b"tightness",
        Word::Lamp(LampWord::Parameter(LampParameter::Tightness)),
    ),
    (
        b"point_at",
        Word::Lamp(LampWord::Parameter(LampParameter::PointAt)),
    ),
    (
        b"fade_distance",
        Word::Lamp(LampWord::Parameter(LampParameter::FadeDistance)),
    ),
    (
        b"fade_power",
        Word::Lamp(LampWord::Parameter(LampParameter::FadePower)),
    ),
    (b"assumed_gamma", Word::Global(GlobalWord::AssumedGamma)),
    (b"max_trace_level", Word::Global(GlobalWord::MaxTraceLevel)),
    (b"ambient_light", Word::Global(GlobalWord::AmbientLight)),
    (b"adc_bailout", Word::Global(GlobalWord::AdcBailout)),
];

/// What the first entry says that is spelled like the word.
fn meaning_in(table: &[(&[u8], Word)], word: &[u8]) -> Option<Word>
    ensures { result ≡ meaning_in (λ entry. entry.0.now) (λ entry. entry.1) word.now table.now }
{
    for (spelling, meaning) in table {
        if word == *spelling {
            return Some(*meaning);
        }
    }
    None
}

/// What this word says in an item; none for each other word.
#[tactic(auto, unfolding(crate::specs::Words::word_of))]
pub fn word_of(word: &[u8]) -> Option<Word>
    ensures { result ≡ word_of word.now }
{
    meaning_in(&WORDS, word)
}
