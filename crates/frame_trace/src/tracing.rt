// What a picture is traced of.
use crate::format::Format;
use csg_hits::World;
use scene_model::Scene;

/// A scene with the world that answers for it, and the format of its picture.
#[derive(Drop)]
pub struct Tracing<W: World> {
    pub world: W,
    pub scene: Scene,
    pub format: Format,
}
