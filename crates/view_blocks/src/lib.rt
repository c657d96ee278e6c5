//! What lights and sees a scene: lamps and cameras, from their tokens to their places in the world.
#![tactic(auto)]

mod camera;
mod item;
mod lamp;
mod law;
mod light;
mod reach;
mod span;
mod view;

pub use camera::{Aim, CameraDraft, plain_camera};
pub use item::{default_camera, read_camera, read_lamp};
pub use lamp::{LampDraft, plain_lamp};
pub use law::one_outcome;
pub use light::light_of;
pub use view::camera_of;

#[cfg(test)]
mod tests;
