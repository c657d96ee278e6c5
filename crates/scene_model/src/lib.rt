//! The types of a scene: what a text describes, in the form in which rays meet it.
#![tactic(auto)]

mod camera;
mod light;
mod scene;
mod shape;
mod texture;

pub use camera::Camera;
pub use light::{Fade, Light, Spotlight};
pub use scene::{Object, Scene, Sheet};
pub use shape::{Leaf, Op, Primitive, Shape};
pub use texture::{Entry, Finish, Pattern, Pigment, Rgb, Rgbft, Texture};
