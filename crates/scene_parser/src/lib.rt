//! Scenes, from a flat list of tokens: items one after another, the objects placed in the world over the
//! default texture in force.
#![tactic(auto)]

mod default;
mod draft;
mod global;
mod item;
mod law;
mod list;
mod placed;
mod scene;

pub use default::{DefaultTexture, plain_default};
pub use global::{Globals, background, plain_globals};
pub use law::one_scene;
pub use scene::parse;

#[cfg(test)]
mod tests;
