//! What a ray hits first in a scene, by a tree of boxes: few of many pieces are asked.
#![tactic(auto)]

mod arrange;
#[cfg(test)]
mod counted;
mod draft;
mod node;
mod outline;
mod walk;
mod watch;
mod world;

pub use world::SlabWorld;
