//! The colour that a ray shows: light that falls on surfaces, and rays that go on from there.
#![tactic(auto)]

mod amounts;
mod arriving;
mod directions;
mod finish;
mod lamps;
mod law;
mod lit;
mod met;
mod products;
mod shading;
mod weights;

pub use lamps::{cone, fading};
pub use law::one_shade;
pub use shading::shade;

#[cfg(test)]
mod tests;
