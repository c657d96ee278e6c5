//! The colours of pigments at points of the world.
#![tactic(auto)]

mod cells;
mod colour;
mod hexagons;
mod maps;
mod space;

pub use colour::color_at;
pub use space::Point;

#[cfg(test)]
mod tests;
