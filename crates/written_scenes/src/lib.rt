//! Scenes of solids by a few whole numbers, for tests and measurements.
#![tactic(auto)]

mod clouds;
mod scenes;

pub use clouds::{cloud, generated};
pub use scenes::{scene, united};
