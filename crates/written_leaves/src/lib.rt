//! Leaves and solids by a few whole numbers, for tests and measurements.
#![tactic(auto)]

mod leaves;
mod moves;

pub use leaves::{Written, leaf, number, solid_of, vector};
pub use moves::{Move, moved};
