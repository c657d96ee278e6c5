//! Boxes along the world's axes that hold the solids of leaves.
#![tactic(auto)]

mod bounds;
mod boxed;
mod ends;
mod groups;
mod reach;

pub use bounds::{Box3, leaf_box, whole_world};
pub use boxed::Boxed;
pub use groups::shape_box;
