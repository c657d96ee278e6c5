//! Transforms of objects, and their placing in the world.
#![tactic(auto)]

mod checked;
mod matrix_step;
mod placing;
mod rows;
mod steps;
mod transform;

pub use placing::{axis_frame, identity_frame, spot};
pub use steps::{compose, direction, point, start, then};
pub use transform::{Frame, Spot, Step, Xform, XformFault};

#[cfg(test)]
mod tests;
