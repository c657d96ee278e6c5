//! The pictures of a scene: the rays of their pixels, and what is drawn.
#![tactic(auto)]

mod colours;
mod format;
mod memory;
mod pixel_rays;
mod rectangles;
mod rows;
mod samples;
mod smooth;
mod tracing;
mod work;

pub use format::{Antialias, Format, Rectangle};
pub use memory::work_for;
pub use pixel_rays::{pixel_ray, sub_ray};
pub use rectangles::draw;
pub use tracing::Tracing;
pub use work::Work;

#[cfg(test)]
mod tests;
