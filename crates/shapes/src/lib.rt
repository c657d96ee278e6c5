//! Solids, and the whole numbers of a ray at which it is inside one.
#![tactic(auto)]

mod aim;
mod axes;
mod body;
mod coefficients;
mod conic;
mod cuboid;
mod curve;
mod globe;
mod half_space;
mod making;
mod measure;
mod near;
mod outward;
mod parts;
mod path;
mod queries;
mod range_pairs;
mod ray;
mod roots;
mod search;
mod sight;
mod span;
mod sphere;
mod taper;
mod tube;
mod upright;
mod wide;

pub use body::Solid;
pub use parts::Stretches;
pub use path::{Path, last_t};
pub use queries::{face, inside, normal, ranges, solid};
pub use range_pairs::Ranges;
pub use ray::{Point, Ray};
pub use span::Span;
