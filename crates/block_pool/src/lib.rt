//! The pool of a frame's blocks: each block is drawn by one worker, and one pen is passed between all of them.
#![tactic(auto)]

mod calls;
mod opening;
mod ordered;
mod permit;
mod plays;
mod pool;
mod rule;
mod seat;
mod start;
mod steps;
#[cfg(test)]
mod tests;
mod tracer;
mod view;

pub use ordered::Ordered;
pub use permit::Permit;
pub use pool::Pool;
pub use seat::Seat;
pub use start::Start;
pub use tracer::Tracer;
pub use view::{Terms, View};
