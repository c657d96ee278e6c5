//! What a ray hits first.
#![tactic(auto)]

mod asking;
mod built;
mod fill;
mod group;
mod making;
mod outlook;
mod piece;
mod point;
mod ready;
mod row;
mod scratch;
mod search;
mod world;

pub use asking::{Found, Search};
pub use built::Built;
pub use scratch::Scratch;
pub use search::Strike;
pub use world::{Hit, ListWorld, World};
