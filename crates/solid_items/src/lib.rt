//! Solids and triangles of the scene language: from their parameters to their places in the world.
#![tactic(auto)]

mod draft;
mod leaves;
mod parameters;
mod solids;
mod triangles;

pub use draft::{Corner, LeafRole, Misplaced, SheetDraft, SolidDraft};
pub use leaves::leaf_place;
pub use solids::solid;
pub use triangles::{sheet, sheet_place};

#[cfg(test)]
mod tests;
