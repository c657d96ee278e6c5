//! Objects of the scene language, from their tokens: solids, triangles and meshes, groups, objects in
//! an object of their own, and what is said of each behind its parts.
#![tactic(auto)]

mod group;
mod item;
mod law;
mod modifier;
mod object;
mod sheets;
mod skip;
mod solids;
mod statement;
mod tables;

pub use item::read_object;
pub use law::one_outcome;
pub use modifier::{ModifierPart, Modifiers, modifier_part};
pub use object::{ObjectDraft, ObjectWord, object_word};
pub use skip::{behind_truth, skipped};
pub use tables::{GivenTexture, LeafDraft, SheetPart, Tables};

#[cfg(test)]
mod tests;
