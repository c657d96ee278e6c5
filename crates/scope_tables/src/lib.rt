//! The names of a scene on a stack of scopes, and what each is bound to.
#![tactic(auto)]

mod binding;
mod names;

pub use binding::{Binding, Block, Macro};
pub use names::{Home, Names};
