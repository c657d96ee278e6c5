//! The command words and INI files of a run: its plan, its frames, and the key of a frame.
#![tactic(auto)]

mod append;
mod draft;
mod fault;
mod frames;
mod generator;
mod ini;
mod keys;
mod law;
mod names;
mod plan;
mod reading;
mod table;
mod values;
mod words;

pub use fault::{OptionFault, Where};
pub use frames::{file_name, settings};
pub use generator::generated;
pub use keys::key;
pub use law::names_differ;
pub use plan::{Antialias, Libraries, Plan};
pub use words::read;
