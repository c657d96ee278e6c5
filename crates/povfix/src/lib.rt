//! From command words and scene texts to picture files.
#![tactic(auto)]

mod conversions;
mod drawing;
mod ending;
mod expansion;
mod law;
mod outcome;
mod render;
mod say;
mod store;

pub use directive_machine::{FolderTexts, MemTexts, ReadFail, Text, Texts};
pub use law::{one_meaning, one_verdict};
pub use options::{OptionFault, Plan, Where};
pub use outcome::{Fault, Outcome, Traced};
pub use render::run;
