//! Files and streams as traits, in memory for tests, and over the real folder and the real
//! standard error.
#![tactic(auto)]

mod count;
mod disk;
mod folder_shelf;
mod law;
mod mem_file;
mod mem_shelf;
mod mem_sink;
mod past;
mod sink;
mod std_sink;
#[cfg(test)]
mod tests;
mod turns;

pub use disk::{HoldFail, Shelf};
pub use folder_shelf::FolderShelf;
pub use law::every_image_has_picks;
pub use mem_shelf::MemShelf;
pub use mem_sink::MemSink;
pub use sink::{Failed, NoSink, Sink};
pub use std_sink::StdSink;
