//! Image files: PPM, Targa and run-length Targa.
#![tactic(auto)]

mod append;
mod file;
mod packets;
mod picture;
#[cfg(test)]
mod tests;
mod unpack;

pub use file::{put, room};
pub use picture::{Picture, Sort};
pub use unpack::{RleFault, read_rle};
