//! Rows by hand over texts, storage and a sink in memory. There is nothing here but tests.
#![tactic(auto)]

#[cfg(test)]
mod directives;
#[cfg(test)]
mod expressions;
#[cfg(test)]
mod failures;
#[cfg(test)]
mod folders;
#[cfg(test)]
mod frames;
#[cfg(test)]
mod memory;
#[cfg(test)]
mod pictures;
#[cfg(test)]
mod rig;
#[cfg(test)]
mod scenes;
#[cfg(test)]
mod words;
