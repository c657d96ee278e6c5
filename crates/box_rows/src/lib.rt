//! The boxes of leaves, against numbers that were worked out outside. There is nothing here but tests.
#![tactic(auto)]

#[cfg(test)]
mod boxes;
