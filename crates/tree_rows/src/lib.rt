//! What rays hit in a tree of boxes, against a list of the same solids and numbers by hand. There is nothing here but
//! tests.
#![tactic(auto)]

#[cfg(test)]
mod asked;
#[cfg(test)]
mod trees;
