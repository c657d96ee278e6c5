//! What rays hit in scenes, against numbers that were worked out outside. There is nothing here but tests.
#![tactic(auto)]

#[cfg(test)]
mod asked;
#[cfg(test)]
mod bounds;
#[cfg(test)]
mod flat;
#[cfg(test)]
mod known;
#[cfg(test)]
mod nested;
#[cfg(test)]
mod scenes;
#[cfg(test)]
mod singles;
#[cfg(test)]
mod split;
#[cfg(test)]
mod trees;
