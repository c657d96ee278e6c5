//! Pictures of boxes that show themselves, against numbers that were worked out outside. There is nothing here but tests.
#![tactic(auto)]

#[cfg(test)]
mod drawn;
#[cfg(test)]
mod edges;
#[cfg(test)]
mod parts;
#[cfg(test)]
mod rows;
#[cfg(test)]
mod stages;
