//! Solids along rays and at points, against numbers that were worked out outside. There is nothing here but tests.
#![tactic(auto)]

#[cfg(test)]
mod asked;
#[cfg(test)]
mod boxes;
#[cfg(test)]
mod cones;
#[cfg(test)]
mod cylinders;
#[cfg(test)]
mod ends;
#[cfg(test)]
mod faces;
#[cfg(test)]
mod known;
#[cfg(test)]
mod planes;
#[cfg(test)]
mod quadrics;
#[cfg(test)]
mod sizes;
#[cfg(test)]
mod spheres;
