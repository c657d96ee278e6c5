//! What rays show of scenes, against numbers that were worked out outside. There is nothing here but tests.
#![tactic(auto)]

#[cfg(test)]
mod dull;
#[cfg(test)]
mod glass;
#[cfg(test)]
mod mirrors;
#[cfg(test)]
mod seen;
#[cfg(test)]
mod shadows;
#[cfg(test)]
mod stages;
