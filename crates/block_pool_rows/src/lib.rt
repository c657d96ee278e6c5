//! Workers over the pool of blocks: real threads, and a pen of a state file in memory. There is nothing here but tests.
#![tactic(auto)]

#[cfg(test)]
mod ink;
#[cfg(test)]
mod states;
#[cfg(test)]
mod threads;
#[cfg(test)]
mod together;
#[cfg(test)]
mod workers;
