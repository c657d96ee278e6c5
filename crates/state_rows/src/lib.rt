//! State files in memory: their bytes, what is judged of damaged ones, and crashes at each moment. There is nothing here but tests.
#![tactic(auto)]

#[cfg(test)]
mod crashes;
#[cfg(test)]
mod files;
#[cfg(test)]
mod pens;
#[cfg(test)]
mod sizes;
