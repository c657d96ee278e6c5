//! Options by hand: words and INI files with their plan or refusal, and the frames of plans. There is nothing here but tests.
#![tactic(auto)]

#[cfg(test)]
mod frames;
#[cfg(test)]
mod ini;
#[cfg(test)]
mod plans;
#[cfg(test)]
mod refusals;
#[cfg(test)]
mod sections;
#[cfg(test)]
mod shown;
