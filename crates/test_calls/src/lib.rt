//! Tests of single calls. Each public call of the crates of rows and trees that can run out of memory is called once with enough memory,
//! and returns what was worked out by hand. No crate depends on this one.
//!
//! What a script can show is tested by a script of the program `test_scripts`.
#![tactic(auto)]

#[cfg(test)]
mod codes;
#[cfg(test)]
mod indexes;
#[cfg(test)]
mod loads;
#[cfg(test)]
mod messages;
#[cfg(test)]
mod operations;
#[cfg(test)]
mod reasons;
#[cfg(test)]
mod samples;
#[cfg(test)]
mod trees;
#[cfg(test)]
mod values;
#[cfg(test)]
mod weights;
