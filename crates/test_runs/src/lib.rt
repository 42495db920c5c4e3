//! Tests of runs: streams fail, and the program ends with a status. No crate depends on this one.
#![tactic(auto)]

#[cfg(test)]
mod program;
#[cfg(test)]
mod streams;
