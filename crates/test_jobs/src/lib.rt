//! Tests of jobs: the board by itself, and runs of jobs by crews. No crate depends on this one.
#![tactic(auto)]

#[cfg(test)]
mod jobs;
#[cfg(test)]
mod runs;
