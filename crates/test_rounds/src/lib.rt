//! Tests of the calls of a table by crews. No crate depends on this one.
#![tactic(auto)]

#[cfg(test)]
mod gates;
#[cfg(test)]
mod reads;
#[cfg(test)]
mod rounds;
#[cfg(test)]
mod tables;
