//! Tests of the hub and the server that a transcript can't express: requests split at each place, interleaved
//! connections and streams, events in one run, failing readers and writers, sockets. This crate contains only tests.
//! The expected results are worked by hand from the rules of the formats.
#![tactic(auto)]

#[cfg(test)]
mod check;
#[cfg(test)]
mod connections;
#[cfg(test)]
mod cursors;
#[cfg(test)]
mod hubs;
#[cfg(test)]
mod interleavings;
#[cfg(test)]
mod refusals;
#[cfg(test)]
mod serving_lines;
#[cfg(test)]
mod serving_reads;
#[cfg(test)]
mod serving_visits;
#[cfg(test)]
mod stills;
