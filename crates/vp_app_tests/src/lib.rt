//! Tests of the program's commands that a transcript can't express: connections over TCP, the printed address, an output
//! that fails, and names with control bytes. This crate contains only tests.
#![tactic(auto)]

#[cfg(test)]
mod check;
#[cfg(test)]
mod serving;
