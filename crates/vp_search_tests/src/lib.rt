//! Tests of the motion search: worked examples of its public functions. This crate contains only tests.
#![tactic(auto)]

#[cfg(test)]
mod check;
#[cfg(test)]
mod search;
