//! Tests of the layers that read and write syntax, each separately: worked examples of their public functions. This
//! crate contains only tests.
#![tactic(auto)]

#[cfg(test)]
mod base;
#[cfg(test)]
mod bools;
#[cfg(test)]
mod check;
#[cfg(test)]
mod heads;
#[cfg(test)]
mod modes;
#[cfg(test)]
mod motion;
#[cfg(test)]
mod tokens;
#[cfg(test)]
mod trees;
