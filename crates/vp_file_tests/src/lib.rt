//! Tests of the readers and writers of files: worked examples of their public functions. This crate contains only
//! tests.
#![tactic(auto)]

#[cfg(test)]
mod check;
#[cfg(test)]
mod hints;
#[cfg(test)]
mod ivf;
#[cfg(test)]
mod scale;
#[cfg(test)]
mod webp;
#[cfg(test)]
mod y4m;
