//! Tests of streams, whole files, references and the cache: worked examples of their public functions. This crate
//! contains only tests.
#![tactic(auto)]

#[cfg(test)]
mod cache;
#[cfg(test)]
mod check;
#[cfg(test)]
mod cursor;
#[cfg(test)]
mod cursors;
#[cfg(test)]
mod damage;
#[cfg(test)]
mod files;
#[cfg(test)]
mod lines;
#[cfg(test)]
mod outcomes;
#[cfg(test)]
mod refs;
#[cfg(test)]
mod still;
#[cfg(test)]
mod stream_files;
#[cfg(test)]
mod window;
