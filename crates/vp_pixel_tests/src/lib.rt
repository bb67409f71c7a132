//! Tests of the layers that compute pixels, each separately: worked examples of their public functions. This crate
//! contains only tests.
#![tactic(auto)]

#[cfg(test)]
mod check;
#[cfg(test)]
mod inter;
#[cfg(test)]
mod intra;
#[cfg(test)]
mod loop_filter;
#[cfg(test)]
mod quantisers;
#[cfg(test)]
mod recon;
#[cfg(test)]
mod recon_inter;
#[cfg(test)]
mod transforms;
