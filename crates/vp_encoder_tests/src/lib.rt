//! Tests of the encoder, and of all layers together: cut files, changed bytes, failing devices. This crate contains
//! only tests. The expected results are worked by hand from the rules of the formats.
#![tactic(auto)]

#[cfg(test)]
mod changed_bytes;
#[cfg(test)]
mod check;
#[cfg(test)]
mod cut_files;
#[cfg(test)]
mod encoding;
#[cfg(test)]
mod encoding_files;
#[cfg(test)]
mod encoding_sources;
#[cfg(test)]
mod failing_devices;
#[cfg(test)]
mod files;
#[cfg(test)]
mod live_encoding;
#[cfg(test)]
mod worked_encoding;
#[cfg(test)]
mod worked_rows;
