//! Tests of the server over a transport in memory whose log is known: each kind of action, with the transfers that are
//! expected written by hand; and over sockets. There is nothing here but tests.
#![tactic(auto)]

#[cfg(test)]
mod check;
mod entry;
#[cfg(test)]
mod log_lines;
#[cfg(test)]
mod script;
#[cfg(test)]
mod sockets;
#[cfg(test)]
mod traces;
