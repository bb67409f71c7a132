//! The program `vp8`, over any standard streams.
#![tactic(auto)]

mod hints;
mod laws;
mod many;
mod program;
mod service;

pub use laws::{served_connections_have_sessions, statuses_of_serve};
pub use many::ManyFault;
pub use program::{command, command_line};
pub use service::{ServiceFault, feed_all, listen, new_hub, serve_each};
