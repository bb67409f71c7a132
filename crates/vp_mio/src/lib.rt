//! The transport of the server: sockets that do not block, and files that grow.
#![tactic(auto)]

mod access_log;
mod files;
mod laws;
mod line;
mod lingering;
mod socket;
mod sockets;
mod transport;

pub use access_log::{Access, access_line};
pub use files::FollowedFile;
pub use laws::plain_lines_are_printable;
pub use transport::MioTransport;
