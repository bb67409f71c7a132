//! Parses HTTP request heads, and writes HTTP responses.
#![tactic(auto)]

mod buffer;
mod fields;
mod heads;
mod laws;
mod numbers;
mod ranges;
mod reply;
mod request;
mod routes;
mod status;

pub use buffer::Buffer;
pub use laws::{heads_are_unique, our_routes_have_no_still};
pub use ranges::{Part, Range};
pub use reply::{put_error, put_faulted, put_lines, put_pixels, put_too_long, put_webp};
pub use request::{Request, Resource, read_request};
pub use routes::{Page, place_of, router, router_with_stills};
pub use status::Status;
