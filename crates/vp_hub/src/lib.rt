//! The core of the frame server: a state machine from events to responses.
#![tactic(auto)]

mod connection;
mod event;
mod feed_bytes;
mod hub;
mod laws;
mod lines;
mod names;
mod pages;
mod picture_cache;
mod session;
mod source;
mod streams;

pub use connection::{Connection, ConnectionState};
pub use event::{Event, HubFault, Reply};
pub use hub::Hub;
pub use laws::{
    answers_alike, bytes_are_accepted_pieces, cut_into_heads, frames_in_order_cost_one_each,
    histories_are_cut, is_too_many_by_history, plain_hubs_count_as_before,
    replies_come_before_the_next_line, runs_are_isolated, runs_are_joined, stands_to_shut,
    stills_are_optional,
};
pub use names::NewFault;
pub use session::{ServeFault, serve_one};
pub use source::{Source, StreamEnd};
