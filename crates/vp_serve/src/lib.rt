//! The server: one hub, many connections at once in one thread, and files that grow. Nothing is read of a connection
//! while bytes of its reply wait to be sent (back-pressure).
#![tactic(auto)]

mod connection;
mod laws;
mod main_loop;
mod options;
mod reason;
mod request;
mod schedule;
mod server_loop;
mod transport;
mod turn;

pub use connection::{Connection, NextAction, find, first_line, remove_all};
pub use laws::{
    actions_are_of_connections, actions_are_of_their_turn, bytes_are_served, closings_are_reported,
    connections_are_bounded, files_are_fed, finished_are_closed, lines_get_one_reply,
    no_end_is_reported, nothing_is_lost, only_idle_connections_time_out, only_ready_are_attended,
    peers_fail, ready_are_attended, ready_are_served, rejected_are_refused, replies_are_counted,
    replies_are_current, same_connections, time_is_counted, traces_are_joined, traces_are_runs,
    turns_are_fair, turns_are_timely, turns_begin_by_waiting, waits_are_for_peers,
};
pub use main_loop::{catch_up, serve, serve_turn};
pub use options::{FilePiece, ServeOptions};
pub use reason::{CloseReason, reason_of};
pub use schedule::Schedule;
pub use server_loop::ServerLoop;
pub use transport::{ReadOutcome, Transport, WriteOutcome};
pub use turn::{attend, turn as take_turn};
