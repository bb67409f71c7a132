//! A cache of the most recently used pictures of streams.
#![tactic(auto)]

mod cache;
mod cached_picture;
mod cursors;
mod laws;

pub use cache::Cache;
pub use cached_picture::CachedPicture;
pub use cursors::Cursors;
pub use laws::{
    cursors_save_packets, feeding_keeps_answers, growing_keeps_cursors, growing_keeps_entries,
    nearest_cursor_goes_on, used_cursor_comes_first,
};
