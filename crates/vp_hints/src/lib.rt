//! What a person needs beside a fault's name: what kind of file was given, how far it was read, why the system refused.
#![tactic(auto)]

mod causes;
mod file_hints;
mod film;
mod kinds;
mod length_hints;
mod meter;
mod metered;
mod names;
mod numbers;
mod overwrite;
mod packet_hints;
mod packets;
mod pipes;
mod seen;
mod tally;
mod witness;
mod y4m_hints;

pub use causes::{Cause, hint_stream};
pub use file_hints::{hint_file, hint_not_ivf, hint_stream_file};
pub use film::{BitRate, Film, Ratio, decibels, plane_samples};
pub use kinds::{FileKind, kind_of};
pub use length_hints::hint_length;
pub use meter::{Meter, Unit};
pub use metered::Metered;
pub use names::{Printable, ShellWord};
pub use numbers::Grouped;
pub use overwrite::{Overwrite, create_to_overwrite, open_to_overwrite};
pub use packet_hints::{hint_packets, meaning_of};
pub use packets::{PacketCount, Place};
pub use pipes::{Muted, Outlet};
pub use seen::{Seen, head_fault};
pub use tally::Tally;
pub use witness::Witness;
pub use y4m_hints::{hint_not_y4m, hint_y4m_colour, hint_y4m_size};
