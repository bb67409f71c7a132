//! Checks IVF files for damage: decodes each packet, and tells its outcome and whether it is read past its end.
#![tactic(auto)]

mod checked;
mod checking;
mod laws;
mod packet_checker;

pub use checked::{CheckList, Checked, CheckedPacket};
pub use checking::check;
pub use laws::outcomes_are_those_of_decoding;
