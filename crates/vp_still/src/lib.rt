//! Still pictures: the picture of a packet as a WebP file, and the pictures of IVF and WebP files.
#![tactic(auto)]

mod fault;
mod finding;
mod found;
mod ivf;
mod laws;
mod ppm;
mod raw;
mod still;
mod webp;

pub use fault::{FindFault, StillFault};
pub use finding::find;
pub use found::{Found, ShownPacket};
pub use ivf::find_in_ivf;
pub use laws::{
    encoded_files_show_their_distance, kept_files_show_the_picture, stills_show_their_pictures,
};
pub use ppm::ppm_still;
pub use raw::{i420_still, y4m_still};
pub use still::{Coding, Still, webp_of, webp_still};
pub use webp::find_in_webp;
