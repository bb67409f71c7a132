//! The frame that the encoder writes as a packet.

use vp_base::Grid;
use vp_choose::Choice;
use vp_head::Header;

/// A frame to be written: its header and its macroblocks. The motion of an intra macroblock is not written.
#[derive(Drop)]
pub struct CodedFrame {
    /// The frame header.
    pub header: Header,
    /// The choice for each macroblock.
    pub macroblocks: Grid<Choice>,
}
