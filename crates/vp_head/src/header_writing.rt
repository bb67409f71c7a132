//! Writing the frame header.

ghost use Rattle.std.specs.Prelude.{OnOk};
ghost use Rattle.vp_bool.specs.Writing.{Writes};
ghost use Rattle.vp_head.specs.Saved.{kept_after};
ghost use Rattle.vp_head.specs.Header.{frame, frame_and_kept, header};
ghost use Rattle.vp_head.specs.Spelled.{IsWritableHeader, kept_before, IsWritableInPacket};

use crate::fields::{Header, Saved, Tag};
use crate::header::defaults;
use crate::probability_writing::{
    write_chroma_if, write_coefficients, write_luma_if, write_vectors_if,
};
use crate::row_writing::{
    write_filter, write_flag_if, write_level_deltas, write_quantiser_indices,
    write_reference_probabilities_if, write_refreshes, write_segmentation, write_skip,
};
use crate::rows::Refreshes;
use std::alloc::AllocError;
use vp_bool::BoolEncoder;

impl Header {
    /// Writes the frame header at the start of the first partition, coded against the saved state. A key frame starts
    /// from the defaults, whatever `saved` is.
    ///
    /// If out of memory, a part of the header may have been written.
    pub fn write(&self, saved: &Saved, tag: &Tag, e: &mut BoolEncoder) -> Result<(), AllocError>
        requires { IsWritableInPacket saved.now tag.now self.now }
        // What was written is read as this header, with the same saved state after it, whatever follows.
        ensures { OnOk result (Writes (header saved.now tag.now) e.old e.new
            (self.now, kept_after (kept_before saved.now tag.now) self.now)) }
    {
        if tag.key.is_some() {
            write_with_kept(true, defaults(), self, e)?;
        } else {
            write_with_kept(false, saved, self, e)?;
        }
        Ok(())
    }
}

/// Writes the header of a key frame or inter frame, coded against the saved state.
fn write_with_kept(
    key: bool,
    kept: &Saved,
    h: &Header,
    e: &mut BoolEncoder,
) -> Result<(), AllocError>
    requires { IsWritableHeader key kept.now h.now }
    ensures { OnOk result (Writes (frame_and_kept key kept.now) e.old e.new (h.now, kept_after kept.now h.now)) }
{
    write_frame(key, kept, h, e)?;
    Ok(())
}

/// Writes all syntax elements of the header, in order.
fn write_frame(key: bool, kept: &Saved, h: &Header, e: &mut BoolEncoder) -> Result<(), AllocError>
    requires { IsWritableHeader key kept.now h.now }
    ensures { OnOk result (Writes (frame key kept.now) e.old e.new h.now) }
{
    write_flag_if(key, h.color_space, e)?;
    write_flag_if(key, h.clamping_type, e)?;
    write_segmentation(&kept.segments, &h.segmentation, e)?;
    write_filter(&h.filter, e)?;
    write_level_deltas(&kept.deltas, h.deltas_enabled, &h.deltas, e)?;
    e.literal(h.log2_partitions, 2)?;
    write_quantiser_indices(&h.quantiser, e)?;
    let refreshes = Refreshes {
        updates: h.updates,
        biases: h.biases,
        entropy: h.refresh_entropy,
    };
    write_refreshes(key, &refreshes, e)?;
    let (old, new) = (&kept.probabilities, &h.probabilities);
    write_coefficients(&old.coefficients, &new.coefficients, e)?;
    write_skip(h.skip, e)?;
    write_reference_probabilities_if(!key, &h.references, e)?;
    write_luma_if(!key, &old.luma, &new.luma, e)?;
    write_chroma_if(!key, &old.chroma, &new.chroma, e)?;
    write_vectors_if(!key, &old.vectors, &new.vectors, e)?;
    Ok(())
}
