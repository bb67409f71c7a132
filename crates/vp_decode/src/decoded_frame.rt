//! Decodes one frame, without changing the decoder's state yet.

ghost use Rattle.std.specs.Prelude.{◌≡◌, IfOk, IfSome, None, option_map};
ghost use Rattle.vp_modes.specs.Map.{segments_of};
ghost use Rattle.vp_decode.specs.Corrupt.{first_after, is_corrupt};
ghost use Rattle.vp_decode.specs.Equation.{IsOneSize};
ghost use Rattle.vp_decode.specs.Frame.{picture_of};
ghost use Rattle.vp_decode.specs.RebuiltFrame.{IsRebuiltFrame};
ghost use Rattle.vp_decode.specs.Step.{frame_info_of, frame_of_packet, shown_after, state_after};

use crate::frame_buffers::FrameBuffers;
use crate::frame_decoder::decode_picture;
use crate::frame_info::{FrameInfo, all_factors};
use crate::macroblock_reader::MacroblockReader;
use crate::macroblocks::Macroblocks;
use crate::parsed_packet::ParsedPacket;
use std::alloc::{AllocError, Global};
use std::mem;
use std::rc::Rc;
use vp_base::{Grid, Picture};
use vp_loop::RowFilter;
use vp_modes::Segment;
use vp_recon::unfiltered_picture_solves_its_equation;

/// A decoded frame that is not yet part of the decoder's state: what it adds to a parsed packet. Made by
/// `decode_frame`; `keep` moves it into the decoder's state.
#[derive(Drop)]
pub(crate) struct DecodedFrame {
    pub segments: Grid<Segment>,
    pub picture: Rc<Picture>,
    /// The last shown picture: this frame's if it is shown, else an earlier one.
    pub shown: Option<Rc<Picture>>,
    /// Whether a partition was read past its end. If the tokens were not read, only the first partition counts.
    pub corrupt: bool,
}

/// Returns the last shown picture: this one if `show` is set, else the one before it.
fn shown_after(
    show: bool,
    picture: &Rc<Picture>,
    before: Option<&Rc<Picture>>,
) -> Result<Option<Rc<Picture>>, AllocError>
    ensures { IfOk result (λ r. option_map (λ p. p.value) r ≡ shown_after show picture.now.value
        (option_map (λ p. p.now.value) before.entry)) }
{
    if show {
        return Ok(Some(picture.clone()?));
    }
    match before {
        Some(picture) => Ok(Some(picture.clone()?)),
        None => Ok(None),
    }
}

/// Reads the modes and the motion of a frame's macroblocks, reusing the memory of `buffers`. Also returns whether the
/// first partition is past its end after them.
fn read_macroblocks(
    alloc: Global,
    buffers: &mut FrameBuffers,
    parsed: &ParsedPacket,
) -> Result<(Macroblocks, bool), AllocError>
    ensures maps { IfOk result (λ r. r.0 ≡ (frame_info_of parsed.now).maps) }
    ensures past { IfOk result (λ r. r.1 ≡ (first_after parsed.now).past) }
{
    let buffer = mem::replace(&mut buffers.macroblocks, Vec::new(alloc));
    let opened = &parsed.opened;
    let mut first = opened.first.copy();
    let reader = MacroblockReader::new(&opened.context, buffer)?;
    let macroblocks = reader.read(parsed.header, &mut first);
    Ok((macroblocks, first.is_past_end()))
}

/// Returns the packet's frame, with this picture. It is the last shown picture too if the tag says so, else the one
/// before it is. `corrupt` says whether a partition was read past its end.
fn frame_of_picture(
    alloc: Global,
    parsed: &ParsedPacket,
    segments: Grid<Segment>,
    picture: Picture,
    corrupt: bool,
) -> Result<DecodedFrame, AllocError>
    ensures segments { IfOk result (λ f. f.segments ≡ segments) }
    ensures picture { IfOk result (λ f. f.picture.value ≡ picture) }
    ensures shown { IfOk result (λ f. option_map (λ p. p.value) f.shown
        ≡ shown_after parsed.now.tag.show picture parsed.now.context.shown) }
    ensures corrupt { IfOk result (λ f. f.corrupt ≡ corrupt) }
{
    let picture = Rc::new(alloc, picture)?;
    let opened = &parsed.opened;
    let shown = shown_after(opened.tag.show, &picture, opened.context.shown)?;
    Ok(DecodedFrame {
        segments,
        picture,
        shown,
        corrupt,
    })
}

/// Decodes the frame of a parsed packet, reusing the memory of `buffers`. If the picture before the loop filter is
/// given, it is only filtered. Fails only if memory runs out.
pub(crate) fn decode_frame<F: RowFilter>(
    alloc: Global,
    buffers: &mut FrameBuffers,
    parsed: &ParsedPacket,
    filter: &mut F,
    rebuilt: Option<Picture>,
) -> Result<DecodedFrame, AllocError>
    requires { IfSome rebuilt (IsRebuiltFrame parsed.now) }
    ensures segments { IfOk result (λ f. f.segments ≡ segments_of (frame_info_of parsed.now).maps.modes) }
    ensures picture { IfOk result (λ f. f.picture.value ≡ picture_of (frame_of_packet parsed.now)) }
    ensures shown { IfOk result (λ f. option_map (λ p. p.value) f.shown
        ≡ shown_after parsed.now.tag.show (picture_of (frame_of_packet parsed.now)) parsed.now.context.shown) }
    ensures one_size { IfOk result (λ _. IsOneSize (state_after parsed.now)) }
    ensures corrupt { rebuilt ≡ None → IfOk result (λ f. f.corrupt ≡ is_corrupt parsed.now) }
{
    // A law, no work: each pixel is its prediction and its residue, whatever the order of macroblocks.
    unfiltered_picture_solves_its_equation();
    let (macroblocks, past) = read_macroblocks(alloc, buffers, parsed)?;
    let buffer = mem::replace(&mut buffers.segments, Grid::empty(alloc));
    let segments = macroblocks.segments_in(buffer)?;
    let factors = all_factors(parsed.header);
    let info = FrameInfo::of(parsed, &macroblocks, &factors);
    let (picture, tokens_past) = decode_picture(alloc, buffers, parsed, &info, filter, rebuilt)?;
    buffers.macroblocks = macroblocks.into_list();
    let corrupt = past | tokens_past;
    frame_of_picture(alloc, parsed, segments, picture, corrupt)
}
