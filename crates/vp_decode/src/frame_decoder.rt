//! Rebuilds and filters a frame's picture, row by row of macroblocks.

ghost use Rattle.std.specs.Prelude.{◌≡◌, ℕ, ◌+◌, ◌<◌, ◌≤◌, IfOk, IfSome, None, [], length, map, slice_index_or, take};
ghost use Rattle.vp_base.specs.Grid.{Grid, Has, all};
ghost use Rattle.vp_bool.specs.Bools.{initial_state};
ghost use Rattle.vp_loop.specs.Filtered.{row_filtered, level_in};
ghost use Rattle.vp_tokens.specs.Blocks.{Blocks, no_blocks_read};
ghost use Rattle.vp_tokens.specs.Contexts.{AreContextsAt};
ghost use Rattle.vp_decode.specs.MacroblockMaps.{place};
ghost use Rattle.vp_decode.specs.Frame.{frame_of, picture_of};
ghost use Rattle.vp_decode.specs.FrameDecoder.{IsMacroblockAt, IsMacroblockStep, IsRow, IsSameFrame};
ghost use Rattle.vp_decode.specs.RebuiltFrame.{IsRebuiltFrame};
ghost use Rattle.vp_decode.specs.RowBands.{IsShaped};
ghost use Rattle.vp_decode.specs.Step.{frame_info_of, frame_of_packet};
ghost use Rattle.vp_decode.specs.Corrupt.{any_past, tokens_after};

use crate::frame_buffers::FrameBuffers;
use crate::frame_info::{FrameInfo, MacroblockInfo};
use crate::laws::unfiltered_picture_is_the_one_solution;
use crate::parsed_packet::ParsedPacket;
use crate::rebuilt_frame::filter_rebuilt;
use std::alloc::{AllocError, Global};
use std::marker::Model;
use std::mem;
use vp_base::{Grid, Picture, Place};
use vp_bool::BoolDecoder;
use vp_loop::{Level, RowFilter};
use vp_recon::{
    predict_macroblock, rebuild_macroblock_by, rebuilding_keeps_rows_above, rebuilding_keeps_shape,
    rebuilding_reads_one_row_above, unfiltered_picture_solves_its_equation,
};
use vp_tokens::{Contexts, Partitions, Tokens, read_macroblock, skip_macroblock};

/// A frame's picture while its rows are rebuilt and filtered, with the token contexts and the filter levels. Made by
/// `decode_picture`, and gone with it.
#[derive(Drop)]
pub(crate) struct FrameDecoder<'a> {
    info: &'a FrameInfo<'a>,
    contexts: Contexts,
    picture: Picture,
    levels: Grid<Level>,
    /// The memory for a macroblock's tokens. It is lent: it doesn't move with the frame.
    tokens: &'a mut Tokens,
}

impl<'a> Model for FrameDecoder<'a> {
    ghost use Rattle.vp_decode.specs.FrameDecoder.{FrameDecoder, IsOneFrame};

    ghost Value = { FrameDecoder };

    ghost view = { λ b. record { info = b.info.now; contexts = b.contexts; picture = b.picture; levels = b.levels } };

    ghost invariant = { λ b. IsOneFrame (record {
      info = b.info.now;
      contexts = b.contexts;
      picture = b.picture;
      levels = b.levels;
    }) };
}

impl<'a> FrameDecoder<'a> {
    /// Decodes the macroblock at a place: reads its tokens unless it is skipped, rebuilds it, and looks up its limits of
    /// the loop filter. Inlined, so that the compiler sees where the predictor comes from.
    #[inline(always)]
    fn decode_macroblock(&mut self, macroblock: &MacroblockInfo, place: Place, d: &mut BoolDecoder)
        requires place { Has self.old.info.maps.modes place }
        requires macroblock { IsMacroblockAt self.old.info place macroblock.now }
        ensures same { IsSameFrame self.old self.new }
        ensures step { (g : Grid Blocks) → Has g place → AreContextsAt g place self.old.contexts
            → IsMacroblockStep self.old.info place g d.old d.new self.old self.new }
    {
        let info = self.info;
        let modes = macroblock.modes;
        let predictor = &macroblock.predictor;
        let has_y2 = predictor.has_y2();
        let coded = if modes.skip && !predictor.is_by_subblocks() {
            // There are no tokens to clear, and no residue to add to the prediction.
            skip_macroblock(&mut self.contexts, place, has_y2);
            predict_macroblock(&mut self.picture, place, predictor);
            false
        } else {
            let header = info.header();
            read_macroblock(
                &header.probabilities.coefficients,
                &mut self.contexts,
                place,
                has_y2,
                modes.skip,
                self.tokens,
                d,
            );
            // A copy is lent, so that the predictor itself stays in registers.
            let lent = *predictor;
            rebuild_macroblock_by(
                &mut self.picture,
                place,
                &lent,
                self.tokens,
                info.factors(macroblock),
            );
            self.tokens.any()
        };
        self.levels.set(place, info.level(macroblock, coded));
    }

    /// Decodes a row of macroblocks.
    fn decode_row(&mut self, row: usize, d: &mut BoolDecoder)
        requires { row < self.old.info.maps.modes.rows }
        ensures same { IsSameFrame self.old self.new }
        ensures row { (g : Grid Blocks) → g.columns ≡ self.old.info.maps.modes.columns → row < g.rows
            → AreContextsAt g (place row 0) self.old.contexts
            → IsRow self.old.info row self.old.info.maps.modes.columns g d.old d.new self.old self.new }
    {
        let info = self.info;
        let macroblocks = info.row(row);
        for column in 0..info.columns() {
            let place = Place { column, row };
            let macroblock = info.macroblock(macroblocks, place);
            self.decode_macroblock(&macroblock, place, d);
        }
    }

    /// Filters the row above `row`, if there is one.
    fn filter_row_above<F: RowFilter>(&mut self, row: usize, filter: &mut F)
        requires { row ≤ self.old.info.maps.modes.rows }
        ensures same { IsSameFrame self.old self.new }
        ensures contexts { self.new.contexts ≡ self.old.contexts }
        ensures levels { self.new.levels ≡ self.old.levels }
        ensures none { row ≡ 0 → self.new.picture ≡ self.old.picture }
        ensures one { (k : ℕ) → row ≡ k + 1 → self.new.picture
            ≡ row_filtered (level_in self.old.levels.entries self.old.levels.columns) k self.old.picture }
    {
        if row > 0 {
            filter.row(&mut self.picture, self.levels.as_slice(), row - 1);
        }
    }

    /// Decodes all rows. Each row is filtered once the row below it is rebuilt. The decoders are left after the tokens
    /// of all rows.
    fn decode_rows<F: RowFilter>(&mut self, decoders: &mut [BoolDecoder], filter: &mut F)
        requires some { 0 < length decoders.old }
        requires contexts { AreContextsAt
            (all self.old.info.maps.modes.columns self.old.info.maps.modes.rows no_blocks_read)
            (place 0 0) self.old.contexts }
        requires shaped { IsShaped self.old.picture.width self.old.picture.height self.old.picture }
        ensures picture { self.new.picture ≡ picture_of
            (frame_of self.old.info decoders.old self.old.picture.width self.old.picture.height) }
        ensures rests { decoders.new ≡ tokens_after self.old.info decoders.old }
    {
        rebuilding_keeps_shape();
        rebuilding_keeps_rows_above();
        rebuilding_reads_one_row_above();
        unfiltered_picture_solves_its_equation();
        unfiltered_picture_is_the_one_solution();
        let rows = self.info.rows();
        for row in 0..rows {
            let at = row % decoders.len();
            let decoder = &mut decoders[at];
            self.decode_row(row, decoder);
            self.filter_row_above(row, filter);
        }
        self.filter_row_above(rows, filter);
    }
}

/// Returns whether any of these decoders is past the end of its partition.
fn any_past_end(decoders: &[BoolDecoder]) -> bool
    ensures { result ≡ any_past decoders.now }
{
    decoders.iter().any(|decoder| decoder.is_past_end())
}

/// Returns a decoder of token partition `i`, or of no bytes if there is none.
fn decoder_of<'a>(parts: &Partitions<'a>, i: usize) -> BoolDecoder<'a>
    ensures { result ≡ initial_state (slice_index_or parts.now i []) }
{
    if i < parts.count() {
        BoolDecoder::new(parts.part(i))
    } else {
        BoolDecoder::new(&[])
    }
}

/// Returns a decoder of each token partition, followed by decoders of no bytes.
fn decoders_of<'a>(parts: &Partitions<'a>) -> [BoolDecoder<'a>; 8]
    requires { length parts.now ≤ 8 }
    ensures { take (length parts.now) result ≡ map initial_state parts.now }
{
    [
        decoder_of(parts, 0),
        decoder_of(parts, 1),
        decoder_of(parts, 2),
        decoder_of(parts, 3),
        decoder_of(parts, 4),
        decoder_of(parts, 5),
        decoder_of(parts, 6),
        decoder_of(parts, 7),
    ]
}

/// Decodes the picture of a parsed packet from its 1 to 8 token partitions. Also returns whether one is read past its
/// end. If the picture before the loop filter is given, it is only filtered, and nothing is read. Uses the memory of
/// `buffers`. It is not inlined: its own memory then is not part of the stack while the header is read.
#[inline(never)]
pub(crate) fn decode_picture<F: RowFilter>(
    alloc: Global,
    buffers: &mut FrameBuffers,
    parsed: &ParsedPacket,
    info: &FrameInfo,
    filter: &mut F,
    rebuilt: Option<Picture>,
) -> Result<(Picture, bool), AllocError>
    requires info { info.now ≡ frame_info_of parsed.now }
    requires rebuilt { IfSome rebuilt (IsRebuiltFrame parsed.now) }
    ensures picture { IfOk result (λ r. r.0 ≡ picture_of (frame_of_packet parsed.now)) }
    ensures past { rebuilt ≡ None → IfOk result (λ r. r.1
        ≡ any_past (tokens_after (frame_info_of parsed.now) (map initial_state parsed.now.partitions))) }
{
    // A law, no work: each pixel is its prediction and its residue, whatever the order of macroblocks.
    unfiltered_picture_solves_its_equation();
    let opened = &parsed.opened;
    if let Some(rebuilt) = rebuilt {
        let picture = filter_rebuilt(alloc, buffers, info, rebuilt, filter)?;
        return Ok((picture, false));
    }
    let columns = info.columns();
    let picture = buffers.picture(alloc, opened.context.dim)?;
    let contexts = mem::replace(&mut buffers.contexts, Contexts::empty(alloc)).refill(columns)?;
    let levels = buffers.levels(alloc, columns, info.rows())?;
    let mut frame = FrameDecoder {
        info,
        contexts,
        picture,
        levels,
        tokens: &mut Tokens::NONE,
    };
    let partitions = &parsed.partitions;
    let decoders = &mut decoders_of(partitions)[..partitions.count()];
    frame.decode_rows(decoders, filter);
    let past = any_past_end(decoders);
    buffers.contexts = frame.contexts;
    buffers.levels = frame.levels;
    Ok((frame.picture, past))
}
