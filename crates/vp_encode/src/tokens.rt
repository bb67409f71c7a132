//! Writes the token partitions of a frame.

ghost use Rattle.std.specs.Prelude.{◌≡◌, ◌<◌, ◌≤◌, ℕ, length, map, slice_index_or, OnOk, IfOk};
ghost use Rattle.vp_base.specs.Grid.{Grid};
ghost use Rattle.vp_bool.specs.Intervals.{whole_interval};
ghost use Rattle.vp_tokens.specs.Blocks.{Blocks};
ghost use Rattle.vp_tokens.specs.Contexts.{AreContextsAt};
ghost use Rattle.vp_tokens.specs.Partitions.{lists};
ghost use Rattle.vp_decode.specs.MacroblockMaps.{place};
ghost use Rattle.vp_decode.specs.Frame.{FrameInfo};
ghost use Rattle.vp_encode.specs.CodedFrame.{AreTokensSpelled, IsInterPlain};
ghost use Rattle.vp_encode.specs.FrameChoices.{IsMotionOf};
ghost use Rattle.vp_encode.specs.Written.{IsPlanOf, IsTokenRow, AreTokenRows, none_seen, finished, AreTokenPartitions};

use crate::coded_frame::CodedFrame;
use std::alloc::{AllocError, Global};
use vp_base::Place;
use vp_bool::BoolEncoder;
use vp_decode::partition_count;
use vp_motion::VectorMap;
use vp_recon::has_y2;
use vp_tokens::{Contexts, write_macroblock};

/// Writes the tokens of a row of macroblocks into the row's partition.
fn write_token_row(
    coded: &CodedFrame,
    motion: &VectorMap,
    row: usize,
    contexts: &mut Contexts,
    e: &mut BoolEncoder,
) -> Result<(), AllocError>
    requires row { row < coded.now.macroblocks.rows }
    requires columns { length contexts.old.above ≡ coded.now.macroblocks.columns }
    requires motion { IsMotionOf coded.now.macroblocks motion.now }
    requires plain { IsInterPlain coded.now }
    requires spelled { AreTokensSpelled coded.now }
    ensures row { OnOk result ((f : FrameInfo) (g : Grid Blocks) → IsPlanOf coded.now f
        → g.columns ≡ coded.now.macroblocks.columns → g.rows ≡ coded.now.macroblocks.rows
        → AreContextsAt g (place row 0) contexts.old
        → IsTokenRow f coded.now row coded.now.macroblocks.columns g contexts.new e.old e.new) }
    ensures columns { length contexts.new.above ≡ length contexts.old.above }
{
    for column in 0..coded.macroblocks.columns() {
        let place = Place { column, row };
        let macroblock = coded.macroblocks.get(place);
        let modes = &macroblock.modes;
        write_macroblock(
            &coded.header.probabilities.coefficients,
            contexts,
            place,
            has_y2(modes.luma, motion.get(place).mode),
            modes.skip,
            &macroblock.tokens,
            e,
        )?;
    }
    Ok(())
}

/// Writes the tokens of all rows. Row r goes into partition r modulo the number of partitions (RFC 6386, chapter 9.5).
fn write_token_rows(
    coded: &CodedFrame,
    motion: &VectorMap,
    contexts: &mut Contexts,
    encoders: &mut [BoolEncoder],
) -> Result<(), AllocError>
    requires some { 0 < length encoders.old }
    requires columns { length contexts.old.above ≡ coded.now.macroblocks.columns }
    requires stands { (rows : ℕ) → AreContextsAt (none_seen coded.now.macroblocks.columns rows)
        (place 0 0) contexts.old }
    requires empty { (i : ℕ) → i < length encoders.old → slice_index_or encoders.old i whole_interval ≡ whole_interval }
    requires motion { IsMotionOf coded.now.macroblocks motion.now }
    requires plain { IsInterPlain coded.now }
    requires spelled { AreTokensSpelled coded.now }
    ensures { OnOk result ((f : FrameInfo) → IsPlanOf coded.now f
        → AreTokenRows f coded.now coded.now.macroblocks.rows contexts.new encoders.new) }
{
    for row in 0..coded.macroblocks.rows() {
        let at = row % encoders.len();
        let encoder = &mut encoders[at];
        write_token_row(coded, motion, row, contexts, encoder)?;
    }
    Ok(())
}

/// Creates `count` encoders.
fn new_encoders(alloc: Global, count: usize) -> Result<Vec<BoolEncoder>, AllocError>
    ensures count { IfOk result (λ v. length v.items ≡ count) }
    ensures empty { IfOk result (λ v. (i : ℕ) → i < count → slice_index_or v.items i whole_interval ≡ whole_interval) }
{
    let mut encoders = Vec::with_capacity(alloc, count)?;
    for _ in 0..count {
        encoders.push(BoolEncoder::new(alloc))?;
    }
    Ok(encoders)
}

/// Finishes a partition, and appends a byte of 0 for readers that look ahead.
pub(crate) fn finish(encoder: BoolEncoder) -> Result<Vec<u8>, AllocError>
    ensures { IfOk result (λ v. v.items ≡ finished encoder) }
{
    let mut bytes = encoder.finish()?;
    bytes.push(0)?;
    Ok(bytes)
}

/// Finishes all partitions.
fn finish_all(alloc: Global, encoders: Vec<BoolEncoder>) -> Result<Vec<Vec<u8>>, AllocError>
    ensures { IfOk result (λ v. lists v.items ≡ map finished encoders.items) }
{
    let mut parts = Vec::with_capacity(alloc, encoders.len())?;
    for encoder in encoders {
        let part = finish(encoder)?;
        parts.push(part)?;
    }
    Ok(parts)
}

/// Returns the token partitions of a frame with this motion, as many as its header says.
pub(crate) fn write_tokens(
    alloc: Global,
    coded: &CodedFrame,
    motion: &VectorMap,
) -> Result<Vec<Vec<u8>>, AllocError>
    requires few { coded.now.header.log2_partitions ≤ 3 }
    requires motion { IsMotionOf coded.now.macroblocks motion.now }
    requires plain { IsInterPlain coded.now }
    requires spelled { AreTokensSpelled coded.now }
    ensures parts { IfOk result (λ v. AreTokenPartitions coded.now (lists v.items)) }
    ensures some { IfOk result (λ v. 0 < length v.items) }
    ensures few { IfOk result (λ v. length v.items ≤ 8) }
{
    let mut contexts = Contexts::new(alloc, coded.macroblocks.columns())?;
    let mut encoders = new_encoders(alloc, partition_count(coded.header.log2_partitions))?;
    write_token_rows(coded, motion, &mut contexts, &mut encoders)?;
    let parts = finish_all(alloc, encoders)?;
    Ok(parts)
}
