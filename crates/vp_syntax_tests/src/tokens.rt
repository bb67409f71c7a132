//! Tests of vp_tokens: partitions, tokens read and written, and contexts.

ghost use Rattle.std.specs.Prelude.{◌≡◌, ◌<◌, ◌≤◌, length};
ghost use Rattle.vp_tokens.specs.Spelled.{AreSpelled};

use crate::check::{equal, equal_bytes};
use std::alloc::{AllocError, Global};
use std::process::Abort;
use vp_base::Place;
use vp_bool::{BoolDecoder, BoolEncoder};
use vp_head::PacketFault;
use vp_tables::coefficient_probabilities;
use vp_tokens::{
    Block, Contexts, Partitions, Tokens, read_macroblock, skip_macroblock, write_macroblock,
};

#[test]
fn all_ones_partition(rt: HostRuntime) {
    let rt = &rt;
    let fault = Partitions::cut(&[], 8).err();
    let zeros = [0; 21];
    let partitions = Partitions::cut(&zeros, 8).expect(
        rt,
        "21 bytes of 0 are eight empty partitions",
    );
    equal!(rt; (fault, partitions.count()), (Some(PacketFault::PartitionTable), 8));
}

#[test]
fn packet_faults(rt: HostRuntime) {
    let mut table = [0; 21];
    table[0] = 1;
    equal!(&rt; Partitions::cut(&table, 8).err(), Some(PacketFault::Partition(0)));
}

/// Allocates contexts for this number of columns.
fn new_contexts(rt: &impl Abort, alloc: Global, columns: usize) -> Contexts
    ensures { length result.above ≡ columns }
{
    Contexts::new(alloc, columns).expect(rt, "memory")
}

/// Reads the first macroblock's tokens from a partition of ones.
fn tokens_of_ones(contexts: &mut Contexts, has_y2: bool, skipped: bool) -> Tokens
    requires { 0 < length contexts.old.above }
    ensures { length contexts.new.above ≡ length contexts.old.above }
{
    let mut tokens = Tokens::NONE;
    let mut d = BoolDecoder::new(&[255]);
    read_macroblock(
        coefficient_probabilities(),
        contexts,
        Place { column: 0, row: 0 },
        has_y2,
        skipped,
        &mut tokens,
        &mut d,
    );
    tokens
}

/// Reads them with new contexts.
fn first_tokens_of_ones(rt: &impl Abort, alloc: Global, has_y2: bool, skipped: bool) -> Tokens {
    let mut contexts = new_contexts(rt, alloc, 1);
    tokens_of_ones(&mut contexts, has_y2, skipped)
}

const ONES: Block = Block {
    levels: [-2114; 16],
    end: 16,
};

/// Returns the first block that isn't the one that bools of 1 give, and its place.
fn first_other(blocks: &[Block]) -> Option<(usize, Block)> {
    for (i, block) in blocks.iter().enumerate() {
        if *block != ONES {
            return Some((i, *block));
        }
    }
    None
}

#[test]
fn all_ones_tokens(rt: HostRuntime) {
    let tokens = first_tokens_of_ones(&rt, rt.alloc(), false, false);
    let found = (
        tokens.any(),
        tokens.blocks[0],
        first_other(&tokens.blocks[1..]),
    );
    equal!(&rt; found, (true, Block::NONE, None));
}

#[test]
fn skipped_has_no_tokens(rt: HostRuntime) {
    let tokens = first_tokens_of_ones(&rt, rt.alloc(), true, true);
    equal!(&rt; (tokens.any(), tokens), (false, Tokens::NONE));
}

/// Writes a macroblock of empty blocks that isn't skipped. Its bytes depend on which blocks above have tokens.
fn bytes_below(rt: &impl Abort, alloc: Global, contexts: &mut Contexts) -> Vec<u8>
    requires { 0 < length contexts.old.above }
{
    let mut e = BoolEncoder::new(alloc);
    write_macroblock(
        coefficient_probabilities(),
        contexts,
        Place { column: 0, row: 3 },
        true,
        false,
        &Tokens::NONE,
        &mut e,
    )
    .expect(rt, "memory");
    e.finish().expect(rt, "memory")
}

/// Writes a macroblock whose Y2 block alone has tokens.
fn put_y2(rt: &impl Abort, alloc: Global, contexts: &mut Contexts)
    requires { 0 < length contexts.old.above }
    ensures { length contexts.new.above ≡ length contexts.old.above }
{
    let mut tokens = Tokens::NONE;
    tokens.blocks[0] = Block::of_levels(&[1, 0, 0, 0, 0, 0, 0, 0, 0, 0, 0, 0, 0, 0, 0, 0]);
    write_macroblock(
        coefficient_probabilities(),
        contexts,
        Place { column: 0, row: 2 },
        true,
        false,
        &tokens,
        &mut BoolEncoder::new(alloc),
    )
    .expect(rt, "memory")
}

/// Writes an empty macroblock below one whose Y2 block alone has tokens.
fn bytes_below_y2(rt: &impl Abort, alloc: Global) -> Vec<u8> {
    let mut contexts = new_contexts(rt, alloc, 1);
    put_y2(rt, alloc, &mut contexts);
    bytes_below(rt, alloc, &mut contexts)
}

/// Writes an empty macroblock below a skipped one, which is below one whose blocks all have tokens.
fn bytes_below_skipped(rt: &impl Abort, alloc: Global, has_y2: bool) -> Vec<u8> {
    let mut contexts = new_contexts(rt, alloc, 1);
    let _known = tokens_of_ones(&mut contexts, true, false);
    skip_macroblock(&mut contexts, Place { column: 0, row: 1 }, has_y2);
    bytes_below(rt, alloc, &mut contexts)
}

/// Checks what is written below skipped macroblocks. `none` is written where no block above has tokens.
fn check_skipped(rt: &impl Abort, alloc: Global, none: &[u8]) {
    let y2_alone = bytes_below_y2(rt, alloc);
    equal!(rt; (none, y2_alone.as_slice() != none), (none, true));
    equal_bytes!(rt; bytes_below_skipped(rt, alloc, false), &y2_alone);
    equal_bytes!(rt; bytes_below_skipped(rt, alloc, true), none);
}

// The RFC's rule, worked by hand: after a skipped macroblock its blocks count as empty. If it has no Y2 block, the Y2
// context of the macroblock above it, or to its left, is unchanged.
#[test]
fn skipped_leaves_y2(rt: HostRuntime) {
    let alloc = rt.alloc();
    let rt = &rt;
    check_skipped(
        rt,
        alloc,
        &bytes_below(rt, alloc, &mut new_contexts(rt, alloc, 1)),
    );
}

// The token partition of a row of three macroblocks from another encoder's stream; a third program read the expected
// values. The probabilities that the stream changes are not used in this row.
const ROW: [u8; 12] = [183, 180, 245, 129, 148, 100, 0, 0, 108, 1, 80, 0];

/// Returns the first levels of a block, and the number of its tokens.
fn start(block: &Block, count: usize) -> (&[i16], u8)
    requires { count ≤ 16 }
{
    (&block.levels[..count], block.end)
}

fn level(block: &Block, position: usize) -> i16
    requires { position < 16 }
{
    block.levels[position]
}

fn check_first(rt: &impl Abort, blocks: &[Block; 25]) {
    equal!(rt; (blocks[1], level(&blocks[3], 2)), (Block::NONE, 1));
    let starts = [start(&blocks[2], 1), start(&blocks[7], 4)];
    equal!(rt; starts, [([-1].as_slice(), 1), ([2, 0, -1, 0].as_slice(), 3)]);
}

fn check_second(rt: &impl Abort, blocks: &[Block; 25]) {
    equal!(rt; blocks[9], Block::NONE);
    equal!(rt; start(&blocks[10], 6), ([0, 0, 0, 0, 1, 0].as_slice(), 16));
}

fn check_third(rt: &impl Abort, blocks: &[Block; 25]) {
    let last = &blocks[14];
    equal!(rt; (blocks[0], level(last, 10), last.end), (Block::NONE, 1, 11));
}

/// Reads the tokens of a macroblock of the row; it isn't skipped.
fn next_of_row(contexts: &mut Contexts, column: usize, has_y2: bool, d: &mut BoolDecoder) -> Tokens
    requires { column < length contexts.old.above }
    ensures columns { length contexts.new.above ≡ length contexts.old.above }
    ensures spelled { AreSpelled has_y2 result.blocks }
{
    let place = Place { column, row: 0 };
    let mut tokens = Tokens { blocks: [ONES; 25] };
    read_macroblock(
        coefficient_probabilities(),
        contexts,
        place,
        has_y2,
        false,
        &mut tokens,
        d,
    );
    tokens
}

fn check_row(rt: &impl Abort, contexts: &mut Contexts)
    requires { length contexts.old.above ≡ 3 }
{
    let mut d = BoolDecoder::new(&ROW);
    let first = next_of_row(contexts, 0, false, &mut d);
    check_first(rt, &first.blocks);
    let second = next_of_row(contexts, 1, false, &mut d);
    check_second(rt, &second.blocks);
    let third = next_of_row(contexts, 2, true, &mut d);
    check_third(rt, &third.blocks);
}

#[test]
fn row_of_a_stream(rt: HostRuntime) {
    let alloc = rt.alloc();
    let rt = &rt;
    check_row(rt, &mut new_contexts(rt, alloc, 3));
}

/// Reads a macroblock of the row, and writes it again.
fn copy_next(
    read: &mut Contexts,
    written: &mut Contexts,
    column: usize,
    has_y2: bool,
    d: &mut BoolDecoder,
    e: &mut BoolEncoder,
) -> Result<(), AllocError>
    requires read { column < length read.old.above }
    requires written { column < length written.old.above }
    ensures read { length read.new.above ≡ length read.old.above }
    ensures written { length written.new.above ≡ length written.old.above }
{
    let tokens = next_of_row(read, column, has_y2, d);
    let place = Place { column, row: 0 };
    write_macroblock(
        coefficient_probabilities(),
        written,
        place,
        has_y2,
        false,
        &tokens,
        e,
    )
}

/// Reads the macroblocks of the row, and writes them again.
fn copy_row(rt: &impl Abort, read: &mut Contexts, written: &mut Contexts, e: &mut BoolEncoder)
    requires read { length read.old.above ≡ 3 }
    requires written { length written.old.above ≡ 3 }
{
    let mut d = BoolDecoder::new(&ROW);
    copy_next(read, written, 0, false, &mut d, e).expect(rt, "memory");
    copy_next(read, written, 1, false, &mut d, e).expect(rt, "memory");
    copy_next(read, written, 2, true, &mut d, e).expect(rt, "memory")
}

/// Returns the row as it is written again.
fn copied_row(rt: &impl Abort, alloc: Global) -> Vec<u8> {
    let mut read = new_contexts(rt, alloc, 3);
    let mut written = new_contexts(rt, alloc, 3);
    let mut e = BoolEncoder::new(alloc);
    copy_row(rt, &mut read, &mut written, &mut e);
    e.finish().expect(rt, "memory")
}

// The row is written exactly as the other encoder wrote it.
#[test]
fn writes_row_of_a_stream(rt: HostRuntime) {
    equal_bytes!(&rt; copied_row(&rt, rt.alloc()), &ROW);
}

#[test]
fn puts_empty_parts(rt: HostRuntime) {
    let a = rt.alloc();
    let parts = [
        Vec::new(a),
        Vec::new(a),
        Vec::new(a),
        Vec::new(a),
        Vec::new(a),
        Vec::new(a),
        Vec::new(a),
        Vec::new(a),
    ];
    equal_bytes!(&rt; Partitions::put(a, &parts).expect(&rt, "memory"), &[0; 21]);
}

#[test]
fn tokens_end_with_the_last_level(rt: HostRuntime) {
    let block = Block::of_levels(&[0, -3, 0, 2114, 0, 0, 0, 0, 0, 0, 0, 0, 0, 0, 0, 0]);
    let tokens = Tokens::of_levels(&[[-2114; 16]; 25]);
    equal!(&rt; (block.end, first_other(&tokens.blocks)), (4, None));
}
