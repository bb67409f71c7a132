//! Tests of single frames: packets written from given choices, and encoded pictures.

ghost use Rattle.std.specs.Prelude.{◌≡◌, ◌≤◌, true, false, IsSome, IfOk};
ghost use Rattle.vp_base.specs.declared.place.Place.{Place};
ghost use Rattle.vp_base.specs.Grid.{Grid, at, all};
ghost use Rattle.vp_head.specs.declared.fields.Header.{Header};
ghost use Rattle.vp_head.specs.Reference.{is_intra};
ghost use Rattle.vp_head.specs.Saved.{defaults};
ghost use Rattle.vp_head.specs.Spelled.{IsWritableHeader};
ghost use Rattle.vp_tables.specs.Modes.{is_by_subblocks};
ghost use Rattle.vp_tables.specs.declared.modes.LumaMode.TheVariants.{Dc};
ghost use Rattle.vp_head.specs.declared.fields.Reference.TheVariants.{Intra};
ghost use Rattle.vp_modes.specs.Entry.{Modes, plain};
ghost use Rattle.vp_modes.specs.Map.{of_segments};
ghost use Rattle.vp_motion.specs.Vector.{Candidates};
ghost use Rattle.vp_motion.specs.Spelled.{CanBeWritten};
ghost use Rattle.vp_modes.specs.Spelled.{AreWritableModes as modes_spelled};
ghost use Rattle.vp_tokens.specs.Blocks.{no_blocks};
ghost use Rattle.vp_encode.specs.CodedFrame.{choice_has_y2, CanBeEncoded};

use crate::check::equal;
use crate::worked_rows::{
    FLAT, check_picture, check_shown, encoded_flat, flat, header_of, picture_of, settings,
};
use std::alloc::{AllocError, Global};
use std::process::Abort;
use vp_base::{ByteList, Dim, Grid, Limits, Picture, Place};
use vp_bool::BoolDecoder;
use vp_choose::Choice;
use vp_decode::{Decoder, Outcome};
use vp_encode::{
    CodedFrame, EncodeFault, Encoder, PacketError, Settings, SettingsFault, write_inter_packet,
    write_key_packet,
};
use vp_head::{
    Filter, Header, QuantiserIndices, Reference, ReferenceCopy, ReferenceProbabilities,
    ReferenceUpdates, Saved, Segmentation, Tag,
};
use vp_modes::{ModeMap, Modes, Segment, read_modes};
use vp_motion::{Motion, Vector};
use vp_tables::{ChromaMode, LumaMode, SubMode, VectorMode};
use vp_tokens::{Block, Tokens};

/// Returns a header relative to the defaults, with quantiser index 0 and without a loop filter.
fn header(key: bool, log2_partitions: u8) -> Header
    requires { log2_partitions ≤ 3 }
    ensures spelled { IsWritableHeader key defaults result }
    ensures skip { IsSome result.skip }
{
    let saved = Saved::defaults();
    let even = if key { 0 } else { 128 };
    Header {
        key,
        color_space: false,
        clamping_type: false,
        segmentation: Segmentation {
            enabled: false,
            update_map: false,
            values: saved.segments,
            tree_probabilities: [255; 3],
        },
        filter: Filter {
            simple: false,
            level: 0,
            sharpness: 0,
        },
        deltas_enabled: false,
        deltas: saved.deltas,
        log2_partitions,
        quantiser: QuantiserIndices {
            y_ac: 0,
            y_dc: 0,
            y2_dc: 0,
            y2_ac: 0,
            uv_dc: 0,
            uv_ac: 0,
        },
        updates: ReferenceUpdates {
            refresh_golden: key,
            refresh_alt: key,
            copy_to_golden: ReferenceCopy::Nothing,
            copy_to_alt: ReferenceCopy::Nothing,
            refresh_last: true,
        },
        biases: saved.biases,
        refresh_entropy: true,
        probabilities: saved.probabilities,
        skip: Some(128),
        references: ReferenceProbabilities {
            intra: even,
            last: even,
            golden: even,
        },
    }
}

/// Returns a skipped macroblock without levels and motion.
fn macroblock(reference: Reference, luma: LumaMode) -> Choice
    requires { is_by_subblocks luma ≡ false }
    ensures intra { reference ≡ Intra → (h : Header) (g : Grid Modes) (p : Place) → h.key ≡ true → IsSome h.skip
        → modes_spelled h g p result.modes }
    ensures inter { is_intra reference ≡ false → luma ≡ Dc → (h : Header) (g : Grid Modes) (p : Place) → h.key ≡ false
        → IsSome h.skip → (at plain g p).segment ≡ 0
        → modes_spelled h g p result.modes }
    ensures reference { result.modes.reference ≡ reference }
    ensures still { (c : Candidates) → CanBeWritten c result.motion }
    ensures y2 { choice_has_y2 result ≡ true }
    ensures none { result.tokens.blocks ≡ no_blocks }
{
    Choice {
        modes: Modes {
            segment: 0,
            skip: true,
            reference,
            luma,
            subs: [SubMode::Dc; 16],
            chroma: ChromaMode::Dc,
        },
        motion: Motion {
            mode: VectorMode::Zero,
            vectors: [Vector { row: 0, column: 0 }; 16],
        },
        tokens: Tokens {
            blocks: [Block::NONE; 25],
        },
    }
}

/// Returns a key frame of one column of `rows` skipped macroblocks with one luma mode.
fn column_of(
    alloc: Global,
    log2_partitions: u8,
    rows: usize,
    luma: LumaMode,
) -> Result<CodedFrame, AllocError>
    requires partitions { log2_partitions ≤ 3 }
    requires rows { rows ≤ 1024 }
    requires luma { is_by_subblocks luma ≡ false }
    ensures columns { IfOk result (λ c. c.macroblocks.columns ≡ 1) }
    ensures rows { IfOk result (λ c. c.macroblocks.rows ≡ rows) }
    ensures told { IfOk result (λ c. (before : Grid Modes) → CanBeEncoded true defaults before c) }
{
    let macroblocks = Grid::new(alloc, 1, rows, macroblock(Reference::Intra, luma))?;
    Ok(CodedFrame {
        header: header(true, log2_partitions),
        macroblocks,
    })
}

/// Returns an inter frame of one macroblock that is copied from the last frame.
fn still_frame(alloc: Global) -> Result<CodedFrame, AllocError>
    ensures columns { IfOk result (λ c. c.macroblocks.columns ≡ 1) }
    ensures rows { IfOk result (λ c. c.macroblocks.rows ≡ 1) }
    ensures told { IfOk result (λ c. CanBeEncoded false defaults (of_segments (all 1 1 0)) c) }
{
    let macroblocks = Grid::new(alloc, 1, 1, macroblock(Reference::Last, LumaMode::Dc))?;
    Ok(CodedFrame {
        header: header(false, 0),
        macroblocks,
    })
}

/// Returns a skipped macroblock whose subblock modes are LD and VR alternately, like the fields of a chessboard. No
/// other adjacent modes take more bools to code.
fn chessboard() -> Choice
    ensures spelled { (h : Header) (g : Grid Modes) (p : Place) → h.key ≡ true → IsSome h.skip
        → modes_spelled h g p result.modes }
    ensures reference { result.modes.reference ≡ Intra }
    ensures none { result.tokens.blocks ≡ no_blocks }
{
    let [a, b] = [SubMode::Ld, SubMode::Vr];
    Choice {
        modes: Modes {
            segment: 0,
            skip: true,
            reference: Reference::Intra,
            luma: LumaMode::B,
            subs: [a, b, a, b, b, a, b, a, a, b, a, b, b, a, b, a],
            chroma: ChromaMode::Dc,
        },
        motion: Motion {
            mode: VectorMode::Zero,
            vectors: [Vector { row: 0, column: 0 }; 16],
        },
        tokens: Tokens {
            blocks: [Block::NONE; 25],
        },
    }
}

/// Returns the key packet of a frame of this size in which all macroblocks are such.
fn chessboard_packet(alloc: Global, dim: Dim) -> Result<ByteList, PacketError> {
    let columns = usize::from(dim.mb_cols());
    let rows = usize::from(dim.mb_rows());
    let macroblocks = Grid::new(alloc, columns, rows, chessboard())?;
    let coded = CodedFrame {
        header: header(true, 0),
        macroblocks,
    };
    write_key_packet(alloc, dim, &coded)
}

/// Returns the error of writing that packet.
fn chessboard_fault(alloc: Global, dim: Dim) -> Option<PacketError> {
    chessboard_packet(alloc, dim).err()
}

/// Returns the first row of macroblocks whose first pixel of luma isn't this, and that pixel.
fn other_row(picture: &Picture, wanted: &[u8]) -> Option<(usize, u8)> {
    for row in 0..usize::from(picture.dim().mb_rows()).min(wanted.len()) {
        let pixel = picture.plane(0).get(0, 16 * row);
        if pixel != wanted[row] {
            return Some((row, pixel));
        }
    }
    None
}

/// Fails the test unless the decoder shows this packet, with this luma in the first column, one pixel for each row of
/// macroblocks.
fn check_column(rt: &impl Abort, decoder: &mut Decoder, packet: &ByteList, wanted: &[u8]) {
    equal!(rt; decoder.decode(packet.as_slice()), Ok(Outcome::Shown));
    let picture = decoder.picture().expect(rt, "a picture");
    let rows = usize::from(picture.dim().mb_rows());
    equal!(rt; (rows, other_row(picture, wanted)), (wanted.len(), None));
}

/// Returns the key packet of a column of macroblocks with one luma mode.
fn column_packet(
    alloc: Global,
    dim: Dim,
    log2_partitions: u8,
    luma: LumaMode,
) -> Result<ByteList, PacketError>
    requires width { dim.w ≡ 16 }
    requires partitions { log2_partitions ≤ 3 }
    requires luma { is_by_subblocks luma ≡ false }
{
    let coded = column_of(alloc, log2_partitions, usize::from(dim.mb_rows()), luma)?;
    write_key_packet(alloc, dim, &coded)
}

/// Returns the key packet of one macroblock with this mode.
fn one_macroblock(rt: &impl Abort, alloc: Global, luma: LumaMode) -> ByteList
    requires { is_by_subblocks luma ≡ false }
{
    let dim = Dim::new(16, 16, &Limits::usual()).expect(rt, "a size");
    column_packet(alloc, dim, 0, luma).expect(rt, "a packet")
}

#[test]
fn flat_macroblock(rt: HostRuntime) {
    let packet = one_macroblock(&rt, rt.alloc(), LumaMode::Dc);
    let mut decoder = Decoder::new(rt.alloc(), Limits::usual());
    check_column(&rt, &mut decoder, &packet, &[128]);
}

/// Nine macroblocks, one below another, in eight partitions.
#[test]
fn eight_partitions(rt: HostRuntime) {
    let dim = Dim::new(16, 144, &Limits::usual()).expect(&rt, "a size");
    let packet = column_packet(rt.alloc(), dim, 3, LumaMode::Dc).expect(&rt, "a packet");
    let mut decoder = Decoder::new(rt.alloc(), Limits::usual());
    check_column(&rt, &mut decoder, &packet, &[128; 9]);
}

/// Returns the packet of the still frame, relative to the defaults and these segments.
fn still_packet_by(
    alloc: Global,
    dim: Dim,
    segments: &Grid<Segment>,
) -> Result<ByteList, PacketError>
    requires width { dim.w ≡ 16 }
    requires height { dim.h ≡ 16 }
    requires segments { segments.now ≡ all 1 1 0 }
{
    let still = still_frame(alloc)?;
    write_inter_packet(alloc, dim, &Saved::defaults(), segments, &still)
}

/// Returns the packet of the still frame.
fn still_packet(rt: &impl Abort, alloc: Global) -> ByteList {
    let dim = Dim::new(16, 16, &Limits::usual()).expect(rt, "a size");
    let segments = Grid::new(alloc, 1, 1, Segment { number: 0 }).expect(rt, "memory");
    still_packet_by(alloc, dim, &segments).expect(rt, "a packet")
}

/// The pixels above a frame are 127, which a still inter frame keeps; an intra frame would have 128.
#[test]
fn still_frame_keeps_last(rt: HostRuntime) {
    let key = one_macroblock(&rt, rt.alloc(), LumaMode::V);
    let still = still_packet(&rt, rt.alloc());
    let mut decoder = Decoder::new(rt.alloc(), Limits::usual());
    check_column(&rt, &mut decoder, &key, &[127]);
    check_column(&rt, &mut decoder, &still, &[127]);
}

/// With one row of macroblocks less, the first partition has 522,769 bytes; this one has 526,703, according to an
/// independent script. Its size field has 19 bits.
#[test]
fn first_partition_too_long(rt: HostRuntime) {
    let fits = Dim::new(2400, 2128, &Limits::usual()).expect(&rt, "a size");
    equal!(&rt; chessboard_fault(rt.alloc(), fits), None);
    let taller = Dim::new(2400, 2144, &Limits::usual()).expect(&rt, "a size");
    equal!(&rt; chessboard_fault(rt.alloc(), taller), Some(PacketError::TooLong));
}

/// Returns the modes of the first macroblock, which follow the header in the first partition.
fn modes_behind(tag: &Tag, partition: &[u8], map: &ModeMap) -> Option<Modes> {
    let mut d = BoolDecoder::new(partition);
    let (header, _) = Header::read(&Saved::defaults(), tag, &mut d);
    if map.columns() == 0 || map.rows() == 0 {
        return None;
    }
    Some(read_modes(&header, map, Place { column: 0, row: 0 }, &mut d))
}

/// Returns the modes of the first macroblock of a key packet.
fn first_modes(rt: &impl Abort, alloc: Global, dim: Dim, packet: &[u8]) -> Modes {
    let tag = Tag::read(packet, &Limits::usual()).expect(rt, "a tag");
    let partition = packet.get(10..).expect(rt, "a partition");
    let map = ModeMap::new(alloc, dim).expect(rt, "memory");
    modes_behind(&tag, partition, &map).expect(rt, "a macroblock")
}

/// Returns the next packet. Its reconstruction is exact.
fn next_packet(rt: &impl Abort, encoder: &mut Encoder, source: &Picture) -> ByteList {
    let encoded = encoder.encode(source).expect(rt, "a frame");
    equal!(rt; encoded.squared_error, 0);
    encoded.packet
}

/// Returns the next two packets.
fn two_packets(rt: &impl Abort, encoder: &mut Encoder, source: &Picture) -> (ByteList, ByteList) {
    let key = next_packet(rt, encoder, source);
    (key, next_packet(rt, encoder, source))
}

/// Returns the first two packets of a picture of 16 by 16 pixels that is 128 everywhere.
fn flat_packets(rt: &impl Abort, alloc: Global) -> (ByteList, ByteList) {
    let source = flat(rt, alloc, 128);
    let mut encoder = Encoder::new(alloc, source.dim(), settings(0, 1)).expect(rt, "settings");
    two_packets(rt, &mut encoder, &source)
}

/// Fails the test unless the first macroblock of a key packet is skipped, with DC modes.
fn check_flat_modes(rt: &impl Abort, alloc: Global, key: &[u8]) {
    let dim = Dim::new(16, 16, &Limits::usual()).expect(rt, "a size");
    let modes = first_modes(rt, alloc, dim, key);
    let wanted = (true, LumaMode::Dc, ChromaMode::Dc);
    equal!(rt; (modes.skip, modes.luma, modes.chroma), wanted);
}

/// The first one shows that picture, by a skipped macroblock.
#[test]
fn encode_flat_key(rt: HostRuntime) {
    let (key, _) = flat_packets(&rt, rt.alloc());
    check_flat_modes(&rt, rt.alloc(), key.as_slice());
    let found = picture_of(&rt, rt.alloc(), key.as_slice());
    equal!(&rt; found.as_slice(), FLAT.as_slice());
}

/// Fails the test unless both packets show that picture, and the second one is an inter packet, by its lowest bit (RFC
/// 6386, chapter 9.1).
fn check_flat_packets(
    rt: &impl Abort,
    alloc: Global,
    decoder: &mut Decoder,
    key: &[u8],
    inter: &[u8],
) {
    check_shown(rt, alloc, decoder, key, &FLAT);
    check_shown(rt, alloc, decoder, inter, &FLAT);
    let first = inter.first().expect(rt, "a packet");
    equal!(rt; first % 2, 1);
}

#[test]
fn encode_flat_inter(rt: HostRuntime) {
    let (key, inter) = flat_packets(&rt, rt.alloc());
    let mut decoder = Decoder::new(rt.alloc(), Limits::usual());
    check_flat_packets(
        &rt,
        rt.alloc(),
        &mut decoder,
        key.as_slice(),
        inter.as_slice(),
    );
}

#[test]
fn encode_succeeds(rt: HostRuntime) {
    let encoded = encoded_flat(&rt, rt.alloc(), 200, settings(0, 1));
    equal!(&rt; encoded.squared_error, 0);
    check_picture(&rt, rt.alloc(), &encoded.recon, &[200; 384]);
}

/// Returns the fault of an encoder's settings.
fn settings_fault(alloc: Global, dim: Dim, settings: Settings) -> Option<SettingsFault> {
    Encoder::new(alloc, dim, settings).err()
}

/// Returns the fault of a picture of the second size for an encoder of pictures of the first one.
fn size_fault(rt: &impl Abort, alloc: Global, dim: Dim, other: Dim) -> Option<EncodeFault> {
    let source = Picture::new(alloc, other, 128).expect(rt, "memory");
    let mut encoder = Encoder::new(alloc, dim, settings(0, 1)).expect(rt, "settings");
    encoder.encode(&source).err()
}

#[test]
fn settings_and_events_refused(rt: HostRuntime) {
    let dim = Dim::new(16, 16, &Limits::usual()).expect(&rt, "a size");
    let taller = Dim::new(16, 32, &Limits::usual()).expect(&rt, "a size");
    let refused = settings_fault(rt.alloc(), dim, settings(128, 1));
    equal!(&rt; refused, Some(SettingsFault::Settings));
    let refused = size_fault(&rt, rt.alloc(), dim, taller);
    equal!(&rt; refused, Some(EncodeFault::SourceSize));
}

/// Returns the kind of a packet: a key packet, or an inter packet that refreshes golden or doesn't.
fn kind_of(rt: &impl Abort, packet: &[u8]) -> &'static str {
    let header = header_of(rt, packet);
    if header.key {
        "key"
    } else if header.updates.refresh_golden {
        "golden"
    } else {
        "plain"
    }
}

/// Returns the kinds of the next four packets, each without an error.
fn next_kinds(rt: &impl Abort, encoder: &mut Encoder, source: &Picture) -> [&'static str; 4] {
    let mut kinds = [""; 4];
    for i in 0..4 {
        let packet = next_packet(rt, encoder, source);
        kinds[i] = kind_of(rt, packet.as_slice());
    }
    kinds
}

/// Encodes a flat picture four times, and returns the kinds of the packets.
fn four_kinds(rt: &impl Abort, alloc: Global, settings: Settings) -> [&'static str; 4] {
    let source = flat(rt, alloc, 128);
    let mut encoder = Encoder::new(alloc, source.dim(), settings).expect(rt, "settings");
    next_kinds(rt, &mut encoder, &source)
}

#[test]
fn golden_and_key_distances(rt: HostRuntime) {
    let mut wanted = settings(0, 1);
    wanted.golden_every = 2;
    let kinds = four_kinds(&rt, rt.alloc(), wanted);
    equal!(&rt; kinds, ["key", "plain", "golden", "plain"]);
    wanted.key_every = 3;
    let kinds = four_kinds(&rt, rt.alloc(), wanted);
    equal!(&rt; kinds, ["key", "plain", "golden", "key"]);
}
