//! Tests of vp_head: tags, headers and their faults, in worked examples and from streams.

use crate::check::equal;
use std::alloc::Global;
use std::process::Abort;
use vp_base::Limits;
use vp_bool::{BoolDecoder, BoolEncoder};
use vp_head::{
    Filter, Header, KeyTag, LevelDeltas, PacketFault, Probabilities, QuantiserIndices,
    ReferenceCopy, ReferenceProbabilities, ReferenceUpdates, Saved, SegmentValues, Segmentation,
    SignBiases, Tag,
};

const KEY: [u8; 10] = [0x10, 0, 0, 0x9d, 0x01, 0x2a, 0x10, 0, 0x10, 0];

/// A key packet with a wrong start code, and a width of 0.
const OTHER: [u8; 10] = [0x10, 0, 0, 0x9d, 0x01, 0x2b, 0, 0, 0x10, 0];

/// Returns the tag of a packet, or its fault.
fn tag_of(packet: &[u8]) -> Result<Tag, PacketFault> {
    Tag::read(packet, &Limits::usual())
}

#[test]
fn packet_faults(rt: HostRuntime) {
    let found = [
        tag_of(&KEY[..9]),
        tag_of(&[0x11, 0]),
        tag_of(&[0x18, 0, 0]),
        tag_of(&OTHER),
        tag_of(&[0x31, 0x02, 0x80]),
    ];
    let wanted = [
        Err(PacketFault::Truncated),
        Err(PacketFault::Truncated),
        Err(PacketFault::Version),
        Err(PacketFault::StartCode),
        Ok(Tag {
            version: 0,
            show: true,
            first_partition: 262_161,
            key: None,
        }),
    ];
    equal!(&rt; found, wanted);
}

/// Returns the tag of a key packet with these width and height fields.
fn tag_of_size(size: [u8; 4], limits: &Limits) -> Result<Tag, PacketFault> {
    let [w, w_scale, h, h_scale] = size;
    let packet = [0x10, 0, 0, 0x9d, 0x01, 0x2a, w, w_scale, h, h_scale];
    Tag::read(&packet, limits)
}

/// Returns the width, the height and their scales.
fn sides_of(key: Option<KeyTag>) -> Option<(u16, u16, u8, u8)> {
    let key = key?;
    Some((
        key.dim.w,
        key.dim.h,
        key.horizontal_scale,
        key.vertical_scale,
    ))
}

#[test]
fn size_limits(rt: HostRuntime) {
    let rt = &rt;
    let limits = Limits::new(16_384, 1, 1, 1).expect(rt, "limits");
    let empty = tag_of_size([0, 0, 16, 0], &limits);
    let large = tag_of_size([129, 0, 129, 0], &limits);
    equal!(rt; [empty, large], [Err(PacketFault::Size), Err(PacketFault::TooLarge)]);
    let tag = tag_of_size([128, 0x40, 128, 0xc0], &limits).expect(rt, "a tag");
    equal!(rt; sides_of(tag.key), Some((128, 128, 1, 3)));
}

/// Returns the header in a packet's first partition, the values saved after it, and the eight bits that follow it.
fn header_of(rt: &impl Abort, packet: &[u8], partition: &[u8]) -> (Header, Saved, u8) {
    let tag = tag_of(packet).expect(rt, "a tag");
    let mut decoder = BoolDecoder::new(partition);
    let (header, saved) = Header::read(&Saved::defaults(), &tag, &mut decoder);
    (header, saved, decoder.literal(8))
}

/// Returns a header's segmentation, filter and quantiser indices.
fn rows_of(header: &Header) -> (Segmentation, Filter, QuantiserIndices) {
    (header.segmentation, header.filter, header.quantiser)
}

const ONES_VALUES: SegmentValues = SegmentValues {
    absolute: true,
    quantisers: [-127; 4],
    levels: [-63; 4],
};

fn ones_rows() -> (Segmentation, Filter, QuantiserIndices) {
    let segmentation = Segmentation {
        enabled: true,
        update_map: true,
        values: ONES_VALUES,
        tree_probabilities: [255; 3],
    };
    let filter = Filter {
        simple: true,
        level: 63,
        sharpness: 7,
    };
    let quantiser = QuantiserIndices {
        y_ac: 127,
        y_dc: -15,
        y2_dc: -15,
        y2_ac: -15,
        uv_dc: -15,
        uv_ac: -15,
    };
    (segmentation, filter, quantiser)
}

/// Checks some values of a key packet's header that is read from bools of 1.
fn check_ones(rt: &impl Abort, header: &Header) {
    let flags = (header.key, header.color_space, header.clamping_type);
    equal!(rt; (flags, rows_of(header)), ((true, true, true), ones_rows()));
    equal!(rt; &header.probabilities.coefficients, &[[[[255; 11]; 3]; 8]; 4]);
}

fn check_ones_saved(rt: &impl Abort, saved: &Saved) {
    let kept = Saved::defaults().probabilities.vectors;
    equal!(rt; (saved.segments, saved.probabilities.vectors), (ONES_VALUES, kept));
}

#[test]
fn all_ones_header(rt: HostRuntime) {
    let rt = &rt;
    let (header, saved, _) = header_of(rt, &KEY, &[255]);
    check_ones(rt, &header);
    check_ones_deltas(rt, &header);
    check_ones_saved(rt, &saved);
}

fn check_ones_deltas(rt: &impl Abort, header: &Header) {
    let deltas = LevelDeltas {
        reference: [-63; 4],
        mode: [-63; 4],
    };
    let flags = (header.deltas_enabled, header.refresh_entropy);
    let found = (flags, header.deltas, header.log2_partitions, header.skip);
    equal!(rt; found, ((true, true), deltas, 3, Some(255)));
}

/// Returns the probabilities of luma modes, chroma modes and vectors.
fn parts_of(probabilities: &Probabilities) -> ([u8; 4], [u8; 3], [[u8; 19]; 2]) {
    let luma = probabilities.luma;
    let chroma = probabilities.chroma;
    let vectors = probabilities.vectors;
    (luma, chroma, vectors)
}

/// Checks the flags and the references of an inter packet's header that is read from bools of 1.
fn check_ones_references(rt: &impl Abort, header: &Header) {
    let updates = header.updates;
    let refreshed = (
        updates.refresh_golden,
        updates.refresh_alt,
        updates.refresh_last,
    );
    let references = ReferenceProbabilities {
        intra: 255,
        last: 255,
        golden: 255,
    };
    let found = (
        header.key,
        refreshed,
        updates.copy_to_golden,
        header.references,
    );
    equal!(rt; found, (false, (true, true, true), ReferenceCopy::Nothing, references));
}

#[test]
fn all_ones_inter_header(rt: HostRuntime) {
    let rt = &rt;
    let (header, saved, _) = header_of(rt, &[0x31, 0, 0], &[255]);
    check_ones_references(rt, &header);
    let biases = SignBiases {
        golden: true,
        alt: true,
    };
    let parts = ([255; 4], [255; 3], [[254; 19]; 2]);
    equal!(rt; (saved.biases, parts_of(&saved.probabilities)), (biases, parts));
}

/// The first packet of `synth_20008.ivf` in crates/vp_transcripts/data, to the end of its header. The expected values
/// come from an independent reader.
const KEY_PACKET: [u8; 34] = [
    0xf0, 0x05, 0x00, 0x9d, 0x01, 0x2a, 0x40, 0x00, 0x30, 0x00, 0x6a, 0x8b, 0xe2, 0x5f, 0xc3, 0x1b,
    0x76, 0x37, 0xb2, 0x24, 0xaa, 0x49, 0xbd, 0x71, 0x46, 0x26, 0xd1, 0xc9, 0xb1, 0x73, 0x5b, 0x85,
    0xb9, 0xdd,
];

/// The fourth packet of that file, to the end of its header, read with the default saved values. The expected values
/// come from an independent reader.
const INTER_PACKET: [u8; 52] = [
    0xe3, 0x08, 0x00, 0xe7, 0x46, 0x6c, 0x59, 0x78, 0xfa, 0xa7, 0x27, 0xf2, 0x22, 0x33, 0xa5, 0x2c,
    0x80, 0xb8, 0x40, 0xd2, 0xde, 0xfa, 0x45, 0x13, 0xe4, 0x35, 0x7f, 0xfa, 0xbd, 0x14, 0x0a, 0x7c,
    0xc7, 0x94, 0xaa, 0x3c, 0x9b, 0xbd, 0x8b, 0xf2, 0x90, 0xc4, 0x16, 0xc2, 0x84, 0x74, 0x8d, 0xb2,
    0xd1, 0x04, 0x10, 0x58,
];

fn key_rows() -> (Segmentation, Filter, QuantiserIndices) {
    let segmentation = Segmentation {
        enabled: true,
        update_map: false,
        values: SegmentValues {
            absolute: false,
            quantisers: [-34, 113, 0, -63],
            levels: [0; 4],
        },
        tree_probabilities: [255; 3],
    };
    let filter = Filter {
        simple: true,
        level: 35,
        sharpness: 3,
    };
    let quantiser = QuantiserIndices {
        y_ac: 88,
        y_dc: -11,
        y2_dc: 6,
        y2_ac: 1,
        uv_dc: 0,
        uv_ac: -2,
    };
    (segmentation, filter, quantiser)
}

fn change_for_key(coefficients: &mut [[[[u8; 11]; 3]; 8]; 4]) {
    coefficients[0][1][0][0] = 46;
    coefficients[1][0][0][0] = 51;
    coefficients[1][0][2][0] = 179;
    coefficients[2][6][2][8] = 57;
    coefficients[3][5][0][1] = 110;
}

fn check_key_coefficients(rt: &impl Abort, header: &Header, saved: &Saved) {
    let mut wanted = Saved::defaults().probabilities;
    equal!(rt; &saved.probabilities.coefficients, &wanted.coefficients);
    change_for_key(&mut wanted.coefficients);
    equal!(rt; &header.probabilities.coefficients, &wanted.coefficients);
}

#[test]
fn key_rows_of_a_stream(rt: HostRuntime) {
    let rt = &rt;
    let (header, saved, behind) = header_of(rt, &KEY_PACKET, &KEY_PACKET[10..]);
    check_key_rows(rt, &header, behind);
    check_key_coefficients(rt, &header, &saved);
}

fn check_key_rows(rt: &impl Abort, header: &Header, behind: u8) {
    let types = (header.color_space, header.clamping_type);
    let flags = (header.deltas_enabled, header.refresh_entropy);
    equal!(rt; (types, flags, rows_of(header)), ((false, true), (false, false), key_rows()));
    equal!(rt; (header.log2_partitions, header.skip, behind), (3, Some(127), 200));
}

fn inter_rows() -> (Segmentation, Filter, QuantiserIndices) {
    let segmentation = Segmentation {
        enabled: true,
        update_map: true,
        values: SegmentValues {
            absolute: false,
            quantisers: [1, 83, 0, 70],
            levels: [9, 0, 0, 0],
        },
        tree_probabilities: [238, 255, 60],
    };
    let filter = Filter {
        simple: false,
        level: 58,
        sharpness: 5,
    };
    let quantiser = QuantiserIndices {
        y_ac: 68,
        y_dc: 5,
        y2_dc: 0,
        y2_ac: -11,
        uv_dc: -3,
        uv_ac: 0,
    };
    (segmentation, filter, quantiser)
}

fn check_inter_references(rt: &impl Abort, header: &Header) {
    let updates = ReferenceUpdates {
        refresh_golden: true,
        refresh_alt: false,
        copy_to_golden: ReferenceCopy::Nothing,
        copy_to_alt: ReferenceCopy::Last,
        refresh_last: false,
    };
    let biases = SignBiases {
        golden: false,
        alt: true,
    };
    let found = (header.updates, header.log2_partitions, header.biases);
    equal!(rt; found, (updates, 0, biases));
}

#[test]
fn inter_rows_of_a_stream(rt: HostRuntime) {
    let rt = &rt;
    let (header, saved, _) = header_of(rt, &INTER_PACKET, &INTER_PACKET[3..]);
    let deltas = LevelDeltas {
        reference: [0, 0, 46, 58],
        mode: [0, 0, 54, 61],
    };
    let found = (header.deltas_enabled, header.refresh_entropy, saved.deltas);
    equal!(rt; (found, rows_of(&header)), ((true, false, deltas), inter_rows()));
    check_inter_references(rt, &header);
}

fn change_for_inter(coefficients: &mut [[[[u8; 11]; 3]; 8]; 4]) {
    coefficients[0][0][0][3] = 40;
    coefficients[0][1][0][0] = 14;
    coefficients[0][1][0][10] = 87;
    coefficients[0][1][1][0] = 253;
    coefficients[0][3][0][7] = 138;
    coefficients[2][0][0][1] = 179;
    coefficients[3][0][2][0] = 50;
    coefficients[3][2][0][7] = 242;
    coefficients[3][5][1][3] = 236;
}

#[test]
fn inter_probabilities_of_a_stream(rt: HostRuntime) {
    let rt = &rt;
    let (header, _, behind) = header_of(rt, &INTER_PACKET, &INTER_PACKET[3..]);
    let references = ReferenceProbabilities {
        intra: 20,
        last: 158,
        golden: 109,
    };
    equal!(rt; (header.references, header.skip, behind), (references, Some(46), 183));
    check_inter_probabilities(rt, &header.probabilities);
}

fn check_inter_probabilities(rt: &impl Abort, probabilities: &Probabilities) {
    let mut wanted = Saved::defaults().probabilities;
    change_for_inter(&mut wanted.coefficients);
    wanted.luma = [104, 203, 38, 211];
    wanted.vectors[1][2] = 238;
    equal!(rt; &probabilities.coefficients, &wanted.coefficients);
    equal!(rt; parts_of(probabilities), parts_of(&wanted));
}

/// Writes the header of a packet's first partition, and reads it back.
fn written_back(rt: &impl Abort, alloc: Global, packet: &[u8], partition: &[u8]) -> Header {
    let tag = tag_of(packet).expect(rt, "a tag");
    let saved = Saved::defaults();
    let (header, _) = Header::read(&saved, &tag, &mut BoolDecoder::new(partition));
    let mut encoder = BoolEncoder::new(alloc);
    header
        .write(&saved, &tag, &mut encoder)
        .expect(rt, "memory");
    let bytes = encoder.finish().expect(rt, "memory");
    let (again, _) = Header::read(&saved, &tag, &mut BoolDecoder::new(bytes.as_slice()));
    again
}

#[test]
fn headers_read_back(rt: HostRuntime) {
    let alloc = rt.alloc();
    let rt = &rt;
    check_ones(rt, &written_back(rt, alloc, &KEY, &[255]));
    let inter = written_back(rt, alloc, &[0x31, 0, 0], &[255]);
    let flags = (inter.key, inter.biases.golden, inter.biases.alt);
    equal!(rt; (flags, rows_of(&inter)), ((false, true, true), ones_rows()));
    equal!(rt; parts_of(&inter.probabilities), ([255; 4], [255; 3], [[254; 19]; 2]));
}

fn check_name(rt: &impl Abort, alloc: Global, fault: PacketFault, name: &str) {
    let text = format!(in alloc; "{fault}").expect(rt, "memory");
    equal!(rt; text.as_str(), name);
}

/// The names of the faults; that of a partition includes its number.
const NAMES: [(PacketFault, &str); 9] = [
    (PacketFault::Truncated, "Truncated"),
    (PacketFault::Version, "Version"),
    (PacketFault::StartCode, "StartCode"),
    (PacketFault::Size, "Size"),
    (PacketFault::TooLarge, "TooLarge"),
    (PacketFault::NoReference, "NoReference"),
    (PacketFault::FirstPartition, "FirstPartition"),
    (PacketFault::PartitionTable, "PartitionTable"),
    (PacketFault::Partition(2), "Partition 2"),
];

#[test]
fn names_of_packet_faults(rt: HostRuntime) {
    let alloc = rt.alloc();
    for (fault, name) in NAMES {
        check_name(&rt, alloc, fault, name);
    }
}

/// A key packet of fewer than ten bytes is truncated, whatever its start code and size are.
#[test]
fn truncated_before_start_code(rt: HostRuntime) {
    let found = [
        tag_of(&OTHER[..9]),
        tag_of(&OTHER[..6]),
        tag_of(&OTHER[..3]),
    ];
    let truncated = Err(PacketFault::Truncated);
    equal!(&rt; found, [truncated, truncated, truncated]);
}
