//! Tests of worked packets, files and pictures: the state after a packet, the counts of a file that ends early, refused
//! input, and pictures encoded into several token partitions.

ghost use Rattle.std.specs.Prelude.{◌≡◌, ◌≤◌, ◌<◌};

use crate::check::equal;
use crate::files::{INTER, KEY};
use std::alloc::Global;
use std::process::Abort;
use vp_base::{Dim, Limits, Picture};
use vp_bool::BoolDecoder;
use vp_decode::{Decoder, Outcome};
use vp_encode::{Encoded, Encoder, Settings};
use vp_head::{Header, PacketFault, Reference, Saved, Tag};
use vp_ivf::{FeedError, FileFault, Reader};
use vp_stream::{Answer, Stream};

/// The inter packet's picture, 128 everywhere.
pub(crate) const FLAT: [u8; 384] = [128; 384];

/// Returns the key packet's picture: luma rows 0 to 3 are 128, rows 4 to 15 are 129, chroma is 128.
fn empty_frame() -> [u8; 384] {
    let mut bytes = [128; 384];
    bytes[64..256].fill(129);
    bytes
}

/// Fails the test unless these are a picture's bytes.
pub(crate) fn check_picture(rt: &impl Abort, alloc: Global, picture: &Picture, wanted: &[u8]) {
    let found = picture.crop_i420(alloc).expect(rt, "memory");
    equal!(rt; found.as_slice(), wanted);
}

/// Returns the bytes of the picture that the decoder shows for a packet.
fn shown_by(rt: &impl Abort, alloc: Global, decoder: &mut Decoder, packet: &[u8]) -> Vec<u8> {
    equal!(rt; decoder.decode(packet), Ok(Outcome::Shown));
    let picture = decoder.picture().expect(rt, "a picture");
    picture.crop_i420(alloc).expect(rt, "memory")
}

/// Fails the test unless the decoder shows a picture of these bytes for a packet.
pub(crate) fn check_shown(
    rt: &impl Abort,
    alloc: Global,
    decoder: &mut Decoder,
    packet: &[u8],
    wanted: &[u8],
) {
    let found = shown_by(rt, alloc, decoder, packet);
    equal!(rt; found.as_slice(), wanted);
}

/// Returns the bytes of the picture that a new decoder shows for a packet.
pub(crate) fn picture_of(rt: &impl Abort, alloc: Global, packet: &[u8]) -> Vec<u8> {
    let mut decoder = Decoder::new(alloc, Limits::usual());
    shown_by(rt, alloc, &mut decoder, packet)
}

/// Returns the settings of an encoder without a loop filter.
pub(crate) fn settings(qi: u8, partitions: u8) -> Settings
    ensures qi { result.qi ≡ qi }
    ensures partitions { result.partitions ≡ partitions }
{
    Settings {
        qi,
        level: 0,
        sharpness: 0,
        simple: false,
        key_every: 64,
        golden_every: 0,
        range: 16,
        subpel: false,
        partitions,
    }
}

/// Encodes the source as a new encoder's first frame.
pub(crate) fn encoded(
    rt: &impl Abort,
    alloc: Global,
    source: &Picture,
    settings: Settings,
) -> Encoded {
    let mut encoder = Encoder::new(alloc, source.dim(), settings).expect(rt, "settings");
    encoder.encode(source).expect(rt, "a frame")
}

/// Returns a picture of 16 by 16 pixels of this value.
pub(crate) fn flat(rt: &impl Abort, alloc: Global, value: u8) -> Picture {
    let dim = Dim::new(16, 16, &Limits::usual()).expect(rt, "a size");
    Picture::new(alloc, dim, value).expect(rt, "memory")
}

/// Encodes such a picture as a new encoder's first frame.
pub(crate) fn encoded_flat(
    rt: &impl Abort,
    alloc: Global,
    value: u8,
    settings: Settings,
) -> Encoded {
    let source = flat(rt, alloc, value);
    encoded(rt, alloc, &source, settings)
}

/// Returns the header of a packet, relative to the defaults.
pub(crate) fn header_of(rt: &impl Abort, packet: &[u8]) -> Header {
    let tag = Tag::read(packet, &Limits::usual()).expect(rt, "a tag");
    let begin = if tag.key.is_some() { 10 } else { 3 };
    let mut first = BoolDecoder::new(packet.get(begin..).expect(rt, "a partition"));
    let (header, _) = Header::read(&Saved::defaults(), &tag, &mut first);
    header
}

/// Fails the test unless this is a picture of these bytes, encoded in 2 to the power of `log2` partitions.
fn check_coded(rt: &impl Abort, alloc: Global, found: &Encoded, log2: u8, wanted: &[u8]) {
    let header = header_of(rt, found.packet.as_slice());
    equal!(rt; (header.key, header.log2_partitions), (true, log2));
    let recon = found.recon.crop_i420(alloc).expect(rt, "memory");
    equal!(rt; (log2, recon.as_slice()), (log2, wanted));
    let shown = picture_of(rt, alloc, found.packet.as_slice());
    equal!(rt; (log2, shown.as_slice()), (log2, wanted));
}

#[test]
fn eight_partitions(rt: HostRuntime) {
    let found = encoded_flat(&rt, rt.alloc(), 128, settings(0, 8));
    equal!(&rt; found.squared_error, 0);
    check_coded(&rt, rt.alloc(), &found, 3, &FLAT);
}

/// Sets each pixel of a plane to the number of its row.
fn number_rows(picture: &mut Picture, k: usize)
    requires { k < 3 }
{
    let height = picture.plane(k).height();
    for y in 0..height {
        if y < picture.plane(k).height() {
            picture.row_mut(k, y).fill((y % 256) as u8);
        }
    }
}

/// Returns a picture of 16 by 64 pixels, each of which has the number of its row as its value.
fn numbered_rows(rt: &impl Abort, alloc: Global) -> Picture {
    let dim = Dim::new(16, 64, &Limits::usual()).expect(rt, "a size");
    let mut picture = Picture::new(alloc, dim, 0).expect(rt, "memory");
    for k in 0..3 {
        number_rows(&mut picture, k);
    }
    picture
}

/// Encodes the source into 2 to the power of `log2` partitions: the error and the picture are these.
fn check_partitions(
    rt: &impl Abort,
    alloc: Global,
    source: &Picture,
    log2: u8,
    error: u64,
    wanted: &[u8],
)
    requires { log2 ≤ 3 }
{
    let found = encoded(rt, alloc, source, settings(64, 1 << log2));
    equal!(rt; (log2, found.squared_error), (log2, error));
    check_coded(rt, alloc, &found, log2, wanted);
}

/// Encodes it into each number of partitions, as it is encoded into one.
fn check_each(rt: &impl Abort, alloc: Global, source: &Picture, one: &Encoded) {
    let bytes = one.recon.crop_i420(alloc).expect(rt, "memory");
    for log2 in 0..4u8 {
        check_partitions(rt, alloc, source, log2, one.squared_error, &bytes);
    }
}

#[test]
fn partitions_change_no_picture(rt: HostRuntime) {
    let source = numbered_rows(&rt, rt.alloc());
    let one = encoded(&rt, rt.alloc(), &source, settings(64, 1));
    check_each(&rt, rt.alloc(), &source, &one);
}

/// Fails the test unless each reference frame has these bytes.
fn check_references(rt: &impl Abort, alloc: Global, decoder: &Decoder, wanted: &[u8]) {
    for reference in [Reference::Last, Reference::Golden, Reference::Alt] {
        let picture = decoder.reference(reference).expect(rt, "a reference frame");
        let found = picture.crop_i420(alloc).expect(rt, "memory");
        equal!(rt; (reference, found.as_slice()), (reference, wanted));
    }
}

/// Decodes a key packet and this packet. Both are shown. The second picture and the references after it are these.
fn check_both(
    rt: &impl Abort,
    alloc: Global,
    decoder: &mut Decoder,
    packet: &[u8],
    shown: &[u8],
    kept: &[u8],
) {
    equal!(rt; decoder.decode(&KEY), Ok(Outcome::Shown));
    check_shown(rt, alloc, decoder, packet, shown);
    check_references(rt, alloc, decoder, kept);
}

/// Does so with a new decoder.
fn check_behind(rt: &impl Abort, alloc: Global, packet: &[u8], shown: &[u8], kept: &[u8]) {
    let mut decoder = Decoder::new(alloc, Limits::usual());
    check_both(rt, alloc, &mut decoder, packet, shown, kept);
}

/// An inter packet whose bools are all 0 is intra-predicted, and replaces no reference.
#[test]
fn inter_keeps_last(rt: HostRuntime) {
    check_behind(&rt, rt.alloc(), &INTER, &FLAT, &empty_frame());
}

/// An inter packet whose bools are all 1, with eight empty token partitions.
const ONES: [u8; 25] = [
    0x31, 0, 0, 0xff, 0, 0, 0, 0, 0, 0, 0, 0, 0, 0, 0, 0, 0, 0, 0, 0, 0, 0, 0, 0, 0,
];

/// It predicts each half of the macroblock from far above and to the left of the reference frame, where all is 128, and
/// replaces all references.
#[test]
fn split_vectors_far_outside(rt: HostRuntime) {
    check_behind(&rt, rt.alloc(), &ONES, &FLAT, &FLAT);
}

/// The length of the file in bytes.
const SIZE: usize = 106;

/// A file of 16 by 16 pixels, 30 pictures a second. Its head ends at byte 32. Its packets, each after a header of 12
/// bytes, end at 54, 69, 91 and 106: the key packet and the inter packet, and both again.
const FOUR: [u8; SIZE] = [
    0x44, 0x4b, 0x49, 0x46, 0, 0, 0x20, 0, 0x56, 0x50, 0x38, 0x30, 0x10, 0, 0x10, 0, 0x1e, 0, 0, 0,
    1, 0, 0, 0, 4, 0, 0, 0, 0, 0, 0, 0, 10, 0, 0, 0, 0, 0, 0, 0, 0, 0, 0, 0, 0x10, 0, 0, 0x9d,
    0x01, 0x2a, 0x10, 0, 0x10, 0, 3, 0, 0, 0, 1, 0, 0, 0, 0, 0, 0, 0, 0x11, 0, 0, 10, 0, 0, 0, 2,
    0, 0, 0, 0, 0, 0, 0, 0x10, 0, 0, 0x9d, 0x01, 0x2a, 0x10, 0, 0x10, 0, 3, 0, 0, 0, 3, 0, 0, 0, 0,
    0, 0, 0, 0x11, 0, 0,
];

/// Returns the fault of the file's first bytes, and the number of whole packets in them.
fn end_of(length: usize) -> (Option<FileFault>, u32) {
    let torn = Some(FileFault::Torn);
    match length {
        32 => (None, 0),
        54 => (None, 1),
        69 => (None, 2),
        91 => (None, 3),
        SIZE => (None, 4),
        0..54 => (torn, 0),
        54..69 => (torn, 1),
        69..91 => (torn, 2),
        _ => (torn, 3),
    }
}

/// Returns the number of packets taken from a reader, at most nine.
fn taken(reader: &mut Reader) -> u32 {
    for count in 0..9 {
        if reader.next_packet().is_none() {
            return count;
        }
    }
    9
}

/// Feeds the file's first bytes to a reader: its fault and the number of its packets are as expected.
fn check_reader(rt: &impl Abort, reader: &mut Reader, length: usize)
    requires { length ≤ SIZE }
{
    equal!(rt; (length, reader.feed(&FOUR[..length])), (length, Ok(())));
    let fault = reader.finish().err();
    equal!(rt; (length, (fault, taken(reader))), (length, end_of(length)));
}

/// Feeds them to a new reader.
fn check_front(rt: &impl Abort, alloc: Global, length: usize)
    requires { length ≤ SIZE }
{
    let mut reader = Reader::new(alloc, Limits::usual());
    check_reader(rt, &mut reader, length);
}

#[test]
fn each_cut_read(rt: HostRuntime) {
    for length in 0..=SIZE {
        check_front(&rt, rt.alloc(), length);
    }
}

/// Returns an answer's kind, and the size and the pixels of its picture.
fn parts(answer: &Answer) -> (&'static str, Option<(u16, u16, &[u8])>) {
    match answer {
        Answer::Shown(dim, bytes) => ("shown", Some((dim.w, dim.h, bytes.as_slice()))),
        Answer::Hidden => ("hidden", None),
        Answer::Fault(_) => ("fault", None),
        Answer::NoPacket => ("no packet", None),
    }
}

/// Asks a stream of `count` packets, which was fed this number of bytes, for a packet: the key packet's and the inter
/// packet's picture alternately.
fn check_answer(rt: &impl Abort, stream: &Stream, fed: usize, count: u32, number: u32) {
    let picture = if number % 2 == 0 { empty_frame() } else { FLAT };
    let wanted = if number < count {
        ("shown", Some((16, 16, picture.as_slice())))
    } else {
        ("no packet", None)
    };
    let answer = stream.picture_at(number).expect(rt, "memory");
    equal!(rt; (fed, number, parts(&answer)), (fed, number, wanted));
}

/// Asks it for the first five packets.
fn check_answers(rt: &impl Abort, stream: &Stream, fed: usize, count: u32) {
    for number in 0..5 {
        check_answer(rt, stream, fed, count, number);
    }
}

/// Feeds the file's first bytes to a stream: its fault, the number of its packets and its answers are as expected.
fn check_stream(rt: &impl Abort, stream: &mut Stream, length: usize)
    requires { length ≤ SIZE }
{
    equal!(rt; (length, stream.feed(&FOUR[..length])), (length, Ok(())));
    let fault = stream.finish().err();
    equal!(rt; (length, (fault, stream.count())), (length, end_of(length)));
    check_answers(rt, stream, length, end_of(length).1);
}

/// Feeds them to a new stream.
fn check_stream_front(rt: &impl Abort, alloc: Global, length: usize)
    requires { length ≤ SIZE }
{
    let mut stream = Stream::new(alloc, Limits::usual());
    check_stream(rt, &mut stream, length);
}

#[test]
fn each_cut_of_a_stream(rt: HostRuntime) {
    for length in 0..=SIZE {
        check_stream_front(&rt, rt.alloc(), length);
    }
}

/// A file that begins with other letters is refused, and so is the file after it.
fn check_refused(rt: &impl Abort, stream: &mut Stream) {
    let mut bytes = FOUR;
    bytes[..4].copy_from_slice(b"DKIX");
    let refused = Err(FeedError::Fault(FileFault::Signature));
    equal!(rt; [stream.feed(&bytes), stream.feed(&FOUR)], [refused, refused]);
    equal!(rt; (stream.head(), stream.count()), (None, 0));
    check_answers(rt, stream, 2 * SIZE, 0);
}

#[test]
fn other_signature(rt: HostRuntime) {
    let mut stream = Stream::new(rt.alloc(), Limits::usual());
    check_refused(&rt, &mut stream);
}

/// The key packet, not to be shown.
const HIDDEN: [u8; 10] = [0, 0, 0, 0x9d, 0x01, 0x2a, 0x10, 0, 0x10, 0];

/// After a hidden key packet, an empty packet shows nothing, whatever was shown before.
fn check_hidden(rt: &impl Abort, decoder: &mut Decoder) {
    let packets: [&[u8]; 5] = [&HIDDEN, &[], &KEY, &HIDDEN, &[]];
    let mut found = [Outcome::Shown; 5];
    for i in 0..5usize {
        found[i] = decoder.decode(packets[i]).expect(rt, "memory");
    }
    let wanted = [
        Outcome::Hidden,
        Outcome::Hidden,
        Outcome::Shown,
        Outcome::Hidden,
        Outcome::Hidden,
    ];
    equal!(rt; (found, decoder.picture().is_none()), (wanted, true));
}

#[test]
fn empty_packet_behind_hidden_key(rt: HostRuntime) {
    let mut decoder = Decoder::new(rt.alloc(), Limits::usual());
    check_hidden(&rt, &mut decoder);
}

/// The hidden key packet and an empty packet, each after a header of twelve bytes.
const HIDDEN_AND_EMPTY: [u8; 34] = [
    10, 0, 0, 0, 0, 0, 0, 0, 0, 0, 0, 0, 0, 0, 0, 0x9d, 0x01, 0x2a, 0x10, 0, 0x10, 0, 0, 0, 0, 0,
    1, 0, 0, 0, 0, 0, 0, 0,
];

/// Returns the kind of the stream's answer for a packet.
fn kind(rt: &impl Abort, stream: &Stream, number: u32) -> &'static str {
    let answer = stream.picture_at(number).expect(rt, "memory");
    parts(&answer).0
}

/// Feeds a stream the file's head and these packets. It has these alone.
fn check_hidden_packets(rt: &impl Abort, stream: &mut Stream) {
    let fed = [stream.feed(&FOUR[..32]), stream.feed(&HIDDEN_AND_EMPTY)];
    equal!(rt; fed, [Ok(()), Ok(())]);
    equal!(rt; (stream.count(), stream.finish()), (2, Ok(())));
    equal!(rt; [kind(rt, stream, 0), kind(rt, stream, 1)], ["hidden", "hidden"]);
}

#[test]
fn stream_of_hidden_packets(rt: HostRuntime) {
    let mut stream = Stream::new(rt.alloc(), Limits::usual());
    check_hidden_packets(&rt, &mut stream);
}

/// The result of a changed key packet.
#[derive(Clone, Copy)]
enum Change {
    /// It is shown, with this size.
    Shown(u16, u16),
    /// It isn't shown, and its size is unchanged.
    Hidden,
    Fault(PacketFault),
}

/// The results of the key packet with each byte set to 0, 0x7f and 0xff. Bit 0 of byte 0 is 1 for an inter packet;
/// three bits are the version, at most 3; one says whether it is shown. The other three bits, with bytes 1 and 2, are
/// the length of the first partition, which has no bytes here. Three bytes are the start code. Of the width and the
/// height, two bytes each, little-endian, the two highest bits are a scale.
const CHANGES: [[Change; 3]; 10] = [
    [
        Change::Hidden,
        Change::Fault(PacketFault::Version),
        Change::Fault(PacketFault::Version),
    ],
    [
        Change::Shown(16, 16),
        Change::Fault(PacketFault::FirstPartition),
        Change::Fault(PacketFault::FirstPartition),
    ],
    [
        Change::Shown(16, 16),
        Change::Fault(PacketFault::FirstPartition),
        Change::Fault(PacketFault::FirstPartition),
    ],
    [Change::Fault(PacketFault::StartCode); 3],
    [Change::Fault(PacketFault::StartCode); 3],
    [Change::Fault(PacketFault::StartCode); 3],
    [
        Change::Fault(PacketFault::Size),
        Change::Shown(127, 16),
        Change::Shown(255, 16),
    ],
    [
        Change::Shown(16, 16),
        Change::Shown(16_144, 16),
        Change::Shown(16_144, 16),
    ],
    [
        Change::Fault(PacketFault::Size),
        Change::Shown(16, 127),
        Change::Shown(16, 255),
    ],
    [
        Change::Shown(16, 16),
        Change::Shown(16, 16_144),
        Change::Shown(16, 16_144),
    ],
];

/// Returns the outcomes of a changed packet and of the inter packet after it.
fn outcomes(change: Change) -> (Outcome, Outcome) {
    match change {
        Change::Shown(_, _) => (Outcome::Shown, Outcome::Shown),
        Change::Hidden => (Outcome::Hidden, Outcome::Shown),
        Change::Fault(fault) => (
            Outcome::Fault(fault),
            Outcome::Fault(PacketFault::NoReference),
        ),
    }
}

/// Returns the number of luma bytes, and of all bytes.
fn lengths(width: u16, height: u16) -> (usize, usize) {
    let (columns, rows) = (usize::from(width), usize::from(height));
    let luma = columns.saturating_mul(rows);
    let colour = columns.div_ceil(2).saturating_mul(rows.div_ceil(2));
    (luma, luma.saturating_add(colour.saturating_mul(2)))
}

/// Returns the picture of a changed key packet whose bools are all 0: the first four rows of luma are 128. It is empty
/// if the packet shows none.
fn changed_picture(rt: &impl Abort, alloc: Global, change: Change) -> Vec<u8> {
    let (width, height) = match change {
        Change::Shown(width, height) => (width, height),
        _ => (0, 0),
    };
    let (luma, all) = lengths(width, height);
    let mut bytes = Vec::new(alloc);
    bytes
        .resize(luma.min(4 * usize::from(width)), 128)
        .expect(rt, "memory");
    bytes.resize(luma, 129).expect(rt, "memory");
    bytes.resize(all, 128).expect(rt, "memory");
    bytes
}

/// Returns the picture of the inter packet after it, which is 128 everywhere. After a fault it shows none.
fn inter_picture(rt: &impl Abort, alloc: Global, change: Change) -> Vec<u8> {
    let (width, height) = match change {
        Change::Shown(width, height) => (width, height),
        Change::Hidden => (16, 16),
        Change::Fault(_) => (0, 0),
    };
    let (_, all) = lengths(width, height);
    let mut bytes = Vec::new(alloc);
    bytes.resize(all, 128).expect(rt, "memory");
    bytes
}

/// Returns the bytes of the decoder's picture, or none.
fn shown(rt: &impl Abort, alloc: Global, decoder: &Decoder) -> Vec<u8> {
    match decoder.picture() {
        Some(picture) => picture.crop_i420(alloc).expect(rt, "memory"),
        None => Vec::new(alloc),
    }
}

/// Decodes the key packet, the changed one and the inter packet: the outcomes and the pictures are as expected. After a
/// fault there is no state.
fn check_change(
    rt: &impl Abort,
    alloc: Global,
    decoder: &mut Decoder,
    changed: &[u8; 10],
    change: Change,
) {
    let (first, second) = outcomes(change);
    let is_fault = matches!(change, Change::Fault(_));
    equal!(rt; (changed, decoder.decode(&KEY)), (changed, Ok(Outcome::Shown)));
    let found = decoder.decode(changed);
    equal!(rt; (changed, found, decoder.kept().is_none()), (changed, Ok(first), is_fault));
    let wanted = changed_picture(rt, alloc, change);
    equal!(rt; (changed, shown(rt, alloc, decoder)), (changed, wanted));
    equal!(rt; (changed, decoder.decode(&INTER)), (changed, Ok(second)));
    let wanted = inter_picture(rt, alloc, change);
    equal!(rt; (changed, shown(rt, alloc, decoder)), (changed, wanted));
}

/// The three values of a changed byte.
const VALUES: [u8; 3] = [0, 0x7f, 0xff];

/// Sets a byte to each of the three values.
fn check_byte(rt: &impl Abort, alloc: Global, decoder: &mut Decoder, at: usize)
    requires { at < 10 }
{
    for i in 0..3usize {
        let mut changed = KEY;
        changed[at] = VALUES[i];
        check_change(rt, alloc, decoder, &changed, CHANGES[at][i]);
    }
}

/// Tries all changes twice, one after another.
fn check_changes(rt: &impl Abort, alloc: Global, decoder: &mut Decoder) {
    for number in 0..20usize {
        check_byte(rt, alloc, decoder, number % 10);
    }
}

#[test]
fn changed_key_packets(rt: HostRuntime) {
    let mut decoder = Decoder::new(rt.alloc(), Limits::usual());
    check_changes(&rt, rt.alloc(), &mut decoder);
}
