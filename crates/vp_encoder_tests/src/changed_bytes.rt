//! Tests of three packets, each after a key packet, with one byte set to each of its 256 values.

ghost use Rattle.std.specs.Prelude.{◌≡◌, ◌<◌, ◌≤◌, ◌^◌, Some, None, true, false, length};
ghost use Rattle.vp_head.specs.declared.fault.PacketFault.{PacketFault};
ghost use Rattle.vp_decode.specs.declared.decoder.Outcome.{Outcome};

use crate::check::equal;
use crate::files::{INTER, KEY, other_pixel};
use std::alloc::Global;
use std::process::Abort;
use vp_base::Limits;
use vp_decode::{Decoder, Outcome};
use vp_head::PacketFault;

/// The length of the three packets in bytes.
const SIZE: usize = 38;

/// From byte 0 a key packet of 16 by 16 pixels with an empty first partition. From 10 an inter packet with an empty
/// first partition. From 13 an inter packet whose first partition is one byte of ones, so that all its bools are 1.
/// That packet has eight token partitions, whose sizes are in the 21 bytes from 17 on; all of them are 0.
const PACKETS: [u8; SIZE] = [
    0x10, 0, 0, 0x9d, 0x01, 0x2a, 0x10, 0, 0x10, 0, 0x11, 0, 0, 0x31, 0, 0, 0xff, 0, 0, 0, 0, 0, 0,
    0, 0, 0, 0, 0, 0, 0, 0, 0, 0, 0, 0, 0, 0, 0,
];

/// The maximum number of pixels of a picture.
const PIXELS: u32 = 1_024;

/// The fields in the first three bytes of a packet (RFC 6386, chapter 9.1).
#[derive(Clone, Copy)]
struct Tag {
    key: bool,
    version: u8,
    shown: bool,
    /// The length of the first partition in bytes.
    first: usize,
}

/// Splits the bits of the first three bytes, lowest first: one, three, one and nineteen bits.
fn tag_of(packet: &[u8]) -> Tag
    requires { 3 ≤ length packet.now }
    ensures version { result.version < 8 }
    ensures first { result.first < 2 ^ 19 }
{
    let [low, middle, high] = [packet[0], packet[1], packet[2]];
    Tag {
        key: low % 2 == 0,
        version: low / 2 % 8,
        shown: low / 16 % 2 == 1,
        first: usize::from(low / 32) + 8 * usize::from(middle) + 2048 * usize::from(high),
    }
}

/// Returns the fault of a key packet's start code and size, in the order of the RFC; a side has fourteen bits.
fn key_fault(packet: &[u8]) -> Option<PacketFault>
    ensures { length packet.now < 10 → result ≡ Some PacketFault.Truncated }
{
    if packet.len() < 10 {
        return Some(PacketFault::Truncated);
    }
    if packet[3..6] != [0x9d, 0x01, 0x2a] {
        return Some(PacketFault::StartCode);
    }
    let width = u32::from(packet[6]) + 256 * u32::from(packet[7] % 64);
    let height = u32::from(packet[8]) + 256 * u32::from(packet[9] % 64);
    match width * height {
        0 => Some(PacketFault::Size),
        1..=PIXELS => None,
        _ => Some(PacketFault::TooLarge),
    }
}

/// Returns the fault of a packet's tag, of a key packet's start code and size, or of the first partition's size, in
/// that order. A key packet was shown before.
fn tag_fault(packet: &[u8]) -> Option<PacketFault>
    requires { 3 ≤ length packet.now }
{
    let tag = tag_of(packet);
    if tag.version > 3 {
        return Some(PacketFault::Version);
    }
    let fault = if tag.key { key_fault(packet) } else { None };
    if fault.is_some() {
        return fault;
    }
    let begin = if tag.key { 10 } else { 3 };
    if packet.len() < begin + tag.first {
        return Some(PacketFault::FirstPartition);
    }
    None
}

/// Returns the fault of the first packet after its tag, if that has become the tag of an inter packet whose first
/// partition fits. The bytes of the start code and the size are then that partition. Its bools give four or eight token
/// partitions, whose sizes take nine or 21 bytes, and at most six are left. An empty partition gives one token
/// partition.
fn turned_fault(packet: &[u8]) -> Option<PacketFault>
    requires { 3 ≤ length packet.now }
{
    let tag = tag_of(packet);
    if tag.key || tag.first == 0 {
        return None;
    }
    Some(PacketFault::PartitionTable)
}

/// Returns the fault of the third packet after its tag, if its first partition fits. A partition of ones with more than
/// one byte leaves no room for the partition table. A size other than 0 extends past the end, because nothing is left.
fn table_fault(packet: &[u8], at: usize) -> Option<PacketFault>
    requires long { length packet.now ≡ 25 }
    requires inside { at < 25 }
{
    if tag_of(packet).first > 1 {
        return Some(PacketFault::PartitionTable);
    }
    if at >= 4 && packet[at] != 0 {
        return Some(PacketFault::Partition(((at - 4) / 3) as u8));
    }
    None
}

/// Returns the outcome of a packet with this fault and this tag.
fn outcome_by(fault: Option<PacketFault>, tag: Tag) -> Outcome
    ensures fault { (f : PacketFault) → fault ≡ Some f → result ≡ Outcome.Fault f }
    ensures shown { fault ≡ None → tag.shown ≡ true → result ≡ Outcome.Shown }
    ensures hidden { fault ≡ None → tag.shown ≡ false → result ≡ Outcome.Hidden }
{
    match fault {
        Some(fault) => Outcome::Fault(fault),
        None if tag.shown => Outcome::Shown,
        None => Outcome::Hidden,
    }
}

/// Returns the outcome of the packet in which byte `at` was changed, after a key packet.
fn changed_outcome(packet: &[u8], at: usize) -> Outcome
    requires first { at < 10 → length packet.now ≡ 10 }
    requires second { 10 ≤ at → at < 13 → length packet.now ≡ 3 }
    requires third { 13 ≤ at → at < SIZE × length packet.now ≡ 25 }
{
    let fault = match at {
        0..10 => tag_fault(packet).or(turned_fault(packet)),
        10..13 => tag_fault(packet),
        _ => tag_fault(packet).or(table_fault(packet, at - 13)),
    };
    outcome_by(fault, tag_of(packet))
}

/// Returns the packet that contains byte `at`.
fn packet_of(bytes: &[u8; SIZE], at: usize) -> &[u8]
    ensures first { at < 10 → length result.now ≡ 10 }
    ensures second { 10 ≤ at → at < 13 → length result.now ≡ 3 }
    ensures third { 13 ≤ at → length result.now ≡ 25 }
{
    match at {
        0..10 => &bytes[..10],
        10..13 => &bytes[10..13],
        _ => &bytes[13..],
    }
}

/// Returns the outcome of an inter packet after a packet with this outcome.
fn outcome_behind(outcome: Outcome) -> Outcome
    ensures { (f : PacketFault) → outcome ≡ Outcome.Fault f → result ≡ Outcome.Fault PacketFault.NoReference }
{
    match outcome {
        Outcome::Fault(_) => Outcome::Fault(PacketFault::NoReference),
        _ => Outcome::Shown,
    }
}

/// Decodes a key packet, the changed packet, an inter packet and the key packet. Returns the outcomes.
fn play(rt: &impl Abort, decoder: &mut Decoder, packet: &[u8]) -> [Outcome; 4] {
    let packets: [&[u8]; 4] = [&KEY, packet, &INTER, &KEY];
    let mut outcomes = [Outcome::Hidden; 4];
    for i in 0..4usize {
        outcomes[i] = decoder.decode(packets[i]).expect(rt, "memory");
    }
    outcomes
}

/// Returns the number of bytes of the shown picture, and where it isn't that of the key packet.
fn shown(rt: &impl Abort, alloc: Global, decoder: &Decoder) -> (usize, Option<usize>) {
    let picture = decoder.picture().expect(rt, "a picture");
    let bytes = picture.crop_i420(alloc).expect(rt, "memory");
    (bytes.len(), other_pixel(&bytes))
}

/// Fails the test unless all outcomes and the last picture are as expected.
fn check_packet(
    rt: &impl Abort,
    alloc: Global,
    decoder: &mut Decoder,
    packet: &[u8],
    changed: Outcome,
) {
    let wanted = [
        Outcome::Shown,
        changed,
        outcome_behind(changed),
        Outcome::Shown,
    ];
    equal!(rt; (packet, play(rt, decoder, packet)), (packet, wanted));
    equal!(rt; (packet, shown(rt, alloc, decoder)), (packet, (384, None)));
}

/// Sets byte `at` to a value, and decodes the changed packet.
fn check_value(rt: &impl Abort, alloc: Global, at: usize, value: u8)
    requires { at < SIZE }
{
    let mut bytes = PACKETS;
    bytes[at] = value;
    let packet = packet_of(&bytes, at);
    let changed = changed_outcome(packet, at);
    let limits = Limits::new(PIXELS, 16_384, 100, 1).expect(rt, "limits");
    let mut decoder = Decoder::new(alloc, limits);
    check_packet(rt, alloc, &mut decoder, packet, changed);
}

/// Sets byte `at` to each value.
fn check_byte(rt: &impl Abort, alloc: Global, at: usize)
    requires { at < SIZE }
{
    for value in 0..=255u8 {
        check_value(rt, alloc, at, value);
    }
}

#[test]
fn each_byte_takes_each_value(rt: HostRuntime) {
    for at in 0..SIZE {
        check_byte(&rt, rt.alloc(), at);
    }
}
