//! Stores packets, finds key packets, and decodes from them.

ghost use Rattle.std.specs.Prelude.{◌≡◌, ◌+◌, ◌-◌, ◌^◌, ◌<◌, ◌≤◌, ◌++◌, ◌∷◌, [], length, drop, IfOk, OnOk, OnErr};
ghost use Rattle.std.specs.Prelude.{vec_len};
ghost use Rattle.std.specs.Vec.{vec_capacity};
ghost use Rattle.vp_decode.specs.Step.{step};
ghost use Rattle.vp_stream.specs.Seeking.{AreKeys, is_key, key_before, answer_value, answer_values};
ghost use Rattle.vp_stream.specs.Seeking.{state_after_packets};
ghost use Rattle.vp_stream.specs.Seeking.{answer_at};
ghost use Rattle.vp_stream.specs.Cursor.{shown_value};

use crate::answer::Answer;
use std::alloc::{AllocError, Global};
use vp_base::{ByteList, Limits};
use vp_decode::{Decoder, Outcome};
use vp_ivf::{Packet, Reader};

/// Returns whether a packet is a key packet, by its length and its first byte (RFC 6386, chapter 9.1).
fn is_key(packet: &[u8]) -> bool
    ensures { result ≡ is_key packet.now }
{
    packet.len() >= 3 && packet[0] % 2 == 0
}

/// Appends a packet; there must be room for it.
fn keep(packet: Packet, packets: &mut Vec<Packet>, keys: &mut Vec<Option<u32>>)
    requires room { vec_len packets.old < vec_capacity packets.old }
    requires key_room { vec_len keys.old < vec_capacity keys.old }
    requires few { vec_len packets.old < 2 ^ 32 }
    requires keys { AreKeys packets.old.items keys.old.items }
    ensures packets { packets.new.items ≡ packets.old.items ++ packet ∷ [] }
    ensures keys { AreKeys packets.new.items keys.new.items }
    ensures capacity { vec_capacity packets.new ≡ vec_capacity packets.old }
    ensures key_capacity { vec_capacity keys.new ≡ vec_capacity keys.old }
{
    let place = packets.len();
    let key = if is_key(packet.bytes.as_slice()) {
        Some(place as u32)
    } else if place > 0 {
        keys[place - 1]
    } else {
        None
    };
    keys.push_reserved(key);
    packets.push_reserved(packet);
}

/// Appends the packets that a reader has found; there must be room for them.
pub(crate) fn keep_waiting(
    reader: &mut Reader,
    packets: &mut Vec<Packet>,
    keys: &mut Vec<Option<u32>>,
)
    requires room { vec_len packets.old + length reader.old.reading.packets ≤ vec_capacity packets.old }
    requires key_room { vec_len keys.old + length reader.old.reading.packets ≤ vec_capacity keys.old }
    requires few { vec_len packets.old + length reader.old.reading.packets < 2 ^ 32 }
    requires keys { AreKeys packets.old.items keys.old.items }
    ensures reader { reader.new ≡
        record reader.old { reading = record reader.old.reading { packets = [] } } }
    ensures packets { packets.new.items ≡ packets.old.items ++ reader.old.reading.packets }
    ensures keys { AreKeys packets.new.items keys.new.items }
{
    while let Some(packet) = reader.next_packet() {
        keep(packet, packets, keys);
    }
}

/// Returns the number of the last key packet among packets 0 to `n`.
pub(crate) fn key_of(packets: &[Packet], keys: &[Option<u32>], n: u32) -> Option<u32>
    requires { AreKeys packets.now keys.now }
    ensures { result ≡ key_before packets.now n }
{
    let n = n as usize;
    if n < keys.len() {
        keys[n]
    } else if keys.is_empty() {
        None
    } else {
        keys[keys.len() - 1]
    }
}

/// Decodes packets one after another, and counts them.
fn decode_each(
    decoder: &mut Decoder,
    packets: &[Packet],
    decoded: &mut u64,
) -> Result<(), AllocError>
    requires { decoded.old + length packets.now < 2 ^ 64 }
    ensures limits { OnOk result (decoder.new.limits ≡ decoder.old.limits) }
    ensures state { OnOk result (decoder.new.state ≡
        state_after_packets decoder.old.limits decoder.old.state packets.now) }
    ensures count { OnOk result (decoded.new ≡ decoded.old + length packets.now) }
    ensures most { OnErr result (decoded.new ≤ decoded.old + length packets.now) }
{
    for packet in packets {
        *decoded += 1;
        decoder.decode(packet.bytes.as_slice())?;
    }
    Ok(())
}

/// Returns the answer for the packet that a decoder decoded last, with this outcome.
pub(crate) fn answer_of(
    alloc: Global,
    decoder: &Decoder,
    outcome: Outcome,
) -> Result<Answer, AllocError>
    ensures { IfOk result (λ a. answer_value a ≡ shown_value decoder.now.shown outcome) }
{
    if let Some(picture) = decoder.picture() {
        let bytes = picture.crop_i420(alloc)?;
        return Ok(Answer::Shown(picture.dim(), ByteList::from_vec(bytes)));
    }
    match outcome {
        Outcome::Fault(fault) => Ok(Answer::Fault(fault)),
        // A shown picture is returned above.
        Outcome::Shown | Outcome::Hidden => Ok(Answer::Hidden),
    }
}

/// Decodes a packet, and returns the answer for it.
fn answer_to(alloc: Global, decoder: &mut Decoder, packet: &[u8]) -> Result<Answer, AllocError>
    ensures { IfOk result (λ a.
        answer_value a ≡ answer_values (step decoder.old.limits decoder.old.state packet.now).1) }
{
    let outcome = decoder.decode(packet)?;
    answer_of(alloc, decoder, outcome)
}

/// Decodes packets `first` to `n`, counts them, and returns the answer for the last one.
pub(crate) fn answer_from(
    alloc: Global,
    limits: Limits,
    packets: &[Packet],
    first: u32,
    n: u32,
    decoded: &mut u64,
) -> Result<Answer, AllocError>
    requires start { decoded.old ≡ 0 }
    requires order { first ≤ n }
    requires there { n < length packets.now }
    ensures answer { IfOk result (λ a.
        answer_value a ≡ answer_at limits (drop first packets.now) (n - first)) }
    ensures count { OnOk result (decoded.new ≡ n - first + 1) }
    ensures most { OnErr result (decoded.new ≤ n - first + 1) }
{
    let mut decoder = Decoder::new(alloc, limits);
    decode_each(&mut decoder, &packets[first as usize..n as usize], decoded)?;
    *decoded += 1;
    answer_to(alloc, &mut decoder, packets[n as usize].bytes.as_slice())
}
