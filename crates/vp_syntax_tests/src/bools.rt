//! Tests of vp_bool: worked examples, read and written.

ghost use Rattle.std.specs.Prelude.{◌<◌, ◌≤◌, length};

use crate::check::{equal, equal_bytes};
use std::alloc::Global;
use std::process::Abort;
use vp_bool::{BoolDecoder, BoolEncoder};

/// Returns the bytes of a single bool of 1.
fn one_bool(rt: &impl Abort, alloc: Global) -> Vec<u8> {
    let mut e = BoolEncoder::new(alloc);
    e.write(true, 128).expect(rt, "memory");
    e.finish().expect(rt, "memory")
}

/// Returns the bytes of the number 5 in three bits.
fn five_in_three_bits(rt: &impl Abort, alloc: Global) -> Vec<u8> {
    let mut e = BoolEncoder::new(alloc);
    e.literal(5, 3).expect(rt, "memory");
    e.finish().expect(rt, "memory")
}

#[test]
fn bool_encoder_examples(rt: HostRuntime) {
    let alloc = rt.alloc();
    let rt = &rt;
    let nothing = BoolEncoder::new(alloc).finish().expect(rt, "memory");
    equal_bytes!(rt; nothing, &[0]);
    equal_bytes!(rt; one_bool(rt, alloc), &[0x80, 0]);
    equal_bytes!(rt; five_in_three_bits(rt, alloc), &[0x9f, 0xc0]);
}

#[test]
fn reads_examples(rt: HostRuntime) {
    let five = BoolDecoder::new(&[0x9f, 0xc0]).literal(3);
    let one = BoolDecoder::new(&[0x80, 0]).read(128);
    equal!(&rt; (five, one), (5, true));
    let mut zeros = BoolDecoder::new(&[]);
    let mut ones = BoolDecoder::new(&[255, 0, 0, 0, 0, 0, 0, 0, 0, 0, 0, 0]);
    for i in 0..1000u32 {
        let probability = (i % 256) as u8;
        equal!(&rt; (i, zeros.read(probability), ones.read(probability)), (i, false, true));
    }
}

/// Whether the end of a partition of zeros is passed once its bits are read, after one more bool, and after eight more.
/// In such a partition the first bool of probability 128 shifts in nothing, and each later one a bit. The first byte is
/// in the value from the start.
fn ends_of_zeros(zeros: &[u8]) -> (bool, bool, bool)
    requires empty { 0 < length zeros.now }
    requires long { length zeros.now ≤ 20 }
{
    let mut decoder = BoolDecoder::new(zeros);
    decoder.read_even();
    for _bit in 0..8 * (zeros.len() - 1) {
        decoder.read_even();
    }
    let before = decoder.is_past_end();
    decoder.read_even();
    let after_one = decoder.is_past_end();
    decoder.literal(8);
    (before, after_one, decoder.is_past_end())
}

#[test]
fn partitions_end(rt: HostRuntime) {
    let zeros = [0; 20];
    for length in 1..=20usize {
        let found = ends_of_zeros(&zeros[..length]);
        equal!(&rt; (length, found), (length, (false, true, true)));
    }
}

/// Returns the next bool of this probability, and whether the end is passed after it.
fn next(d: &mut BoolDecoder, probability: u8) -> (bool, bool) {
    (d.read(probability), d.is_past_end())
}

/// A partition of one byte ends with the first doubling. With range 255 the split of probability 128 is 128: a byte of
/// 200 leaves a range of 127, which is doubled, and a byte of 100 one of 128, which is not.
#[test]
fn partitions_of_one_byte_end(rt: HostRuntime) {
    let mut above = BoolDecoder::new(&[200]);
    let of_above = (above.is_past_end(), next(&mut above, 128));
    let mut below = BoolDecoder::new(&[100]);
    let (of_below, (_, at_end)) = (next(&mut below, 128), next(&mut below, 128));
    equal!(&rt; (of_above, of_below, at_end), ((false, (true, true)), (false, false), true));
}

/// Nothing follows a first byte of 255, so that the first doubling passes the end whatever bytes come after it. With
/// probability 1 the split is 1, and the range that is left, 254, is not doubled; the next one, 127, is.
#[test]
fn partitions_that_begin_with_255_end(rt: HostRuntime) {
    let mut d = BoolDecoder::new(&[255, 1, 2, 3, 4, 5, 6, 7, 8, 9]);
    let found = (d.is_past_end(), next(&mut d, 1), next(&mut d, 128));
    equal!(&rt; found, (false, (true, false), (true, true)));
}

/// The number of bools after which `read_rare` and `read` differ, of 4,000 that both read from these bytes with these
/// two probabilities by turns.
fn first_other(bytes: &[u8], probabilities: [u8; 2]) -> Option<usize> {
    let mut rare = BoolDecoder::new(bytes);
    let mut plain = BoolDecoder::new(bytes);
    for i in 0..4000 {
        let probability = probabilities[i % 2];
        if rare.read_rare(probability) != plain.read(probability) {
            return Some(i);
        }
    }
    None
}

/// Returns bytes of many values.
fn many_bytes() -> [u8; 251] {
    let mut bytes = [0; 251];
    for i in 0..251 {
        bytes[i] = (i * i * 7 % 251) as u8;
    }
    bytes
}

#[test]
fn rare_bools_are_the_same(rt: HostRuntime) {
    let rt = &rt;
    let bytes = many_bytes();
    for probability in 0..=255u8 {
        let high = first_other(&bytes, [probability, 255]);
        let low = first_other(&bytes, [254, probability]);
        equal!(rt; (probability, high, low), (probability, None, None));
    }
    equal!(rt; [first_other(&[255], [255, 252]), first_other(&[], [1, 128])], [None, None]);
}

#[test]
fn passing_over_rare_bools(rt: HostRuntime) {
    // The range is 255 at first, and each bool takes one from it.
    let mut zeros = BoolDecoder::new(&[]);
    let of_zeros = (zeros.pass_rare(127), zeros.pass_rare(1));
    // The value is 128.
    let mut half = BoolDecoder::new(&[0x80, 0]);
    let of_half = (half.pass_rare(127), half.pass_rare(126), half.read(255));
    equal!(&rt; (of_zeros, of_half), ((true, false), (false, true, true)));
}

/// The number of rounds after which a decoder that passes over `count` bools wherever it can, and one that reads each,
/// differ, of 1,000 that end in one bool of this probability.
fn first_passed_wrongly(bytes: &[u8], count: u32, probability: u8) -> Option<usize>
    requires { count ≤ 127 }
{
    let mut passing = BoolDecoder::new(bytes);
    let mut plain = BoolDecoder::new(bytes);
    for i in 0..1000 {
        if passing.pass_rare(count) && reads_true(&mut plain, count) {
            return Some(i);
        }
        if passing.read(probability) != plain.read(probability) {
            return Some(i);
        }
    }
    None
}

/// Whether one of the next `count` bools of probability 255 is true.
fn reads_true(d: &mut BoolDecoder, count: u32) -> bool {
    let mut found = false;
    for _bool in 0..count {
        found |= d.read(255);
    }
    found
}

#[test]
fn passed_bools_are_the_same(rt: HostRuntime) {
    let bytes = many_bytes();
    for count in [0, 1, 3, 8, 60, 127] {
        let even = first_passed_wrongly(&bytes, count, 128);
        let rare = first_passed_wrongly(&bytes, count, 254);
        let common = first_passed_wrongly(&bytes, count, 3);
        equal!(&rt; (count, even, rare, common), (count, None, None, None));
    }
}
