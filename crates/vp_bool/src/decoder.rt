//! The boolean entropy decoder (RFC 6386, chapter 7.3).

ghost use Rattle.std.specs.Prelude.{◌≡◌, ℕ, ◌+◌, ◌-◌, ◌*◌, ◌/◌, ◌%◌, ◌^◌, ◌<◌, ◌≤◌, length, List, [], ◌∷◌, replicate};
ghost use Rattle.std.specs.Prelude.{true, false};
ghost use Rattle.vp_bool.specs.Bools.{read, literal, initial_state, renormalised, number, bools, after_bools};
ghost use Rattle.vp_bool.specs.Laws.{HasReadBools, ReadsNextBool, ReadsNumberOn};
ghost use Rattle.vp_bool.specs.Window.{word_state, window_state, AreBytes, IsAligned, IsUnnormalised, IsWindow};
ghost use Rattle.vp_bool.specs.Window.{HasLoaded, IsEnded};

use std::marker::Model;

/// A 64-bit window of the partition: the current value, and the bytes that aren't loaded yet.
///
/// The value is left-aligned in its word: `8 + count` bits, then zeros. So the split is compared at a fixed position.
/// Past the end of the partition a mark is set among those zeros. It is below every split, so that no comparison
/// depends on it.
#[derive(Clone, Copy)]
struct Window<'a> {
    value: u64,
    range: u32,
    /// The number of the value's bits after the binary point.
    count: u32,
    rest: &'a [u8],
}

/// The part of a window that changes when bytes are loaded.
#[derive(Clone, Copy)]
struct Loaded<'a> {
    value: u64,
    count: u32,
    rest: &'a [u8],
}

/// Reads bools from a partition (RFC 6386, chapter 7.3).
///
/// Reading never fails: a partition is followed by implicit bytes of 0. If its first byte is 255, every bool is true,
/// because the value exceeds every range.
#[derive(Drop)]
pub struct BoolDecoder<'a> {
    window: Window<'a>,
}

impl<'a> Model for BoolDecoder<'a> {
    ghost use Rattle.vp_bool.specs.Bools.{State};

    ghost Value = { State };

    ghost use Rattle.vp_bool.specs.Fields.{state_of, IsGood};

    ghost view = { state_of };

    ghost invariant = { λ d. IsGood d };
}

impl<'a> BoolDecoder<'a> {
    /// Starts at the first bool of a partition, which may be empty.
    pub fn new(partition: &'a [u8]) -> Self
        ensures value { result ≡ initial_state partition.now }
        ensures run { HasReadBools partition.now [] result }
    {
        let (first, rest) = if partition.is_empty() {
            (0, partition)
        } else if partition[0] == 255 {
            (255, &partition[partition.len()..])
        } else {
            (partition[0], &partition[1..])
        };
        BoolDecoder {
            window: Window {
                value: u64::from(first) << 56,
                range: 255,
                count: 0,
                rest,
            },
        }
    }

    /// Copies the decoder. In a loop the compiler keeps a local copy in registers.
    #[inline(always)]
    pub fn copy(&self) -> Self
        ensures { result ≡ self.now }
    {
        BoolDecoder {
            window: self.window,
        }
    }

    /// Returns whether the decoder is past the end of its partition: more bits were shifted in than follow the first
    /// byte. What `BoolEncoder` wrote is read without passing the end. Nothing follows a first byte of 255, which no
    /// encoder writes.
    pub fn is_past_end(&self) -> bool
        ensures { result ≡ self.now.past }
    {
        let below = 1u64 << (56 - self.window.count);
        self.window.value % below != 0
    }

    /// Reads the next bool. It is false with probability `probability / 256`; 0 is treated as 1.
    #[inline(always)]
    pub fn read(&mut self, probability: u8) -> bool
        ensures value { result ≡ (read probability self.old).0 }
        ensures rest { self.new ≡ (read probability self.old).1 }
        ensures run { (bytes ps : List ℕ) → AreBytes bytes → AreBytes ps → HasReadBools bytes ps self.old
            → ReadsNextBool bytes ps (probability ∷ []) (result ∷ []) self.new }
    {
        let window = self.window;
        let split = 1 + (((window.range - 1) * u32::from(probability)) >> 8);
        let bound = u64::from(split) << 56;
        if window.value >= bound {
            self.window = renormalised(window, window.value - bound, window.range - split);
            true
        } else {
            self.window = renormalised(window, window.value, split);
            false
        }
    }

    /// Reads the next bool as `read` does, for one that is seldom true and has a probability near 256. The range then
    /// seldom has to be doubled, so that the branch is predictable, and the next bool need not wait for a shift.
    #[inline(always)]
    pub fn read_rare(&mut self, probability: u8) -> bool
        ensures value { result ≡ (read probability self.old).0 }
        ensures rest { self.new ≡ (read probability self.old).1 }
        ensures run { (bytes ps : List ℕ) → AreBytes bytes → AreBytes ps → HasReadBools bytes ps self.old
            → ReadsNextBool bytes ps (probability ∷ []) (result ∷ []) self.new }
    {
        let split = 1 + ((u32::from(probability) * (self.window.range - 1)) >> 8);
        if split < 128 || self.window.value >= u64::from(split) << 56 {
            return self.read(probability);
        }
        self.window.range = split;
        false
    }

    /// Reads `count` bools of probability 255 at once, if all are false and the range need not be doubled between them.
    /// Each takes one from the range. Returns whether it did; else nothing was read.
    #[inline(always)]
    pub fn pass_rare(&mut self, count: u32) -> bool
        requires { count ≤ 127 }
        ensures bools { result ≡ true → bools (replicate count 255) self.old ≡ replicate count false }
        ensures after { result ≡ true → self.new ≡ after_bools (replicate count 255) self.old }
        ensures kept { result ≡ false → self.new ≡ self.old }
    {
        let range = self.window.range - count;
        if range < 128 || self.window.value >= u64::from(range) << 56 {
            return false;
        }
        self.window.range = range;
        true
    }

    /// Reads the next bool with probability 128: both values are equally likely.
    #[inline(always)]
    pub fn read_even(&mut self) -> bool
        ensures value { result ≡ (read 128 self.old).0 }
        ensures rest { self.new ≡ (read 128 self.old).1 }
        ensures run { (bytes ps : List ℕ) → AreBytes bytes → AreBytes ps → HasReadBools bytes ps self.old
            → ReadsNextBool bytes ps (128 ∷ []) (result ∷ []) self.new }
    {
        let window = self.window;
        let split = (window.range + 1) >> 1;
        let bound = u64::from(split) << 56;
        let bit = window.value >= bound;
        // The branch is unpredictable, so both outcomes are computed and one is selected.
        let (value, range) = if bit {
            (window.value - bound, window.range - split)
        } else {
            (window.value, split)
        };
        self.window = renormalised(window, value, range);
        bit
    }

    /// Reads an unsigned number of `bits` bits, most significant first, each with probability 128.
    pub fn literal(&mut self, bits: u32) -> u8
        requires { bits ≤ 8 }
        ensures value { result ≡ (literal bits self.old).0 }
        ensures rest { self.new ≡ (literal bits self.old).1 }
        ensures run { (bytes ps : List ℕ) → AreBytes bytes → AreBytes ps → HasReadBools bytes ps self.old
            → ReadsNumberOn bytes ps bits result self.new }
    {
        let mut value: u32 = 0;
        for _bit in 0..bits {
            value = 2 * value + u32::from(self.read_even());
        }
        value as u8
    }
}

/// By range: the number of doublings that bring it to 128 or more.
pub(crate) const DOUBLINGS: [u8; 256] = [
    0, 7, 6, 6, 5, 5, 5, 5, 4, 4, 4, 4, 4, 4, 4, 4, 3, 3, 3, 3, 3, 3, 3, 3, 3, 3, 3, 3, 3, 3, 3, 3,
    2, 2, 2, 2, 2, 2, 2, 2, 2, 2, 2, 2, 2, 2, 2, 2, 2, 2, 2, 2, 2, 2, 2, 2, 2, 2, 2, 2, 2, 2, 2, 2,
    1, 1, 1, 1, 1, 1, 1, 1, 1, 1, 1, 1, 1, 1, 1, 1, 1, 1, 1, 1, 1, 1, 1, 1, 1, 1, 1, 1, 1, 1, 1, 1,
    1, 1, 1, 1, 1, 1, 1, 1, 1, 1, 1, 1, 1, 1, 1, 1, 1, 1, 1, 1, 1, 1, 1, 1, 1, 1, 1, 1, 1, 1, 1, 1,
    0, 0, 0, 0, 0, 0, 0, 0, 0, 0, 0, 0, 0, 0, 0, 0, 0, 0, 0, 0, 0, 0, 0, 0, 0, 0, 0, 0, 0, 0, 0, 0,
    0, 0, 0, 0, 0, 0, 0, 0, 0, 0, 0, 0, 0, 0, 0, 0, 0, 0, 0, 0, 0, 0, 0, 0, 0, 0, 0, 0, 0, 0, 0, 0,
    0, 0, 0, 0, 0, 0, 0, 0, 0, 0, 0, 0, 0, 0, 0, 0, 0, 0, 0, 0, 0, 0, 0, 0, 0, 0, 0, 0, 0, 0, 0, 0,
    0, 0, 0, 0, 0, 0, 0, 0, 0, 0, 0, 0, 0, 0, 0, 0, 0, 0, 0, 0, 0, 0, 0, 0, 0, 0, 0, 0, 0, 0, 0, 0,
];

/// Renormalises: shifts value and range left until the range is 128 or more, and loads bytes as needed.
#[inline(always)]
fn renormalised<'a>(window: Window<'a>, value: u64, range: u32) -> Window<'a>
    requires few { window.count ≤ 56 }
    requires bytes { AreBytes window.rest.now }
    requires aligned { IsAligned value window.count window.rest.now }
    requires taken { IsUnnormalised (word_state value range window.count window.rest.now) }
    ensures after { window_state result ≡
        renormalised 7 (word_state value range window.entry.count window.entry.rest.now) }
    ensures window { IsWindow result }
{
    let shift = u32::from(DOUBLINGS[range as usize]);
    let now = Loaded {
        value,
        count: window.count,
        rest: window.rest,
    };
    let now = if shift <= now.count { now } else { load(now) };
    Window {
        value: now.value << shift,
        range: range << shift,
        count: now.count - shift,
        rest: now.rest,
    }
}

/// Loads up to 6 bytes. If none are left, zeros follow, and the word is marked: the next doublings pass the end.
#[inline(always)]
fn load<'a>(old: Loaded<'a>) -> Loaded<'a>
    requires low { old.count ≤ 6 }
    requires aligned { IsAligned old.value old.count old.rest.now }
    requires bytes { AreBytes old.rest.now }
    ensures more { 0 < length old.entry.rest.now → HasLoaded old.entry result }
    ensures none { length old.entry.rest.now ≡ 0 → IsEnded old.entry result }
{
    if old.rest.is_empty() {
        return Loaded {
            value: (old.value >> 49 << 49) + 1,
            count: 48,
            rest: old.rest,
        };
    }
    let taken = old.rest.len().min(6);
    let count = old.count + 8 * taken as u32;
    let bytes = number_of(&old.rest[..taken]) << (56 - count);
    Loaded {
        value: old.value + bytes,
        count,
        rest: &old.rest[taken..],
    }
}

/// The big-endian number of at most 6 bytes.
#[cold]
#[inline(never)]
fn number_of(bytes: &[u8]) -> u64
    requires { length bytes.now ≤ 6 }
    ensures value { result ≡ number bytes.now }
    ensures small { result < 2 ^ (8 * length bytes.now) }
{
    let mut value: u64 = 0;
    for byte in bytes {
        value = value * 256 + u64::from(*byte);
    }
    value
}
