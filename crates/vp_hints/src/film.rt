//! The bits a second and the distance from its source of a film that is encoded.

ghost use Rattle.std.specs.Prelude.{◌≡◌, ◌<◌, ◌≤◌};
ghost use Rattle.vp_hints.specs.Film.{film_of_head, film_of_packets, film_rate, film_samples, film_scale};
ghost use Rattle.vp_hints.specs.Film.{head_number, plane_samples};
ghost use Rattle.vp_hints.specs.Seen.{seen_bytes, seen_head};

use crate::seen::Seen;
use byteorder::{ByteOrder, LittleEndian};
use std::fmt;
use std::num::nearest_u64_to_f64;
use vp_base::Dim;

/// What is known of an IVF file that is written: its size in pixels, the frames a second, and its bytes so far.
#[derive(Clone, Copy, Drop)]
pub struct Film {
    width: u64,
    height: u64,
    rate: u64,
    scale: u64,
    bytes: u64,
}

impl Film {
    /// Takes it from what was seen of the file.
    pub fn of(seen: &Seen) -> Film
        ensures { result ≡ film_of_head (seen_head seen.now) (seen_bytes seen.now) }
    {
        let head = seen.head();
        Film {
            width: number_at(head, 12, 2),
            height: number_at(head, 14, 2),
            rate: number_at(head, 16, 4),
            scale: number_at(head, 20, 4),
            bytes: seen.bytes(),
        }
    }

    /// Takes it from the packets of a file with `rate / scale` frames a second: their number, and the sum of their
    /// lengths. The file has 32 bytes before them, and 12 before each; its size saturates.
    pub fn of_packets(dim: Dim, rate: u32, scale: u32, packets: u32, bytes: u64) -> Film
        ensures { result ≡ film_of_packets dim.w dim.h rate scale packets bytes }
    {
        let heads = 32 + 12 * u64::from(packets);
        Film {
            width: u64::from(dim.w),
            height: u64::from(dim.h),
            rate: u64::from(rate),
            scale: u64::from(scale),
            bytes: bytes.saturating_add(heads),
        }
    }

    /// The frames in a number of seconds: the file's rate, and its scale.
    pub fn rate(&self) -> (u64, u64)
        ensures frames { result.0 ≡ film_rate self.now }
        ensures seconds { result.1 ≡ film_scale self.now }
    {
        (self.rate, self.scale)
    }

    /// The bits a second of a number of frames, at the file's rate.
    pub fn bits_a_second(&self, frames: u64) -> Option<f64> {
        if frames == 0 || self.rate == 0 || self.scale == 0 {
            return None;
        }
        let seconds = nearest_u64_to_f64(frames) * nearest_u64_to_f64(self.scale)
            / nearest_u64_to_f64(self.rate);
        Some(nearest_u64_to_f64(self.bytes) * 8.0 / seconds)
    }

    /// The samples of Y, U and V of a number of frames; saturates.
    pub fn samples(&self, frames: u64) -> u64
        ensures { result ≡ film_samples self.now frames }
    {
        plane_samples(self.width, self.height).saturating_mul(frames)
    }
}

/// Bits a second, written as `96.0 kbit/s`.
#[derive(Clone, Copy)]
pub struct BitRate(pub f64);

impl fmt::Display for BitRate {
    fn fmt<W: fmt::Write>(&self, f: &mut fmt::Formatter<W>) -> fmt::Result {
        if self.0 < 1_000_000.0 {
            let pace = self.0 / 1_000.0;
            write!(f, "{pace:.1} kbit/s")
        } else {
            let pace = self.0 / 1_000_000.0;
            write!(f, "{pace:.1} Mbit/s")
        }
    }
}

/// The peak signal-to-noise ratio of a number of samples, by the sum of their squared differences: `PSNR 38.2 dB`, or
/// `no difference`.
#[derive(Clone, Copy)]
pub struct Ratio(pub u64, pub u128);

impl fmt::Display for Ratio {
    fn fmt<W: fmt::Write>(&self, f: &mut fmt::Formatter<W>) -> fmt::Result {
        let error = u64::try_from(self.1).unwrap_or(u64::MAX);
        if error == 0 {
            return f.write_str("no difference");
        }
        let ratio = decibels(self.0, error);
        write!(f, "PSNR {ratio:.1} dB")
    }
}

/// A number of 1 to 8 bytes at a place in a file's head, little endian; 0 if they are not all there.
pub(crate) fn number_at(head: &[u8], place: usize, bytes: usize) -> u64
    requires some { 0 < bytes }
    requires few { bytes ≤ 8 }
    requires near { place ≤ 128 }
    ensures { result ≡ head_number head.now place bytes }
{
    if head.len() < place + bytes {
        return 0;
    }
    LittleEndian::read_uint(&head[place..], bytes)
}

/// The samples of Y, U and V of a picture with these sides; saturates.
#[tactic(auto, using(crate::proofs::FilmLemmas::saturated_planes))]
pub fn plane_samples(width: u64, height: u64) -> u64
    ensures { result ≡ plane_samples width height }
{
    let chroma = width.div_ceil(2).saturating_mul(height.div_ceil(2));
    width
        .saturating_mul(height)
        .saturating_add(chroma.saturating_mul(2))
}

/// The peak signal-to-noise ratio in decibels of a number of samples, by the sum of their squared differences.
pub fn decibels(samples: u64, error: u64) -> f64 {
    let peak = 65_025.0 * nearest_u64_to_f64(samples);
    10.0 * (peak / nearest_u64_to_f64(error)).log10()
}
