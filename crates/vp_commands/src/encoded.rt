//! The line about a file that was encoded.

use crate::outside::Outside;
use std::io;
use std::io::Write;
use vp_base::Dim;
use vp_encode::EncodeReport;
use vp_hints::{BitRate, Film, Grouped, Ratio, plane_samples};

/// Prints the frames, the bytes, the bits a second and the peak signal-to-noise ratio of an encoded file.
pub(crate) fn tell_encoded<H, W: Write>(
    outside: &Outside<'_, H>,
    report: &EncodeReport,
    output: &mut W,
) -> io::Result<()> {
    let Some(file) = &outside.encoded else {
        return Ok(());
    };
    let (frames, size) = (
        Grouped(u64::from(report.frames)),
        Grouped(file.bytes() / 1_000),
    );
    write!(output, "  {frames} frames, {size} kB")?;
    if report.frames > 0 {
        print_quality(report, Film::of(file), output)?;
    }
    writeln!(output)
}

// Prints the bits a second at the file's rate, and the peak signal-to-noise ratio over all frames.
fn print_quality<W: Write>(report: &EncodeReport, film: Film, output: &mut W) -> io::Result<()> {
    let frames = u64::from(report.frames);
    if let Some(bits) = film.bits_a_second(frames) {
        let (pace, (rate, scale)) = (BitRate(bits), film.rate());
        write!(output, ", {pace} at {rate}/{scale}")?;
    }
    let ratio = Ratio(film.samples(frames), report.error);
    write!(output, ", {ratio}")
}

/// The samples of Y, U and V of a picture.
pub(crate) fn samples(dim: Dim) -> u64 {
    plane_samples(u64::from(dim.w), u64::from(dim.h))
}
