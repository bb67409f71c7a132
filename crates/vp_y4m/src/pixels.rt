//! Reading pixels.

ghost use Rattle.std.specs.Prelude.{◌≡◌, ◌≢◌, ◌<◌, ◌≤◌, ◌*◌, ◌+◌, ℕ, List, length, take, drop, OnOk, IfErr, Err};
ghost use Rattle.std.specs.Io.KnownBytes.{Consumes};
ghost use Rattle.vp_base.specs.Raster.{with_run};
ghost use Rattle.vp_base.specs.Block.{IsWhole};
ghost use Rattle.vp_base.specs.Image.{plane_of, with_plane, blank_image};
ghost use Rattle.vp_base.specs.Counted.{counted_remaining, counted_failures, counted_reads, HasFailed};
ghost use Rattle.vp_y4m.specs.declared.fault.SourceFault.{SourceFault};
ghost use Rattle.vp_y4m.specs.Reads.{TakesInReads, idle_reads};
ghost use Rattle.vp_y4m.specs.Pictures.{StopsShort};
ghost use Rattle.vp_y4m.specs.Text.{i420_length};
ghost use Rattle.vp_y4m.specs.Pixels.{ReadsRows, ReadsPicture, shown_side};

use crate::fault::SourceFault;
use std::io::Read;
use vp_base::{Counted, Picture};

// Reads the first `w` bytes of a row.
fn fill<R: Read>(reader: &mut Counted<R>, row: &mut [u8], w: usize) -> Result<(), SourceFault>
    requires { w ≤ length row.old }
    ensures ok { OnOk result (Consumes (counted_remaining R.remaining reader.old)
        (counted_remaining R.remaining reader.new) (take w row.new)) }
    ensures behind { drop w row.new ≡ drop w row.old }
    ensures short { IfErr result (λ f. StopsShort w f (counted_remaining R.remaining reader.old)
        (counted_remaining R.remaining reader.new)) }
    ensures device { result ≡ Err SourceFault.Device
        → HasFailed (counted_failures reader.old) (counted_failures reader.new) }
    ensures quiet { result ≢ Err SourceFault.Device → counted_failures reader.new ≡ counted_failures reader.old }
    ensures reads { TakesInReads (idle_reads (λ _. 0) result) (counted_remaining R.remaining reader.old)
        (counted_remaining R.remaining reader.new) (counted_reads reader.old) (counted_reads reader.new) }
    ensures within { counted_reads reader.new ≤ counted_reads reader.old + w }
{
    let mut filled = 0;
    while filled < w {
        match reader.read(&mut row[filled..w]) {
            Ok(0) => return Err(SourceFault::Torn),
            Ok(count) => filled += count,
            Err(_) => return Err(SourceFault::Device),
        }
    }
    Ok(())
}

// Reads the first `w` pixels of row `y` of plane `k`.
fn read_row<R: Read>(
    reader: &mut Counted<R>,
    picture: &mut Picture,
    k: usize,
    y: usize,
    w: usize,
) -> Result<(), SourceFault>
    requires plane { k < 3 }
    requires row { y < (plane_of picture.old k).height }
    requires columns { w ≤ (plane_of picture.old k).width }
    requires whole { IsWhole (plane_of picture.old k) }
    ensures ok { OnOk result ((taken : List ℕ) × (length taken ≡ w)
        × Consumes (counted_remaining R.remaining reader.old)
        (counted_remaining R.remaining reader.new) taken
        × (picture.new ≡ with_plane picture.old k (with_run (plane_of picture.old k) 0 y taken))) }
    ensures short { IfErr result (λ f. StopsShort w f (counted_remaining R.remaining reader.old)
        (counted_remaining R.remaining reader.new)) }
    ensures device { result ≡ Err SourceFault.Device
        → HasFailed (counted_failures reader.old) (counted_failures reader.new) }
    ensures quiet { result ≢ Err SourceFault.Device → counted_failures reader.new ≡ counted_failures reader.old }
    ensures reads { TakesInReads (idle_reads (λ _. 0) result) (counted_remaining R.remaining reader.old)
        (counted_remaining R.remaining reader.new) (counted_reads reader.old) (counted_reads reader.new) }
    ensures within { counted_reads reader.new ≤ counted_reads reader.old + w }
{
    fill(reader, picture.row_mut(k, y), w)
}

// Reads the first `w` columns of the first `h` rows of plane `k`, in raster order.
fn read_plane<R: Read>(
    reader: &mut Counted<R>,
    picture: &mut Picture,
    k: usize,
    w: usize,
    h: usize,
) -> Result<(), SourceFault>
    requires plane { k < 3 }
    requires rows { h ≤ (plane_of picture.old k).height }
    requires columns { w ≤ (plane_of picture.old k).width }
    ensures ok { OnOk result (ReadsRows w h k picture.old picture.new (counted_remaining R.remaining reader.old)
        (counted_remaining R.remaining reader.new)) }
    ensures short { IfErr result (λ f. StopsShort (h * w) f (counted_remaining R.remaining reader.old)
        (counted_remaining R.remaining reader.new)) }
    ensures device { result ≡ Err SourceFault.Device
        → HasFailed (counted_failures reader.old) (counted_failures reader.new) }
    ensures quiet { result ≢ Err SourceFault.Device → counted_failures reader.new ≡ counted_failures reader.old }
    ensures reads { TakesInReads (idle_reads (λ _. 0) result) (counted_remaining R.remaining reader.old)
        (counted_remaining R.remaining reader.new) (counted_reads reader.old) (counted_reads reader.new) }
    ensures within { counted_reads reader.new ≤ counted_reads reader.old + h * w }
{
    let _known = picture.plane(k).width();
    for y in 0..h {
        match read_row(reader, picture, k, y, w) {
            Ok(()) => {}
            Err(fault) => return Err(fault),
        }
    }
    Ok(())
}

// Reads the shown pixels of plane `k`.
fn read_shown<R: Read>(
    reader: &mut Counted<R>,
    picture: &mut Picture,
    k: usize,
) -> Result<(), SourceFault>
    requires plane { k < 3 }
    ensures ok { OnOk result (ReadsRows (shown_side k picture.old.width) (shown_side k picture.old.height) k
        picture.old picture.new (counted_remaining R.remaining reader.old)
        (counted_remaining R.remaining reader.new)) }
    ensures short { IfErr result (λ f. StopsShort (shown_side k picture.old.height * shown_side k picture.old.width) f
        (counted_remaining R.remaining reader.old) (counted_remaining R.remaining reader.new)) }
    ensures device { result ≡ Err SourceFault.Device
        → HasFailed (counted_failures reader.old) (counted_failures reader.new) }
    ensures quiet { result ≢ Err SourceFault.Device → counted_failures reader.new ≡ counted_failures reader.old }
    ensures reads { TakesInReads (idle_reads (λ _. 0) result) (counted_remaining R.remaining reader.old)
        (counted_remaining R.remaining reader.new) (counted_reads reader.old) (counted_reads reader.new) }
    ensures within { counted_reads reader.new ≤ counted_reads reader.old
        + shown_side k picture.old.height * shown_side k picture.old.width }
{
    let dim = picture.dim();
    let w = usize::from(dim.w);
    let h = usize::from(dim.h);
    match k {
        0 => read_plane(reader, picture, 0, w, h),
        1 => read_plane(reader, picture, 1, (w + 1) / 2, (h + 1) / 2),
        _ => read_plane(reader, picture, 2, (w + 1) / 2, (h + 1) / 2),
    }
}

/// Reads the shown pixels of a picture of zeros: planes Y, U, V, each in raster order.
pub(crate) fn read_pixels<R: Read>(
    reader: &mut Counted<R>,
    picture: &mut Picture,
) -> Result<(), SourceFault>
    requires { picture.old ≡ blank_image picture.old.width picture.old.height 0 }
    ensures ok { OnOk result (ReadsPicture picture.old picture.new (counted_remaining R.remaining reader.old)
        (counted_remaining R.remaining reader.new)) }
    ensures short { IfErr result (λ f. StopsShort (i420_length picture.old.width picture.old.height) f
        (counted_remaining R.remaining reader.old) (counted_remaining R.remaining reader.new)) }
    ensures device { result ≡ Err SourceFault.Device
        → HasFailed (counted_failures reader.old) (counted_failures reader.new) }
    ensures quiet { result ≢ Err SourceFault.Device → counted_failures reader.new ≡ counted_failures reader.old }
    ensures reads { TakesInReads (idle_reads (λ _. 0) result) (counted_remaining R.remaining reader.old)
        (counted_remaining R.remaining reader.new) (counted_reads reader.old) (counted_reads reader.new) }
    ensures within { counted_reads reader.new ≤ counted_reads reader.old
        + i420_length picture.old.width picture.old.height }
{
    match read_shown(reader, picture, 0) {
        Ok(()) => {}
        Err(fault) => return Err(fault),
    }
    match read_shown(reader, picture, 1) {
        Ok(()) => {}
        Err(fault) => return Err(fault),
    }
    match read_shown(reader, picture, 2) {
        Ok(()) => Ok(()),
        Err(fault) => Err(fault),
    }
}
