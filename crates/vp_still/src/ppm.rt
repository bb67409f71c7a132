//! Pictures as PPM files.

ghost use Rattle.std.specs.Prelude.{◌≡◌, ◌≤◌, ◌<◌, ◌+◌, ◌*◌, ◌/◌, ◌++◌, ℕ, length, take, drop, IfOk, OnOk};
ghost use Rattle.std.specs.Prelude.{slice_range};
ghost use Rattle.std.specs.List.{flat_map, range_with_len};
ghost use Rattle.vp_scale.specs.Planes.{half, i420_size};
ghost use Rattle.vp_still.specs.Ppm.{times, shade, rgb, rgb_row, row_in, ppm_head, ppm_text, ppm_still};

use crate::found::Found;
use std::alloc::{AllocError, Global};
use vp_base::{ByteList, Dim};
use vp_scale::{Scale, scaled};

/// The picture, made smaller, as a binary PPM file, which many programs read. A chroma sample counts for its two by two
/// pixels.
pub fn ppm_still(alloc: Global, found: &Found, scale: Scale) -> Result<ByteList, AllocError>
    ensures { IfOk result (λ f. f ≡ ppm_still scale found.now.dim.w found.now.dim.h found.now.pixels) }
{
    let picture = scaled(alloc, found.dim, found.pixels.as_slice(), scale)?;
    let pixels = picture.crop_i420(alloc)?;
    ppm_file(alloc, picture.dim(), &pixels)
}

// The file of a picture.
#[tactic(auto, unfolding(crate::specs::Ppm::ppm_text))]
fn ppm_file(alloc: Global, dim: Dim, pixels: &[u8]) -> Result<ByteList, AllocError>
    requires { length pixels.now ≡ i420_size dim.w dim.h }
    ensures { IfOk result (λ f. f ≡ ppm_text dim.w dim.h pixels.now) }
{
    let mut out = head(alloc, dim)?;
    put_rows(&mut out, dim, pixels)?;
    Ok(ByteList::from_vec(out))
}

// The lines before the pixels.
#[tactic(auto, unfolding(crate::specs::Ppm::ppm_head))]
fn head(alloc: Global, dim: Dim) -> Result<Vec<u8>, AllocError>
    ensures { IfOk result (λ v. v.items ≡ ppm_head dim.w dim.h) }
{
    let [width, height] = [dim.w, dim.h];
    let text = format!(in alloc; "P6\n{width} {height}\n255\n")?;
    Ok(text.into_bytes())
}

// Appends all rows of a picture.
fn put_rows(out: &mut Vec<u8>, dim: Dim, pixels: &[u8]) -> Result<(), AllocError>
    requires { length pixels.now ≡ i420_size dim.w dim.h }
    ensures { OnOk result (out.new.items
        ≡ out.old.items ++ flat_map (row_in dim.w dim.h pixels.now) (range_with_len 0 dim.h)) }
{
    let [width, height] = [usize::from(dim.w), usize::from(dim.h)];
    let [columns, rows] = [(width + 1) / 2, (height + 1) / 2];
    let luma = plane_at(pixels, 0, height * width);
    let u = plane_at(pixels, height * width, rows * columns);
    let v = plane_at(pixels, height * width + rows * columns, rows * columns);
    for y in 0..height {
        let u_row = row_at(u, columns, rows, y / 2);
        let v_row = row_at(v, columns, rows, y / 2);
        put_row(out, row_at(luma, width, height, y), u_row, v_row)?;
    }
    Ok(())
}

// The `size` bytes of a plane that begins at byte `at`.
fn plane_at(bytes: &[u8], at: usize, size: usize) -> &[u8]
    requires { at + size ≤ length bytes.now }
    ensures value { result.now ≡ take size (drop at bytes.now) }
    ensures size { length result.now ≡ size }
{
    &bytes[at..at + size]
}

// Row `y` of a plane of this width and height.
fn row_at(plane: &[u8], width: usize, height: usize, y: usize) -> &[u8]
    requires size { length plane.now ≡ height * width }
    requires row { y < height }
    ensures value { result.now ≡ slice_range plane.now (y * width) (y * width + width) }
    ensures size { length result.now ≡ width }
{
    &plane[y * width..y * width + width]
}

// Appends a row of pixels.
#[tactic(auto, unfolding(crate::specs::Ppm::rgb_row))]
fn put_row(out: &mut Vec<u8>, luma: &[u8], u: &[u8], v: &[u8]) -> Result<(), AllocError>
    requires u { length luma.now ≤ 2 * length u.now }
    requires v { length luma.now ≤ 2 * length v.now }
    ensures { OnOk result (out.new.items ≡ out.old.items ++ rgb_row luma.now u.now v.now) }
{
    for x in 0..luma.len() {
        out.extend_from_slice(&rgb(luma[x], u[x / 2], v[x / 2]))?;
    }
    Ok(())
}

// Red, green and blue of a pixel.
fn rgb(y: u8, u: u8, v: u8) -> [u8; 3]
    ensures { result ≡ rgb y u v }
{
    let light = times(19077, y);
    [
        shade((light + times(26149, v)).saturating_sub(14234)),
        shade((light + 8708).saturating_sub(times(6419, u) + times(13320, v))),
        shade((light + times(33050, u)).saturating_sub(17685)),
    ]
}

// A sample times a factor, in 64ths.
fn times(factor: u32, sample: u8) -> u32
    requires { factor ≤ 65536 }
    ensures value { result ≡ times factor sample }
    ensures bound { result ≤ 65280 }
{
    factor * u32::from(sample) / 256
}

// 64ths as a number from 0 to 255.
fn shade(n: u32) -> u8
    ensures { result ≡ shade n }
{
    (n / 64).min(255) as u8
}
