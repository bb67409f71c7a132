//! Makes YUV4MPEG2 files from a number: a texture that moves by quarters of pixels, an object that moves otherwise, the
//! noise of a camera, and a cut.

ghost use Rattle.std.specs.Prelude.{◌≡◌, ◌<◌, ◌≤◌, ◌*◌, ◌^◌, length, vec_len, IfOk};

use crate::random::Random;
use std::alloc::{AllocError, Global};

/// The width and height of the texture, after which it repeats.
const SIDE: usize = 256;

/// Smooth noise by rows, at each of sixteen places between pixels.
#[derive(Drop)]
struct Texture {
    pixels: Vec<u8>,
}

/// A place in the texture, in quarters of pixels.
#[derive(Clone, Copy)]
struct Shift {
    x: u32,
    y: u32,
}

/// Returns the mean of two values, of which the second has `quarters` of 4 parts.
fn mix(a: u8, b: u8, quarters: u32) -> u8
    requires { quarters ≤ 3 }
{
    let sum = u32::from(a) * (4 - quarters) + u32::from(b) * quarters;
    (sum / 4) as u8
}

/// Returns noise in cells of 8 by 8 pixels, between whose corners the values are mixed, with a finer grain.
fn texture_byte(corners: &[u8], grain: u8, i: usize) -> u8
    requires { length corners.now ≡ 1024 }
{
    let (x, y) = (i % SIDE, i / SIDE % SIDE);
    let (column, row) = (x / 8, y / 8);
    let at = |c: usize, r: usize| u32::from(corners[r % 32 * 32 + c % 32]);
    let (right, down) = ((x % 8) as u32, (y % 8) as u32);
    let above = at(column, row) * (8 - right) + at(column + 1, row) * right;
    let below = at(column, row + 1) * (8 - right) + at(column + 1, row + 1) * right;
    let smooth = above
        .wrapping_mul(8 - down)
        .wrapping_add(below.wrapping_mul(down))
        / 64;
    (smooth.wrapping_mul(3).wrapping_add(u32::from(grain)) / 4).min(255) as u8
}

/// Returns the pixels of a texture at whole places, by rows.
fn whole_pixels(alloc: Global, random: &mut Random) -> Result<Vec<u8>, AllocError> {
    let mut corners = [0; 1024];
    for i in 0..1024 {
        corners[i] = (random.next() & 255) as u8;
    }
    let mut pixels = Vec::with_capacity(alloc, SIDE * SIDE)?;
    let mut grain = 128u32;
    for i in 0..SIDE * SIDE {
        grain = grain.wrapping_add(random.below(256)) / 2;
        pixels.push(texture_byte(&corners, grain.min(255) as u8, i))?;
    }
    Ok(pixels)
}

/// Returns the pixel at column x and row y.
fn pixel(pixels: &[u8], x: u32, y: u32) -> u8 {
    let place = (y & 255) as usize * SIDE + (x & 255) as usize;
    pixels.get(place).copied().unwrap_or(0)
}

/// Returns the value at a place between pixels.
fn between(pixels: &[u8], place: Shift) -> u8 {
    let (x, y) = (place.x / 4, place.y / 4);
    let (right, down) = (place.x % 4, place.y % 4);
    let above = mix(pixel(pixels, x, y), pixel(pixels, x + 1, y), right);
    let below = mix(pixel(pixels, x, y + 1), pixel(pixels, x + 1, y + 1), right);
    mix(above, below, down)
}

impl Texture {
    /// Creates a texture.
    fn new(alloc: Global, random: &mut Random) -> Result<Texture, AllocError> {
        let whole = whole_pixels(alloc, random)?;
        let mut pixels = Vec::with_capacity(alloc, 16 * SIDE * SIDE)?;
        for i in 0..16 * 65_536u32 {
            let place = Shift {
                x: i % 256 * 4 + i / 65_536 % 4,
                y: i / 256 % 256 * 4 + i / 262_144,
            };
            pixels.push(between(&whole, place))?;
        }
        Ok(Texture { pixels })
    }

    /// Returns the value at a place between pixels.
    fn at(&self, place: Shift) -> u8 {
        let part = (place.y % 4 * 4 + place.x % 4) as usize;
        let inside = (place.y / 4 % 256) as usize * SIDE + (place.x / 4 % 256) as usize;
        let at = part * 65_536 + inside;
        self.pixels.get(at).copied().unwrap_or(0)
    }
}

/// One picture of the video: its size, its number, and where the texture begins in it.
#[derive(Clone, Copy)]
struct View {
    width: u32,
    height: u32,
    time: u32,
    begin: Shift,
    ghost narrow: { width ≤ 4096 },
    ghost low: { height ≤ 4096 },
    ghost few: { time ≤ 65536 },
    ghost begin_x: { begin.x < 2 ^ 24 },
    ghost begin_y: { begin.y < 2 ^ 24 },
}

impl View {
    /// Returns whether the moving object covers a pixel.
    fn is_object(&self, x: u32, y: u32) -> bool {
        let left = self.width / 8 + 3 * (self.time % 64);
        let top = self.height / 4 + self.time % 64;
        x >= left && x < left + self.width / 4 && y >= top && y < top + self.height / 3
    }

    /// Returns the place in the texture that a pixel shows.
    fn place(&self, x: u32, y: u32) -> Shift
        requires column { x ≤ 4096 }
        requires row { y ≤ 4096 }
    {
        if self.is_object(x, y) {
            return Shift {
                x: 4 * x + 1000 + 13 * 64 - 12 * (self.time % 64),
                y: 4 * y + 700 + 4 * 64 - 4 * (self.time % 64),
            };
        }
        Shift {
            x: 4 * x + self.begin.x + 5 * self.time,
            y: 4 * y + self.begin.y + 2 * self.time,
        }
    }
}

/// Appends a plane: each pixel of `step` columns and rows, with noise.
fn append_plane(
    bytes: &mut Vec<u8>,
    texture: &Texture,
    random: &mut Random,
    view: &View,
    step: u32,
) -> Result<(), AllocError>
    requires some { 1 ≤ step }
    requires few { step ≤ 2 }
{
    let mut noise = 0;
    for row in 0..view.height / step {
        for column in 0..view.width / step {
            if column % 32 == 0 {
                noise = random.next();
            }
            let value = texture.at(view.place(step * column, step * row));
            bytes.push(value.saturating_add((noise & 3) as u8))?;
            noise >>= 2;
        }
    }
    Ok(())
}

/// Returns a YUV4MPEG2 file of this size, which is even. The scene changes in the middle.
pub(crate) fn video_of(
    alloc: Global,
    random: &mut Random,
    width: u16,
    height: u16,
    pictures: u16,
) -> Result<Vec<u8>, AllocError>
    requires narrow { width ≤ 4096 }
    requires low { height ≤ 4096 }
{
    let texture = Texture::new(alloc, random)?;
    let begin = Shift {
        x: random.below(1024),
        y: random.below(1024),
    };
    let line = format!(in alloc; "YUV4MPEG2 W{width} H{height} F30:1 Ip A0:0 C420jpeg\n")?;
    let mut file = Vec::new(alloc);
    file.extend_from_slice(line.as_bytes())?;
    for time in 0..pictures {
        let cut = if time >= pictures / 2 { 333 } else { 0 };
        let view = View {
            width: u32::from(width),
            height: u32::from(height),
            time: u32::from(time),
            begin: Shift {
                x: begin.x + cut,
                y: begin.y + 2 * cut,
            },
        };
        file.extend_from_slice(b"FRAME\n")?;
        append_plane(&mut file, &texture, random, &view, 1)?;
        append_plane(&mut file, &texture, random, &view, 2)?;
        append_plane(&mut file, &texture, random, &view, 2)?;
    }
    Ok(file)
}
