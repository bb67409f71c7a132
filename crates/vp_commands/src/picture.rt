//! The command `vp8 picture`.

ghost use Rattle.std.specs.Prelude.{◌≡◌, ◌≤◌, ◌++◌, List, ℕ, IfOk, IfErr, Result, false};
ghost use Rattle.std.specs.Io.KnownBytes.{Consumes, IsAtEnd};
ghost use Rattle.vp_base.specs.Counted.{counted_remaining};
ghost use Rattle.vp_commands.specs.Commands.{is_stream, read_side, status_by_picture, IsFileRead, IsMadeInput};
ghost use Rattle.vp_commands.specs.Commands.{Over};
ghost use Rattle.vp_commands.specs.Picturing.{is_told, IsUnmade, is_foreign, IsPictureFile};
ghost use Rattle.vp_commands.specs.declared.picture.MadePicture.{MadePicture};
ghost use Rattle.vp_commands.specs.declared.picture_fault.PictureFault.{PictureFault};
ghost use Rattle.vp_scale.specs.Scale.{factor_of, scaled_side};

use crate::encoded::samples;
use crate::files::limits_of;
use crate::hints::hint_picture;
use crate::outside::Outside;
use crate::picture_fault::{PictureFault, report_picture_fault};
use std::alloc::Global;
use std::io;
use std::io::{Read, Write};
use std::rt::Files;
use vp_args::{PictureArgs, StillForm};
use vp_base::{ByteList, Counted, Dim, put_all};
use vp_hints::decibels;
use vp_still::{Coding, Found, find, i420_still, ppm_still, webp_still, y4m_still};

/// The file of a picture.
#[derive(Drop)]
pub struct MadePicture {
    /// The number of the packet, counted from 0.
    pub number: u32,
    /// The size of the picture in pixels.
    pub dim: Dim,
    /// The bytes of the file.
    pub bytes: ByteList,
    /// How the picture got into it, if it is a WebP file.
    pub coding: Option<Coding>,
    /// Whether the input has alpha, which is left out.
    pub has_alpha: bool,
}

/// Makes the file of one picture, and reports it: what was written, or the fault. Returns the exit status.
pub fn run_picture<H: Files + AllocGlobal, R: Read, E: Write>(
    outside: &mut Outside<'_, H>,
    wanted: &PictureArgs<'_>,
    input: &mut Counted<R>,
    errors: &mut Counted<E>,
) -> u8
    ensures status { result ≤ 1 }
    ensures does { (done : Result MadePicture PictureFault) × (result ≡ status_by_picture done)
        × Over wanted.now.input.now (IsMadeInput wanted.now done) (read_side R.remaining input.old)
        (read_side R.remaining input.new) }
{
    let done = write_picture(outside, wanted, input);
    report_picture(outside, &done, wanted, errors)
}

// Reads the input file, makes the file of its picture, and then writes it. The output must not be the input file.
fn write_picture<H: Files + AllocGlobal, R: Read>(
    outside: &mut Outside<'_, H>,
    wanted: &PictureArgs<'_>,
    input: &mut Counted<R>,
) -> Result<MadePicture, PictureFault>
    ensures made { Over wanted.now.input.now (IsMadeInput wanted.now result) (read_side R.remaining input.old)
        (read_side R.remaining input.new) }
    ensures unread { is_stream wanted.now.input.now ≡ false → input.new ≡ input.old }
{
    match made_picture(outside, wanted, input) {
        Ok(made) => written(outside, wanted.output, made),
        Err(fault) => Err(fault),
    }
}

// Opens the input file, and makes the file of its picture.
fn made_picture<H: Files + AllocGlobal, R: Read>(
    outside: &mut Outside<'_, H>,
    wanted: &PictureArgs<'_>,
    input: &mut Counted<R>,
) -> Result<MadePicture, PictureFault>
    ensures made { Over wanted.now.input.now (IsMadeInput wanted.now result) (read_side R.remaining input.old)
        (read_side R.remaining input.new) }
    ensures unread { is_stream wanted.now.input.now ≡ false → input.new ≡ input.old }
{
    if wanted.input == "-" {
        return picture_of(outside.alloc(), wanted, input);
    }
    if wanted.input == wanted.output {
        outside.is_one_file = true;
        return Err(PictureFault::Device);
    }
    match outside.open(wanted.input) {
        Ok(mut file) => {
            let made = picture_of(outside.alloc(), wanted, &mut Counted::new(&mut file));
            outside.has_read(file);
            made
        }
        Err(error) => Err(PictureFault::from(error)),
    }
}

// Makes the file of the picture of an open input.
fn picture_of<R: Read>(
    alloc: Global,
    wanted: &PictureArgs<'_>,
    input: &mut Counted<R>,
) -> Result<MadePicture, PictureFault>
    ensures { IsMadeInput wanted.now result (read_side R.remaining input.old) (read_side R.remaining input.new) }
{
    let file = read_file(alloc, input)?;
    match find(alloc, &file, wanted.packet, limits_of(wanted.limits)) {
        Ok(found) => make(alloc, &found, wanted),
        Err(fault) => Err(PictureFault::Find(fault)),
    }
}

// Makes the file of a picture that was found.
fn make(alloc: Global, found: &Found, wanted: &PictureArgs<'_>) -> Result<MadePicture, PictureFault>
    ensures number { IfOk result (λ m. m.number ≡ found.now.number) }
    ensures width { IfOk result (λ m. m.dim.w ≡ scaled_side (factor_of wanted.now.scale) found.now.dim.w) }
    ensures height { IfOk result (λ m. m.dim.h ≡ scaled_side (factor_of wanted.now.scale) found.now.dim.h) }
    ensures alpha { IfOk result (λ m. m.has_alpha ≡ found.now.has_alpha) }
    ensures unmade { IfErr result (IsUnmade wanted.now found.now) }
    ensures file { IfOk result (λ m. IsPictureFile wanted.now.form wanted.now.scale wanted.now.qi found.now
        m.bytes m.coding) }
{
    let (bytes, coding) = match wanted.form {
        StillForm::WebP => {
            let still = webp_still(alloc, found, wanted.scale, wanted.qi)?;
            (still.file, Some(still.coding))
        }
        StillForm::Y4m => (y4m_still(alloc, found, wanted.scale)?, None),
        StillForm::I420 => (i420_still(alloc, found, wanted.scale)?, None),
        StillForm::Ppm => (ppm_still(alloc, found, wanted.scale)?, None),
    };
    Ok(MadePicture {
        number: found.number,
        dim: wanted.scale.size(found.dim),
        bytes,
        coding,
        has_alpha: found.has_alpha,
    })
}

// Reads an IVF or WebP file to its end. Of a file that begins otherwise only the first bytes are read.
fn read_file<R: Read>(alloc: Global, input: &mut Counted<R>) -> Result<Vec<u8>, PictureFault>
    ensures file { IfOk result (λ file. IsFileRead file.items (read_side R.remaining input.old)
        (read_side R.remaining input.new)) }
    ensures untold { IfErr result (λ fault. is_told fault ≡ false) }
{
    let mut file = Vec::new(alloc);
    for _turn in 0..u32::MAX {
        let more = read_piece(input, &mut file)?;
        if !more || is_foreign(&file) {
            return Ok(file);
        }
    }
    Err(PictureFault::ReadTurns)
}

// Reads once, and appends the bytes to `file`. Returns false at the end of the input.
fn read_piece<R: Read>(input: &mut Counted<R>, file: &mut Vec<u8>) -> Result<bool, PictureFault>
    ensures piece { IfOk result (λ _. (piece : List ℕ) × (file.new.items ≡ file.old.items ++ piece)
        × Consumes (counted_remaining R.remaining input.old) (counted_remaining R.remaining input.new) piece) }
    ensures end { IfOk result (λ more. more ≡ false → IsAtEnd (counted_remaining R.remaining input.new)) }
    ensures untold { IfErr result (λ fault. is_told fault ≡ false) }
{
    let mut buffer = [0; 16_384];
    let count = input.read(&mut buffer)?;
    file.extend_from_slice(&buffer[..count])?;
    Ok(count != 0)
}

// Whether a file, whose first bytes these are, is neither an IVF nor a WebP file.
#[tactic(auto, unfolding(crate::specs::Picturing::is_foreign))]
fn is_foreign(file: &[u8]) -> bool
    ensures { result ≡ is_foreign file.now }
{
    32 <= file.len() && !file.starts_with(b"DKIF") && !file.starts_with(b"RIFF")
}

// Writes the file of a picture.
fn written<H: Files + AllocGlobal>(
    outside: &mut Outside<'_, H>,
    name: &str,
    made: MadePicture,
) -> Result<MadePicture, PictureFault>
    ensures made { IfOk result (λ m. m ≡ made) }
    ensures untold { IfErr result (λ fault. is_told fault ≡ false) }
{
    match outside.make(name) {
        Ok(mut file) => {
            let put = put_all(&mut Counted::new(&mut file), made.bytes.as_slice());
            outside.has_written(name, file);
            match put {
                Ok(()) => Ok(made),
                Err(_) => Err(PictureFault::Device),
            }
        }
        Err(error) => Err(PictureFault::from(error)),
    }
}

// Says what was written, or the fault, and returns the exit status.
fn report_picture<H, E: Write>(
    outside: &Outside<'_, H>,
    done: &Result<MadePicture, PictureFault>,
    wanted: &PictureArgs<'_>,
    errors: &mut Counted<E>,
) -> u8
    ensures { result ≡ status_by_picture done.now }
{
    match done {
        Ok(made) => {
            print_made(made, errors);
            0
        }
        Err(_) if outside.is_cut_off() => 1,
        Err(fault) => {
            report_picture_fault(*fault, wanted, errors);
            let _ = hint_picture(outside, *fault, wanted, errors);
            1
        }
    }
}

// Prints the line of a picture that was written, and what was left out.
fn print_made<E: Write>(made: &MadePicture, errors: &mut Counted<E>) {
    let (number, w, h) = (made.number, made.dim.w, made.dim.h);
    let _ = write!(errors, "packet {number}: {w}x{h}");
    let _ = print_coding(made, errors);
    if made.has_alpha {
        let _ = writeln!(errors, "  alpha is left out");
    }
}

// Ends the line of a picture by how it got into a WebP file.
fn print_coding<E: Write>(made: &MadePicture, errors: &mut Counted<E>) -> io::Result<()> {
    let words = match made.coding {
        None => "",
        Some(Coding::Kept) => ", as it stands",
        Some(Coding::Encoded(0)) => ", encoded without a difference",
        Some(Coding::Encoded(error)) => {
            let ratio = decibels(samples(made.dim), error);
            return writeln!(errors, ", encoded with PSNR {ratio:.2} dB");
        }
    };
    writeln!(errors, "{words}")
}
