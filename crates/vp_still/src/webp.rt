//! The picture of a WebP file.

ghost use Rattle.std.specs.Prelude.{◌≡◌, ◌⊎◌, ℕ, List, None, Ok, IfOk, IfErr};
ghost use Rattle.vp_base.specs.Image.{i420};
ghost use Rattle.vp_webp.specs.WebP.{still_image};
ghost use Rattle.vp_decode.specs.Step.{step};
ghost use Rattle.vp_still.specs.declared.fault.FindFault.{FindFault};
ghost use Rattle.vp_still.specs.Found.{IsFoundInWebP};
ghost use Rattle.vp_still.specs.Faults.{IsFaultOfStep, IsFaultOfWebP};

use crate::fault::FindFault;
use crate::found::Found;
use std::alloc::{AllocError, Global};
use vp_base::{ByteList, Limits, Picture};
use vp_decode::{Decoder, Outcome};
use vp_webp::{WebP, WebPFault, read};

impl From<WebPFault> for FindFault {
    ghost use Rattle.std.specs.Prelude.{◌≡◌};
    ghost use Rattle.vp_still.specs.declared.fault.FindFault.{FindFault};

    ghost from_gives = { λ fault r. r ≡ FindFault.WebP fault };

    fn from(fault: WebPFault) -> FindFault {
        FindFault::WebP(fault)
    }
}

/// Finds the picture of a WebP file. Its alpha is reported, and left out.
///
/// Errors: `WebP` with the file's fault, `Packet` if its packet can't be decoded, `Hidden` if that shows no picture,
/// and `Memory`.
pub fn find_in_webp(alloc: Global, file: &[u8], limits: Limits) -> Result<Found, FindFault>
    ensures found { IfOk result (IsFoundInWebP limits file.now) }
    ensures fault { IfErr result (λ e. (e ≡ FindFault.Memory) ⊎ IsFaultOfWebP limits (still_image file.now) e) }
{
    let image = read(file)?;
    let mut decoder = Decoder::new(alloc, limits);
    decoded_picture(alloc, &mut decoder, &image)
}

// Decodes the packet of a file by a decoder without state. Returns its picture.
fn decoded_picture(
    alloc: Global,
    decoder: &mut Decoder,
    image: &WebP<'_>,
) -> Result<Found, FindFault>
    requires { decoder.old.state ≡ None }
    ensures found { IfOk result (λ f. (file : List ℕ) → still_image file ≡ Ok image.now
        → IsFoundInWebP decoder.old.limits file f) }
    ensures fault { IfErr result (λ e. (e ≡ FindFault.Memory)
        ⊎ IsFaultOfStep (step decoder.old.limits None image.now.packet).1 e) }
{
    match decoder.decode(image.packet())? {
        Outcome::Fault(fault) => Err(FindFault::Packet(fault)),
        Outcome::Hidden => Err(FindFault::Hidden),
        Outcome::Shown => match decoder.picture() {
            Some(picture) => Ok(found_picture(alloc, image, picture)?),
            None => unreachable!(),
        },
    }
}

// The packet of a file, with the number 0, and the picture that it shows.
fn found_picture(alloc: Global, image: &WebP<'_>, picture: &Picture) -> Result<Found, AllocError>
    ensures number { IfOk result (λ f. f.number ≡ 0) }
    ensures packet { IfOk result (λ f. f.packet ≡ image.now.packet) }
    ensures alpha { IfOk result (λ f. f.has_alpha ≡ image.now.has_alpha) }
    ensures width { IfOk result (λ f. f.dim.w ≡ picture.now.width) }
    ensures height { IfOk result (λ f. f.dim.h ≡ picture.now.height) }
    ensures pixels { IfOk result (λ f. f.pixels ≡ i420 picture.now) }
{
    let packet = Vec::from_slice(alloc, image.packet())?;
    let pixels = picture.crop_i420(alloc)?;
    Ok(Found {
        number: 0,
        packet: ByteList::from_vec(packet),
        dim: picture.dim(),
        pixels: ByteList::from_vec(pixels),
        has_alpha: image.has_alpha(),
    })
}
