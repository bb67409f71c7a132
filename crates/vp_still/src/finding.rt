//! The picture of a file of either kind.

ghost use Rattle.std.specs.Prelude.{◌≡◌, ◌⊎◌, IfOk, IfErr};
ghost use Rattle.vp_still.specs.declared.fault.FindFault.{FindFault};
ghost use Rattle.vp_still.specs.Found.{IsFoundIn};
ghost use Rattle.vp_still.specs.Faults.{IsFaultIn, IsFaultOfOther};
ghost use Rattle.vp_webp.specs.WebP.{still_image};

use crate::fault::FindFault;
use crate::found::Found;
use crate::ivf::find_in_ivf;
use crate::webp::find_in_webp;
use std::alloc::Global;
use vp_base::Limits;
use vp_webp::read;

/// Finds a picture of a WebP file, which begins with `RIFF`, or else of an IVF file: that of the packet with this
/// number, counted from 0, or the first that is shown. A WebP file has one packet.
///
/// Errors: those of `find_in_webp` and `find_in_ivf`. For any other number than 0 of a WebP file, its fault, or else
/// `NoPacket`.
pub fn find(
    alloc: Global,
    file: &[u8],
    wanted: Option<u32>,
    limits: Limits,
) -> Result<Found, FindFault>
    ensures found { IfOk result (IsFoundIn limits file.now wanted) }
    ensures fault { IfErr result (λ e. (e ≡ FindFault.Memory) ⊎ IsFaultIn limits file.now wanted e) }
{
    if !file.starts_with(b"RIFF") {
        return find_in_ivf(alloc, file, wanted, limits);
    }
    match wanted {
        None | Some(0) => find_in_webp(alloc, file, limits),
        Some(_) => Err(other_packet(file)),
    }
}

// The fault of a WebP file for another number than 0.
fn other_packet(file: &[u8]) -> FindFault
    ensures { IsFaultOfOther (still_image file.now) result }
{
    match read(file) {
        Ok(_) => FindFault::NoPacket(1),
        Err(fault) => FindFault::WebP(fault),
    }
}
