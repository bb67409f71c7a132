//! Faults of finding a picture, and of making its file.

use std::alloc::AllocError;
use vp_head::PacketFault;
use vp_ivf::FileFault;
use vp_webp::WebPFault;

/// Why a file gives no picture.
#[derive(Clone, Copy, Debug, PartialEq, Eq)]
pub enum FindFault {
    /// The IVF file has this fault, and no such packet before it.
    File(FileFault),
    /// The WebP file has this fault.
    WebP(WebPFault),
    /// The packet can't be decoded.
    Packet(PacketFault),
    /// The packet shows no picture.
    Hidden,
    /// The file has no such packet: it has this many.
    NoPacket(u32),
    /// None of the file's packets shows a picture: it has this many.
    NoPicture(u32),
    /// Out of memory.
    Memory,
}

impl From<AllocError> for FindFault {
    ghost use Rattle.std.specs.Prelude.{◌≡◌};
    ghost use Rattle.vp_still.specs.declared.fault.FindFault.{FindFault};

    ghost from_gives = { λ _ r. r ≡ FindFault.Memory };

    fn from(_: AllocError) -> FindFault {
        FindFault::Memory
    }
}

/// Why a picture has no WebP file.
#[derive(Clone, Copy, Debug, PartialEq, Eq)]
pub enum StillFault {
    /// A part of its key frame is too long for the packet format or for the file.
    TooLong,
    /// Out of memory.
    Memory,
}

impl From<AllocError> for StillFault {
    ghost use Rattle.std.specs.Prelude.{◌≡◌};
    ghost use Rattle.vp_still.specs.declared.fault.StillFault.{StillFault};

    ghost from_gives = { λ _ r. r ≡ StillFault.Memory };

    fn from(_: AllocError) -> StillFault {
        StillFault::Memory
    }
}
