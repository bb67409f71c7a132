//! The report and the faults of encoding a file.

ghost use Rattle.std.specs.Prelude.{◌≡◌, ◌≢◌, Some};
ghost use Rattle.vp_encode.specs.declared.fault.EncodeFault.{EncodeFault};
ghost use Rattle.vp_encode.specs.declared.report.EncodeAllFault.{EncodeAllFault};
ghost use Rattle.vp_encode.specs.Names.{encode_fault_name};

use crate::fault::{EncodeFault, SettingsFault};
use std::alloc::AllocError;
use std::fmt;
use vp_base::Device;
use vp_y4m::SourceFault;

/// The report of encoding a file.
#[derive(Clone, Copy, Debug, PartialEq, Eq)]
pub struct EncodeReport {
    /// The number of pictures.
    pub frames: u32,
    /// The sum of the squared errors of all pictures, over the shown pixels of Y, U and V.
    pub error: u128,
}

/// What a progress callback receives: how much of a file is encoded so far.
#[derive(Clone, Copy, Debug, PartialEq, Eq)]
pub struct EncodedSoFar {
    /// The number of pictures.
    pub frames: u32,
    /// The sum of the lengths of their packets, in bytes.
    pub bytes: u64,
    /// The sum of their squared errors, over the shown pixels of Y, U and V.
    pub error: u128,
}

/// The reasons for which a file can't be encoded.
#[derive(Clone, Copy, Debug, PartialEq, Eq)]
pub enum EncodeAllFault {
    /// A line is longer than 1,024 bytes or doesn't begin with its keyword, or a rate isn't two numbers.
    Magic,
    /// The width or the height is missing, isn't a number, or exceeds the limits.
    Size,
    /// The colour space isn't 4:2:0 of 8 bits.
    Colour,
    /// The pictures are interlaced.
    Interlaced,
    /// The file ends inside its header, a line or a picture.
    Torn,
    /// A setting is out of its range.
    Settings,
    /// The file has more pictures than the limits allow packets.
    TooMany,
    /// A partition is longer than the packet format allows.
    TooLong,
    /// A packet has more bytes than the limits allow.
    PacketTooLarge,
    /// A read or a write failed.
    Device,
    /// Out of memory.
    Memory,
}

impl EncodeAllFault {
    /// Returns the fault of a file of which a picture of the encoder's size can't be encoded.
    pub fn of_picture(fault: EncodeFault) -> EncodeAllFault
        requires { fault ≢ EncodeFault.SourceSize }
        ensures too_long { fault ≡ EncodeFault.TooLong → result ≡ EncodeAllFault.TooLong }
        ensures memory { fault ≡ EncodeFault.Memory → result ≡ EncodeAllFault.Memory }
    {
        match fault {
            EncodeFault::SourceSize => unreachable!(),
            EncodeFault::TooLong => EncodeAllFault::TooLong,
            EncodeFault::Memory => EncodeAllFault::Memory,
        }
    }
}

/// Writes the fault's name.
impl fmt::Display for EncodeAllFault {
    ghost output = { λ fault. Some (encode_fault_name fault) };

    fn fmt<W: fmt::Write>(&self, f: &mut fmt::Formatter<W>) -> fmt::Result {
        f.write_str(match self {
            EncodeAllFault::Magic => "Magic",
            EncodeAllFault::Size => "Size",
            EncodeAllFault::Colour => "Colour",
            EncodeAllFault::Interlaced => "Interlaced",
            EncodeAllFault::Torn => "Torn",
            EncodeAllFault::Settings => "Settings",
            EncodeAllFault::TooMany => "TooMany",
            EncodeAllFault::TooLong => "TooLong",
            EncodeAllFault::PacketTooLarge => "PacketTooLarge",
            EncodeAllFault::Device => "Device",
            EncodeAllFault::Memory => "Memory",
        })
    }
}

impl From<AllocError> for EncodeAllFault {
    ghost use Rattle.vp_encode.specs.declared.report.EncodeAllFault.{EncodeAllFault};

    ghost from_gives = { λ _ r. r ≡ EncodeAllFault.Memory };

    fn from(_: AllocError) -> EncodeAllFault {
        EncodeAllFault::Memory
    }
}

impl From<Device> for EncodeAllFault {
    ghost use Rattle.vp_encode.specs.declared.report.EncodeAllFault.{EncodeAllFault};

    ghost from_gives = { λ _ r. r ≡ EncodeAllFault.Device };

    fn from(_: Device) -> EncodeAllFault {
        EncodeAllFault::Device
    }
}

impl From<SettingsFault> for EncodeAllFault {
    ghost use Rattle.vp_encode.specs.declared.report.EncodeAllFault.{EncodeAllFault};

    ghost from_gives = { λ _ r. r ≡ EncodeAllFault.Settings };

    fn from(_: SettingsFault) -> EncodeAllFault {
        EncodeAllFault::Settings
    }
}

impl From<SourceFault> for EncodeAllFault {
    ghost use Rattle.vp_encode.specs.File.{encode_fault_of};

    ghost from_gives = { λ f r. r ≡ encode_fault_of f };

    fn from(fault: SourceFault) -> EncodeAllFault {
        match fault {
            SourceFault::Magic => EncodeAllFault::Magic,
            SourceFault::Size => EncodeAllFault::Size,
            SourceFault::Colour => EncodeAllFault::Colour,
            SourceFault::Interlaced => EncodeAllFault::Interlaced,
            SourceFault::Torn => EncodeAllFault::Torn,
            SourceFault::Device => EncodeAllFault::Device,
            SourceFault::Memory => EncodeAllFault::Memory,
        }
    }
}
