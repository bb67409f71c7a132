//! The faults of decoding and of surveying a file.

ghost use Rattle.std.specs.Prelude.{◌≡◌, Some};
ghost use Rattle.vp_stream.specs.Names.{decode_fault_name};

use std::alloc::AllocError;
use std::fmt;
use vp_base::Device;
use vp_ivf::FileFault;
use vp_y4m::PictureFault;

/// The reasons for which a file isn't decoded to its end.
#[derive(Clone, Copy, Debug, PartialEq, Eq)]
pub enum DecodeFault {
    /// A fault of the file.
    File(FileFault),
    /// A picture differs in size from the first one, and the form requires one size.
    SizeChange,
    /// A read or a write failed.
    Device,
    /// The file did not end within 4,294,967,295 reads.
    ReadTurns,
    /// Out of memory.
    Memory,
}

/// Writes the fault's name.
impl fmt::Display for DecodeFault {
    ghost output = { λ fault. Some (decode_fault_name fault) };

    fn fmt<W: fmt::Write>(&self, f: &mut fmt::Formatter<W>) -> fmt::Result {
        let name = match self {
            DecodeFault::File(fault) => return write!(f, "{fault}"),
            DecodeFault::SizeChange => "SizeChange",
            DecodeFault::Device => "Device",
            DecodeFault::ReadTurns => "ReadTurns",
            DecodeFault::Memory => "Memory",
        };
        f.write_str(name)
    }
}

/// The reasons for which a file isn't surveyed to its end.
#[derive(Clone, Copy, Debug, PartialEq, Eq)]
pub enum SurveyFault {
    /// A read failed.
    Device,
    /// The file did not end within 4,294,967,295 reads.
    ReadTurns,
    /// Out of memory.
    Memory,
}

/// The reasons for which decoding and writing stop, other than faults of the file.
#[derive(Clone, Copy, Debug, PartialEq, Eq)]
pub enum Interruption {
    /// A picture differs in size from the first one.
    SizeChange,
    /// A write failed.
    Device,
    /// Out of memory.
    Memory,
}

impl From<AllocError> for SurveyFault {
    ghost use Rattle.vp_stream.specs.declared.fault.SurveyFault.{SurveyFault};

    ghost from_gives = { λ _ r. r ≡ SurveyFault.Memory };

    fn from(_: AllocError) -> SurveyFault {
        SurveyFault::Memory
    }
}

impl From<AllocError> for Interruption {
    ghost use Rattle.vp_stream.specs.declared.fault.Interruption.{Interruption};

    ghost from_gives = { λ _ r. r ≡ Interruption.Memory };

    fn from(_: AllocError) -> Interruption {
        Interruption::Memory
    }
}

impl From<Device> for Interruption {
    ghost use Rattle.vp_stream.specs.declared.fault.Interruption.{Interruption};

    ghost from_gives = { λ _ r. r ≡ Interruption.Device };

    fn from(_: Device) -> Interruption {
        Interruption::Device
    }
}

impl From<PictureFault> for Interruption {
    ghost use Rattle.vp_stream.specs.Transcode.{interruption_by};

    ghost from_gives = { λ f r. r ≡ interruption_by f };

    fn from(fault: PictureFault) -> Interruption {
        match fault {
            PictureFault::SizeChange => Interruption::SizeChange,
            PictureFault::Device => Interruption::Device,
        }
    }
}

impl From<Interruption> for DecodeFault {
    ghost use Rattle.vp_stream.specs.Transcode.{decode_fault_of};

    ghost from_gives = { λ i r. r ≡ decode_fault_of i };

    fn from(interruption: Interruption) -> DecodeFault {
        match interruption {
            Interruption::SizeChange => DecodeFault::SizeChange,
            Interruption::Device => DecodeFault::Device,
            Interruption::Memory => DecodeFault::Memory,
        }
    }
}

impl From<SurveyFault> for DecodeFault {
    ghost use Rattle.vp_stream.specs.Transcode.{read_fault_by};

    ghost from_gives = { λ f r. r ≡ read_fault_by f };

    fn from(fault: SurveyFault) -> DecodeFault {
        match fault {
            SurveyFault::Device => DecodeFault::Device,
            SurveyFault::ReadTurns => DecodeFault::ReadTurns,
            SurveyFault::Memory => DecodeFault::Memory,
        }
    }
}
