//! The errors of writing a packet and of encoding a frame.

use std::alloc::AllocError;

/// The reasons for which a frame can't be written as a packet.
#[derive(Clone, Copy, Debug, PartialEq, Eq)]
pub enum PacketError {
    /// The first partition exceeds 524,287 bytes, or a token partition other than the last exceeds 16,777,215 bytes.
    TooLong,
    /// Out of memory.
    Memory,
}

impl From<AllocError> for PacketError {
    ghost use Rattle.std.specs.Prelude.{◌≡◌};
    ghost use Rattle.vp_encode.specs.declared.fault.PacketError.{PacketError};

    ghost from_gives = { λ _ r. r ≡ PacketError.Memory };

    fn from(_: AllocError) -> PacketError {
        PacketError::Memory
    }
}

/// The reasons for which an encoder can't be created.
#[derive(Clone, Copy, Debug, PartialEq, Eq)]
pub enum SettingsFault {
    /// A setting is out of its range.
    Settings,
}

/// The reasons for which a frame can't be encoded.
#[derive(Clone, Copy, Debug, PartialEq, Eq)]
pub enum EncodeFault {
    /// The source differs in size from the encoder.
    SourceSize,
    /// The first partition exceeds 524,287 bytes, or a token partition other than the last exceeds 16,777,215 bytes.
    TooLong,
    /// Out of memory.
    Memory,
}

impl From<PacketError> for EncodeFault {
    ghost use Rattle.std.specs.Prelude.{◌≡◌};
    ghost use Rattle.vp_encode.specs.Faults.{fault_of};

    ghost from_gives = { λ error r. r ≡ fault_of error };

    fn from(error: PacketError) -> EncodeFault {
        match error {
            PacketError::TooLong => EncodeFault::TooLong,
            PacketError::Memory => EncodeFault::Memory,
        }
    }
}
