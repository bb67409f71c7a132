//! Laws of all IVF files, each the contract of an empty function.

ghost use Rattle.vp_ivf.specs.Laws.{IsFaithful, IsReadInPieces, KeepsPackets, KeepsHead, KeepsFault, IsReadBack};
ghost use Rattle.vp_ivf.specs.Laws.{EndsWell, CutsAll, LeavesNoPacket, CountsPackets, CutsWhatFits, ShowsFaults};
ghost use Rattle.vp_ivf.specs.Laws.{ObeysLaws, IsDetermined};

/// A file with a valid header is that header, the packets that were read, and the remaining bytes: no byte is lost or
/// moved.
pub fn reading_is_faithful()
    ensures { IsFaithful }
{}

/// All complete packets are read: without a fault, the remaining bytes are less than one packet.
pub fn cutting_leaves_no_packet()
    ensures short { CutsAll }
    ensures settled { LeavesNoPacket }
{}

/// The packets that are read are within the limits, and the bytes prove each fault.
pub fn reading_keeps_to_limits()
    ensures counts { CountsPackets }
    ensures fits { CutsWhatFits }
    ensures faults { ShowsFaults }
{}

/// The laws determine the reading: the contents of a file obey them, and nothing else does.
pub fn laws_determine_the_reading()
    ensures obeyed { ObeysLaws }
    ensures determined { IsDetermined }
{}

/// A growing file: appended bytes change no packet, header or fault that was read before.
pub fn growing_keeps_what_was_read()
    ensures pieces { IsReadInPieces }
    ensures packets { KeepsPackets }
    ensures head { KeepsHead }
    ensures fault { KeepsFault }
{}

/// A written header and packets are read back, under all limits that they satisfy.
pub fn written_is_read()
    ensures back { IsReadBack }
    ensures end { EndsWell }
{}
