//! Laws of all live files. Each is the contract of a function that does nothing.

ghost use Rattle.vp_live.specs.Laws.{LiveFilesAreEncoded, LiveFaultsAreEncodes, LiveFilesPlayBack};

/// A live file that ended well differs from a file of `encode_all` for the same source in the head's number of packets
/// alone, and the report is the same. A fault other than `Device` is a fault of `encode_all` for the same source.
pub fn live_files_are_encoded_files()
    ensures reports { LiveFilesAreEncoded }
    ensures faults { LiveFaultsAreEncodes }
{}

/// A decoded live file shows the reconstruction of each picture whose packet is written, in order. This holds also if
/// the source broke off, under all limits that allow the file's size, its packets and their number.
pub fn live_files_play_back()
    ensures { LiveFilesPlayBack }
{}
