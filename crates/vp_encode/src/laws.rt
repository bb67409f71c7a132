//! Theorems about all encoded frames and files. Each is the contract of a function that does nothing.

ghost use Rattle.vp_encode.specs.Calls.{CallsArePlayedBack};
ghost use Rattle.vp_encode.specs.Playing.{EncodedFilesFit, EncodedFilesPlayBack};

/// The packets of an encoder's successful calls, in order, show the reconstructions that the calls returned. This holds
/// whichever calls between them failed, and under all limits that allow the encoder's size. The returned errors are the
/// squared distances of the reconstructions from the sources.
pub fn encoded_frames_play_back()
    ensures { CallsArePlayedBack }
{}

/// A decoded file that was encoded here shows the reconstruction of each picture, in order. This holds under all limits
/// that allow its size, its packets and their number, which include those it was encoded under.
pub fn encoded_files_play_back()
    ensures fit { EncodedFilesFit }
    ensures play { EncodedFilesPlayBack }
{}
