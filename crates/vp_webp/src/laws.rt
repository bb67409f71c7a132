//! Laws of all WebP files, each the contract of an empty function.

ghost use Rattle.vp_webp.specs.Laws.{IsWebPReadBack, IsTornIfCut, IsFaithfulToFile, IsReadByItsChunks};

/// A written file is read as its packet, whatever bytes follow it; and a written file that is cut short is torn.
pub fn written_is_read()
    ensures back { IsWebPReadBack }
    ensures cut { IsTornIfCut }
{}

/// The packet of a file that is read is the first picture of its chunks, and these are what the file's size says.
pub fn packet_is_in_the_file()
    ensures { IsFaithfulToFile }
{}

/// A file that has a picture is read as its first picture and the chunks before it say: they are passed over, report
/// alpha and of the canvas, or have the fault.
pub fn chunks_determine_the_image()
    ensures { IsReadByItsChunks }
{}
