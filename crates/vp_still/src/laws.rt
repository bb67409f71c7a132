//! Laws of all WebP files that are written for a picture. Each is the contract of an empty function.

ghost use Rattle.vp_still.specs.Laws.{KeptFilesShowThePicture, EncodedFilesShowTheirDistance};
ghost use Rattle.vp_still.specs.Laws.{StillsShowTheirPictures};

use vp_decode::key_packet_resets;
use vp_stream::shown_pictures_have_the_key_packets_size;
use vp_webp::written_is_read;

/// The file of a packet that is kept is read as that packet, and shows the picture that was found: nothing is lost.
pub fn kept_files_show_the_picture()
    ensures { KeptFilesShowThePicture }
{
    written_is_read();
    key_packet_resets();
}

/// The file of a picture that is encoded is read as its packet, and shows a picture of the smaller size. Its squared
/// distance from the picture, made smaller, is the number that is returned.
pub fn encoded_files_show_their_distance()
    ensures { EncodedFilesShowTheirDistance }
{
    written_is_read();
    shown_pictures_have_the_key_packets_size();
}

/// The file for a packet of a stream shows the picture that the stream shows for that packet, or a picture at the
/// distance from it that is returned, made smaller.
pub fn stills_show_their_pictures()
    ensures { StillsShowTheirPictures }
{
    written_is_read();
    key_packet_resets();
    shown_pictures_have_the_key_packets_size();
}
