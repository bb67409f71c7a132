//! What calls say of one another: a packet is decoded, and then asked for; what is written is read.

ghost use Rattle.std.specs.Prelude.{◌≡◌, ◌≢◌, ◌<◌, ◌++◌, ℕ, List, length, take, Ok, Err};
ghost use Rattle.vp_base.specs.Image.{Image};
ghost use Rattle.vp_decode.specs.Corrupt.{corrupt};
ghost use Rattle.vp_decode.specs.FrameFacts.{frame_facts};
ghost use Rattle.vp_decode.specs.Step.{Decoder};
ghost use Rattle.vp8_c.specs.declared.handle.Handle.{Handle};
ghost use Rattle.vp8_c.specs.declared.lent.LentPicture.{LentPicture};
ghost use Rattle.vp8_c.specs.declared.status.TheConstants.{MEMORY, OK, TORN};
ghost use Rattle.vp8_c.specs.Arguments.{CopiesPicture};
ghost use Rattle.vp8_c.specs.Decoding.{TellsCorrupt, TellsFrame, corrupt_in, last_frame_in};
ghost use Rattle.vp8_c.specs.Lent.{IsLayoutOf, lent_planes};
ghost use Rattle.vp8_c.specs.Packets.{corrupt_number_in, flag, frame_in, told_frame};
ghost use Rattle.vp8_c.specs.Planes.{AllFit, AreRowsOf, Planes};
ghost use Rattle.vp8_c.specs.WebP.{Place, PlacesPacket, file_of_packet, packet_of_file};

use vp_webp::written_is_read;

/// What `vp8_decoder_decode` and `vp8_decoder_decode_keeping` leave is what `vp8_decoder_frame` and
/// `vp8_decoder_corrupt` write next: the facts about the frame of this packet, and whether it is corrupt; or if memory
/// ran out, what they wrote before.
pub fn the_last_packet_is_told()
    ensures frame { (packet : List ℕ) (status : ℕ) (old new : Handle) (d : Decoder)
        → TellsFrame packet status (last_frame_in old) (last_frame_in new) d → status ≢ MEMORY
        → frame_in new ≡ told_frame (frame_facts d.limits d.state packet) }
    ensures frame_stays { (packet : List ℕ) (status : ℕ) (old new : Handle) (d : Decoder)
        → TellsFrame packet status (last_frame_in old) (last_frame_in new) d → status ≡ MEMORY
        → frame_in new ≡ frame_in old }
    ensures corrupt { (packet : List ℕ) (status : ℕ) (old new : Handle) (d : Decoder)
        → TellsCorrupt packet status (corrupt_in old) (corrupt_in new) d → status ≢ MEMORY
        → corrupt_number_in new ≡ Ok (flag (corrupt d.limits d.state packet)) }
    ensures corrupt_stays { (packet : List ℕ) (status : ℕ) (old new : Handle) (d : Decoder)
        → TellsCorrupt packet status (corrupt_in old) (corrupt_in new) d → status ≡ MEMORY
        → corrupt_number_in new ≡ corrupt_number_in old }
{}

/// A caller that reads a picture's planes by the size and the strides that `vp8_decoder_lend` writes reads the picture.
/// So does one that reads what `vp8_decoder_copy` copied into its planes, in which the picture fits.
pub fn given_pictures_are_read()
    ensures lent { (p : Image) (lent : LentPicture) → IsLayoutOf p lent
        → AreRowsOf lent.width lent.height (lent_planes p lent) p }
    ensures copied { (p : Image) (status : ℕ) (before after : Planes) → CopiesPicture p status before after
        → status ≡ OK → after.strides ≡ before.strides
        → AllFit p.width p.height before × AreRowsOf p.width p.height after p }
{}

/// In a WebP file that `vp8_webp_file` copies, `vp8_webp_packet` finds the packet, whatever bytes follow the file. If
/// the file lacks bytes at its end, the status is `TORN`. The length that is written is the packet's.
pub fn webp_files_are_read()
    ensures back { (packet file more : List ℕ) → file_of_packet packet ≡ Ok file
        → packet_of_file (file ++ more) ≡ Ok packet }
    ensures cut { (packet file : List ℕ) (n : ℕ) → file_of_packet packet ≡ Ok file → n < length file
        → packet_of_file (take n file) ≡ Err TORN }
    ensures len { (file packet : List ℕ) (status : ℕ) (before after : Place)
        → PlacesPacket file packet status before after → after.len ≡ length packet }
{
    written_is_read();
}
