//! Theorems about all files and ranges. Each is the contract of a function that does nothing.

ghost use Rattle.std.specs.Prelude.{◌≡◌, ◌≢◌, ◌≤◌, ◌+◌, ◌++◌, false, ℕ, List, [], length, slice_get};
ghost use Rattle.vp_base.specs.declared.limits.Limits.{Limits};
ghost use Rattle.vp_ivf.specs.declared.packet.Packet.{Packet};
ghost use Rattle.vp_stream.specs.declared.form.Form.{Form};
ghost use Rattle.vp_stream.specs.Answers.{reading_of, answers_of};
ghost use Rattle.vp_stream.specs.Reports.{faults_from};
ghost use Rattle.vp_stream.specs.Texts.{decoded_text, pictures_of, changes_size};
ghost use Rattle.vp_frames.specs.declared.range.PacketRange.{PacketRange};
ghost use Rattle.vp_frames.specs.Ranges.{pictures_in, range_text, frames_text, faults_in, decoded_in, answers_in};

/// The range of all packets: the output and the faults are those of the whole file, and each packet is decoded once.
pub fn all_packets_are_the_file()
    ensures text { (limits : Limits) (form : Form) (file : List ℕ) (range : PacketRange) → range.first ≡ 0
        → length (reading_of limits file).packets ≤ range.last + 1
        → range_text limits form file range ≡ decoded_text limits form file }
    ensures faults { (limits : Limits) (file : List ℕ) (range : PacketRange) → range.first ≡ 0
        → length (reading_of limits file).packets ≤ range.last + 1
        → faults_in limits file range ≡ faults_from 0 (answers_of limits file) }
    ensures decoded { (packets : List Packet) (range : PacketRange) → range.first ≡ 0
        → length packets ≤ range.last + 1 → decoded_in packets range ≡ length packets }
    ensures each { (limits : Limits) (file : List ℕ) (range : PacketRange) (i : ℕ) → range.first + i ≤ range.last
        → slice_get (answers_in limits file range) i ≡ slice_get (answers_of limits file) (range.first + i) }
{}

/// The output for a range as I420 is a part of the output for the whole file.
pub fn a_range_is_a_part_of_the_file()
    ensures { (limits : Limits) (file : List ℕ) (range : PacketRange)
        → (before behind : List ℕ) × (decoded_text limits Form.I420 file
        ≡ before ++ (range_text limits Form.I420 file range ++ behind)) }
{}

/// The output for a range as YUV4MPEG2 is the header line of the output for the whole file, and a part of what follows
/// it, if the range has a picture and all pictures of the file have one size.
pub fn a_range_has_the_files_header()
    ensures { (limits : Limits) (file : List ℕ) (range : PacketRange)
        → changes_size Form.Y4m (pictures_of limits file) ≡ false → pictures_in limits file range ≢ []
        → (line before behind : List ℕ)
        × (range_text limits Form.Y4m file range ≡ line ++ frames_text (pictures_in limits file range))
        × (decoded_text limits Form.Y4m file
        ≡ line ++ (before ++ (frames_text (pictures_in limits file range) ++ behind))) }
{}
