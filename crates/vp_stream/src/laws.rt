//! Theorems about all files. Each is the contract of a function that does nothing.

ghost use Rattle.std.specs.Prelude.{◌≡◌, ◌≢◌, ◌<◌, ◌≤◌, ◌+◌, ◌-◌, ◌++◌, ℕ, List, length, drop, Some, None, Err};
ghost use Rattle.vp_head.specs.declared.fault.PacketFault.{PacketFault};
ghost use Rattle.vp_stream.specs.Seeking.{size_in_key, size_in, size_in_packet};
ghost use Rattle.vp_base.specs.declared.limits.Limits.{Limits};
ghost use Rattle.vp_ivf.specs.declared.packet.Packet.{Packet};
ghost use Rattle.vp_stream.specs.Answers.{reading_of};
ghost use Rattle.vp_stream.specs.Seeking.{NoPacket, Shown, answer_at, seek_start, key_before, size_at, work_of};
ghost use Rattle.vp_stream.specs.Stream.{Stream, after_piece, stream_after_end};
ghost use Rattle.vp_stream.specs.Cursor.{Cursor, IsCursorOf, work_from};

use vp_decode::key_packet_resets;
use vp_head::first_byte_says_kind;
use vp_ivf::growing_keeps_what_was_read;

/// Growing: appended bytes change no answer other than `NoPacket`.
pub fn growing_keeps_answers()
    ensures { (limits : Limits) (file more : List ℕ) (n : ℕ)
        → answer_at limits (reading_of limits file).packets n ≢ NoPacket
        → answer_at limits (reading_of limits (file ++ more)).packets n
        ≡ answer_at limits (reading_of limits file).packets n }
{
    growing_keeps_what_was_read();
}

/// Seeking: the answer for a packet depends only on the packets from the last key packet on. Without a key packet, it
/// depends on the packet alone.
pub fn answers_come_from_the_last_key_packet()
    ensures { (limits : Limits) (packets : List Packet) (n : ℕ)
        → answer_at limits packets n ≡ answer_at limits (drop (seek_start packets n) packets)
        (n - seek_start packets n) }
{
    key_packet_resets();
    first_byte_says_kind();
}

/// A shown picture has the size that the last key packet gives.
pub fn shown_pictures_have_the_key_packets_size()
    ensures { (limits : Limits) (packets : List Packet) (n width height : ℕ) (pixels : List ℕ)
        → answer_at limits packets n ≡ Shown width height pixels
        → size_at limits packets (key_before packets n) ≡ Some (width, height) }
{
    key_packet_resets();
    first_byte_says_kind();
}

/// Only a key packet whose tag can be read gives a size.
pub fn only_key_packets_give_a_size()
    ensures key { size_in_key None ≡ None }
    ensures fault { (fault : PacketFault) → size_in (Err fault) ≡ None }
    ensures past { (limits : Limits) → size_in_packet limits None ≡ None }
{}

/// A cursor of a stream stays one when the stream is fed or ended.
pub fn cursor_outlives_a_feed()
    ensures piece { (cursor : Cursor) (stream : Stream) (piece : List ℕ) → IsCursorOf cursor stream
        → IsCursorOf cursor (after_piece stream piece) }
    ensures end { (cursor : Cursor) (stream : Stream) → IsCursorOf cursor stream
        → IsCursorOf cursor (stream_after_end stream) }
{}

/// With a cursor, packets in order cost one decoded packet each, and the packet decoded last costs none.
pub fn packets_in_order_cost_one_each()
    ensures order { (packets : List Packet) (n : ℕ) → n < length packets → work_from packets n n ≡ 1 }
    ensures again { (packets : List Packet) (n : ℕ) → work_from packets (n + 1) n ≡ 0 }

    // A cursor between the last key packet and packet n saves the packets before its next one.
    ensures between { (packets : List Packet) (n key next : ℕ) → n < length packets → key_before packets n ≡ Some key
        → key < next → next ≤ n → work_from packets next n ≡ n - next + 1 }

    // A cursor elsewhere saves nothing, and no cursor costs more than none.
    ensures before { (packets : List Packet) (n next : ℕ) → next ≤ seek_start packets n
        → work_from packets next n ≡ work_of packets n }
    ensures past { (packets : List Packet) (n next : ℕ) → n + 1 < next
        → work_from packets next n ≡ work_of packets n }
    ensures most { (packets : List Packet) (n next : ℕ) → work_from packets next n ≤ work_of packets n }
{}
