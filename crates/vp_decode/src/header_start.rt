//! Reads the start of a frame header, up to the number of token partitions (RFC 6386, chapters 9.3 to 9.5). How far
//! these syntax elements extend doesn't depend on what earlier frames left.

ghost use Rattle.std.specs.Prelude.{◌≡◌, ◌≤◌, ℤ, List};
ghost use Rattle.vp_head.specs.declared.fields.LevelDeltas.{LevelDeltas};
ghost use Rattle.vp_head.specs.declared.fields.Saved.{Saved};
ghost use Rattle.vp_head.specs.declared.fields.SegmentValues.{SegmentValues};
ghost use Rattle.vp_head.specs.Rows.{magnitude, optional_signed, renewed, four_signed};
ghost use Rattle.vp_head.specs.Header.{segment_values, segmentation, level_deltas, frame};

use vp_bool::BoolDecoder;

/// Passes a number of this many bits and its sign.
#[tactic(auto, unfolding(vp_head::specs::Rows::magnitude, vp_bool::specs::Reader::bind))]
fn pass_magnitude(bits: u32, d: &mut BoolDecoder)
    requires { bits ≤ 7 }
    ensures { d.new ≡ (magnitude bits d.old).1 }
{
    d.literal(bits);
    d.read(128);
}

/// Passes an optional number of this many bits and its sign.
#[tactic(auto, unfolding(vp_head::specs::Rows::optional_signed, vp_bool::specs::Reader::bind))]
fn pass_signed(bits: u32, d: &mut BoolDecoder)
    requires { bits ≤ 7 }
    ensures { (kept : ℤ) → d.new ≡ (optional_signed bits kept d.old).1 }
{
    if d.read(128) {
        pass_magnitude(bits, d);
    }
}

/// Passes four optional numbers of this many bits, each with its sign.
#[tactic(auto, unfolding(vp_head::specs::Rows::four_signed, vp_bool::specs::Reader::bind))]
fn pass_four_signed(bits: u32, d: &mut BoolDecoder)
    requires { bits ≤ 7 }
    ensures { (kept : List ℤ) → d.new ≡ (four_signed bits kept d.old).1 }
{
    pass_signed(bits, d);
    pass_signed(bits, d);
    pass_signed(bits, d);
    pass_signed(bits, d);
}

/// Passes an optional probability.
#[tactic(auto, unfolding(vp_head::specs::Rows::renewed, vp_bool::specs::Reader::bind))]
fn pass_probability(d: &mut BoolDecoder)
    ensures { d.new ≡ (renewed 128 255 d.old).1 }
{
    if d.read(128) {
        d.literal(8);
    }
}

#[tactic(auto, unfolding(vp_head::specs::Header::segment_values, vp_bool::specs::Reader::bind))]
fn pass_segment_values(d: &mut BoolDecoder)
    ensures { d.new ≡ (segment_values d.old).1 }
{
    d.read(128);
    pass_four_signed(7, d);
    pass_four_signed(6, d);
}

#[tactic(auto, unfolding(vp_head::specs::Header::segmentation, vp_head::specs::Header::tree_probabilities, vp_bool::specs::Reader::bind))]
fn pass_segmentation(d: &mut BoolDecoder)
    ensures { (kept : SegmentValues) → d.new ≡ (segmentation kept d.old).1 }
{
    if !d.read(128) {
        return;
    }
    let update_map = d.read(128);
    let update_data = d.read(128);
    if update_data {
        pass_segment_values(d);
    }
    if update_map {
        pass_probability(d);
        pass_probability(d);
        pass_probability(d);
    }
}

#[tactic(auto, unfolding(vp_head::specs::Header::level_deltas, vp_bool::specs::Reader::bind))]
fn pass_level_deltas(d: &mut BoolDecoder)
    ensures { (kept : LevelDeltas) → d.new ≡ (level_deltas kept d.old).1 }
{
    if d.read(128) && d.read(128) {
        pass_four_signed(6, d);
        pass_four_signed(6, d);
    }
}

/// Reads the number of token partitions, as a power of two. It doesn't depend on what earlier frames left.
#[tactic(auto, unfolding(vp_head::specs::Header::frame, vp_head::specs::Header::filter, vp_bool::specs::Reader::bind))]
pub(crate) fn read_log2_partitions(key: bool, d: &mut BoolDecoder) -> u8
    ensures value { (kept : Saved) → result ≡ (frame key kept d.old).0.log2_partitions }
    ensures few { result ≤ 3 }
{
    if key {
        d.read(128);
        d.read(128);
    }
    pass_segmentation(d);
    // The loop filter.
    d.read(128);
    d.literal(6);
    d.literal(3);
    pass_level_deltas(d);
    d.literal(2)
}
