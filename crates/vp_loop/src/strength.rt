//! The filter level of a macroblock, 0 to 63, and the limits of its edges that are computed from it: its [`Level`].

ghost use Rattle.std.specs.Prelude.{◌≡◌, ℤ, ◌+◌, ◌-◌, ◌*◌, ◌/◌, ◌≤◌, ◌≤ℤ◌, pos, negsuc, ◌==◌, ◌||◌};
ghost use Rattle.vp_loop.specs.Levels.{clamped_level, signed_at, segment_level, reference_delta, mode_delta};
ghost use Rattle.vp_loop.specs.Levels.{summed_level, macroblock_level, interior_limit, variance_threshold};
ghost use Rattle.vp_loop.specs.Levels.{has_inner_edges, filter_level};

use vp_head::{Header, LevelDeltas, Reference};

/// How a macroblock is predicted, as far as its filter level depends on it.
#[derive(Clone, Copy, Debug, PartialEq, Eq)]
pub enum ModeClass {
    /// Intra, with one mode for the whole macroblock.
    Whole,
    /// Intra, with a mode for each luma subblock (`B_PRED`).
    Subblocks,
    /// Inter, with the zero vector.
    Zero,
    /// Inter, with the nearest, near or a new vector.
    Moved,
    /// Inter, with a vector for each part (`SPLITMV`).
    Split,
}

/// The properties of a macroblock that its filter level depends on.
#[derive(Clone, Copy, Debug, PartialEq, Eq)]
pub struct MacroblockKind {
    /// The reference frame.
    pub reference: Reference,
    /// The class of the prediction mode.
    pub prediction: ModeClass,
    /// Whether any block has a token.
    pub coded: bool,
}

/// The four limits of a macroblock's edges, computed from its filter level (RFC 6386, chapters 15.2 to 15.4). In three
/// of them 0 is no limit: it says what isn't filtered, or that the filter is the simple one.
#[derive(Clone, Copy, Debug, PartialEq, Eq)]
pub struct Level {
    /// The edge limit of macroblock edges, at most 193; 0 if they aren't filtered.
    pub edge: u8,
    /// The edge limit of subblock edges, at most 189; 0 if they aren't filtered.
    pub inner: u8,
    /// The interior limit, 1 to 63 in the normal filter; 0 selects the simple filter.
    pub interior: u8,
    /// The threshold of high edge variance, 0 to 3 in the normal filter; 0 in the simple one.
    pub hev: u8,
}

/// Clamps to the range of filter levels, 0 to 63.
fn clamped_level(level: i32) -> u8
    ensures value { result ≡ clamped_level level }
    ensures range { result ≤ 63 }
{
    level.clamp(0, 63) as u8
}

/// Entry `index`, or 0 if there is none.
fn signed_at(values: &[i8; 4], index: u8) -> i32
    ensures value { result ≡ signed_at values.now index }
    ensures range { (negsuc 127 ≤ℤ result) × (result ≤ℤ pos 127) }
{
    match values.get(usize::from(index)) {
        Some(value) => i32::from(*value),
        None => 0,
    }
}

/// The level of the frame (`loop_filter_level`) or, with segmentation, of the segment: its own, or the sum of both.
fn segment_level(header: &Header, segment: u8) -> u8
    ensures { result ≡ segment_level header.now segment }
{
    if !header.segmentation.enabled {
        return header.filter.level;
    }
    let value = signed_at(&header.segmentation.values.levels, segment);
    if header.segmentation.values.absolute {
        clamped_level(value)
    } else {
        clamped_level(i32::from(header.filter.level) + value)
    }
}

/// The delta of the reference frame (`ref_frame_delta_magnitude` with its sign).
fn reference_delta(deltas: &LevelDeltas, reference: Reference) -> i32
    ensures value { result ≡ reference_delta deltas.now reference }
    ensures range { (negsuc 127 ≤ℤ result) × (result ≤ℤ pos 127) }
{
    match reference {
        Reference::Intra => signed_at(&deltas.reference, 0),
        Reference::Last => signed_at(&deltas.reference, 1),
        Reference::Golden => signed_at(&deltas.reference, 2),
        Reference::Alt => signed_at(&deltas.reference, 3),
    }
}

/// The delta of the prediction mode (`mb_mode_delta_magnitude` with its sign); none for whole intra modes.
fn mode_delta(deltas: &LevelDeltas, prediction: ModeClass) -> i32
    ensures value { result ≡ mode_delta deltas.now prediction }
    ensures range { (negsuc 127 ≤ℤ result) × (result ≤ℤ pos 127) }
{
    match prediction {
        ModeClass::Whole => 0,
        ModeClass::Subblocks => signed_at(&deltas.mode, 0),
        ModeClass::Zero => signed_at(&deltas.mode, 1),
        ModeClass::Moved => signed_at(&deltas.mode, 2),
        ModeClass::Split => signed_at(&deltas.mode, 3),
    }
}

/// The segment level plus the deltas of reference frame and mode, clamped to 0 to 63.
#[tactic(auto, using(crate::proofs::FilterValueLemmas::level_same))]
fn summed_level(header: &Header, segment: u8, kind: &MacroblockKind) -> u8
    ensures value { result ≡ summed_level header.now segment kind.now }
    ensures range { result ≤ 63 }
{
    let base = i32::from(segment_level(header, segment));
    if !header.deltas_enabled {
        return clamped_level(base);
    }
    clamped_level(
        base + (reference_delta(&header.deltas, kind.reference)
            + mode_delta(&header.deltas, kind.prediction)),
    )
}

/// The level of a macroblock; 0 if that of the frame is 0.
fn macroblock_level(header: &Header, segment: u8, kind: &MacroblockKind) -> u8
    ensures value { result ≡ macroblock_level header.now segment kind.now }
    ensures range { result ≤ 63 }
{
    if header.filter.level == 0 {
        return 0;
    }
    summed_level(header, segment, kind)
}

/// The interior limit of a level (RFC 6386, chapter 15.4).
fn interior_limit(sharpness: u8, level: u8) -> u8
    ensures value { result ≡ interior_limit sharpness level }
    ensures range { level ≤ 63 → result ≤ 63 }
{
    if sharpness == 0 {
        return level.max(1);
    }
    let part = if sharpness > 4 { level / 4 } else { level / 2 };
    part.min(9u8.saturating_sub(sharpness)).max(1)
}

/// The threshold of high edge variance of a level (RFC 6386, chapter 15.4).
fn variance_threshold(key: bool, level: u8) -> u8
    ensures { result ≡ variance_threshold key level }
{
    match (key, level) {
        (true, 40..) => 2,
        (true, 15..) => 1,
        (false, 40..) => 3,
        (false, 20..) => 2,
        (false, 15..) => 1,
        _ => 0,
    }
}

/// Whether subblock edges are filtered: some block has a token, or the mode is `B_PRED` or `SPLITMV`.
pub(crate) fn has_inner_edges(kind: &MacroblockKind) -> bool
    ensures { result ≡ has_inner_edges kind.now }
{
    kind.coded
        || match kind.prediction {
            ModeClass::Subblocks | ModeClass::Split => true,
            ModeClass::Whole | ModeClass::Zero | ModeClass::Moved => false,
        }
}

/// The limits of the edges of a macroblock of segment `segment`, 0 to 3; all 0 if it isn't filtered. They depend on the
/// level of the frame and of the segment (RFC 6386, chapter 9.3), the deltas of reference frame and mode (9.4), and
/// the sharpness (15.4).
#[tactic(auto, unfolding(crate::specs::Levels::filter_level))]
pub fn levels(header: &Header, segment: u8, kind: &MacroblockKind) -> Level
    ensures { result ≡ filter_level header.now segment kind.now }
{
    let level = macroblock_level(header, segment, kind);
    if level == 0 {
        return Level {
            edge: 0,
            inner: 0,
            interior: 0,
            hev: 0,
        };
    }
    let interior = interior_limit(header.filter.sharpness, level);
    let simple = header.filter.simple;
    Level {
        edge: (level + 2) * 2 + interior,
        inner: if has_inner_edges(kind) {
            level * 2 + interior
        } else {
            0
        },
        interior: if simple { 0 } else { interior },
        hev: if simple {
            0
        } else {
            variance_threshold(header.key, level)
        },
    }
}
