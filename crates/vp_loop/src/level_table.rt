//! The levels of all kinds of macroblocks of a frame.

ghost use Rattle.std.specs.Prelude.{◌≡◌, ◌<◌, length, Bool};
ghost use Rattle.vp_head.specs.declared.fields.Header.{Header};
ghost use Rattle.vp_loop.specs.Levels.{filter_level};
ghost use Rattle.vp_loop.specs.LevelTable.{reference_index, class_index, level_if};
ghost use Rattle.vp_loop.specs.LevelTable.{AreLevels, AreSegmentLevels, AreFrameLevels};

use crate::strength::{Level, MacroblockKind, ModeClass, levels};
use vp_head::{Header, Reference};

/// The levels of macroblocks of one segment, reference frame and mode class: of coded ones, and of others.
#[derive(Clone, Copy, Drop)]
struct KindLevels {
    coded: Level,
    uncoded: Level,
}

/// The levels of macroblocks of one segment and reference frame, by mode class.
#[derive(Clone, Copy, Drop)]
struct ClassLevels {
    classes: [KindLevels; 5],
}

/// The levels of macroblocks of one segment, by reference frame.
#[derive(Clone, Copy, Drop)]
struct SegmentLevels {
    references: [ClassLevels; 4],
}

/// The levels of a frame's macroblocks, worked out once for each kind of macroblock.
#[derive(Clone, Copy, Drop)]
pub struct LevelTable {
    segments: [SegmentLevels; 4],
}

fn reference_index(reference: Reference) -> usize
    ensures value { result ≡ reference_index reference }
    ensures bound { result < 4 }
{
    match reference {
        Reference::Intra => 0,
        Reference::Last => 1,
        Reference::Golden => 2,
        Reference::Alt => 3,
    }
}

fn class_index(class: ModeClass) -> usize
    ensures value { result ≡ class_index class }
    ensures bound { result < 5 }
{
    match class {
        ModeClass::Whole => 0,
        ModeClass::Subblocks => 1,
        ModeClass::Zero => 2,
        ModeClass::Moved => 3,
        ModeClass::Split => 4,
    }
}

fn kind_levels(
    header: &Header,
    segment: u8,
    reference: Reference,
    prediction: ModeClass,
) -> KindLevels
    ensures { (coded : Bool) → level_if coded result ≡ filter_level header.now segment
        (record { reference = reference; prediction = prediction; coded = coded }) }
{
    let kind = MacroblockKind {
        reference,
        prediction,
        coded: true,
    };
    let other = MacroblockKind {
        coded: false,
        ..kind
    };
    KindLevels {
        coded: levels(header, segment, &kind),
        uncoded: levels(header, segment, &other),
    }
}

fn class_levels(header: &Header, segment: u8, reference: Reference) -> ClassLevels
    ensures value { AreLevels header.now segment reference result }
    ensures len { length result.classes ≡ 5 }
{
    ClassLevels {
        classes: [
            kind_levels(header, segment, reference, ModeClass::Whole),
            kind_levels(header, segment, reference, ModeClass::Subblocks),
            kind_levels(header, segment, reference, ModeClass::Zero),
            kind_levels(header, segment, reference, ModeClass::Moved),
            kind_levels(header, segment, reference, ModeClass::Split),
        ],
    }
}

fn segment_levels(header: &Header, segment: u8) -> SegmentLevels
    ensures value { AreSegmentLevels header.now segment result }
    ensures len { length result.references ≡ 4 }
{
    SegmentLevels {
        references: [
            class_levels(header, segment, Reference::Intra),
            class_levels(header, segment, Reference::Last),
            class_levels(header, segment, Reference::Golden),
            class_levels(header, segment, Reference::Alt),
        ],
    }
}

impl LevelTable {
    /// The table of the frame with this header.
    pub fn of(header: &Header) -> LevelTable
        ensures { AreFrameLevels header.now result }
    {
        let first = segment_levels(header, 0);
        let segments = if header.segmentation.enabled {
            [
                first,
                segment_levels(header, 1),
                segment_levels(header, 2),
                segment_levels(header, 3),
            ]
        } else {
            [first; 4]
        };
        LevelTable { segments }
    }

    /// The level of a macroblock of segment `segment`, 0 to 3, as [`levels`] gives them.
    pub fn level(&self, segment: u8, kind: &MacroblockKind) -> Level
        requires { segment < 4 }
        ensures { (header : Header) → AreFrameLevels header self.now → result ≡ filter_level header segment kind.now }
    {
        let of_segment = &self.segments[usize::from(segment)];
        let of_reference = &of_segment.references[reference_index(kind.reference)];
        let of_kind = of_reference.classes[class_index(kind.prediction)];
        if kind.coded {
            of_kind.coded
        } else {
            of_kind.uncoded
        }
    }
}
