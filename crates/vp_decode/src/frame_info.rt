//! What is known of a frame once its first partition is read: header, version, references, modes and motion; and what
//! follows from its header: the factors and the filter levels.

ghost use Rattle.std.specs.Prelude.{◌≡◌, ◌<◌, ◌≤◌, Some, [], ◌∷◌, option_map};
ghost use Rattle.vp_base.specs.declared.place.Place.{Place};
ghost use Rattle.vp_base.specs.Grid.{Has};
ghost use Rattle.vp_tokens.specs.declared.contexts.Tokens.{Tokens};
ghost use Rattle.vp_tokens.specs.Blocks.{any_token};
ghost use Rattle.vp_recon.specs.Predictor.{predictor_of};
ghost use Rattle.vp_decode.specs.Frame.{predictor_by, predictor_at, factors_of, factors_at};
ghost use Rattle.vp_decode.specs.Frame.{inter_mode_class, mode_class_of, level_at};
ghost use Rattle.vp_decode.specs.FrameDecoder.{IsMacroblockAt, IsMacroblockRow};

use crate::macroblocks::{Macroblock, Macroblocks};
use crate::parsed_packet::ParsedPacket;
use std::marker::Model;
use vp_base::Place;
use vp_head::Header;
use vp_loop::{Level, LevelTable, MacroblockKind, ModeClass};
use vp_modes::Modes;
use vp_motion::MacroblockMotion;
use vp_quant::{Factors, segment_index};
use vp_recon::{Predictor, SegmentFactors};
use vp_refs::Refs;
use vp_tables::VectorMode;

/// What the macroblocks of a frame are decoded by: of the parsed packet what they look at, the modes and motion that
/// are read from its first partition, and what follows from its header. Made once a frame by `decode_frame`, and read
/// by `FrameDecoder` and `filter_rebuilt`.
#[derive(Drop)]
pub(crate) struct FrameInfo<'a> {
    header: &'a Header,
    /// The version in the frame tag (RFC 6386, chapter 9.1).
    version: u8,
    /// None for a key frame.
    references: Option<&'a Refs>,
    macroblocks: &'a Macroblocks,
    /// The dequantisation factors of the four segments, made ready.
    factors: &'a [SegmentFactors; 4],
    levels: LevelTable,
}

impl<'a> Model for FrameInfo<'a> {
    ghost use Rattle.std.specs.Prelude.{◌≡◌, [], ◌∷◌, option_map};
    ghost use Rattle.vp_loop.specs.LevelTable.{AreFrameLevels};
    ghost use Rattle.vp_decode.specs.Frame.{FrameInfo, factors_of};

    ghost Value = { FrameInfo };

    ghost view = { λ f. record {
      header = f.header.now;
      version = f.version;
      references = option_map (λ r. r.now) f.references;
      maps = f.macroblocks.now;
    } };

    ghost invariant = { λ f. (f.factors.now ≡ factors_of f.header.now 0 ∷ factors_of f.header.now 1
        ∷ factors_of f.header.now 2 ∷ factors_of f.header.now 3 ∷ []) × AreFrameLevels f.header.now f.levels };
}

/// What is known of a macroblock: its modes, and what it is predicted from. `FrameInfo::macroblock` makes it, for each
/// macroblock once.
#[derive(Drop)]
pub(crate) struct MacroblockInfo<'a> {
    pub modes: &'a Modes,
    pub predictor: Predictor<'a>,
}

fn inter_mode_class(mode: VectorMode) -> ModeClass
    ensures { result ≡ inter_mode_class mode }
{
    match mode {
        VectorMode::Zero => ModeClass::Zero,
        VectorMode::Split => ModeClass::Split,
        _ => ModeClass::Moved,
    }
}

/// Returns the mode class of a macroblock, which its filter level depends on (RFC 6386, chapter 9.4).
fn mode_class_of(predictor: &Predictor) -> ModeClass
    ensures { result ≡ mode_class_of (predictor_of predictor.now) }
{
    match predictor {
        Predictor::Intra(modes) => {
            if modes.luma.is_by_subblocks() {
                ModeClass::Subblocks
            } else {
                ModeClass::Whole
            }
        }
        Predictor::Inter { motion, .. } => inter_mode_class(motion.mode),
    }
}

/// Returns the predictor of a macroblock: its own picture, or one of the reference frames.
fn predictor_by<'a>(
    references: Option<&'a Refs>,
    version: u8,
    modes: &'a Modes,
    motion: &'a MacroblockMotion,
) -> Predictor<'a>
    ensures { predictor_of result ≡ predictor_by
        (option_map (λ r. r.now) references.entry) version modes.now motion.now }
{
    let Some(references) = references else {
        return Predictor::Intra(modes);
    };
    if modes.reference.is_intra() {
        return Predictor::Intra(modes);
    }
    Predictor::Inter {
        motion,
        reference: references.get(modes.reference),
        version,
    }
}

/// Returns the dequantisation factors of a segment, made ready.
fn factors_of(header: &Header, segment: u8) -> SegmentFactors
    requires { segment < 4 }
    ensures { result ≡ factors_of header.now segment }
{
    let factors = Factors::of(segment_index(header, segment), &header.quantiser);
    SegmentFactors::of(&factors)
}

/// Returns the dequantisation factors of the four segments. Without segmentation these are all the frame's.
pub(crate) fn all_factors(header: &Header) -> [SegmentFactors; 4]
    ensures { result ≡ factors_of header.now 0 ∷ factors_of header.now 1 ∷ factors_of header.now 2
        ∷ factors_of header.now 3 ∷ [] }
{
    let first = factors_of(header, 0);
    let segmentation = &header.segmentation;
    if !segmentation.enabled {
        return [first.copy(), first.copy(), first.copy(), first];
    }
    [
        first,
        factors_of(header, 1),
        factors_of(header, 2),
        factors_of(header, 3),
    ]
}

impl<'a> FrameInfo<'a> {
    /// Collects what the macroblocks of a packet's frame are decoded by.
    pub(crate) fn of<'p: 'a>(
        parsed: &ParsedPacket<'p>,
        macroblocks: &'a Macroblocks,
        factors: &'a [SegmentFactors; 4],
    ) -> FrameInfo<'a>
        requires { factors.now ≡ factors_of parsed.now.header 0 ∷ factors_of parsed.now.header 1
            ∷ factors_of parsed.now.header 2 ∷ factors_of parsed.now.header 3 ∷ [] }
        ensures { result ≡ record {
          header = parsed.now.header;
          version = parsed.now.tag.version;
          references = parsed.now.context.references;
          maps = macroblocks.now;
        } }
    {
        let opened = &parsed.opened;
        FrameInfo {
            header: parsed.header,
            version: opened.tag.version,
            references: opened.context.references,
            macroblocks,
            factors,
            levels: LevelTable::of(parsed.header),
        }
    }

    /// The width of the frame in macroblocks.
    pub(crate) fn columns(&self) -> usize
        ensures value { result ≡ self.now.maps.modes.columns }
        ensures bound { result ≤ 1024 }
    {
        self.macroblocks.columns()
    }

    /// The height of the frame in macroblocks.
    pub(crate) fn rows(&self) -> usize
        ensures value { result ≡ self.now.maps.modes.rows }
        ensures bound { result ≤ 1024 }
    {
        self.macroblocks.rows()
    }

    /// The frame header.
    pub(crate) fn header(&self) -> &'a Header
        ensures { result.now ≡ self.now.header }
    {
        self.header
    }

    /// Returns a row of macroblocks.
    pub(crate) fn row(&self, row: usize) -> &'a [Macroblock]
        requires { row < self.now.maps.modes.rows }
        ensures { IsMacroblockRow self.now.maps row result.now }
    {
        self.macroblocks.row(row)
    }

    /// Returns what is known of the macroblock at a place of a row.
    #[inline(always)]
    #[tactic(auto, unfolding(crate::specs::Frame::predictor_at))]
    pub(crate) fn macroblock(&self, row: &'a [Macroblock], place: Place) -> MacroblockInfo<'a>
        requires place { Has self.now.maps.modes place }
        requires row { IsMacroblockRow self.now.maps place.row row.now }
        ensures { IsMacroblockAt self.now place result }
    {
        let Macroblock { modes, motion } = &row[place.column];
        MacroblockInfo {
            modes,
            predictor: predictor_by(self.references, self.version, modes, motion),
        }
    }

    /// Returns the dequantisation factors of a macroblock.
    #[tactic(auto, unfolding(crate::specs::Frame::factors_at))]
    pub(crate) fn factors(&self, macroblock: &MacroblockInfo) -> &'a SegmentFactors
        ensures { (place : Place) → IsMacroblockAt self.now place macroblock.now
            → result.now ≡ factors_at self.now place }
    {
        let modes = macroblock.modes;
        let factors = self.factors;
        &factors[usize::from(modes.segment)]
    }

    /// Returns the loop filter's limits for a macroblock, which its level gives. `coded` says whether it has any token.
    #[tactic(auto, unfolding(crate::specs::Frame::level_at))]
    pub(crate) fn level(&self, macroblock: &MacroblockInfo, coded: bool) -> Level
        ensures { (place : Place) (tokens : Tokens) → IsMacroblockAt self.now place macroblock.now
            → coded ≡ any_token tokens → result ≡ level_at self.now place tokens }
    {
        let modes = macroblock.modes;
        let kind = MacroblockKind {
            reference: modes.reference,
            prediction: mode_class_of(&macroblock.predictor),
            coded,
        };
        self.levels.level(modes.segment, &kind)
    }
}
