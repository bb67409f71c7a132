//! Tests of the choice for single macroblocks.

ghost use Rattle.std.specs.Prelude.{◌≡◌, IfSome};

use super::*;
use crate::check::equal;
use std::alloc::Global;
use std::rc::Rc;
use std::test::Fail;
use vp_base::{Dim, Limits, Picture, Place};
use vp_head::Reference;
use vp_motion::{Vector, VectorMap};
use vp_quant::Factors;
use vp_recon::SegmentFactors;
use vp_refs::Refs;
use vp_tables::{ChromaMode, LumaMode, SubMode, VectorMode};

/// The factors of quantiser index 0.
pub(crate) const FACTORS: Factors = Factors {
    y_dc: 4,
    y_ac: 4,
    y2_dc: 8,
    y2_ac: 8,
    uv_dc: 4,
    uv_ac: 4,
};

const TOP: Place = Place { column: 0, row: 0 };

/// TM in the first row and the first column, DC elsewhere.
const FLAT_MODES: [SubMode; 16] = [
    SubMode::Tm,
    SubMode::Tm,
    SubMode::Tm,
    SubMode::Tm,
    SubMode::Tm,
    SubMode::Dc,
    SubMode::Dc,
    SubMode::Dc,
    SubMode::Tm,
    SubMode::Dc,
    SubMode::Dc,
    SubMode::Dc,
    SubMode::Tm,
    SubMode::Dc,
    SubMode::Dc,
    SubMode::Dc,
];

/// Returns whether all pixels of a picture of 16 by 16 are 200.
fn is_bright(bytes: &[u8]) -> bool {
    for byte in bytes {
        if *byte != 200 {
            return false;
        }
    }
    bytes.len() == 384
}

/// What the choice for a bright macroblock is.
#[derive(Clone, Copy, Debug, PartialEq)]
struct Seen {
    /// The modes of a flat picture brighter than the pixels around it.
    is_flat: bool,
    /// The last frame's macroblock as it is.
    is_still: bool,
    /// It rebuilds the picture exactly.
    is_bright: bool,
}

/// The choice for the only macroblock of a picture of 16 by 16 pixels, all 200.
fn bright_choice(alloc: Global, search: Option<Search<'_>>) -> Result<Seen, Fail>
    requires { IfSome search (λ s. s.range ≡ 16) }
{
    let dim = Dim::new(16, 16, &Limits::usual())?;
    let source = Picture::new(alloc, dim, 200)?;
    let mut picture = Picture::new(alloc, dim, 0)?;
    let vectors = VectorMap::new(alloc, dim)?;
    let frame = FrameSearch {
        source: &source,
        factors: &SegmentFactors::of(&FACTORS),
        search,
    };
    let choice = choose_macroblock(&frame, &mut picture, &vectors, TOP);
    let bytes = picture.crop_i420(alloc)?;
    Ok(Seen {
        is_flat: is_flat(&choice),
        is_still: is_still(&choice),
        is_bright: is_bright(&bytes),
    })
}

/// Reference frames of `side` by `side` pixels, all 200.
fn bright_references(alloc: Global, side: u16) -> Result<Refs, Fail> {
    let dim = Dim::new(side, side, &Limits::usual())?;
    let last = Picture::new(alloc, dim, 200)?;
    Ok(Refs::of_key(Rc::new(alloc, last)?)?)
}

/// Whether a choice is the last frame's macroblock as it is.
fn is_still(choice: &Choice) -> bool {
    choice.modes.reference == Reference::Last
        && choice.modes.skip
        && choice.motion.mode == VectorMode::Zero
        && choice.motion.vectors == [Vector { row: 0, column: 0 }; 16]
}

/// Whether a choice has the modes of a flat picture brighter than the pixels around it.
fn is_flat(choice: &Choice) -> bool {
    choice.modes.luma == LumaMode::B
        && choice.modes.subs == FLAT_MODES
        && choice.modes.chroma == ChromaMode::H
        && !choice.modes.skip
}

#[test]
fn encode_flat_bright(rt: HostRuntime) -> Result<(), Fail> {
    let seen = bright_choice(rt.alloc(), None)?;
    let wanted = Seen {
        is_flat: true,
        is_still: false,
        is_bright: true,
    };
    equal!(&rt; seen, wanted);
    Ok(())
}

/// The search of both frames in whole and quarter pixels.
fn whole_search(references: &Refs) -> Search<'_>
    ensures { result.range ≡ 16 }
{
    Search {
        references,
        golden: true,
        range: 16,
        subpel: true,
    }
}

#[test]
fn a_still_macroblock(rt: HostRuntime) -> Result<(), Fail> {
    let references = bright_references(rt.alloc(), 16)?;
    let seen = bright_choice(rt.alloc(), Some(whole_search(&references)))?;
    let wanted = Seen {
        is_flat: false,
        is_still: true,
        is_bright: true,
    };
    equal!(&rt; seen, wanted);
    Ok(())
}

/// Both reference frames are the source, and the range is large enough for searchers. Of equal costs the last frame's
/// is chosen.
#[test]
fn a_still_frame(rt: HostRuntime) -> Result<(), Fail> {
    let references = bright_references(rt.alloc(), 32)?;
    equal!(&rt; is_chosen_still(rt.alloc(), &references)?, true);
    Ok(())
}

/// Whether a chooser takes the last frame's macroblock for the first one of a picture of 32 by 32 pixels, all 200.
fn is_chosen_still(alloc: Global, references: &Refs) -> Result<bool, Fail> {
    let dim = Dim::new(32, 32, &Limits::usual())?;
    let source = Picture::new(alloc, dim, 200)?;
    let mut picture = Picture::new(alloc, dim, 0)?;
    let vectors = VectorMap::new(alloc, dim)?;
    let frame = FrameSearch {
        source: &source,
        factors: &SegmentFactors::of(&FACTORS),
        search: Some(whole_search(references)),
    };
    let mut chooser = FrameChooser::new(alloc, &frame);
    let choice = chooser.choose(&mut picture, &vectors, TOP);
    Ok(is_still(&choice))
}
