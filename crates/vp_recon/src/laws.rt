//! Theorems about the whole unfiltered picture, and about the rows that rebuilding one macroblock reads and writes.

ghost use Rattle.std.specs.Prelude.{ℕ, ◌*◌};
ghost use Rattle.vp_base.specs.declared.place.Place.{Place};
ghost use Rattle.vp_base.specs.Raster.{Raster};
ghost use Rattle.vp_base.specs.Image.{Image, IsAligned, AreWhole};
ghost use Rattle.vp_base.specs.Rows.{AreSameAbove, AreOneSize};
ghost use Rattle.vp_modes.specs.Entry.{Modes};
ghost use Rattle.vp_motion.specs.Vector.{MacroblockMotion};
ghost use Rattle.vp_tokens.specs.declared.contexts.Tokens.{Tokens};
ghost use Rattle.vp_quant.specs.declared.factors.Factors.{Factors};
ghost use Rattle.vp_recon.specs.Predictor.{Macroblock, Inter, macroblock_of};
ghost use Rattle.vp_recon.specs.Rebuilt.{rebuilt, all_rebuilt};
ghost use Rattle.vp_recon.specs.Equation.{IsUnfiltered};
ghost use Rattle.vp_recon.specs.Laws.{HasOneSolution, ReadsOneRowAbove, ReadsNoRowAbove, IsBySubblocks};

/// Each pixel of a rebuilt picture is the sum of its residue and its prediction, from that picture or a reference frame
/// (RFC 6386, chapters 5, 12, 14.5 and 18). Rebuilding keeps the picture's size.
#[tactic(auto, using(crate::proofs::Solves::solves, crate::proofs::Solves::still_aligned))]
pub fn unfiltered_picture_solves_its_equation()
    ensures solves { (f : Place → Macroblock) (p : Image) → IsAligned p → IsUnfiltered f (all_rebuilt f p) }
    ensures size { (f : Place → Macroblock) (p : Image) → AreOneSize (all_rebuilt f p) p }
    ensures aligned { (f : Place → Macroblock) (p : Image) → IsAligned p → IsAligned (all_rebuilt f p) }
    ensures whole { (f : Place → Macroblock) (p : Image) → AreWhole p → AreWhole (all_rebuilt f p) }
{}

/// The equation of a frame has at most one solution among pictures of one size.
pub fn unfiltered_equation_has_one_solution()
    ensures { (f : Place → Macroblock) → HasOneSolution f }
{}

/// Rebuilding a macroblock keeps the picture's size, and the sizes of its planes.
pub fn rebuilding_keeps_shape()
    ensures size { (m : Macroblock) (place : Place) (p : Image) → AreOneSize (rebuilt m place p) p }
    ensures aligned { (m : Macroblock) (place : Place) (p : Image) → IsAligned p → IsAligned (rebuilt m place p) }
    ensures whole { (m : Macroblock) (place : Place) (p : Image) → AreWhole p → AreWhole (rebuilt m place p) }
{}

/// Rebuilding a macroblock changes no row above its own.
pub fn rebuilding_keeps_rows_above()
    ensures { (m : Macroblock) (place : Place) (p : Image) → AreSameAbove (16 * place.row) (8 * place.row)
        (rebuilt m place p) p }
{}

/// Rebuilding a macroblock reads at most one row above its own, in luma and in chroma. An inter macroblock reads
/// nothing of its own picture.
pub fn rebuilding_reads_one_row_above()
    ensures any { (m : Macroblock) (place : Place) → ReadsOneRowAbove m place }
    ensures inter { (motion : MacroblockMotion) (reference : Image) (version : ℕ) (tokens : Tokens) (factors : Factors)
        (place : Place)
        → ReadsNoRowAbove (macroblock_of (Inter motion reference version) tokens factors) place }
{}

/// The luma of a B_PRED macroblock is rebuilt subblock by subblock.
#[tactic(auto, using(crate::proofs::LumaLemmas::subs_alone))]
pub fn luma_is_rebuilt_by_subblocks()
    ensures { (modes : Modes) (tokens : Tokens) (factors : Factors) (place : Place) (p : Raster)
        → IsBySubblocks modes tokens factors place p }
{}
