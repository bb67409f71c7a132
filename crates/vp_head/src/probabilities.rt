//! Reading updates of the saved probabilities.

ghost use Rattle.std.specs.Prelude.{◌≡◌, ◌≤◌, ◌<◌, ℕ, List, true, false, slice_index};
ghost use Rattle.vp_bool.specs.Bools.{State};
ghost use Rattle.vp_bool.specs.Reader.{each, when};
ghost use Rattle.vp_head.specs.Probabilities.{entry_at, context_rows, band_rows, type_rows, token_probability_updates};
ghost use Rattle.vp_head.specs.Probabilities.{luma_mode_probabilities, chroma, seven_bits, vector_renewed};
ghost use Rattle.vp_head.specs.Probabilities.{component_rows, vectors};

use crate::rows::{number, read_renewed};
use vp_bool::BoolDecoder;
use vp_tables::{VECTOR_UPDATES, coefficient_updates};

/// Reads the updates of the entries from `from` on, below `to`, of a context: each has its own flag.
#[inline(always)]
fn read_entries(table: &[u8; 11], from: usize, to: usize, old: &mut [u8; 11], d: &mut BoolDecoder)
    requires within { (from ≤ to) × (to ≤ 11) }
    ensures { (xs : List ℕ) (s : State) → each 0 from (entry_at table.now) xs s ≡ (old.old, d.old)
        → each 0 to (entry_at table.now) xs s ≡ (old.new, d.new) }
{
    for i in from..to {
        old[i] = read_renewed(table[i], old[i], d);
    }
}

/// Whether the flags of a context's last eight entries have probability 255, as those of most contexts.
#[inline(always)]
fn has_rare_tail(table: &[u8; 11]) -> bool
    ensures { result ≡ true → (i : ℕ) → 3 ≤ i → i < 11 → slice_index table.now i ≡ 255 }
{
    table[3..] == [255; 8]
}

/// Passes over the updates of a context's last eight entries at once, if all their flags have probability 255 and are
/// false. Returns whether it did; else nothing was read.
#[inline(always)]
fn pass_tail(table: &[u8; 11], d: &mut BoolDecoder) -> bool
    ensures passed { result ≡ true → (xs ys : List ℕ) (s : State) → each 0 3 (entry_at table.now) xs s ≡ (ys, d.old)
        → each 0 11 (entry_at table.now) xs s ≡ (ys, d.new) }
    ensures kept { result ≡ false → d.new ≡ d.old }
{
    has_rare_tail(table) && d.pass_rare(8)
}

/// Most flags are false, so that eight of a context are one comparison.
fn read_context(table: &[u8; 11], old: &mut [u8; 11], d: &mut BoolDecoder)
    ensures value { old.new ≡ (context_rows table.now old.old d.old).0 }
    ensures rest { d.new ≡ (context_rows table.now old.old d.old).1 }
{
    // The compiler keeps a local decoder in registers.
    let mut own = d.copy();
    read_entries(table, 0, 3, old, &mut own);
    if !pass_tail(table, &mut own) {
        read_entries(table, 3, 11, old, &mut own);
    }
    *d = own;
}

fn read_band(table: &[[u8; 11]; 3], old: &mut [[u8; 11]; 3], d: &mut BoolDecoder)
    ensures value { old.new ≡ (band_rows table.now old.old d.old).0 }
    ensures rest { d.new ≡ (band_rows table.now old.old d.old).1 }
{
    for i in 0..3 {
        read_context(&table[i], &mut old[i], d);
    }
}

fn read_type(table: &[[[u8; 11]; 3]; 8], old: &mut [[[u8; 11]; 3]; 8], d: &mut BoolDecoder)
    ensures value { old.new ≡ (type_rows table.now old.old d.old).0 }
    ensures rest { d.new ≡ (type_rows table.now old.old d.old).1 }
{
    for i in 0..8 {
        read_band(&table[i], &mut old[i], d);
    }
}

/// Reads the updates of the token probabilities.
pub(crate) fn read_coefficients(old: &mut [[[[u8; 11]; 3]; 8]; 4], d: &mut BoolDecoder)
    ensures value { old.new ≡ (token_probability_updates old.old d.old).0 }
    ensures rest { d.new ≡ (token_probability_updates old.old d.old).1 }
{
    let table = coefficient_updates();
    for i in 0..4 {
        read_type(&table[i], &mut old[i], d);
    }
}

/// If `asked`: reads a flag, and if it is set, new luma mode probabilities.
#[tactic(auto, unfolding(crate::specs::Probabilities::luma_mode_probabilities, vp_bool::specs::Reader::bind))]
pub(crate) fn read_luma_if(asked: bool, old: &mut [u8; 4], d: &mut BoolDecoder)
    ensures value { old.new ≡ (when asked (luma_mode_probabilities old.old) old.old d.old).0 }
    ensures rest { d.new ≡ (when asked (luma_mode_probabilities old.old) old.old d.old).1 }
{
    if asked && d.read(128) {
        *old = [d.literal(8), d.literal(8), d.literal(8), d.literal(8)];
    }
}

/// If `asked`: reads a flag, and if it is set, new chroma mode probabilities.
#[tactic(auto, unfolding(crate::specs::Probabilities::chroma, vp_bool::specs::Reader::bind))]
pub(crate) fn read_chroma_if(asked: bool, old: &mut [u8; 3], d: &mut BoolDecoder)
    ensures value { old.new ≡ (when asked (chroma old.old) old.old d.old).0 }
    ensures rest { d.new ≡ (when asked (chroma old.old) old.old d.old).1 }
{
    if asked && d.read(128) {
        *old = [d.literal(8), d.literal(8), d.literal(8)];
    }
}

/// Reads a flag of this probability, and if it is set, a motion vector probability. Otherwise returns `old`.
#[tactic(auto, unfolding(crate::specs::Probabilities::vector_renewed, vp_bool::specs::Reader::bind))]
fn read_vector_renewed(probability: u8, old: u8, d: &mut BoolDecoder) -> u8
    ensures value { result ≡ (vector_renewed probability old d.old).0 }
    ensures rest { d.new ≡ (vector_renewed probability old d.old).1 }
{
    if !d.read(probability) {
        return old;
    }
    let x = number(7, d);
    if x == 0 { 1 } else { 2 * x }
}

fn read_component(table: &[u8; 19], old: &mut [u8; 19], d: &mut BoolDecoder)
    ensures value { old.new ≡ (component_rows table.now old.old d.old).0 }
    ensures rest { d.new ≡ (component_rows table.now old.old d.old).1 }
{
    for i in 0..19 {
        old[i] = read_vector_renewed(table[i], old[i], d);
    }
}

fn read_vectors(old: &mut [[u8; 19]; 2], d: &mut BoolDecoder)
    ensures value { old.new ≡ (vectors old.old d.old).0 }
    ensures rest { d.new ≡ (vectors old.old d.old).1 }
{
    for i in 0..2 {
        read_component(&VECTOR_UPDATES[i], &mut old[i], d);
    }
}

/// If `asked`: reads the updates of the motion vector probabilities, each with its own flag.
pub(crate) fn read_vectors_if(asked: bool, old: &mut [[u8; 19]; 2], d: &mut BoolDecoder)
    ensures value { old.new ≡ (when asked (vectors old.old) old.old d.old).0 }
    ensures rest { d.new ≡ (when asked (vectors old.old) old.old d.old).1 }
{
    if asked {
        read_vectors(old, d);
    }
}
