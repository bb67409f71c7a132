//! Laws of all packets and all headers.

ghost use Rattle.std.specs.Prelude.{◌≡◌, ◌≤◌, ◌%◌, ℕ, List, length, slice_index, IfOk, is_some, IsSome, IsNone, false};
ghost use Rattle.vp_base.specs.declared.limits.Limits.{Limits};
ghost use Rattle.vp_bool.specs.Bools.{State};
ghost use Rattle.vp_head.specs.declared.fields.Tag.{Tag};
ghost use Rattle.vp_head.specs.declared.fields.Saved.{Saved};
ghost use Rattle.vp_head.specs.Tag.{tag_of, IsKeyPacket, IsInterPacket};
ghost use Rattle.vp_head.specs.Saved.{defaults};
ghost use Rattle.vp_head.specs.Header.{header};
ghost use Rattle.vp_head.specs.Bounds.{IsTagInRange, IsHeaderInRange, AreFilterValuesInRange};
ghost use Rattle.vp_head.specs.Spelled.{IsWritableInPacket};

/// The first byte determines whether a packet of at least three bytes is a key packet: if its tag can be read, the tag
/// has a key part.
pub fn first_byte_says_kind()
    ensures key { (limits : Limits) (packet : List ℕ) → IsKeyPacket packet
        → IfOk (tag_of limits packet) (λ tag. IsSome tag.key) }
    ensures inter { (limits : Limits) (packet : List ℕ) → IsInterPacket packet
        → IfOk (tag_of limits packet) (λ tag. IsNone tag.key) }
{}

/// A key frame's header does not depend on the saved state.
pub fn key_header_resets()
    ensures { (saved : Saved) (tag : Tag) → IsSome tag.key → header saved tag ≡ header defaults tag }
{}

/// Tags and headers are in range, whatever the bytes, and so are the defaults of a key frame.
pub fn numbers_are_in_range()
    ensures tags { (limits : Limits) (packet : List ℕ) → IfOk (tag_of limits packet) (IsTagInRange limits) }
    ensures headers { (saved : Saved) (tag : Tag) (s : State) → IsHeaderInRange (header saved tag s).0.0 }
    // So by induction the saved signed values are in range after every header.
    ensures defaults { AreFilterValuesInRange defaults.segments defaults.deltas }
    ensures kinds { (saved : Saved) (tag : Tag) (s : State) → (header saved tag s).0.0.key ≡ is_some tag.key }
{}

/// If a frame's probabilities are not saved, the previous ones are restored.
pub fn probabilities_come_back()
    ensures inter { (saved : Saved) (tag : Tag) (s : State) → IsNone tag.key
        → (header saved tag s).0.0.refresh_entropy ≡ false → (header saved tag s).0.1.probabilities
        ≡ saved.probabilities }
    ensures key { (saved : Saved) (tag : Tag) (s : State) → IsSome tag.key
        → (header saved tag s).0.0.refresh_entropy ≡ false → (header saved tag s).0.1.probabilities
        ≡ defaults.probabilities }
{}

/// Each header that can be read can also be written.
pub fn what_is_read_can_be_written()
    ensures { (saved : Saved) (tag : Tag) (s : State) → IsWritableInPacket saved tag (header saved tag s).0.0 }
{}
