//! The reference frames: last, golden and altref.

ghost use Rattle.std.specs.Prelude.{◌≡◌, ◌||◌, true, IfOk, IfSome, OnOk, OnErr, if◌then◌else◌};
ghost use Rattle.std.specs.List.{All};
ghost use Rattle.vp_base.specs.Image.{Image};
ghost use Rattle.vp_refs.specs.References.{IsOneOf, all_of, copied_by, reference_picture, updated};

use std::alloc::AllocError;
use std::marker::Model;
use std::rc::Rc;
use vp_base::Picture;
use vp_head::{Header, Reference, ReferenceCopy, ReferenceUpdates};

/// The last, golden and altref frame (RFC 6386, chapters 5, 9.7 and 9.8), and the newest picture, which need not be
/// one of them. Pictures are shared, never copied.
#[derive(Drop)]
pub struct Refs {
    last: Rc<Picture>,
    golden: Rc<Picture>,
    alt: Rc<Picture>,
    /// The picture that was decoded last, a reference or not; it gives the size of inter frames.
    newest: Rc<Picture>,
    /// Whether golden is known to be the picture of the last frame.
    golden_is_last: bool,
}

impl Model for Refs {
    ghost use Rattle.std.specs.Prelude.{◌≡◌, true};
    ghost use Rattle.vp_refs.specs.References.{References};

    ghost Value = { References };

    ghost view = { λ r. record {
      last = r.last.value;
      golden = r.golden.value;
      alt = r.alt.value;
      newest = r.newest.value;
    } };

    ghost invariant = { λ r. r.golden_is_last ≡ true → r.golden.value ≡ r.last.value };
}

impl Refs {
    /// The reference frames after a key frame: its picture is all of them.
    pub fn of_key(picture: Rc<Picture>) -> Result<Refs, AllocError>
        ensures { IfOk result (λ r. r ≡ all_of picture.value) }
    {
        Ok(Refs {
            last: picture.clone()?,
            golden: picture.clone()?,
            alt: picture.clone()?,
            newest: picture,
            golden_is_last: true,
        })
    }

    /// The picture of a reference frame. For `Intra`, which has none, returns the last frame.
    pub fn get(&self, reference: Reference) -> &Picture
        ensures { result.now ≡ reference_picture self.now reference }
    {
        match reference {
            Reference::Golden => &self.golden,
            Reference::Alt => &self.alt,
            _ => &self.last,
        }
    }

    /// Whether golden is known to be the last frame's picture, so that what is found in one is found in the other:
    /// after a frame that refreshes both, and until one of them changes alone.
    pub fn golden_is_last(&self) -> bool
        ensures { result ≡ true → self.now.golden ≡ self.now.last }
    {
        self.golden_is_last
    }

    /// The picture of the last `update`, even if no reference frame uses it.
    pub fn newest(&self) -> &Rc<Picture>
        ensures { result.now.value ≡ self.now.newest }
    {
        &self.newest
    }

    /// Shares the same pictures.
    pub fn share(&self) -> Result<Refs, AllocError>
        ensures { IfOk result (λ r. r ≡ self.now) }
    {
        Ok(Refs {
            last: self.last.clone()?,
            golden: self.golden.clone()?,
            alt: self.alt.clone()?,
            newest: self.newest.clone()?,
            golden_is_last: self.golden_is_last,
        })
    }

    /// The pictures that are not shared elsewhere, each once. The others are dropped.
    pub fn into_unshared(self) -> [Option<Picture>; 4]
        ensures { All (λ picture. IfSome picture (IsOneOf self)) result }
    {
        [
            Rc::into_inner(self.last),
            Rc::into_inner(self.golden),
            Rc::into_inner(self.alt),
            Rc::into_inner(self.newest),
        ]
    }

    /// Updates the reference frames with a frame's picture after its loop filter, as its header says. If out of
    /// memory, nothing changes.
    pub fn update(&mut self, header: &Header, newest: Rc<Picture>) -> Result<(), AllocError>
        ensures ok { OnOk result (self.new ≡ updated header.now newest.value self.old) }
        ensures memory { OnErr result (self.new ≡ self.old) }
    {
        let updates = &header.updates;
        let alt = copied(updates.copy_to_alt, &self.last, &self.golden, &self.alt)?;
        // Altref is copied first: a golden frame copied from altref gets the new altref, as in libvpx.
        let golden = copied(updates.copy_to_golden, &self.last, &alt, &self.golden)?;
        let alt = refreshed(header.key || updates.refresh_alt, &newest, &alt)?;
        let golden = refreshed(header.key || updates.refresh_golden, &newest, &golden)?;
        let last = refreshed(header.key || updates.refresh_last, &newest, &self.last)?;
        self.golden_is_last = makes_one(header.key, updates, self.golden_is_last);
        self.last = last;
        self.golden = golden;
        self.alt = alt;
        self.newest = newest;
        Ok(())
    }
}

/// Whether golden is the last frame's picture after a frame, if it was one before as `are_one` says.
fn makes_one(key: bool, updates: &ReferenceUpdates, are_one: bool) -> bool
    ensures { (p last golden other : Image) → (are_one ≡ true → golden ≡ last) → result ≡ true
        → (if key || updates.now.refresh_golden then p else copied_by updates.now.copy_to_golden last other golden)
        ≡ (if key || updates.now.refresh_last then p else last) }
{
    if key || updates.refresh_last {
        return key || updates.refresh_golden;
    }
    match updates.copy_to_golden {
        _ if updates.refresh_golden => false,
        ReferenceCopy::Last => true,
        ReferenceCopy::Other => false,
        ReferenceCopy::Nothing | ReferenceCopy::Unused => are_one,
    }
}

// The new picture of golden or altref after a copy. `other` is altref or golden, `own` its picture before.
fn copied(
    copy: ReferenceCopy,
    last: &Rc<Picture>,
    other: &Rc<Picture>,
    own: &Rc<Picture>,
) -> Result<Rc<Picture>, AllocError>
    ensures { IfOk result (λ p. p.value ≡ copied_by copy last.now.value other.now.value own.now.value) }
{
    match copy {
        ReferenceCopy::Last => last.clone(),
        ReferenceCopy::Other => other.clone(),
        ReferenceCopy::Nothing | ReferenceCopy::Unused => own.clone(),
    }
}

/// The new picture if the reference is refreshed, else its own.
fn refreshed(
    refresh: bool,
    newest: &Rc<Picture>,
    own: &Rc<Picture>,
) -> Result<Rc<Picture>, AllocError>
    ensures { IfOk result (λ p. p.value ≡ (if refresh then newest.now.value else own.now.value)) }
{
    if refresh { newest.clone() } else { own.clone() }
}
