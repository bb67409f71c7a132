//! Tests of vp_refs: the reference frames, frame by frame.

use crate::check::equal;
use std::alloc::Global;
use std::process::Abort;
use std::rc::Rc;
use vp_base::{Dim, Limits, Picture};
use vp_bool::BoolDecoder;
use vp_head::{Header, Reference, ReferenceCopy, ReferenceUpdates, Saved, Tag};
use vp_refs::Refs;

const INTER: Tag = Tag {
    version: 0,
    show: true,
    first_partition: 0,
    key: None,
};

// Returns an inter frame's header with these updates.
fn asking_for(updates: ReferenceUpdates) -> Header {
    let (mut header, _) = Header::read(&Saved::defaults(), &INTER, &mut BoolDecoder::new(&[]));
    header.updates = updates;
    header
}

// Returns the first luma pixel.
fn corner(picture: &Picture) -> Option<u8> {
    let plane = picture.plane(0);
    if plane.width() == 0 || plane.height() == 0 {
        return None;
    }
    Some(plane.get(0, 0))
}

// Returns a picture of 16 by 16 pixels with one value for all of them.
fn flat(rt: &impl Abort, alloc: Global, value: u8) -> Rc<Picture> {
    let dim = Dim::new(16, 16, &Limits::usual()).expect(rt, "a size");
    let picture = Picture::new(alloc, dim, value).expect(rt, "memory");
    Rc::new(alloc, picture).expect(rt, "memory")
}

const NOTHING: ReferenceUpdates = ReferenceUpdates {
    refresh_golden: false,
    refresh_alt: false,
    copy_to_golden: ReferenceCopy::Nothing,
    copy_to_alt: ReferenceCopy::Nothing,
    refresh_last: false,
};

// Returns the first pixels of last, golden, altref and the newest picture.
fn corners(refs: &Refs) -> [Option<u8>; 4] {
    [
        corner(refs.get(Reference::Last)),
        corner(refs.get(Reference::Golden)),
        corner(refs.get(Reference::Alt)),
        corner(refs.newest()),
    ]
}

// Returns the first luma pixel of a picture, if there is one.
fn first_pixel(picture: Option<Picture>) -> Option<u8> {
    match picture {
        Some(picture) => corner(&picture),
        None => None,
    }
}

// Returns the first luma pixels of the pictures that are there.
fn first_pixels(pictures: [Option<Picture>; 4]) -> [Option<u8>; 4] {
    let [last, golden, alt, newest] = pictures;
    [
        first_pixel(last),
        first_pixel(golden),
        first_pixel(alt),
        first_pixel(newest),
    ]
}

// Updates the references by a frame with these updates, whose picture has one value.
fn update(rt: &impl Abort, alloc: Global, refs: &mut Refs, updates: ReferenceUpdates, value: u8) {
    let picture = flat(rt, alloc, value);
    refs.update(&asking_for(updates), picture)
        .expect(rt, "memory");
}

// Returns the references after a key frame of 1, and one frame for each of these updates, with pictures of 2, 3 and so
// on.
fn refs_behind(rt: &impl Abort, alloc: Global, updates: &[ReferenceUpdates]) -> Refs {
    let mut refs = Refs::of_key(flat(rt, alloc, 1)).expect(rt, "memory");
    let mut value = 1u8;
    for asked in updates {
        value = value.wrapping_add(1);
        update(rt, alloc, &mut refs, *asked, value);
    }
    refs
}

// As in libvpx: altref is copied from last, and then golden from the new altref.
fn check_copies(rt: &impl Abort, alloc: Global, refs: &mut Refs, before: &Refs) {
    let copies = ReferenceUpdates {
        copy_to_golden: ReferenceCopy::Other,
        copy_to_alt: ReferenceCopy::Last,
        ..NOTHING
    };
    update(rt, alloc, refs, copies, 3);
    equal!(rt; corners(refs), [Some(2), Some(2), Some(2), Some(3)]);
    equal!(rt; corners(before), [Some(2), Some(1), Some(1), Some(2)]);
}

#[test]
fn altref_is_copied_before_golden(rt: HostRuntime) {
    let takes_last = ReferenceUpdates {
        refresh_last: true,
        ..NOTHING
    };
    let mut refs = refs_behind(&rt, rt.alloc(), &[takes_last]);
    let before = refs.share().expect(&rt, "memory");
    check_copies(&rt, rt.alloc(), &mut refs, &before);
    // Nothing else refers to the first picture now.
    let unshared = first_pixels(before.into_unshared());
    equal!(&rt; unshared, [None, None, Some(1), None]);
}

// Copy flag 3 copies nothing.
#[test]
fn unused_number_copies_nothing(rt: HostRuntime) {
    let golden = ReferenceUpdates {
        refresh_golden: true,
        ..NOTHING
    };
    let alt = ReferenceUpdates {
        refresh_alt: true,
        ..NOTHING
    };
    let unused = ReferenceUpdates {
        copy_to_golden: ReferenceCopy::Unused,
        copy_to_alt: ReferenceCopy::Unused,
        ..NOTHING
    };
    let refs = refs_behind(&rt, rt.alloc(), &[golden, alt, unused]);
    equal!(&rt; corners(&refs), [Some(1), Some(2), Some(3), Some(4)]);
}
