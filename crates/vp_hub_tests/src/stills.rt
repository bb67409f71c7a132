//! Tests of pictures as WebP files that are encoded: decoded again, they are near the picture that was asked for.

use crate::check::equal;
use crate::hubs::{Told, begin, names_of, parts, tell};
use std::alloc::Global;
use std::process::Abort;
use vp_base::Limits;
use vp_hub::{Hub, Reply};
use vp_still::{Found, find};

/// The lines before a WebP file, up to its length.
const LINES: &[u8] = b"HTTP/1.1 200 OK\r\nContent-Type: image/webp\r\nContent-Length: ";

/// Returns a hub with one stream, `a`, that shows WebP files. Connection 1 is open.
fn new_hub(rt: &impl Abort, alloc: Global) -> Hub {
    let names = names_of(rt, alloc, &[b"a"]);
    let mut hub = Hub::with_stills(alloc, names, Limits::usual(), 16).expect(rt, "a hub");
    begin(rt, alloc, &mut hub, &parts());
    hub
}

/// Requests a WebP file.
fn ask(rt: &impl Abort, alloc: Global, hub: &mut Hub, path: &str) -> Reply {
    let asked = format!(in alloc; "GET {path} HTTP/1.1\r\nHost: x\r\n\r\n").expect(rt, "memory");
    tell(rt, alloc, hub, Told::Bytes(1, asked.as_bytes())).expect(rt, path)
}

/// Returns the WebP file in a response; no bytes if there is none.
fn file_in(reply: &[u8]) -> &[u8] {
    for place in 0..reply.len() {
        if reply[place..].starts_with(b"RIFF") {
            return &reply[place..];
        }
    }
    &[]
}

/// Returns the width and height of a picture, the number of its pixels, and how many of them are not one of these at
/// most 1 away.
fn far_from(found: &Found, wanted: &[u8]) -> (u16, u16, usize, u32) {
    let mut far = 0u32;
    for (pixel, wanted) in found.pixels.as_slice().iter().zip(wanted) {
        if pixel.abs_diff(*wanted) > 1 {
            far = far.saturating_add(1);
        }
    }
    (found.dim.w, found.dim.h, found.pixels.len(), far)
}

/// Fails the test if the WebP file in a response, decoded, has not this many pixels on each side, or one of them isn't
/// near these.
fn check_file(rt: &impl Abort, alloc: Global, reply: &[u8], side: u16, wanted: &[u8]) {
    equal!(rt; reply.get(..LINES.len()), Some(LINES));
    let found = find(alloc, file_in(reply), None, Limits::usual()).expect(rt, "a picture");
    equal!(rt; far_from(&found, wanted), (side, side, wanted.len(), 0));
}

/// Fails the test if the WebP file at this path doesn't show such a picture.
fn shows(rt: &impl Abort, alloc: Global, hub: &mut Hub, path: &str, (side, wanted): (u16, &[u8])) {
    let reply = ask(rt, alloc, hub, path);
    check_file(rt, alloc, reply.bytes.as_slice(), side, wanted);
}

/// Does so with a new hub.
fn check_still(rt: &impl Abort, alloc: Global, path: &str, side: u16, wanted: &[u8]) {
    shows(rt, alloc, &mut new_hub(rt, alloc), path, (side, wanted));
}

#[test]
fn inter_packet_as_webp(rt: HostRuntime) {
    check_still(&rt, rt.alloc(), "/s/a/webp/1", 16, &[128; 384]);
}

#[test]
fn thumbnails_by_their_scales(rt: HostRuntime) {
    // Of the key packet's picture rows 0 to 3 are 128, the others 129: half of it has two rows of eight 128s.
    let mut half = [128; 96];
    half[16..64].fill(129);
    check_still(&rt, rt.alloc(), "/s/a/webp/0/2", 8, &half);
    check_still(&rt, rt.alloc(), "/s/a/webp/1/4", 4, &[128; 24]);
    check_still(&rt, rt.alloc(), "/s/a/webp/1/8", 2, &[128; 6]);
}
