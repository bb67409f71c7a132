//! The routes of the server.

ghost use Rattle.std.specs.Prelude.{◌≡◌, ◌==◌, ◌+◌, ◌<◌, ℕ, List, [], Option, Some, None, IfOk, OnOk, IfSome, length};
ghost use Rattle.std.specs.Prelude.{position, drop};
ghost use Rattle.std.specs.List.{before_first, after_first, position_or_len};
ghost use Rattle.vp_heads.specs.Routes.{our_routes, still_routes, page_at, with_route, HasPlace, is_slash, name_in};
ghost use Rattle.vp_heads.specs.Routes.{at_path, number_segment, thumbnail_number, scale_segment, scale_named};
ghost use Rattle.vp_heads.specs.Routes.{still_route};
ghost use Rattle.vp_heads.specs.Numbers.{packet_number};
ghost use Rattle.vp_heads.specs.Routes.{name_index as place_in};

use crate::numbers::packet;
use crate::request::Resource;
use matchit::{InsertError, Router};
use std::alloc::{AllocError, Global};
use std::str::from_utf8;
use vp_base::ByteList;
use vp_scale::Scale;

/// The pages of the server.
#[derive(Clone, Copy, Debug, PartialEq, Eq, Drop)]
pub enum Page {
    /// The list of the names of all streams.
    Streams,
    /// Information about a stream.
    Info,
    /// The picture of a packet as I420.
    Frame,
    /// The picture of a packet as a YUV4MPEG2 file.
    Video,
    /// The picture of a packet as a WebP file.
    Still,
    /// The picture of a packet, made smaller, as a WebP file.
    Thumbnail,
}

/// Creates the router of the four pages.
pub fn router(alloc: Global) -> Result<Router<Page>, AllocError>
    ensures { IfOk result (λ r. r ≡ our_routes) }
{
    let mut router = Router::new(alloc);
    add_pages(&mut router)?;
    Ok(router)
}

/// Adds the four pages. A function that owns the router is slow to prove with a way out for each page.
#[tactic(auto, unfolding(crate::specs::Routes::our_routes))]
fn add_pages(router: &mut Router<Page>) -> Result<(), AllocError>
    requires { router.old ≡ [] }
    ensures { OnOk result (router.new ≡ our_routes) }
{
    add(router, "/streams", Page::Streams)?;
    add(router, "/s/{name}/info", Page::Info)?;
    add(router, "/s/{name}/frame/{n}", Page::Frame)?;
    add(router, "/s/{name}/y4m/{n}", Page::Video)
}

/// Creates the router of all six pages: those of `router`, and the WebP files of pictures in their size and smaller.
pub fn router_with_stills(alloc: Global) -> Result<Router<Page>, AllocError>
    ensures { IfOk result (λ r. r ≡ still_routes) }
{
    let mut router = router(alloc)?;
    add_still_pages(&mut router)?;
    Ok(router)
}

/// Adds the two pages of WebP files.
#[tactic(auto, unfolding(crate::specs::Routes::still_routes))]
fn add_still_pages(router: &mut Router<Page>) -> Result<(), AllocError>
    requires { router.old ≡ our_routes }
    ensures { OnOk result (router.new ≡ still_routes) }
{
    add(router, "/s/{name}/webp/{n}", Page::Still)?;
    add(router, "/s/{name}/webp/{n}/{k}", Page::Thumbnail)
}

/// Adds a route, which must not conflict with the others.
fn add(router: &mut Router<Page>, route: &str, page: Page) -> Result<(), AllocError>
    requires { HasPlace route.now router.old }
    ensures { OnOk result (router.new ≡ with_route route.now page router.old) }
{
    match router.insert(route, page) {
        Ok(()) => Ok(()),
        Err(InsertError::OutOfMemory) => Err(AllocError),
        Err(_) => unreachable!(),
    }
}

/// Returns the page of a path.
fn page_of(router: &Router<Page>, path: &[u8]) -> Option<Page>
    ensures { result ≡ page_at router.now path.now }
{
    let Ok(text) = from_utf8(path) else {
        return None;
    };
    match router.at(text) {
        Ok(found) => Some(*found.value),
        Err(_) => None,
    }
}

fn slash_place(path: &[u8]) -> Option<usize>
    ensures place { result ≡ position is_slash path.now }
    ensures there { IfSome result (λ i. i < length path.now) }
{
    path.iter().position(|b| *b == b'/')
}

/// Returns the bytes before the first slash, or all of them.
fn part(path: &[u8]) -> &[u8]
    ensures { result.now ≡ before_first is_slash path.now }
{
    match slash_place(path) {
        Some(place) => &path[..place],
        None => path,
    }
}

/// Returns the bytes after the first slash, or none.
fn rest(path: &[u8]) -> &[u8]
    ensures { result.now ≡ after_first is_slash path.now }
{
    match slash_place(path) {
        Some(place) => &path[place + 1..],
        None => &[],
    }
}

/// Returns the bytes after the first three, or none.
fn behind_three(path: &[u8]) -> &[u8]
    ensures { result.now ≡ drop 3 path.now }
{
    match path {
        [_, _, _, rest @ ..] => rest,
        _ => &[],
    }
}

fn name_of(path: &[u8]) -> &[u8]
    ensures { result.now ≡ name_in path.now }
{
    part(behind_three(path))
}

fn number_of(path: &[u8]) -> &[u8]
    ensures { result.now ≡ number_segment path.now }
{
    rest(rest(behind_three(path)))
}

fn thumbnail_number_of(path: &[u8]) -> &[u8]
    ensures { result.now ≡ thumbnail_number path.now }
{
    part(number_of(path))
}

/// Returns how much smaller the thumbnail of a path is, if that is known.
fn scale_of(path: &[u8]) -> Option<Scale>
    ensures { result ≡ scale_named (scale_segment path.now) }
{
    let text = rest(number_of(path));
    if text == b"2".as_slice() {
        Some(Scale::Half)
    } else if text == b"4".as_slice() {
        Some(Scale::Quarter)
    } else if text == b"8".as_slice() {
        Some(Scale::Eighth)
    } else {
        None
    }
}

/// Returns the index of a name among names.
pub fn place_of(names: &[ByteList], name: &[u8]) -> Option<usize>
    ensures place { result ≡ place_in names.now name.now }
    ensures there { IfSome result (λ i. i < length names.now) }
{
    names.iter().position(|x| x.as_slice() == name)
}

/// Returns the resource that a path names.
#[tactic(auto, unfolding(crate::specs::Routes::at_path))]
pub(crate) fn wanted_at(router: &Router<Page>, names: &[ByteList], path: &[u8]) -> Resource
    ensures { result ≡ at_path router.now names.now path.now }
{
    let Some(page) = page_of(router, path) else {
        return Resource::Missing;
    };
    if page == Page::Streams {
        return Resource::Streams;
    }
    let Some(stream) = place_of(names, name_of(path)) else {
        return Resource::Missing;
    };
    if page == Page::Info {
        return Resource::Info(stream);
    }
    if page == Page::Thumbnail {
        return thumbnail_at(stream, path);
    }
    let Some(n) = packet(number_of(path)) else {
        return Resource::Missing;
    };
    match page {
        Page::Frame => Resource::Frame(stream, n),
        Page::Video => Resource::Video(stream, n),
        _ => Resource::Still(stream, n, Scale::Full),
    }
}

/// Returns the thumbnail that a path names, of a packet of this stream.
fn thumbnail_at(stream: usize, path: &[u8]) -> Resource
    ensures { result ≡ still_route (Some stream) (packet_number (thumbnail_number path.now))
        (scale_named (scale_segment path.now)) }
{
    let Some(n) = packet(thumbnail_number_of(path)) else {
        return Resource::Missing;
    };
    match scale_of(path) {
        Some(scale) => Resource::Still(stream, n, scale),
        None => Resource::Missing,
    }
}
