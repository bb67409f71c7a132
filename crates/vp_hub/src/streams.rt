//! The streams of a hub.

ghost use Rattle.std.specs.Prelude.{◌≡◌, ◌≢◌, ◌<◌, ℕ, List, Ok, Err, Some, None, Option, IsOk, IfOk, IfSome, length};
ghost use Rattle.std.specs.Prelude.{slice_get, map};
ghost use Rattle.vp_cache.specs.Cache.{CacheEntry};
ghost use Rattle.vp_heads.specs.Requests.{IsRequestFor};
ghost use Rattle.vp_heads.specs.Routes.{routes_of};
ghost use Rattle.vp_heads.specs.Routes.{name_index as place_in};
ghost use Rattle.vp_hub.specs.declared.event.HubFault.TheVariants.{Memory};
ghost use Rattle.vp_hub.specs.Hub.{AreKept, at_name, at_place, at_source, fed, ended_source, lent_source};
ghost use Rattle.vp_hub.specs.Hub.{new_hub_state, new_source, stream_limits};
ghost use Rattle.vp_cache.specs.Cursors.{Cursors as CursorList};
ghost use Rattle.vp_hub.specs.Work.{HaveCursors};

use crate::event::{HubFault, Reply};
use crate::source::{Source, StreamEnd, end_source, feed_source};
use matchit::Router;
use std::alloc::{AllocError, Global};
use std::marker::Model;
use vp_base::{ByteList, Limits};
use vp_heads::{Page, Request, place_of, read_request, router, router_with_stills};
use vp_stream::Stream;

/// The streams, their names, and the router of the pages.
#[derive(Drop)]
pub struct Streams {
    names: Vec<ByteList>,
    sources: Vec<Source>,
    router: Router<Page>,
    // Whether the router has the routes of WebP files.
    webp: bool,
}

impl Model for Streams {
    ghost use Rattle.std.specs.Prelude.{◌≡◌};
    ghost use Rattle.vp_heads.specs.Routes.{routes_of};
    ghost use Rattle.vp_hub.specs.Pages.{Streams};

    ghost Value = { Streams };

    ghost view = { λ a. record { names = a.names.items; sources = a.sources.items; webp = a.webp } };

    ghost invariant = { λ a. a.router ≡ routes_of a.webp };
}

/// Returns the limits of a single stream. It keeps no pictures, so its `cache` is 1.
pub(crate) fn limits_of_stream(limits: Limits) -> Limits
    ensures { result ≡ stream_limits limits }
{
    Limits {
        pixels: limits.pixels,
        packet_bytes: limits.packet_bytes,
        packets: limits.packets,
        cache: 1,
    }
}

/// Creates a stream without bytes for each name.
fn new_sources(alloc: Global, names: &[ByteList], limits: Limits) -> Result<Vec<Source>, AllocError>
    ensures { IfOk result (λ sources. sources.items ≡ map (λ _. new_source limits) names.now) }
{
    let mut sources = Vec::new(alloc);
    for _name in names {
        sources.push(Source {
            stream: Stream::new(alloc, limits_of_stream(limits)),
            end: StreamEnd::Open,
        })?;
    }
    Ok(sources)
}

/// Creates the router of the pages, with those of WebP files or without.
fn router_for(alloc: Global, webp: bool) -> Result<Router<Page>, AllocError>
    ensures { IfOk result (λ r. r ≡ routes_of webp) }
{
    if webp {
        router_with_stills(alloc)
    } else {
        router(alloc)
    }
}

impl Streams {
    /// Creates streams with these names, without bytes. With `webp`, their pictures are shown as WebP files too.
    pub(crate) fn new(
        alloc: Global,
        names: Vec<ByteList>,
        limits: Limits,
        webp: bool,
    ) -> Result<Streams, AllocError>
        ensures { IfOk result (λ s. s ≡ (new_hub_state webp names.items limits).streams) }
    {
        let router = router_for(alloc, webp)?;
        let sources = new_sources(alloc, &names, limits)?;
        Ok(Streams {
            names,
            sources,
            router,
            webp,
        })
    }

    /// Returns the request in the bytes of a head.
    pub(crate) fn read(&self, head: &[u8]) -> Request
        ensures { IsRequestFor (routes_of self.now.webp) self.now.names head.now result }
    {
        read_request(&self.router, &self.names, head)
    }

    /// Returns the names, in order.
    pub(crate) fn names(&self) -> &[ByteList]
        ensures { result.now ≡ self.now.names }
    {
        &self.names
    }

    /// Returns the stream at a place.
    pub(crate) fn source(&self, place: usize) -> Option<&Source>
        ensures { lent_source result ≡ slice_get self.now.sources place }
    {
        self.sources.get(place)
    }

    /// Feeds a piece to the stream with this name. Its cached pictures remain correct,
    /// and its cursors remain valid.
    pub(crate) fn feed(
        &mut self,
        alloc: Global,
        name: &[u8],
        piece: &[u8],
    ) -> Result<Reply, HubFault>
        ensures memory { result ≡ Err Memory → self.new ≡ self.old }
        ensures fine { result ≡ Err Memory → IsOk (at_name (fed piece.now) name.now self.old).1 }
        ensures step { result ≢ Err Memory → (self.new, result) ≡ at_name (fed piece.now) name.now self.old }
        ensures kept { (entries : List CacheEntry) → AreKept self.old.sources entries
            → AreKept self.new.sources entries }
        ensures cursors { (cursors : CursorList) → HaveCursors self.old.sources cursors
            → HaveCursors self.new.sources cursors }
    {
        let Some(place) = place_of(&self.names, name) else {
            return Err(HubFault::UnknownStream);
        };
        let Some(source) = self.sources.get_mut(place) else {
            return Err(HubFault::UnknownStream);
        };
        feed_source(alloc, source, piece)
    }

    /// Marks the end of the stream with this name.
    pub(crate) fn end(&mut self, alloc: Global, name: &[u8]) -> Result<Reply, HubFault>
        ensures memory { result ≢ Err Memory }
        ensures step { (self.new, result) ≡ at_name ended_source name.now self.old }
        ensures kept { (entries : List CacheEntry) → AreKept self.old.sources entries
            → AreKept self.new.sources entries }
        ensures cursors { (cursors : CursorList) → HaveCursors self.old.sources cursors
            → HaveCursors self.new.sources cursors }
    {
        let Some(place) = place_of(&self.names, name) else {
            return Err(HubFault::UnknownStream);
        };
        let Some(source) = self.sources.get_mut(place) else {
            return Err(HubFault::UnknownStream);
        };
        end_source(alloc, source)
    }
}
