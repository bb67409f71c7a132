//! The hub: the state machine of the frame server.

ghost use Rattle.std.specs.Prelude.{◌≡◌, ◌≢◌, ◌↔◌, ◌≤◌, ◌<◌, ◌+◌, ◌++◌, ◌∷◌, [], ℕ, List, true, false, Some, Ok, Err};
ghost use Rattle.std.specs.Prelude.{IfOk, OnOk, OnErr, length, vec_len};
ghost use Rattle.std.specs.Vec.{vec_capacity};
ghost use Rattle.vp_stream.specs.Seeking.{saturating_count};
ghost use Rattle.vp_cache.specs.Cache.{empty};
ghost use Rattle.vp_cache.specs.Cursors.{no_cursors};
ghost use Rattle.vp_hub.specs.declared.event.Event.{Event};
ghost use Rattle.vp_hub.specs.declared.event.HubFault.TheVariants.{Memory};
ghost use Rattle.vp_hub.specs.declared.names.NewFault.{NewFault};
ghost use Rattle.vp_hub.specs.Heads.{AllKeepPartial};
ghost use Rattle.vp_hub.specs.Names.{are_names as may_be_names};
ghost use Rattle.vp_hub.specs.Hub.{AreKept, IsStep, Outcome, HubState, initial_hub, new_hub_state};
ghost use Rattle.vp_hub.specs.Hub.{connection_state_of, with_connection_state, stream_limits, Gets, Asks, is_open};
ghost use Rattle.vp_hub.specs.Pieces.{AreAcceptedEnds, AreAcceptedPieces};
ghost use Rattle.vp_hub.specs.View.{IsRun, IsIsolated};
ghost use Rattle.vp_hub.specs.Work.{HaveCursors, Costs, CostsAtMost, CostsPiece, CostsPieceAtMost, IsWorked};
ghost use Rattle.vp_hub.specs.Work.{Hub, IsWorkedRun};

use crate::connection::{Connection, ConnectionState, find, open_one, shut_one};
use crate::event::{Event, HubFault, Reply};
use crate::feed_bytes::feed_bytes;
use crate::names::{NewFault, are_names};
use crate::picture_cache::{PictureCache, Pictures};
use crate::streams::{Streams, limits_of_stream};
use std::alloc::{AllocError, Global};
use std::marker::Model;
use vp_base::{ByteList, Limits};
use vp_cache::{Cache, Cursors};
use vp_heads::Buffer;

/// A hub: growing streams, and connections that request their pictures.
#[derive(Drop)]
pub struct Hub {
    alloc: Global,
    streams: Streams,
    connections: Vec<Connection>,
    pictures: PictureCache,
}

impl Model for Hub {
    ghost use Rattle.vp_hub.specs.Hub.{AreKept};
    ghost use Rattle.vp_hub.specs.Work.{Hub, HaveCursors};

    ghost Value = { Hub };

    ghost view = { λ h. record {
      state = record { streams = h.streams; connections = h.connections.items };
      cache = h.pictures.kept.cache;
      cursors = h.pictures.kept.cursors;
      work = h.pictures.work;
    } };

    // All cached pictures are the answers of the streams, and all cursors are those of the streams.
    ghost invariant = { λ h. AreKept h.streams.sources h.pictures.kept.cache.entries
        × HaveCursors h.streams.sources h.pictures.kept.cursors };
}

impl Hub {
    /// Creates a hub for streams with these names, without bytes and without connections. `limits.cache` is the number
    /// of cached pictures. A picture that isn't cached is decoded from the last key packet on.
    ///
    /// Errors: `Names` if the names are not valid, `Memory`.
    pub fn new(alloc: Global, names: Vec<ByteList>, limits: Limits) -> Result<Hub, NewFault>
        ensures names { (result ≡ Err NewFault.Names) ↔ (may_be_names names.items ≡ false) }
        ensures hub { IfOk result (λ h. h ≡ record {
          state = initial_hub names.items limits;
          cache = empty limits.cache;
          cursors = no_cursors 0 (stream_limits limits);
          work = 0;
        }) }
        ensures partial { IfOk result (λ h. AllKeepPartial h.state) }
        ensures stands { IfOk result (λ h. IsRun (initial_hub names.items limits) [] [] h.state) }
    {
        Hub::with_cursors(alloc, names, limits, 0)
    }

    /// Creates a hub as `new` does, with at most `cursors` cursors: a picture that isn't cached is decoded from the
    /// nearest usable cursor on, so that packets in order are decoded once each.
    ///
    /// Errors: `Names` if the names are not valid, `Memory`.
    pub fn with_cursors(
        alloc: Global,
        names: Vec<ByteList>,
        limits: Limits,
        cursors: u32,
    ) -> Result<Hub, NewFault>
        ensures names { (result ≡ Err NewFault.Names) ↔ (may_be_names names.items ≡ false) }
        ensures hub { IfOk result (λ h. h ≡ record {
          state = initial_hub names.items limits;
          cache = empty limits.cache;
          cursors = no_cursors cursors (stream_limits limits);
          work = 0;
        }) }
        ensures partial { IfOk result (λ h. AllKeepPartial h.state) }
        ensures stands { IfOk result (λ h. IsRun (initial_hub names.items limits) [] [] h.state) }
    {
        Hub::create(alloc, names, limits, cursors, false)
    }

    /// Creates a hub as `with_cursors` does, that shows the pictures as WebP files too, in their size or smaller.
    ///
    /// Errors: `Names` if the names are not valid, `Memory`.
    pub fn with_stills(
        alloc: Global,
        names: Vec<ByteList>,
        limits: Limits,
        cursors: u32,
    ) -> Result<Hub, NewFault>
        ensures names { (result ≡ Err NewFault.Names) ↔ (may_be_names names.items ≡ false) }
        ensures hub { IfOk result (λ h. h ≡ record {
          state = new_hub_state true names.items limits;
          cache = empty limits.cache;
          cursors = no_cursors cursors (stream_limits limits);
          work = 0;
        }) }
        ensures partial { IfOk result (λ h. AllKeepPartial h.state) }
        ensures stands { IfOk result (λ h. IsRun (new_hub_state true names.items limits) [] [] h.state) }
    {
        Hub::create(alloc, names, limits, cursors, true)
    }

    // Creates a hub. With `webp`, it shows WebP files.
    fn create(
        alloc: Global,
        names: Vec<ByteList>,
        limits: Limits,
        cursors: u32,
        webp: bool,
    ) -> Result<Hub, NewFault>
        ensures names { (result ≡ Err NewFault.Names) ↔ (may_be_names names.items ≡ false) }
        ensures hub { IfOk result (λ h. h ≡ record {
          state = new_hub_state webp names.items limits;
          cache = empty limits.cache;
          cursors = no_cursors cursors (stream_limits limits);
          work = 0;
        }) }
        ensures partial { IfOk result (λ h. AllKeepPartial h.state) }
        ensures stands { IfOk result (λ h. IsRun (new_hub_state webp names.items limits) [] [] h.state) }
    {
        if !are_names(&names) {
            return Err(NewFault::Names);
        }
        let Ok(cursors) = Cursors::new(alloc, cursors, limits_of_stream(limits)) else {
            return Err(NewFault::Memory);
        };
        let Ok(streams) = Streams::new(alloc, names, limits, webp) else {
            return Err(NewFault::Memory);
        };
        let Ok(cache) = Cache::new(alloc, limits.cache) else {
            return Err(NewFault::Memory);
        };
        Ok(Hub {
            alloc,
            streams,
            connections: Vec::new(alloc),
            pictures: PictureCache {
                kept: Pictures { cache, cursors },
                work: 0,
            },
        })
    }

    /// Handles one event.
    ///
    /// Errors: `HubFault`. If memory runs out while bytes of a connection are handled, that connection is closed.
    /// Otherwise a refused event changes no stream and no connection.
    pub fn step(&mut self, event: &Event) -> Result<Reply, HubFault>
        ensures step { IsStep self.old.state event.now result self.new.state }
        ensures partial { AllKeepPartial self.old.state → AllKeepPartial self.new.state }
        ensures worked { IsWorked self.old event.now result self.new }

        // `step` extends any earlier history, so a theorem about runs holds for events one by one.
        ensures stands { (s : HubState) (events : List Event) (results : List Outcome)
            → IsRun s events results self.old.state
            → IsRun s (events ++ event.now ∷ []) (results ++ result ∷ []) self.new.state }
        ensures stands_worked { (s : Hub) (events : List Event) (results : List Outcome)
            → IsWorkedRun s events results self.old
            → IsWorkedRun s (events ++ event.now ∷ []) (results ++ result ∷ []) self.new }
    {
        self.turn(event)
    }

    /// Returns the number of packets decoded for the last event, refused or not. It saturates at 2^64 - 1.
    pub fn work(&self) -> u64
        ensures { result ≡ self.now.work }
    {
        self.pictures.work
    }

    // Handles one event, by its kind.
    fn turn(&mut self, event: &Event) -> Result<Reply, HubFault>
        ensures step { IsStep self.old.state event.now result self.new.state }
        ensures worked { IsWorked self.old event.now result self.new }
    {
        self.pictures.begin();
        match event {
            Event::Feed(name, piece) => {
                self.streams
                    .feed(self.alloc, name.as_slice(), piece.as_slice())
            }
            Event::End(name) => self.streams.end(self.alloc, name.as_slice()),
            Event::Open(number) => open_one(self.alloc, &mut self.connections, *number),
            Event::Bytes(number, piece) => self.bytes(*number, piece.as_slice()),
            Event::Shut(number) => shut_one(self.alloc, &mut self.connections, *number),
        }
    }

    /// Handles a piece of the bytes that the connection with this number has received.
    pub(crate) fn bytes(&mut self, number: u32, piece: &[u8]) -> Result<Reply, HubFault>
        ensures step { IsStep self.old.state (Event.Bytes number piece.now) result self.new.state }
        ensures worked { IsWorked self.old (Event.Bytes number piece.now) result self.new }
    {
        self.pictures.begin();
        ask(
            self.alloc,
            &self.streams,
            &mut self.pictures,
            &mut self.connections,
            number,
            piece,
        )
    }

    /// Handles a list of events, and returns their results. The memory for the results is allocated first.
    pub fn run(&mut self, events: &[Event]) -> Result<Vec<Result<Reply, HubFault>>, AllocError>
        ensures run { IfOk result (λ results. IsRun self.old.state events.now results.items self.new.state) }
        ensures partial { AllKeepPartial self.old.state → AllKeepPartial self.new.state }
        ensures worked { IfOk result (λ results. IsWorkedRun self.old events.now results.items self.new) }
        ensures isolated { IfOk result (λ results. IsIsolated self.old.state events.now results.items self.new.state) }
        ensures pieces { IfOk result (λ results. AreAcceptedPieces self.old.state events.now results.items
            self.new.state) }
        ensures ends { IfOk result (λ results. AreAcceptedEnds self.old.state events.now results.items self.new.state) }
        ensures err { OnErr result (self.new ≡ self.old) }

        // `run` extends any earlier history, including its work.
        ensures stands { IfOk result (λ results. (s : HubState) (before : List Event) (had : List Outcome)
            → IsRun s before had self.old.state
            → IsRun s (before ++ events.now) (had ++ results.items) self.new.state) }
        ensures stands_worked { IfOk result (λ results. (s : Hub) (before : List Event) (had : List Outcome)
            → IsWorkedRun s before had self.old
            → IsWorkedRun s (before ++ events.now) (had ++ results.items) self.new) }
    {
        let mut results = Vec::with_capacity(self.alloc, events.len())?;
        for event in events {
            let res = self.step(event);
            put(&mut results, res);
        }
        Ok(results)
    }
}

/// Appends a result; there must be room for it.
fn put(results: &mut Vec<Result<Reply, HubFault>>, res: Result<Reply, HubFault>)
    requires { vec_len results.old < vec_capacity results.old }
    ensures items { results.new.items ≡ results.old.items ++ res ∷ [] }
    ensures len { vec_len results.new ≡ vec_len results.old + 1 }
    ensures room { vec_capacity results.old ≤ vec_capacity results.new }
{
    let Ok(()) = results.push(res) else {
        unreachable!();
    };
}

/// Handles bytes of the connection with this number.
fn ask(
    alloc: Global,
    streams: &Streams,
    pictures: &mut PictureCache,
    connections: &mut Vec<Connection>,
    number: u32,
    piece: &[u8],
) -> Result<Reply, HubFault>
    requires kept { AreKept streams.now.sources pictures.old.kept.cache.entries }
    requires cursors { HaveCursors streams.now.sources pictures.old.kept.cursors }
    requires idle { pictures.old.work ≡ 0 }
    ensures kept { AreKept streams.now.sources pictures.new.kept.cache.entries }
    ensures cursors { HaveCursors streams.now.sources pictures.new.kept.cursors }
    ensures memory { result ≡ Err Memory → connections.new.items
        ≡ with_connection_state number (record { pending = []; closed = true }) connections.old.items }
    ensures fine { result ≡ Err Memory → is_open (connection_state_of number connections.old.items) ≡ true }
    ensures step { result ≢ Err Memory →
        Asks streams.now number piece.now connections.old.items (connection_state_of number connections.old.items)
        (connections.new.items, result) }
    ensures work { result ≢ Err Memory → (cost : ℕ)
        × CostsPiece streams.now piece.now
        (connection_state_of number connections.old.items) pictures.old.kept pictures.new.kept
        cost
        × (pictures.new.work ≡ saturating_count 0 cost) }
    ensures most { result ≡ Err Memory →
        CostsPieceAtMost streams.now piece.now
        (connection_state_of number connections.old.items) pictures.old.kept pictures.new.kept pictures.new.work }
{
    let Some(place) = find(connections, number) else {
        return Err(HubFault::UnknownConn);
    };
    answer(
        alloc,
        streams,
        pictures,
        &mut connections[place].state_of_connection,
        piece,
    )
}

/// Handles bytes of an open or closed connection.
fn answer(
    alloc: Global,
    streams: &Streams,
    pictures: &mut PictureCache,
    state_of_connection: &mut ConnectionState,
    piece: &[u8],
) -> Result<Reply, HubFault>
    requires kept { AreKept streams.now.sources pictures.old.kept.cache.entries }
    requires cursors { HaveCursors streams.now.sources pictures.old.kept.cursors }
    requires idle { pictures.old.work ≡ 0 }
    ensures kept { AreKept streams.now.sources pictures.new.kept.cache.entries }
    ensures cursors { HaveCursors streams.now.sources pictures.new.kept.cursors }
    ensures memory { result ≡ Err Memory → state_of_connection.new ≡ record { pending = []; closed = true } }
    ensures fine { result ≡ Err Memory → state_of_connection.old.closed ≡ false }
    ensures step { result ≢ Err Memory → Gets streams.now piece.now state_of_connection.old
        (state_of_connection.new, result) }
    ensures work { result ≢ Err Memory → (cost : ℕ)
        × CostsPiece streams.now piece.now (Some state_of_connection.old) pictures.old.kept pictures.new.kept cost
        × (pictures.new.work ≡ saturating_count 0 cost) }
    ensures most { result ≡ Err Memory →
        CostsPieceAtMost streams.now piece.now
        (Some state_of_connection.old) pictures.old.kept pictures.new.kept pictures.new.work }
{
    if state_of_connection.closed {
        return Err(HubFault::Failed);
    }
    let mut out = Buffer::new(alloc);
    let Ok(()) = feed_bytes(
        alloc,
        streams,
        pictures,
        piece,
        state_of_connection,
        &mut out,
    ) else {
        state_of_connection.pending.clear();
        state_of_connection.closed = true;
        return Err(HubFault::Memory);
    };
    Ok(Reply {
        bytes: out.into_list(),
        close: state_of_connection.closed,
    })
}
