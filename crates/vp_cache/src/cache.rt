//! A least-recently-used cache of decoded pictures.

ghost use Rattle.std.specs.Prelude.{◌≡◌, ◌≢◌, ◌<◌, ◌≤◌, ◌⊎◌, ℕ, [], length, IfOk, OnOk, OnErr};
ghost use Rattle.std.specs.Map.{lookup};
ghost use Rattle.lru.specs.LruCache.{lru_cache};
ghost use Rattle.vp_stream.specs.Seeking.{answer_value, answer_at, saturating_count};
ghost use Rattle.vp_stream.specs.Stream.{StreamHistory, IsStreamAfter, packets_of};
ghost use Rattle.vp_stream.specs.Stream.{Stream as StreamState};
ghost use Rattle.vp_cache.specs.Cache.{AreAnswersOf, IsAfter, IsAnswerIf, empty, cached, moved_to_front, put, pair_eq};
ghost use Rattle.vp_cache.specs.Cache.{lent};
ghost use Rattle.vp_cache.specs.Cache.{work_beside};
ghost use Rattle.vp_stream.specs.Cursor.{initial_cursor};
ghost use Rattle.vp_cache.specs.Cursors.{AreCursorsOf, in_front, after_picture, unless_cached, work_with};

use crate::cached_picture::CachedPicture;
use crate::cursors::Cursors;
use lru::LruCache;
use std::alloc::{AllocError, Global};
use std::marker::Model;
use std::num::NonZeroUsize;
use vp_stream::{Answer, Stream};

/// The most recently used pictures of all streams. The key is the number of the stream and the number of the packet.
#[derive(Drop)]
pub struct Cache {
    alloc: Global,
    entries: LruCache<(usize, u32), CachedPicture>,
}

impl Model for Cache {
    ghost use Rattle.vp_cache.specs.Cache.{Cache};
    ghost use Rattle.std.specs.Prelude.{◌<◌};

    ghost Value = { Cache };

    ghost view = { λ a. record { entries = a.entries.entries; capacity = a.entries.cap } };

    ghost invariant = { λ a. 0 < a.entries.cap };
}

impl Cache {
    /// Creates an empty cache for at most `capacity` pictures.
    pub fn new(alloc: Global, capacity: u32) -> Result<Cache, AllocError>
        requires { 0 < capacity }
        ensures { IfOk result (λ c. c ≡ empty capacity) }
    {
        let Some(capacity) = NonZeroUsize::new(capacity as usize) else {
            unreachable!();
        };
        Ok(Cache {
            alloc,
            entries: LruCache::new(alloc, capacity)?,
        })
    }

    /// Returns the cached picture for packet `n` of a stream, if there is one. Its position in the cache doesn't
    /// change; see `promote`.
    pub fn cached(&self, stream_no: usize, n: u32) -> Option<&CachedPicture>
        ensures value { lent result ≡ cached stream_no n self.now.entries }
        ensures answer { (stream : StreamState) → AreAnswersOf stream_no stream self.now.entries
            → IsAnswerIf (cached stream_no n self.now.entries) stream n }
    {
        self.entries.peek(&(stream_no, n))
    }

    /// Moves the cached picture for packet `n` of a stream to the front: it is now the most recently used.
    pub fn promote(&mut self, stream_no: usize, n: u32)
        ensures entries { self.new ≡ moved_to_front self.old stream_no n (cached stream_no n self.old.entries) }
        ensures kept { (number : ℕ) (stream : StreamState) →
            AreAnswersOf number stream self.old.entries → AreAnswersOf number stream self.new.entries }
    {
        self.entries.promote(&(stream_no, n));
    }

    /// Decodes packet `n` of a stream, or returns the cached picture: the answer is the same. A stream's number must
    /// always name the same stream, which may grow. The number of decoded packets is added to `work`; the sum saturates
    /// at 2^64 - 1.
    ///
    /// Errors: out of memory.
    pub fn picture(
        &mut self,
        stream_no: usize,
        stream: &Stream,
        n: u32,
        work: &mut u64,
    ) -> Result<Answer, AllocError>
        requires { AreAnswersOf stream_no stream.now self.old.entries }
        ensures answer { IfOk result (λ a.
            answer_value a ≡ answer_at stream.now.limits stream.now.reading.packets n) }
        ensures stands { IfOk result (λ a. (h : StreamHistory) → IsStreamAfter stream.now h →
            answer_value a ≡ answer_at stream.now.limits (packets_of stream.now h) n) }

        // A cache hit decodes nothing.
        ensures work { OnOk result (work.new ≡
            saturating_count work.old (work_beside
            (cached stream_no n self.old.entries) stream.now.reading.packets n)) }
        ensures most { OnErr result ((work.old ≤ work.new) × (work.new ≤
            saturating_count work.old (work_beside
            (cached stream_no n self.old.entries) stream.now.reading.packets n))) }

        // After it, a shown picture is the most recent entry. If there was no memory for it, the cache is unchanged.
        ensures entries { IfOk result (λ a.
            IsAfter self.old stream_no n (cached stream_no n self.old.entries) (answer_value a) self.new) }
        ensures kept { AreAnswersOf stream_no stream.now self.new.entries }
        ensures others { (other : ℕ) (s : StreamState) → other ≢ stream_no →
            AreAnswersOf other s self.old.entries → AreAnswersOf other s self.new.entries }

        // Memory is allocated only for a packet that exists. If it runs out, the cache is unchanged.
        ensures memory { OnErr result (self.new ≡ self.old) }
        ensures there { OnErr result (n < length stream.now.reading.packets) }
    {
        let _known = *work;
        if let Some(kept) = self.cached(stream_no, n) {
            let answer = kept.answer(self.alloc)?;
            self.promote(stream_no, n);
            return Ok(answer);
        }
        let answer = stream.picture_counted(n, work)?;
        keep(self.alloc, &mut self.entries, (stream_no, n), &answer);
        Ok(answer)
    }

    /// Decodes packet `n` of a stream as `picture` does, with cursors: on a cache miss the nearest usable cursor of the
    /// stream goes on.
    ///
    /// Errors: out of memory.
    pub fn picture_from(
        &mut self,
        cursors: &mut Cursors,
        stream_no: usize,
        stream: &Stream,
        n: u32,
        work: &mut u64,
    ) -> Result<Answer, AllocError>
        requires answers { AreAnswersOf stream_no stream.now self.old.entries }
        requires cursors { AreCursorsOf stream_no stream.now cursors.old.entries }
        requires limits { stream.now.limits ≡ cursors.old.limits }
        ensures answer { IfOk result (λ a.
            answer_value a ≡ answer_at stream.now.limits stream.now.reading.packets n) }
        ensures stands { IfOk result (λ a. (h : StreamHistory) → IsStreamAfter stream.now h →
            answer_value a ≡ answer_at stream.now.limits (packets_of stream.now h) n) }

        // A cache hit decodes nothing, and else no more packets are decoded than by any of the stream's cursors.
        ensures work { OnOk result (work.new ≡ saturating_count work.old (work_with
            (cached stream_no n self.old.entries) stream_no stream.now.reading.packets n cursors.old.entries)) }
        ensures most { OnErr result ((work.old ≤ work.new) × (work.new ≤ saturating_count work.old (work_with
            (cached stream_no n self.old.entries) stream_no stream.now.reading.packets n cursors.old.entries))) }

        // The cache changes as after `picture`.
        ensures entries { IfOk result (λ a.
            IsAfter self.old stream_no n (cached stream_no n self.old.entries) (answer_value a) self.new) }
        ensures kept { AreAnswersOf stream_no stream.now self.new.entries }
        ensures others { (other : ℕ) (s : StreamState) → other ≢ stream_no →
            AreAnswersOf other s self.old.entries → AreAnswersOf other s self.new.entries }
        ensures memory { OnErr result (self.new ≡ self.old) }
        ensures there { OnErr result (n < length stream.now.reading.packets) }

        // After a cache miss the used cursor is the first, and is past packet n. If memory runs out while it
        // decodes, it is at the start.
        ensures cursors { OnOk result (cursors.new ≡ unless_cached
            (cached stream_no n self.old.entries) cursors.old (after_picture cursors.old stream_no stream.now n)) }
        ensures cleared { OnErr result (cursors.new ≡ unless_cached
            (cached stream_no n self.old.entries) cursors.old
            (in_front cursors.old stream_no stream.now.reading.packets n (initial_cursor stream.now.limits))) }
        ensures cursors_kept { AreCursorsOf stream_no stream.now cursors.new.entries }
        ensures cursors_of_others { (other : ℕ) (s : StreamState) → other ≢ stream_no →
            AreCursorsOf other s cursors.old.entries → AreCursorsOf other s cursors.new.entries }
        ensures same_limits { cursors.new.limits ≡ cursors.old.limits }
    {
        let _known = *work;
        if let Some(kept) = self.cached(stream_no, n) {
            let answer = kept.answer(self.alloc)?;
            self.promote(stream_no, n);
            return Ok(answer);
        }
        let answer = cursors.picture_from(stream_no, stream, n, work)?;
        keep(self.alloc, &mut self.entries, (stream_no, n), &answer);
        Ok(answer)
    }
}

/// Caches a copy of a shown picture as the most recent entry, if there is memory for it.
fn keep(
    alloc: Global,
    entries: &mut LruCache<(usize, u32), CachedPicture>,
    key: (usize, u32),
    answer: &Answer,
)
    requires room { 0 < entries.old.cap }
    requires new { lookup (pair_eq key) entries.old.entries ≡ None }
    ensures { (entries.new ≡ entries.old)
        ⊎ (entries.new ≡ lru_cache (put key
        (answer_value answer.now) entries.old.cap entries.old.entries) entries.old.cap) }
{
    if let Answer::Shown(dim, bytes) = answer {
        if let Ok(copy) = CachedPicture::copied(alloc, *dim, bytes) {
            let _ = entries.put(key, copy);
        }
    }
}
