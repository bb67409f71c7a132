//! Tests of vp_cache with a handwritten stream: a key packet, and an inter packet that changes nothing.

ghost use Rattle.vp_cache.specs.Cache.{AreAnswersOf};

use crate::check::{equal, parts};
use std::alloc::Global;
use std::process::Abort;
use vp_base::Limits;
use vp_cache::Cache;
use vp_stream::Stream;

// An IVF file of 16 by 16 pixels with those two packets.
const FILE: [u8; 69] = [
    0x44, 0x4b, 0x49, 0x46, 0, 0, 0x20, 0, 0x56, 0x50, 0x38, 0x30, 0x10, 0, 0x10, 0, 0x1e, 0, 0, 0,
    1, 0, 0, 0, 1, 0, 0, 0, 0, 0, 0, 0, 0x0a, 0, 0, 0, 0, 0, 0, 0, 0, 0, 0, 0, 0x10, 0, 0, 0x9d,
    0x01, 0x2a, 0x10, 0, 0x10, 0, 3, 0, 0, 0, 0, 0, 0, 0, 0, 0, 0, 0, 0x11, 0, 0,
];

fn stream_of(rt: &impl Abort, alloc: Global) -> Stream {
    let mut stream = Stream::new(alloc, Limits::usual());
    stream.feed(&FILE).expect(rt, "a file");
    stream
}

/// Asks for the second packet, which is not kept before: a picture of 16 by 16 pixels, all 128.
fn fills(rt: &impl Abort, cache: &mut Cache, stream: &Stream)
    requires { AreAnswersOf 0 stream.now cache.old.entries }
{
    let mut work = 0;
    equal!(rt; cache.cached(0, 1).is_none(), true);
    let found = cache.picture(0, stream, 1, &mut work).expect(rt, "memory");
    let wanted = ("shown", None, Some(((16, 16), [128; 384].as_slice())));
    equal!(rt; parts(&found), wanted);
    equal!(rt; work, 2);
    equal!(rt; cache.cached(0, 1).is_some(), true);
}

#[test]
fn cache_is_filled(rt: HostRuntime) {
    let mut cache = Cache::new(rt.alloc(), 1).expect(&rt, "memory");
    let stream = stream_of(&rt, rt.alloc());
    fills(&rt, &mut cache, &stream);
}
