//! Lines of the access log.

use crate::check::equal;
use std::alloc::Global;
use std::net::SocketAddr;
use std::process::Abort;
use vp_mio::{Access, access_line};

/// Fails the test if the line of a request to which a picture of two bytes was replied isn't this one. The time is the
/// example of RFC 9110, chapter 5.6.7.
fn check_line(
    rt: &impl Abort,
    alloc: Global,
    request: &[u8],
    peer: Option<SocketAddr>,
    wanted: &[u8],
) {
    let access = Access {
        seconds: 784_111_777,
        number: 17,
        peer,
        request,
        reply: b"HTTP/1.1 206 Partial Content\r\nContent-Length: 2\r\n\r\nab",
        packets: 3,
    };
    let line = access_line(alloc, &access).expect(rt, "memory");
    equal!(rt; line.as_slice(), wanted);
}

#[test]
fn a_request_is_logged(rt: HostRuntime) {
    let wanted = b"[Sun, 06 Nov 1994 08:49:37 GMT] 17 127.0.0.1:51234 \"GET / HTTP/1.1\" 206 2 3\n";
    let peer = "127.0.0.1:51234".parse().ok();
    check_line(&rt, rt.alloc(), b"GET / HTTP/1.1", peer, wanted);
}

#[test]
fn a_forged_line_is_escaped(rt: HostRuntime) {
    let wanted = b"[Sun, 06 Nov 1994 08:49:37 GMT] 17 - \"GET \\x22\\x0A[\\x5C\\xFF\" 206 2 3\n";
    check_line(&rt, rt.alloc(), b"GET \"\n[\\\xFF", None, wanted);
}
