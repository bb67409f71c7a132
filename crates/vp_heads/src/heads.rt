//! Parses request heads.

ghost use Rattle.std.specs.Prelude.{◌≡◌, None, length, IfSome};
ghost use Rattle.httparse.specs.Grammar.{RequestHead};
ghost use Rattle.httparse.specs.Spans.{IsRequestAt, IsRequestWithin};
ghost use Rattle.vp_heads.specs.Heads.{IsHeadOf, HasNoHead};

use httparse::Status;
use httparse::spans::{HeaderSpan, RequestSpans, parse_request};

/// Parses a request head that must end exactly at the end of the bytes.
pub(crate) fn read_head(bytes: &[u8], room: &mut [HeaderSpan]) -> Option<RequestSpans>
    requires { length room.old ≡ 32 }
    ensures head { IfSome result (λ spans. (h : RequestHead) × IsHeadOf bytes.now h
        × IsRequestAt bytes.now room.new spans h) }
    ensures within { IfSome result (IsRequestWithin bytes.now room.new) }
    ensures refused { result ≡ None → HasNoHead bytes.now }
{
    match parse_request(bytes, room) {
        Ok(Status::Complete(spans)) => {
            if spans.len == bytes.len() {
                Some(spans)
            } else {
                None
            }
        }
        _ => None,
    }
}
