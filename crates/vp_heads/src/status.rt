//! HTTP status codes (RFC 9110, chapter 15).

ghost use Rattle.std.specs.Prelude.{◌≡◌};
ghost use Rattle.vp_heads.specs.Replies.{code_of, phrase_of};

use http::StatusCode;

/// The statuses of responses.
#[derive(Clone, Copy, Debug, PartialEq, Eq, Drop)]
pub enum Status {
    /// 200 OK.
    Good,
    /// 206 Partial Content: a part of a picture.
    Partial,
    /// 400 Bad Request.
    BadRequest,
    /// 404 Not Found: no such page, stream or packet, or the packet's picture isn't shown.
    NotFound,
    /// 405 Method Not Allowed: a method other than GET and HEAD.
    MethodNotAllowed,
    /// 416 Range Not Satisfiable: the range begins after the end of the picture.
    RangeNotSatisfiable,
    /// 422: the packet has a fault.
    Unprocessable,
    /// 431 Request Header Fields Too Large: the head doesn't end within 8,192 bytes.
    TooLong,
}

impl Status {
    /// Returns the status code.
    pub(crate) fn code(self) -> StatusCode
        ensures { result ≡ code_of self }
    {
        match self {
            Status::Good => StatusCode::OK,
            Status::Partial => StatusCode::PARTIAL_CONTENT,
            Status::BadRequest => StatusCode::BAD_REQUEST,
            Status::NotFound => StatusCode::NOT_FOUND,
            Status::MethodNotAllowed => StatusCode::METHOD_NOT_ALLOWED,
            Status::RangeNotSatisfiable => StatusCode::RANGE_NOT_SATISFIABLE,
            Status::Unprocessable => StatusCode::UNPROCESSABLE_ENTITY,
            Status::TooLong => StatusCode::REQUEST_HEADER_FIELDS_TOO_LARGE,
        }
    }

    /// Returns the reason phrase.
    #[tactic(auto, unfolding(crate::specs::Replies::phrase_of))]
    pub fn phrase(self) -> &'static str
        ensures { result.now ≡ phrase_of self }
    {
        self.code().canonical_reason().unwrap_or("")
    }
}
