//! The statuses of replies.

ghost use Rattle.std.specs.Prelude.{◌≡◌};
ghost use Rattle.desk_http_head.specs.Statuses.{status_line};

/// The status of a reply (RFC 9110, section 15).
#[derive(Clone, Copy, Debug, Drop, PartialEq, Eq)]
pub enum Status {
    /// The command was recorded, or the question answered.
    Ok,
    /// The bytes aren't a request, or their body isn't a request of the desk.
    BadRequest,
    /// A browser sent the request for a page from elsewhere.
    Forbidden,
    /// There is no such route, document, package, release or duty.
    NotFound,
    /// What the desk holds doesn't allow the request.
    Conflict,
    /// The body is over its limit.
    ContentTooLarge,
    /// The desk refuses the request for another reason.
    UnprocessableContent,
    /// The file that keeps the desk failed.
    InternalServerError,
    /// The body comes in chunks, or in another transfer coding.
    NotImplemented,
    /// No memory is left.
    ServiceUnavailable,
}

impl Status {
    /// The number and the reason of the status, as in the first line of a reply.
    pub const fn line(self) -> &'static str
        ensures { result.now ≡ status_line self }
    {
        match self {
            Status::Ok => "200 OK",
            Status::BadRequest => "400 Bad Request",
            Status::Forbidden => "403 Forbidden",
            Status::NotFound => "404 Not Found",
            Status::Conflict => "409 Conflict",
            Status::ContentTooLarge => "413 Content Too Large",
            Status::UnprocessableContent => "422 Unprocessable Content",
            Status::InternalServerError => "500 Internal Server Error",
            Status::NotImplemented => "501 Not Implemented",
            Status::ServiceUnavailable => "503 Service Unavailable",
        }
    }
}
