//! The status of an answer.

ghost use Rattle.std.specs.Prelude.{◌≡◌};
ghost use Rattle.desk_http.specs.Status.{allow_text, more_head, status_line};

/// The methods of a place.
#[derive(Clone, Copy, Debug, PartialEq, Eq)]
pub enum Allow {
    Get,
    Post,
    Both,
}

/// The status of an answer, with what its head has to say.
#[derive(Clone, Copy, Debug, PartialEq, Eq)]
pub enum Status {
    Ok,
    Created,
    Accepted,
    BadRequest,
    Unauthorized,
    Forbidden,
    NotFound,
    NoMethod(Allow),
    TooSlow,
    Conflict,
    BodyTooLarge,
    TargetTooLong,
    NotJson,
    HeadTooLarge,
    Unavailable,
}

impl Status {
    /// The number and its reason.
    pub(crate) fn line(self) -> &'static str
        ensures { result.now ≡ status_line self }
    {
        match self {
            Status::Ok => "200 OK",
            Status::Created => "201 Created",
            Status::Accepted => "202 Accepted",
            Status::BadRequest => "400 Bad Request",
            Status::Unauthorized => "401 Unauthorized",
            Status::Forbidden => "403 Forbidden",
            Status::NotFound => "404 Not Found",
            Status::NoMethod(_) => "405 Method Not Allowed",
            Status::TooSlow => "408 Request Timeout",
            Status::Conflict => "409 Conflict",
            Status::BodyTooLarge => "413 Content Too Large",
            Status::TargetTooLong => "414 URI Too Long",
            Status::NotJson => "415 Unsupported Media Type",
            Status::HeadTooLarge => "431 Request Header Fields Too Large",
            Status::Unavailable => "503 Service Unavailable",
        }
    }

    /// The field that RFC 9110 wants with a 401 and a 405, with its line's end.
    pub(crate) fn more_head(self) -> &'static str
        ensures { result.now ≡ more_head self }
    {
        match self {
            Status::Unauthorized => "WWW-Authenticate: Bearer\r\n",
            Status::NoMethod(Allow::Get) => "Allow: GET\r\n",
            Status::NoMethod(Allow::Post) => "Allow: POST\r\n",
            Status::NoMethod(Allow::Both) => "Allow: GET, POST\r\n",
            _ => "",
        }
    }
}
