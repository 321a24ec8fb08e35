//! A request, as far as the desk looks at it.

/// What a request asks by.
#[derive(Clone, Copy, Debug, PartialEq, Eq)]
pub enum Method {
    Get,
    Post,
    Other,
}

/// A request. A field of its head that is missing is empty.
#[derive(Debug, Drop)]
pub struct Request {
    pub method: Method,
    /// The path and, behind `?`, the query.
    pub target: Vec<u8>,
    pub host: Vec<u8>,
    pub origin: Vec<u8>,
    pub content_type: Vec<u8>,
    pub authorization: Vec<u8>,
    pub last_event_id: Vec<u8>,
    /// The reference of a sweep, where it stands in the head.
    pub idempotency_key: Vec<u8>,
    pub body: Vec<u8>,
}
