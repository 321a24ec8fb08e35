//! How far the desk was with a venue, as its deeds tell.

/// How far the desk was with a venue, as its deeds tell: how many legs had left by the last start and since then, and
/// whether its gate was shut for good.
#[derive(Clone, Copy, Debug)]
pub(crate) struct Mark {
    pub(crate) started: usize,
    pub(crate) since: usize,
    pub(crate) is_shut: bool,
}
