//! Which sweeps or executions are asked for.

ghost use Rattle.std.specs.Prelude.{◌≡◌};
ghost use Rattle.desk_http.specs.Window.{window_of, with_piece};

use crate::parts::parts_at;
use fix_tags::read_number;

/// The most sweeps or executions of one answer.
pub const MOST_SWEEPS: u64 = 200;

/// Those behind a number, at most so many.
#[derive(Clone, Copy, Debug, PartialEq, Eq)]
pub struct Window {
    pub after: u64,
    /// At most 200.
    pub most: u64,
}

/// A window with what a piece of the query says, as `after=100` or `most=50`; none where it says nothing of the two.
#[tactic(auto, unfolding(crate::specs::Window::with_piece))]
fn with_piece(window: Window, piece: &[u8]) -> Option<Window>
    ensures { result ≡ with_piece window piece.now }
{
    if piece.is_empty() {
        return Some(window);
    }
    if piece.starts_with(b"after=") {
        let after = read_number(&piece[6..])?;
        return Some(Window { after, ..window });
    }
    if piece.starts_with(b"most=") {
        let most = read_number(&piece[5..])?.min(MOST_SWEEPS);
        return Some(Window { most, ..window });
    }
    None
}

/// The window of a query: `after=N` and `most=N` in any order; where one is missing
/// 0 and 200.
pub(crate) fn window_of(query: &[u8]) -> Option<Window>
    ensures { result ≡ window_of query.now }
{
    let all = Window {
        after: 0,
        most: MOST_SWEEPS,
    };
    let (first, second) = parts_at(query, b'&');
    with_piece(with_piece(all, first)?, second)
}
