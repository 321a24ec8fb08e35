//! Where words lie that are kept one behind the other in one text.

ghost use Rattle.std.specs.Prelude.{◌≡◌, ◌+◌, ◌≤◌, ℕ, length};
ghost use Rattle.report_words.specs.Placing.{IsPlaced, end_of, part_at, part_of, placed_at, words_at};

use crate::first_words::FirstWords;
use crate::report_words::ReportWords;

/// How many bytes of a text are kept, and whether it has more.
#[derive(Clone, Copy, Debug, PartialEq, Eq)]
pub(crate) struct Part {
    pub(crate) len: u8,
    pub(crate) is_cut: bool,
}

/// Where the words of a message lie: from a byte on, one part behind the other.
#[derive(Clone, Copy, Debug, PartialEq, Eq)]
pub(crate) struct Placed {
    pub(crate) start: usize,
    pub(crate) id: Part,
    pub(crate) exec_type: Part,
    pub(crate) order: Part,
    pub(crate) shares: Part,
    pub(crate) price: Part,
    pub(crate) time: Part,
    pub(crate) text: Part,
    pub(crate) reason: Part,
    pub(crate) refused: Part,
    pub(crate) message: Part,
}

/// The part that is kept of these words.
fn part_of<const N: usize>(words: &FirstWords<N>) -> Part
    requires { N ≤ 255 }
    ensures value { result ≡ part_of words.now }
    ensures few { length words.now.text ≤ N }
{
    Part {
        len: words.as_bytes().len() as u8,
        is_cut: words.is_cut(),
    }
}

/// The words of a part that begins here.
fn words_in<const N: usize>(bytes: &[u8], start: usize, part: Part) -> FirstWords<N>
    requires within { start + part.len ≤ length bytes.now }
    requires few { part.len ≤ N }
    ensures { result ≡ part_at bytes.now start part }
{
    let end = start + usize::from(part.len);
    FirstWords::of_kept(&bytes[start..end], part.is_cut)
}

impl Placed {
    /// Where words lie whose bytes begin here.
    pub(crate) fn new(start: usize, words: &ReportWords) -> Placed
        ensures value { result ≡ placed_at start words.now }
        ensures placed { (count : ℕ) → end_of (placed_at start words.now) ≤ count
            → IsPlaced count (placed_at start words.now) }
    {
        Placed {
            start,
            id: part_of(&words.id),
            exec_type: part_of(&words.exec_type),
            order: part_of(&words.order),
            shares: part_of(&words.shares),
            price: part_of(&words.price),
            time: part_of(&words.time),
            text: part_of(&words.text),
            reason: part_of(&words.reason),
            refused: part_of(&words.refused),
            message: part_of(&words.message),
        }
    }

    /// The words that lie there in a text.
    pub(crate) fn words(&self, bytes: &[u8]) -> ReportWords
        requires { IsPlaced (length bytes.now) self.now }
        ensures { result ≡ words_at bytes.now self.now }
    {
        let exec_type = self.start + usize::from(self.id.len);
        let order = exec_type + usize::from(self.exec_type.len);
        let shares = order + usize::from(self.order.len);
        let price = shares + usize::from(self.shares.len);
        let time = price + usize::from(self.price.len);
        let text = time + usize::from(self.time.len);
        let reason = text + usize::from(self.text.len);
        let refused = reason + usize::from(self.reason.len);
        let message = refused + usize::from(self.refused.len);
        ReportWords {
            id: words_in(bytes, self.start, self.id),
            exec_type: words_in(bytes, exec_type, self.exec_type),
            order: words_in(bytes, order, self.order),
            shares: words_in(bytes, shares, self.shares),
            price: words_in(bytes, price, self.price),
            time: words_in(bytes, time, self.time),
            text: words_in(bytes, text, self.text),
            reason: words_in(bytes, reason, self.reason),
            refused: words_in(bytes, refused, self.refused),
            message: words_in(bytes, message, self.message),
        }
    }
}
