//! A leg of a release.

ghost use Rattle.std.specs.Prelude.{◌≡◌, ◌≤◌, ◌∷◌, length};
ghost use Rattle.schedule.specs.Script.{leg_of_words, before, legs_of_words};
ghost use Rattle.script.specs.Reading.{more_legs};

use crate::word::{any_venue, number_within, shares_word, side_word};
use dialect::read_symbol;
use leg::{MAX_PRICE, Routed, Terms};
use text_pieces::Pieces;

/// The leg of a venue, 0 to 15, a symbol as Plain spells it, a side, shares, and a price in ten-thousandths of a
/// dollar.
fn leg_of_words(
    venue: &[u8],
    symbol: &[u8],
    side: &[u8],
    shares: &[u8],
    price: &[u8],
) -> Option<Routed>
    ensures { result ≡ leg_of_words venue.now symbol.now side.now shares.now price.now }
{
    let venue = any_venue(venue)?;
    let symbol = read_symbol(symbol)?;
    let side = side_word(side)?;
    let shares = shares_word(shares)?;
    let price = number_within(1, MAX_PRICE, price)?;
    let terms = Terms::new(symbol, side, shares, price).unwrap();
    Some(Routed { venue, terms })
}

/// The leg of this word, its venue, and of the four behind it.
#[tactic(auto, using(crate::proofs::Legs::legs_of_five))]
pub(crate) fn read_leg(venue: &[u8], words: &mut Pieces<'_>) -> Option<Routed>
    ensures leg { legs_of_words (venue.now ∷ words.old) ≡ before result (more_legs words.new) }
    ensures fewer { length words.new ≤ length words.old }
{
    let symbol = words.next()?;
    let side = words.next()?;
    let shares = words.next()?;
    let price = words.next()?;
    leg_of_words(venue, symbol, side, shares, price)
}
