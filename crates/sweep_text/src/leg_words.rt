//! The words of a leg.

ghost use Rattle.std.specs.Prelude.{◌≡◌, ◌≤◌, ◌<◌, ◌∷◌, length, position, IfSome};
ghost use Rattle.std.specs.Str.{bytes_eq};
ghost use Rattle.sweep_text.specs.Legs.{leg_of, leg_then, legs_of, price_in, shares_in, side_in, symbol_in, terms_in, venue_in};

use crate::line_fault::LineFault;
use crate::words::Words;
use desk_words::{VenueName, shown};
use dialect::read_symbol;
use fix_tags::{read_number, read_price};
use leg::{MAX_SHARES, Routed, Side, Symbol, Terms, VenueId};

/// Whether a name is this word.
fn is_name(name: &VenueName, word: &[u8]) -> bool
    ensures { result ≡ bytes_eq name.now word.now }
{
    name.as_bytes() == word
}

/// The place of a name.
fn place_of(names: &[VenueName], word: &[u8]) -> Option<usize>
    ensures value { result ≡ position (λ name. bytes_eq name word.now) names.now }
    ensures within { IfSome result (λ at. at < length names.now) }
{
    names.iter().position(|name| is_name(name, word))
}

/// The venue at a place.
fn venue_at(place: usize) -> VenueId
    requires { place < 16 }
    ensures { result ≡ place }
{
    VenueId::new(place as u8).unwrap()
}

/// The venue of a name.
fn venue_in(names: &[VenueName], word: &[u8]) -> Result<VenueId, LineFault>
    requires { length names.now ≤ 16 }
    ensures { result ≡ venue_in names.now word.now }
{
    match place_of(names, word) {
        Some(place) => Ok(venue_at(place)),
        None => Err(LineFault::NoVenue(shown(word))),
    }
}

fn symbol_in(word: &[u8]) -> Result<Symbol, LineFault>
    ensures { result ≡ symbol_in word.now }
{
    match read_symbol(word) {
        Some(symbol) => Ok(symbol),
        None => Err(LineFault::BadSymbol(shown(word))),
    }
}

fn side_in(word: &[u8]) -> Result<Side, LineFault>
    ensures { result ≡ side_in word.now }
{
    match word {
        b"buy" => Ok(Side::Buy),
        b"sell" => Ok(Side::Sell),
        _ => Err(LineFault::BadSide(shown(word))),
    }
}

/// Shares from 1 to 1,000,000: digits.
fn shares_in(word: &[u8]) -> Result<u64, LineFault>
    ensures { result ≡ shares_in word.now }
{
    match read_number(word) {
        Some(shares) if 1 <= shares && shares <= MAX_SHARES => Ok(shares),
        _ => Err(LineFault::BadShares(shown(word))),
    }
}

/// A price in dollars, as `10.25`, in ten-thousandths.
fn price_in(word: &[u8]) -> Result<u64, LineFault>
    ensures { result ≡ price_in word.now }
{
    match read_price(word) {
        Some(price) => Ok(price),
        None => Err(LineFault::BadPrice(shown(word))),
    }
}

/// What a leg buys or sells, in four words.
#[tactic(auto, unfolding(crate::specs::Legs::terms_in))]
fn terms_in(symbol: &[u8], side: &[u8], shares: &[u8], price: &[u8]) -> Result<Terms, LineFault>
    ensures { result ≡ terms_in symbol.now side.now shares.now price.now }
{
    let symbol = symbol_in(symbol)?;
    let side = side_in(side)?;
    let number = shares_in(shares)?;
    let limit = price_in(price)?;
    match Terms::new(symbol, side, number, limit) {
        Ok(terms) => Ok(terms),
        Err(_) => Err(LineFault::BadPrice(shown(price))),
    }
}

/// The leg of five words.
#[tactic(auto, unfolding(crate::specs::Legs::leg_of))]
fn leg_of(
    names: &[VenueName],
    venue: &[u8],
    symbol: &[u8],
    side: &[u8],
    shares: &[u8],
    price: &[u8],
) -> Result<Routed, LineFault>
    requires { length names.now ≤ 16 }
    ensures { result ≡ leg_of names.now venue.now symbol.now side.now shares.now price.now }
{
    let venue = venue_in(names, venue)?;
    let terms = terms_in(symbol, side, shares, price)?;
    Ok(Routed { venue, terms })
}

/// The leg of this word, its venue, and of the four behind it, as `NYSE BRK.B buy 100 10.25`.
#[tactic(auto, using(crate::proofs::LegsRead::five))]
pub(crate) fn read_leg(
    names: &[VenueName],
    venue: &[u8],
    words: &mut Words<'_>,
) -> Result<Routed, LineFault>
    requires { length names.now ≤ 16 }
    ensures leg { legs_of names.now (venue.now ∷ words.old) ≡ leg_then names.now result words.new }
    ensures fewer { length words.new ≤ length words.old }
{
    let Some(symbol) = words.next() else {
        return Err(LineFault::Short);
    };
    let Some(side) = words.next() else {
        return Err(LineFault::Short);
    };
    let Some(shares) = words.next() else {
        return Err(LineFault::Short);
    };
    let Some(price) = words.next() else {
        return Err(LineFault::Short);
    };
    leg_of(names, venue, symbol, side, shares, price)
}
