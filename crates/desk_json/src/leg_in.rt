//! The leg of a value.

ghost use Rattle.std.specs.Prelude.{◌≡◌, ◌≤◌, ◌<◌, find, length, not, position, string_bytes, IfSome};
ghost use Rattle.std.specs.Map.{keys_of};
ghost use Rattle.desk_json.specs.Key.{is_leg_key};
ghost use Rattle.std.specs.Option.{option_map};
ghost use Rattle.std.specs.Str.{bytes_eq};
ghost use Rattle.serde_json.specs.View.{members_view, view};
ghost use Rattle.sweep_text.specs.Legs.{result_map};
ghost use Rattle.desk_json.specs.Leg.{leg_in, leg_of, member_at, only_leg_keys, other_leg_key, price_in, shares_in, side_in, symbol_in, terms_in, text_in, venue_in, venue_of};

use crate::key::{Key, is_leg_key};
use crate::key_fault::KeyFault;
use desk_words::{VenueName, shown};
use dialect::read_symbol;
use fix_tags::read_price;
use leg::{MAX_SHARES, Routed, Side, Symbol, Terms, VenueId};
use serde_json::{Map, Value};
use sweep_text::Word;

/// The first key that a leg doesn't have.
fn first_other(members: &Map<String, Value>) -> Option<&String>
    ensures { option_map (λ key. key.now) result
        ≡ find (λ key. not (is_leg_key (string_bytes key))) (keys_of members.now.entries) }
{
    members
        .keys()
        .find(|key| !is_leg_key(key.as_str().as_bytes()))
}

/// The first key that a leg doesn't have, as it is shown.
#[tactic(auto, using(crate::proofs::KeysFound::found_key))]
fn other_leg_key(members: &Map<String, Value>) -> Option<Word>
    ensures { result ≡ other_leg_key (members_view members.now.entries) }
{
    match first_other(members) {
        Some(key) => Some(shown(key.as_str().as_bytes())),
        None => None,
    }
}

/// Whether a value is an object with no other keys than those of a leg.
fn only_leg_keys(value: &Value) -> Result<(), KeyFault>
    ensures { result ≡ only_leg_keys (view value.now) }
{
    let Some(members) = value.as_object() else {
        return Err(KeyFault::NoObject);
    };
    match other_leg_key(members) {
        Some(key) => Err(KeyFault::Unknown(key)),
        None => Ok(()),
    }
}

fn member_at(value: &Value, key: Key) -> Result<&Value, KeyFault>
    ensures { result_map (λ found. view found.now) result ≡ member_at (view value.now) key }
{
    match value.get(key.text()) {
        Some(found) => Ok(found),
        None => Err(KeyFault::Missing(key)),
    }
}

fn text_in(value: &Value, key: Key) -> Result<&str, KeyFault>
    ensures { result_map (λ text. text.now) result ≡ text_in (view value.now) key }
{
    match value.as_str() {
        Some(text) => Ok(text),
        None => Err(KeyFault::NotText(key)),
    }
}

/// Whether a name is this word.
fn is_name(name: &VenueName, word: &[u8]) -> bool
    ensures { result ≡ bytes_eq name.now word.now }
{
    name.as_bytes() == word
}

/// The place of a name.
fn place_of(names: &[VenueName], word: &[u8]) -> Option<usize>
    ensures value { result ≡ position (λ name. bytes_eq name word.now) names.now }
    ensures within { IfSome result (λ at. at < length names.now) }
{
    names.iter().position(|name| is_name(name, word))
}

/// The venue at a place.
fn venue_at(place: usize) -> VenueId
    requires { place < 16 }
    ensures { result ≡ place }
{
    VenueId::new(place as u8).unwrap()
}

/// The venue of a name.
fn venue_of(names: &[VenueName], word: &[u8]) -> Result<VenueId, KeyFault>
    requires { length names.now ≤ 16 }
    ensures { result ≡ venue_of names.now word.now }
{
    match place_of(names, word) {
        Some(place) => Ok(venue_at(place)),
        None => Err(KeyFault::NoVenue(shown(word))),
    }
}

fn venue_in(names: &[VenueName], value: &Value) -> Result<VenueId, KeyFault>
    requires { length names.now ≤ 16 }
    ensures { result ≡ venue_in names.now (view value.now) }
{
    let word = text_in(value, Key::Venue)?.as_bytes();
    venue_of(names, word)
}

fn symbol_in(value: &Value) -> Result<Symbol, KeyFault>
    ensures { result ≡ symbol_in (view value.now) }
{
    let word = text_in(value, Key::Symbol)?.as_bytes();
    match read_symbol(word) {
        Some(symbol) => Ok(symbol),
        None => Err(KeyFault::BadSymbol(shown(word))),
    }
}

fn side_in(value: &Value) -> Result<Side, KeyFault>
    ensures { result ≡ side_in (view value.now) }
{
    match text_in(value, Key::Side)?.as_bytes() {
        b"buy" => Ok(Side::Buy),
        b"sell" => Ok(Side::Sell),
        word => Err(KeyFault::BadSide(shown(word))),
    }
}

/// Shares from 1 to 1,000,000.
fn shares_in(value: &Value) -> Result<u64, KeyFault>
    ensures { result ≡ shares_in (view value.now) }
{
    match value.as_u64() {
        None => Err(KeyFault::NotNumber),
        Some(shares) if 1 <= shares && shares <= MAX_SHARES => Ok(shares),
        Some(shares) => Err(KeyFault::BadShares(shares)),
    }
}

/// A price in dollars, as `10.25`, in ten-thousandths.
fn price_in(value: &Value) -> Result<u64, KeyFault>
    ensures { result ≡ price_in (view value.now) }
{
    let word = text_in(value, Key::Price)?.as_bytes();
    match read_price(word) {
        Some(price) => Ok(price),
        None => Err(KeyFault::BadPrice(shown(word))),
    }
}

/// What a leg buys or sells, in four values.
#[tactic(auto, unfolding(crate::specs::Leg::terms_in))]
fn terms_in(symbol: &Value, side: &Value, shares: &Value, price: &Value) -> Result<Terms, KeyFault>
    ensures { result ≡ terms_in (view symbol.now) (view side.now) (view shares.now) (view price.now) }
{
    let symbol = symbol_in(symbol)?;
    let side = side_in(side)?;
    let number = shares_in(shares)?;
    let limit = price_in(price)?;
    match Terms::new(symbol, side, number, limit) {
        Ok(terms) => Ok(terms),
        Err(_) => Err(KeyFault::BadShares(number)),
    }
}

/// The leg of five values.
#[tactic(auto, unfolding(crate::specs::Leg::leg_of))]
fn leg_of(
    names: &[VenueName],
    venue: &Value,
    symbol: &Value,
    side: &Value,
    shares: &Value,
    price: &Value,
) -> Result<Routed, KeyFault>
    requires { length names.now ≤ 16 }
    ensures { result ≡ leg_of names.now (view venue.now) (view symbol.now) (view side.now) (view shares.now)
        (view price.now) }
{
    let venue = venue_in(names, venue)?;
    let terms = terms_in(symbol, side, shares, price)?;
    Ok(Routed { venue, terms })
}

/// The leg that a value asks for, or its first fault.
#[tactic(auto, unfolding(crate::specs::Leg::leg_in))]
pub(crate) fn leg_in(names: &[VenueName], value: &Value) -> Result<Routed, KeyFault>
    requires { length names.now ≤ 16 }
    ensures { result ≡ leg_in names.now (view value.now) }
{
    only_leg_keys(value)?;
    let venue = member_at(value, Key::Venue)?;
    let symbol = member_at(value, Key::Symbol)?;
    let side = member_at(value, Key::Side)?;
    let shares = member_at(value, Key::Shares)?;
    let price = member_at(value, Key::Price)?;
    leg_of(names, venue, symbol, side, shares, price)
}
