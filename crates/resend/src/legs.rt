//! The kept legs: where a number or an ordinal stands among them, and the parts of the window.

ghost use Rattle.std.specs.Prelude.{◌≡◌, ◌≤◌, ◌<◌, length, nat_lt, take, drop, map, slice_get, IfOk, OnErr};
ghost use Rattle.std.specs.List.Sorted.{IsNonDecreasingBy};
ghost use Rattle.resend.specs.declared.numbered_id.NumberedId.{NumberedId as Numbered};
ghost use Rattle.resend.specs.declared.sent.Sent.{Sent as InDoubt};
ghost use Rattle.resend.specs.Kept.{leading};

use crate::{NumberedId, Sent};
use leg::LegId;
use std::alloc::{AllocError, Global};

/// How many of the legs have a number below this one.
pub(crate) fn numbers_below(ids: &[NumberedId], number: u64) -> usize
    requires { IsNonDecreasingBy (λ (numbered : Numbered). numbered.number) ids.now }
    ensures { result ≡ leading (λ (numbered : Numbered). nat_lt numbered.number number) ids.now }
{
    ids.partition_point(|numbered| numbered.number < number)
}

/// How many of the legs in doubt have a number below this one.
pub(crate) fn doubts_below(window: &[Sent], number: u64) -> usize
    requires { IsNonDecreasingBy (λ (sent : InDoubt). sent.number) window.now }
    ensures { result ≡ leading (λ (sent : InDoubt). nat_lt sent.number number) window.now }
{
    window.partition_point(|sent| sent.number < number)
}

/// How many of the legs in doubt have an ordinal below this one.
pub(crate) fn ordinals_below(window: &[Sent], ordinal: u64) -> usize
    requires { IsNonDecreasingBy (λ (sent : InDoubt). sent.ordinal) window.now }
    ensures { result ≡ leading (λ (sent : InDoubt). nat_lt sent.ordinal ordinal) window.now }
{
    window.partition_point(|sent| sent.ordinal < ordinal)
}

/// The leg in a place, if there is one.
pub(crate) fn id_in(ids: &[NumberedId], place: usize) -> Option<NumberedId>
    ensures { result ≡ slice_get ids.now place }
{
    ids.get(place).copied()
}

/// The leg in doubt in a place, if there is one.
pub(crate) fn sent_in(window: &[Sent], place: usize) -> Option<Sent>
    ensures { result ≡ slice_get window.now place }
{
    window.get(place).copied()
}

/// The legs in doubt before a place.
pub(crate) fn up_to(window: &[Sent], place: usize) -> &[Sent]
    requires { place ≤ length window.now }
    ensures { result.now ≡ take place window.now }
{
    &window[..place]
}

/// The legs in doubt from a place on.
pub(crate) fn after(window: &[Sent], place: usize) -> &[Sent]
    requires { place ≤ length window.now }
    ensures { result.now ≡ drop place window.now }
{
    &window[place..]
}

/// Which legs these are. It takes memory only where there is one.
pub(crate) fn ids_of(alloc: Global, sents: &[Sent]) -> Result<Vec<LegId>, AllocError>
    ensures ok { IfOk result (λ ids. ids.items ≡ map (λ (sent : InDoubt). sent.id) sents.now) }
    ensures some { OnErr result (0 < length sents.now) }
{
    if sents.is_empty() {
        return Ok(Vec::new(alloc));
    }
    sents.iter().map(|sent| sent.id).collect(alloc)
}

/// Takes the first legs out of the window.
pub(crate) fn drop_first(window: &mut Vec<Sent>, count: usize)
    requires { count ≤ length window.old.items }
    ensures { window.new.items ≡ drop count window.old.items }
{
    let _ = window.drain(..count);
}
