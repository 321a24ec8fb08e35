//! The sweeps that were placed under references.

ghost use Rattle.std.specs.Prelude.{◌≡◌, ◌≤◌, ◌++◌, ◌∷◌, [], None, OnOk};
ghost use Rattle.std.specs.Bool.{Decides};
ghost use Rattle.std.specs.Option.{option_map};
ghost use Rattle.sweep_refs.specs.Placed.{AreDistinct, Finds, placed_under};

use crate::{Found, Placement, SweepRef};
use indexmap::IndexMap;
use leg::Routed;
use std::alloc::{AllocError, Global};
use std::marker::Model;

/// What was placed under references, in order. A look-up takes the same time however many there are. Contracts see the
/// entries, and how many more may be noted without memory.
#[derive(Drop)]
pub struct RefBook {
    placed: IndexMap<SweepRef, Placement>,
}

impl Model for RefBook {
    ghost use Rattle.indexmap.specs.IndexMap.{spare};
    ghost use Rattle.sweep_refs.specs.Placed.{RefBookParts, AreDistinct};

    ghost Value = { RefBookParts };

    ghost view = { λ book. record { placed = book.placed.entries; room = spare book.placed } };

    ghost invariant = { λ book. AreDistinct book.placed.entries };
}

/// Whether two legs are the same.
fn is_same_leg(leg: &Routed, other: &Routed) -> bool
    ensures { Decides result (leg.now ≡ other.now) }
{
    leg == other
}

/// Whether these are the same legs in the same order.
fn are_same(legs: &[Routed], others: &[Routed]) -> bool
    ensures { Decides result (legs.now ≡ others.now) }
{
    if legs.len() != others.len() {
        return false;
    }
    for i in 0..legs.len() {
        if !is_same_leg(&legs[i], &others[i]) {
            return false;
        }
    }
    true
}

impl RefBook {
    /// With no entry.
    pub fn new(alloc: Global) -> RefBook
        ensures { result.placed ≡ [] }
    {
        RefBook {
            placed: IndexMap::new(alloc),
        }
    }

    /// What was placed under a reference.
    pub fn placement(&self, reference: &SweepRef) -> Option<&Placement>
        ensures found { option_map (λ placement. placement.now) result ≡ placed_under self.now.placed reference.now }
        ensures distinct { AreDistinct self.now.placed }
    {
        self.placed.get(reference)
    }

    /// What a reference was used for, where these legs are submitted under it.
    pub fn look(&self, reference: &SweepRef, legs: &[Routed]) -> Found
        ensures found { Finds self.now.placed reference.now legs.now result }
        ensures distinct { AreDistinct self.now.placed }
    {
        match self.placement(reference) {
            None => Found::Nothing,
            Some(placement) if are_same(placement.legs.as_slice(), legs) => Found::Same {
                number: placement.number,
                shares: placement.shares,
            },
            Some(_) => Found::Others,
        }
    }

    /// Room for one entry more. The only refusal is out of memory, and the entries stay.
    pub fn reserve(&mut self) -> Result<(), AllocError>
        ensures room { OnOk result (1 ≤ self.new.room) }
        ensures placed { self.new.placed ≡ self.old.placed }
    {
        self.placed.reserve(1)
    }

    /// Notes what was placed under a reference that is free. It takes no memory.
    pub fn note(&mut self, reference: SweepRef, placement: Placement)
        requires room { 1 ≤ self.old.room }
        requires free { placed_under self.old.placed reference ≡ None }
        ensures placed { self.new.placed ≡ self.old.placed ++ (reference, placement) ∷ [] }
        ensures distinct { AreDistinct self.new.placed }
    {
        self.placed.insert(reference, placement).unwrap();
    }
}
