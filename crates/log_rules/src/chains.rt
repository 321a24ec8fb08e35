//! What the last breaks were named for.

ghost use Rattle.std.specs.Prelude.{◌≡◌, not, ◌&&◌, IfOk, OnErr, OnOk, option_map, slice_get};
ghost use Rattle.log_rules.specs.Chains.{broken_after, carries_id, chained_unread, chains_after, is_filled, is_logon};
ghost use Rattle.log_rules.specs.Chains.{is_named, is_new, is_of_damaged, is_of_same, is_told_on, names_order};
ghost use Rattle.log_rules.specs.Chains.{no_chains, order_named, unread_after, withdrawn_after};
ghost use Rattle.log_rules.specs.Verdict.{again_if};

use crate::entry::Entry;
use crate::says::Says;
use crate::standing::Standing;
use crate::verdict::Verdict;
use message_log::Direction;
use std::alloc::{AllocError, Global};
use std::marker::Model;

/// The places of rules among `RULES`.
const LOGON_FIRST: usize = 4;

const LOGON_ANSWERED: usize = 6;

const KNOWN_ORDER: usize = 11;

const NOT_WITHDRAWN: usize = 12;

const NUMBERS_RISE: usize = 14;

const SOH: u8 = 1;

/// What the last breaks were named for, so that what follows from one is told as broken again.
#[derive(Debug, Drop)]
pub(crate) struct Chains {
    /// Whether messages come and go before a Logon is answered.
    is_early: bool,
    /// Whether the exchange's numbers go back.
    goes_back: bool,
    /// The order of the last report that is on none that it may be on.
    order: Option<Vec<u8>>,
    /// Whether that order was withdrawn, and not one that nobody sent.
    is_withdrawn: bool,
    /// How many messages that were sent since the last new one can't be read.
    unread: u64,
    /// The bytes of the last of these.
    damaged: Vec<u8>,
}

impl Model for Chains {
    ghost use Rattle.std.specs.Prelude.{option_map};
    ghost use Rattle.log_rules.specs.Chains.{ChainsParts};

    ghost Value = { ChainsParts };

    ghost view = { λ c. record {
      is_early = c.is_early;
      goes_back = c.goes_back;
      order = option_map (λ id. id.items) c.order;
      is_withdrawn = c.is_withdrawn;
      unread = c.unread;
      damaged = c.damaged.items;
    } };
}

/// Whether the rule at a place is broken behind a message of which this is said, where it was so or not before.
fn broken_after(was_broken: bool, said: &[Verdict; 22], place: usize) -> bool
    ensures { result ≡ broken_after was_broken (slice_get said.now place) }
{
    match said.get(place) {
        Some(verdict) => verdict.leaves_broken(was_broken),
        None => was_broken,
    }
}

/// Whether a message is named for the rule at a place.
fn is_named(said: &[Verdict; 22], place: usize) -> bool
    ensures { result ≡ is_named (slice_get said.now place) }
{
    match said.get(place) {
        Some(verdict) => *verdict == Verdict::Broken,
        None => false,
    }
}

fn is_logon(says: &Says<'_>) -> bool
    ensures { result ≡ is_logon says.now }
{
    matches!(says, Says::Logon { .. })
}

/// Whether a field is the ClOrdID of this order.
fn carries_id(field: &[u8], id: &[u8]) -> bool
    ensures { result ≡ carries_id field.now id.now }
{
    match field {
        [b'1', b'1', b'=', value @ ..] => value == id,
        _ => false,
    }
}

/// Whether one of the fields in some bytes is the ClOrdID of this order.
fn names_order(bytes: &[u8], id: &[u8]) -> bool
    ensures { result ≡ names_order bytes.now id.now }
{
    bytes
        .split(|byte| *byte == SOH)
        .any(|field| carries_id(field, id))
}

/// Whether a message is new, and sent.
fn is_new(entry: &Entry<'_>) -> bool
    ensures { result ≡ is_new entry.now.direction entry.now.poss_dup }
{
    entry.direction == Direction::Sent && !entry.poss_dup
}

/// How many messages that were sent since the last new one can't be read, behind a message.
fn unread_after(entry: &Entry<'_>, unread: u64) -> u64
    ensures { result ≡ unread_after entry.now unread }
{
    if is_new(entry) { 0 } else { unread }
}

/// Whether the order named last was withdrawn, behind a message of which this is said.
fn withdrawn_after(said: &[Verdict; 22], was_withdrawn: bool) -> bool
    ensures { result ≡ withdrawn_after said.now was_withdrawn }
{
    is_named(said, NOT_WITHDRAWN) || (was_withdrawn && !is_named(said, KNOWN_ORDER))
}

/// The order that a message is named for, of which this is said.
pub(crate) fn order_named(
    alloc: Global,
    said: &[Verdict; 22],
    entry: &Entry<'_>,
) -> Result<Option<Vec<u8>>, AllocError>
    ensures { IfOk result (λ order. option_map (λ id. id.items) order ≡ order_named said.now entry.now.says) }
{
    match &entry.says {
        Says::Report(report) if is_named(said, KNOWN_ORDER) || is_named(said, NOT_WITHDRAWN) => {
            Ok(Some(Vec::from_slice(alloc, report.id.as_bytes())?))
        }
        _ => Ok(None),
    }
}

impl Chains {
    /// Before any message.
    pub(crate) fn new(alloc: Global) -> Chains
        ensures { result ≡ no_chains }
    {
        Chains {
            is_early: false,
            goes_back: false,
            order: None,
            is_withdrawn: false,
            unread: 0,
            damaged: Vec::new(alloc),
        }
    }

    /// What is said of sent-numbers. Messages that can't be read have the numbers that are missing.
    pub(crate) fn of_sent(&self, standing: &Standing, entry: &Entry<'_>, said: Verdict) -> Verdict
        ensures { result ≡ again_if (is_filled self.now.unread standing.now.last entry.now.number) said }
    {
        said.again_if(self.is_filled(standing.last, entry.number))
    }

    /// What is said of logon-first.
    pub(crate) fn of_first(&self, said: Verdict) -> Verdict
        ensures { result ≡ again_if self.now.is_early said }
    {
        said.again_if(self.is_early)
    }

    /// What is said of logon-answered. A Logon is always named: it breaks the rule by itself.
    pub(crate) fn of_answered(&self, entry: &Entry<'_>, said: Verdict) -> Verdict
        ensures { result ≡ again_if (self.now.is_early && not (is_logon entry.now.says)) said }
    {
        said.again_if(self.is_early && !is_logon(&entry.says))
    }

    /// What is said of numbers-rise.
    pub(crate) fn of_numbers(&self, said: Verdict) -> Verdict
        ensures { result ≡ again_if self.now.goes_back said }
    {
        said.again_if(self.goes_back)
    }

    /// What is said of known-order.
    pub(crate) fn of_known(&self, entry: &Entry<'_>, said: Verdict) -> Verdict
        ensures { result ≡ again_if (is_told_on self.now entry.now.says) said }
    {
        said.again_if(self.is_told_on(entry))
    }

    /// What is said of not-withdrawn.
    pub(crate) fn of_withdrawn(&self, entry: &Entry<'_>, said: Verdict) -> Verdict
        ensures { result ≡ again_if (self.now.is_withdrawn && is_of_same self.now.order entry.now.says) said }
    {
        said.again_if(self.is_withdrawn && self.is_of_same(entry))
    }

    /// Whether a report is on the order of the last one that was named.
    fn is_of_same(&self, entry: &Entry<'_>) -> bool
        ensures { result ≡ is_of_same self.now.order entry.now.says }
    {
        match (&self.order, &entry.says) {
            (Some(id), Says::Report(said)) => id.as_slice() == said.id.as_bytes(),
            _ => false,
        }
    }

    /// Whether a report is on an order whose message can't be read.
    fn is_of_damaged(&self, entry: &Entry<'_>) -> bool
        ensures { result ≡ is_of_damaged self.now.damaged entry.now.says }
    {
        match &entry.says {
            Says::Report(said) => names_order(&self.damaged, said.id.as_bytes()),
            _ => false,
        }
    }

    /// Whether it was told before why a report is on no order that was sent.
    fn is_told_on(&self, entry: &Entry<'_>) -> bool
        ensures { result ≡ is_told_on self.now entry.now.says }
    {
        (!self.is_withdrawn && self.is_of_same(entry)) || self.is_of_damaged(entry)
    }

    /// Whether the numbers between the last one that was sent and this one are no more than the messages that can't be
    /// read.
    fn is_filled(&self, last: Option<u64>, number: u64) -> bool
        ensures { result ≡ is_filled self.now.unread last number }
    {
        match last {
            Some(last) => last < number && number - last - 1 <= self.unread,
            None => false,
        }
    }

    /// Goes on behind a message that can't be read. Where memory is refused, nothing changes.
    pub(crate) fn go_on_unread(
        &mut self,
        alloc: Global,
        direction: Direction,
        bytes: &[u8],
    ) -> Result<(), AllocError>
        ensures ok { OnOk result (self.new ≡ chained_unread direction bytes.now self.old) }
        ensures err { OnErr result (self.new ≡ self.old) }
    {
        if direction == Direction::Received {
            return Ok(());
        }
        self.damaged = Vec::from_slice(alloc, bytes)?;
        self.unread = self.unread.saturating_add(1);
        Ok(())
    }

    /// Goes on behind a message of which this is said, and which is named for this order.
    pub(crate) fn go_on(&mut self, entry: &Entry<'_>, said: &[Verdict; 22], order: Option<Vec<u8>>)
        ensures { self.new ≡ chains_after said.now (option_map (λ id. id.items) order) entry.now self.old }
    {
        self.unread = unread_after(entry, self.unread);
        self.is_early = broken_after(self.is_early, said, LOGON_FIRST);
        self.is_early = broken_after(self.is_early, said, LOGON_ANSWERED);
        self.goes_back = broken_after(self.goes_back, said, NUMBERS_RISE);
        self.is_withdrawn = withdrawn_after(said, self.is_withdrawn);
        if let Some(id) = order {
            self.order = Some(id);
        }
    }
}
