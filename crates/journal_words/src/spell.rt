//! The lines of a venue's journal, spelled.

ghost use Rattle.std.specs.Prelude.{◌≡◌, ◌<◌, ◌++◌, [], ◌∷◌, codes, decimal, length, IfOk, OnOk};
ghost use Rattle.fix_tags.specs.Stamp.{stamp_text};
ghost use Rattle.leg.specs.LegId.{leg_id_text};
ghost use Rattle.sweep_text.specs.Written.{terms_text};
ghost use Rattle.journal_words.specs.Deed.DeedSaid.{Acts, OfLeg, Hears};
ghost use Rattle.journal_words.specs.Deed.{timed};
ghost use Rattle.journal_words.specs.Words.{deed_line, leg_words};

use crate::act::Act;
use crate::leg_act::LegAct;
use desk_words::VenueName;
use dialect::{Plain, Spelling};
use fix_tags::{Stamp, stamp_bytes};
use itoa::Buffer;
use leg::{LegId, PlacedLeg, Routed, Terms, VenueId};
use message_log::{Direction, log_line};
use std::alloc::{AllocError, Global};
use sweep_text::write_sweep;

/// How many bytes `sweep V ` has, which is before the words of a leg's terms in the line of a sweep.
const BEFORE_TERMS: usize = 8;

/// The venue of a line of terms, which have none.
pub(crate) fn any_venue() -> VenueName
    ensures { result ≡ codes "V" }
{
    VenueName::new(b"V").unwrap()
}

/// A line with its time.
pub(crate) fn line_at(alloc: Global, stamp: &Stamp) -> Result<Vec<u8>, AllocError>
    ensures { IfOk result (λ line. line.items ≡ stamp_text stamp.now ++ codes " ") }
{
    let mut line = Vec::new(alloc);
    line.extend_from_slice(&stamp_bytes(stamp))?;
    line.push(b' ')?;
    Ok(line)
}

pub(crate) fn append_number(line: &mut Vec<u8>, number: u64) -> Result<(), AllocError>
    ensures { OnOk result (line.new.items ≡ line.old.items ++ decimal number) }
{
    let mut digits = Buffer::new();
    line.extend_from_slice(digits.format(number).as_bytes())?;
    Ok(())
}

fn append_id(line: &mut Vec<u8>, id: &LegId) -> Result<(), AllocError>
    ensures { OnOk result (line.new.items ≡ line.old.items ++ leg_id_text id.now) }
{
    line.extend_from_slice(Plain.id_text(id).as_slice())?;
    Ok(())
}

/// Terms as the line of a sweep has them, behind `sweep V `.
#[tactic(auto, using(crate::proofs::Terms::sweep_of_one, crate::proofs::Terms::long_enough))]
fn append_terms(alloc: Global, line: &mut Vec<u8>, terms: &Terms) -> Result<(), AllocError>
    ensures { OnOk result (line.new.items ≡ line.old.items ++ terms_text terms.now) }
{
    let leg = Routed {
        venue: VenueId::new(0).unwrap(),
        terms: terms.clone().unwrap(),
    };
    let sweep = write_sweep(alloc, &[any_venue()], None, &[leg])?;
    line.extend_from_slice(&sweep.as_bytes()[BEFORE_TERMS..])?;
    Ok(())
}

fn append_leg(alloc: Global, line: &mut Vec<u8>, placed: &PlacedLeg) -> Result<(), AllocError>
    ensures { OnOk result (line.new.items ≡ line.old.items ++ leg_words placed.now) }
{
    append_number(line, placed.ordinal)?;
    line.push(b' ')?;
    append_id(line, &placed.leg.id)?;
    line.push(b' ')?;
    append_terms(alloc, line, &placed.leg.terms)
}

/// The line of a call, as `20261124-14:30:00.123 connect`.
pub fn act_line(alloc: Global, stamp: &Stamp, act: Act) -> Result<Vec<u8>, AllocError>
    ensures { IfOk result (λ line. line.items ≡ deed_line (timed stamp.now (Acts act))) }
{
    let mut line = line_at(alloc, stamp)?;
    line.extend_from_slice(act.word())?;
    Ok(line)
}

/// The line of a leg, as `20261124-14:30:00.123 send 3 S1L1 IBM buy 100 10.25`.
pub fn leg_line(
    alloc: Global,
    stamp: &Stamp,
    act: LegAct,
    placed: &PlacedLeg,
) -> Result<Vec<u8>, AllocError>
    ensures { IfOk result (λ line. line.items ≡ deed_line (timed stamp.now (OfLeg act placed.now))) }
{
    let mut line = line_at(alloc, stamp)?;
    line.extend_from_slice(act.word())?;
    line.push(b' ')?;
    append_leg(alloc, &mut line, placed)?;
    Ok(line)
}

/// The line of a message of these fields, as a log has it: `20261124-14:30:00.123 < 35=0|34=2|`.
pub fn heard_line(alloc: Global, stamp: &Stamp, fields: &[u8]) -> Result<Vec<u8>, AllocError>
    ensures { IfOk result (λ line. line.items ≡ deed_line (timed stamp.now (Hears fields.now))) }
{
    let mut line = log_line(alloc, stamp, Direction::Received, fields)?;
    let _end = line.pop();
    Ok(line)
}
