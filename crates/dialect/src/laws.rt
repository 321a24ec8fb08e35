//! What follows from a dialect's laws: each is the contract of a function that does nothing.

ghost use Rattle.std.specs.Prelude.{◌≡◌, ◌++◌, ℕ, List, None};
ghost use Rattle.fix_text.specs.Reading.{Stream};
ghost use Rattle.fix_text.specs.Tagged.{Tagged};
ghost use Rattle.fix_tags.specs.Message.{envelope_refusal};
ghost use Rattle.fix_tags.specs.Stamp.{StampParts, IsStamp};
ghost use Rattle.fix_tags.specs.Body.{Body};
ghost use Rattle.leg.specs.declared.leg.Leg.{Leg};
ghost use Rattle.dialect.specs.declared.report.Report.{Report};
ghost use Rattle.dialect.specs.Framed.{IsBody, envelope_of, IsFramed, IsReadAs};
ghost use Rattle.dialect.specs.OrderView.{OrderViewParts};
ghost use Rattle.dialect.specs.declared.outgoing.Outgoing.{Outgoing};
ghost use Rattle.dialect.specs.Writable.{IsWritable};
ghost use Rattle.dialect.specs.Plain.{plain};
ghost use Rattle.dialect.specs.Split4.{split4};
ghost use Rattle.dialect.specs.Coded.{coded};
ghost use Rattle.dialect.specs.Words.{worded};
ghost use Rattle.dialect.specs.Spelling.{SpellingParts, IsSpelling};
ghost use Rattle.dialect.specs.Lemmas.NoJoined.{JoinsNothing};
ghost use Rattle.dialect.specs.Lemmas.WordedPresets.{plain_words, split_words, coded_words};

use crate::dialect::Dialect;

/// Two legs that differ have different fields, whatever their stamps.
pub fn orders_tell_legs_apart<D: Dialect>(dialect: &D)
    ensures { (a b : Leg) (stamp_a stamp_b : StampParts) (fields : List Tagged) →
        (D.wording dialect.now).encoding.IsOrder a stamp_a fields →
        (D.wording dialect.now).encoding.IsOrder b stamp_b fields → a ≡ b }
{}

/// Two reports that differ have different fields, whatever their exchanges know beside them.
pub fn reports_tell_apart<D: Dialect>(dialect: &D)
    ensures { (a b : Report) (beside_a beside_b : OrderViewParts) (fields : List Tagged) →
        (D.wording dialect.now).encoding.IsReport a beside_a fields →
        (D.wording dialect.now).encoding.IsReport b beside_b fields → a ≡ b }
{}

/// A message is read back from its frame, whatever follows the frame: any reader finds the frame next, and what the
/// dialect reads of it is that very message.
pub fn frames_read_back<D: Dialect>(dialect: &D)
    ensures { (stamp : StampParts) (out : Outgoing) (bytes rest : List ℕ) (stream : Stream) → IsWritable out →
        IsFramed (D.wording dialect.now).encoding stamp out bytes →
        stream.rest ≡ bytes ++ rest →
        IsReadAs (D.wording dialect.now).decoding stream rest out.message }
{}

/// There is a frame of every message that can be written, at any moment.
pub fn writable_messages_are_framed<D: Dialect>(dialect: &D)
    ensures { (stamp : StampParts) (out : Outgoing) → IsStamp stamp → IsWritable out → (bytes : List ℕ) ×
        IsFramed (D.wording dialect.now).encoding stamp out bytes }
{}

/// A message that can be written is never refused, whichever of the dialect's fields it is written with: only memory
/// can keep it from being written.
pub fn writable_messages_fit<D: Dialect>(dialect: &D)
    ensures { (stamp : StampParts) (out : Outgoing) (says : Body) → IsWritable out →
        IsBody (D.wording dialect.now).encoding stamp out.beside
        out.message.content says → envelope_refusal (envelope_of out.message says) stamp ≡ None }
{}

/// The tables of the three dialects spell all that they spell.
pub fn presets_are_dialects()
    ensures plain { worded plain_words ≡ plain }
    ensures split { worded split_words ≡ split4 }
    ensures coded { worded coded_words ≡ coded }
{}

/// No spelling writes a suffix right behind its root: `AB` with `C` and `ABC` would be one text.
pub fn suffixes_are_parted()
    ensures { (s : SpellingParts) → IsSpelling s → JoinsNothing s → ⊥ }
{}
