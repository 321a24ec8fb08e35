//! What follows from the definitions: each law is the contract of a function that does nothing.

ghost use Rattle.std.specs.Prelude.{◌≡◌, ℕ, true, List, Some, None, Err, IfOk};
ghost use Rattle.fix_tags.specs.Config.{ConfigParts, IsConfig};
ghost use Rattle.leg.specs.Leg.{IsLeg};
ghost use Rattle.leg.specs.declared.leg.Leg.{Leg as ALeg};
ghost use Rattle.dialect.specs.declared.message.Message.{Message as AMessage};
ghost use Rattle.dialect.specs.Outgoing.{alone};
ghost use Rattle.dialect.specs.Writable.{IsWritable};
ghost use Rattle.session_core.specs.declared.ended.Ended.TheVariants as ended;
ghost use Rattle.session_core.specs.declared.phase.Phase.TheVariants as phase;
ghost use Rattle.session_core.specs.declared.session_fault.SessionFault.TheVariants as fault;
ghost use Rattle.session_core.specs.Session.{SessionParts, new_session, is_connected};
ghost use Rattle.session_core.specs.Turn.{quietly};
ghost use Rattle.session_core.specs.Receiving.{hearing, receive, confirm};
ghost use Rattle.session_core.specs.Calling.{connect, send_leg, quiet, silent, close, malformed, broken, abandon};
ghost use Rattle.session_core.specs.Counting.{Counted};
ghost use Rattle.session_core.specs.Onward.{OrUnchanged, IsOnward, KeepsLegs, IsConnection, SendsLeg, IsCall, IsReceived, WritesFillAlone, FillsSpareDoubt, forgets, SettlesNothing};
ghost use Rattle.session_core.specs.Sound.{IsSound, IsRead, AreWritable};
ghost use Rattle.session_core.specs.declared.session_call.SessionCall.{SessionCall as ACall};
ghost use Rattle.session_core.specs.Trial.{after_calls, AreRead, KeepsRules};
ghost use Rattle.dialect.specs.Wording.{Decoding};

/// A session is onward from itself, and what is onward from a session that is onward is so too.
pub fn going_onward_goes_on()
    ensures reflexive { (s : SessionParts) → IsOnward s s }
    ensures transitive { (s t u : SessionParts) → IsOnward s t → IsOnward t u → IsOnward s u }
{}

/// Whatever message is received, the session goes onward, and numbers are spent on what it writes; and a leg is
/// withdrawn, and named so, only where the exchange says what it got: by a resend request while settling, or by a Logon
/// that tells the number which it expects next. Only legs from that number on are withdrawn; and a leg is taken only
/// below it, or below a fence of this connection that was answered.
pub fn what_is_received_leads_onward()
    ensures { (s : SessionParts) (m : AMessage) → IsReceived s m (receive s m) }
{}

/// A message that is received is counted only where its number is the expected one: one that is ahead isn't, nor is one
/// that comes again. A note is given of such a message alone, and not counted yet.
pub fn what_is_due_is_counted()
    ensures { (s : SessionParts) (m : AMessage) → is_connected s.phase ≡ true →
        Counted (hearing s) m.number m.content (receive s m) }
{}

/// An exchange that answered the settled fence had passed every number up to it. Where it expects one of them again
/// while legs are settled, nothing is written and no leg changes its state; and only such a message ends a connection
/// so.
pub fn forgetting_settles_nothing()
    ensures settles { (s : SessionParts) (m : AMessage) → forgets s m.content ≡ true → SettlesNothing s (receive s m) }
    ensures ends { (s : SessionParts) (m : AMessage) → (receive s m).step.ended ≡ Some ended.PeerForgot →
        forgets s m.content ≡ true }
{}

/// Every other call leaves each leg that was sent as it was: numbers are only added, each for a message that was
/// written, connections and expected numbers don't go back, and a close that was asked stays asked. A refused call
/// leaves the session as it was.
pub fn other_calls_keep_the_legs()
    ensures connect { (s : SessionParts) → OrUnchanged s (IsConnection s) (connect s) }
    ensures send_leg { (s : SessionParts) (ordinal : ℕ) (leg : ALeg) →
        OrUnchanged s (SendsLeg s ordinal leg) (send_leg s ordinal leg) }
    ensures confirm { (s : SessionParts) → KeepsLegs s (confirm s) }
    ensures quiet { (s : SessionParts) → OrUnchanged s (IsCall s) (quiet s) }
    ensures silent { (s : SessionParts) → OrUnchanged s (IsCall s) (silent s) }
    ensures close { (s : SessionParts) → OrUnchanged s (IsCall s) (close s) }
    ensures malformed { (s : SessionParts) → KeepsLegs s (malformed s).1 }
    ensures broken { (s : SessionParts) → KeepsLegs s (broken s) }
    ensures abandon { (s : SessionParts) → KeepsLegs s (abandon s) }
{}

/// A session that has ended for good writes nothing any more, and stays as it is.
pub fn a_closed_session_is_over()
    ensures receive { (s : SessionParts) (m : AMessage) → s.phase ≡ phase.Closed → receive s m ≡ quietly s }
    ensures connect { (s : SessionParts) → s.phase ≡ phase.Closed → connect s ≡ (Err fault.Closed, s) }
    ensures send_leg { (s : SessionParts) (ordinal : ℕ) (leg : ALeg) → s.phase ≡ phase.Closed →
        send_leg s ordinal leg ≡ (Err fault.NotUp, s) }
    ensures quiet { (s : SessionParts) → s.phase ≡ phase.Closed → quiet s ≡ (Err fault.NotConnected, s) }
    ensures silent { (s : SessionParts) → s.phase ≡ phase.Closed → silent s ≡ (Err fault.NotConnected, s) }
    ensures close { (s : SessionParts) → s.phase ≡ phase.Closed → close s ≡ (Err fault.NotConnected, s) }
    ensures malformed { (s : SessionParts) → s.phase ≡ phase.Closed → malformed s ≡ (None, s) }
    ensures broken { (s : SessionParts) → s.phase ≡ phase.Closed → broken s ≡ s }
    ensures confirm { (s : SessionParts) → s.phase ≡ phase.Closed → (confirm s).phase ≡ phase.Closed }
    ensures abandon { (s : SessionParts) → (abandon s).phase ≡ phase.Closed }
{}

/// Once its Logout was written, a session answers what it receives with a gap fill at most.
pub fn a_logged_out_session_fills_alone()
    ensures { (s : SessionParts) (m : AMessage) → s.phase ≡ phase.LoggedOut →
        WritesFillAlone s (receive s m).step.written }
{}

/// A session keeps its own promises: its numbers stay in range, its fences above the settled number and, until it is up
/// or while it closes, above every leg; no leg up to the settled number is in doubt, nor any once its Logout was
/// written; and the ordinals of its legs rise.
pub fn a_session_keeps_its_promises()
    ensures begins { (config : ConfigParts) → IsConfig config → IsSound (new_session config) }
    ensures connect { (s : SessionParts) → IsSound s → IsSound (connect s).1 }
    ensures send_leg { (s : SessionParts) (ordinal : ℕ) (leg : ALeg) → IsSound s → IsSound (send_leg s ordinal leg).1 }
    ensures receive { (s : SessionParts) (m : AMessage) → IsSound s → IsRead m → IsSound (receive s m).session }
    ensures confirm { (s : SessionParts) → IsSound s → IsSound (confirm s) }
    ensures quiet { (s : SessionParts) → IsSound s → IsSound (quiet s).1 }
    ensures silent { (s : SessionParts) → IsSound s → IsSound (silent s).1 }
    ensures close { (s : SessionParts) → IsSound s → IsSound (close s).1 }
    ensures malformed { (s : SessionParts) → IsSound s → IsSound (malformed s).1 }
    ensures broken { (s : SessionParts) → IsSound s → IsSound (broken s) }
    ensures abandon { (s : SessionParts) → IsSound s → IsSound (abandon s) }
{}

/// A gap fill stands for no leg in doubt, whatever it answers.
pub fn gap_fills_spare_legs_in_doubt()
    ensures { (s : SessionParts) (m : AMessage) → IsSound s → IsRead m →
        FillsSpareDoubt (receive s m).session.log (receive s m).step.written }
{}

/// Whatever a session writes can be written.
pub fn what_a_session_writes_can_be_written()
    ensures connect { (s : SessionParts) → IsSound s → IfOk (connect s).0 (λ m. IsWritable (alone m)) }
    ensures send_leg { (s : SessionParts) (ordinal : ℕ) (leg : ALeg) → IsSound s → IsLeg leg →
        IfOk (send_leg s ordinal leg).0 (λ m. IsWritable (alone m)) }
    ensures receive { (s : SessionParts) (m : AMessage) → IsSound s → IsRead m →
        AreWritable (receive s m).step.written }
    ensures quiet { (s : SessionParts) → IsSound s → IfOk (quiet s).0 (λ step. AreWritable step.written) }
    ensures silent { (s : SessionParts) → IsSound s → IfOk (silent s).0 (λ step. AreWritable step.written) }
    ensures close { (s : SessionParts) → IsSound s → IfOk (close s).0 (λ step. AreWritable step.written) }
{}

/// Whatever list of calls is made, and whatever the exchange sends, the session keeps the rules; and where what is
/// received was read in range, it keeps its promises.
pub fn any_calls_keep_the_rules()
    ensures rules { (read : Decoding) (s : SessionParts) (calls : List ACall) → KeepsRules read s calls }
    ensures promises { (read : Decoding) (s : SessionParts) (calls : List ACall) → IsSound s → AreRead read calls →
        IsSound (after_calls read s calls) }
{}
