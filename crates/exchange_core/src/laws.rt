//! What follows from the definitions: each law is the contract of a function that does nothing.

ghost use Rattle.std.specs.Prelude.{◌≡◌, ◌+◌, ◌++◌, ◌≤◌, ℕ, false, List, [], Option, None, Some, All, IfOk};
ghost use Rattle.dialect.specs.declared.content.Content.{Content};
ghost use Rattle.dialect.specs.declared.message.Message.{Message};
ghost use Rattle.dialect.specs.Message.{is_logon};
ghost use Rattle.fix_tags.specs.Config.{ConfigParts, IsConfig};
ghost use Rattle.leg.specs.Growing.{Grew};
ghost use Rattle.leg.specs.declared.leg.Leg.{Leg};
ghost use Rattle.dialect.specs.FreeText.{IsFreeText};
ghost use Rattle.dialect.specs.Writable.{IsWritable};
ghost use Rattle.exchange_core.specs.Acceptance.{Carried, RuleState, rule_opening, May, IsForward, LiveIsLast};
ghost use Rattle.exchange_core.specs.Acts as acts;
ghost use Rattle.exchange_core.specs.Exchange.{ExchangeParts, new_exchange, take, drop_connection};
ghost use Rattle.exchange_core.specs.Keeping.{rule_state, into, IsLastLive, OwnNumbersFit, IsAnswer, IsAct, IsExpectable, IsInRange, AreCounted};
ghost use Rattle.exchange_core.specs.Order.{OrderParts, view_of};
ghost use Rattle.exchange_core.specs.Shares.{SharesAddUp, OrdersAddUp};
ghost use Rattle.exchange_core.specs.Sound.{IsRead, IsSound};
ghost use Rattle.exchange_core.specs.Told.{OrdersAreTold};

/// A new exchange stands as the rules begin.
pub fn a_new_exchange_is_open()
    ensures stands { (config : ConfigParts) → rule_state (new_exchange config) ≡ rule_opening }
    ensures sound { (config : ConfigParts) → IsLastLive (new_exchange config) }
    ensures numbered { (config : ConfigParts) → IsConfig config → OwnNumbersFit (new_exchange config) }
    ensures adds_up { (config : ConfigParts) → OrdersAddUp (new_exchange config) }
{}

/// Whatever message comes in whatever connection, what the exchange does with it is a step that the rules allow.
pub fn whatever_comes_keeps_the_rules()
    ensures { (x : ExchangeParts) (connection : ℕ) (m : Message) → IsLastLive x →
        IsAnswer x connection m (take x connection m) }
{}

/// What the exchange does by itself is a step that the rules allow. It changes nothing of what was taken, and uses a
/// number only where one is left.
pub fn acts_keep_the_rules()
    ensures trade { (x : ExchangeParts) (place shares : ℕ) (px : List ℕ) → IsLastLive x →
        IsAct x (acts.trade x place shares px) }
    ensures cancel_rest { (x : ExchangeParts) (place : ℕ) → IsLastLive x →
        IsAct x (acts.cancel_rest x place) }
    ensures reject { (x : ExchangeParts) (place : ℕ) → IsLastLive x →
        IsAct x (acts.reject x place) }
    ensures bust { (x : ExchangeParts) (place which : ℕ) → IsLastLive x →
        IsAct x (acts.bust x place which) }
    ensures test { (x : ExchangeParts) → IsLastLive x → IsAct x (acts.test x) }
    ensures drop_connection { (x : ExchangeParts) →
        May (rule_state x) None (rule_state (drop_connection x)) [] }
    ensures dropped { (x : ExchangeParts) → IsLastLive (drop_connection x) }
{}

/// In whatever keeps the rules the expected number and the last connection don't fall, accepted legs stay accepted,
/// and what own numbers carry stays; and the live connection is always the last one.
pub fn the_rules_go_forward()
    ensures taken { (s t : RuleState) (coming : Option Carried) (written : List Carried) →
        May s coming t written → IsForward s.intake t.intake }
    ensures live { (s t : RuleState) (coming : Option Carried) (written : List Carried) →
        May s coming t written → LiveIsLast s.intake → LiveIsLast t.intake }
    ensures own { (s t : RuleState) (coming : Option Carried) (written : List Carried) →
        May s coming t written → Grew s.own t.own }
{}

/// The expected number stays one that a message may name.
pub fn expected_numbers_are_in_range()
    ensures { (x : ExchangeParts) (connection : ℕ) (m : Message) → IsInRange m → IsExpectable x →
        IsExpectable (take x connection m).1 }
{}

/// The reports made have the ExecIDs `E1`, `E2` and so on, in the order of their numbers.
pub fn reports_are_counted()
    ensures take { (x : ExchangeParts) (connection : ℕ) (m : Message) → AreCounted 0 x.own →
        AreCounted 0 (take x connection m).1.own }
    ensures trade { (x : ExchangeParts) (place shares : ℕ) (px : List ℕ) → AreCounted 0 x.own →
        AreCounted 0 (acts.trade x place shares px).1.own }
    ensures cancel_rest { (x : ExchangeParts) (place : ℕ) → AreCounted 0 x.own →
        AreCounted 0 (acts.cancel_rest x place).1.own }
    ensures reject { (x : ExchangeParts) (place : ℕ) → AreCounted 0 x.own →
        AreCounted 0 (acts.reject x place).1.own }
    ensures bust { (x : ExchangeParts) (place which : ℕ) → AreCounted 0 x.own →
        AreCounted 0 (acts.bust x place which).1.own }
    ensures test { (x : ExchangeParts) → AreCounted 0 x.own →
        AreCounted 0 (acts.test x).1.own }
{}

/// The filled, busted, cancelled and open shares of each order are those of its leg, whatever comes and is done.
pub fn orders_add_up()
    ensures take { (x : ExchangeParts) (connection : ℕ) (m : Message) → OrdersAddUp x →
        OrdersAddUp (take x connection m).1 }
    ensures trade { (x : ExchangeParts) (place shares : ℕ) (px : List ℕ) → OrdersAddUp x →
        OrdersAddUp (acts.trade x place shares px).1 }
    ensures cancel_rest { (x : ExchangeParts) (place : ℕ) → OrdersAddUp x →
        OrdersAddUp (acts.cancel_rest x place).1 }
    ensures reject { (x : ExchangeParts) (place : ℕ) → OrdersAddUp x →
        OrdersAddUp (acts.reject x place).1 }
    ensures bust { (x : ExchangeParts) (place which : ℕ) → OrdersAddUp x →
        OrdersAddUp (acts.bust x place which).1 }
    ensures test { (x : ExchangeParts) → OrdersAddUp x → OrdersAddUp (acts.test x).1 }
{}

/// What a report says is filled and open is together at most what the order is for.
pub fn views_are_within()
    ensures { (order : OrderParts) (place : ℕ) → SharesAddUp order →
        (view_of place order).cum + (view_of place order).leaves ≤ order.leg.terms.shares }
{}

/// While no connection is live only a Logon does anything: so after a Logout nothing is accepted before another Logon.
pub fn a_close_holds()
    ensures { (x : ExchangeParts) (connection : ℕ) (m : Message) → x.live ≡ None →
        is_logon m.content ≡ false → take x connection m ≡ ([], x) }
{}

/// An exchange keeps its promises of itself over every call: a new one does, and so does one after whatever comes in
/// the ranges that are read, and after whatever it does by itself.
pub fn an_exchange_stays_sound()
    ensures new { (config : ConfigParts) → IsConfig config → IsSound (new_exchange config) }
    ensures take { (x : ExchangeParts) (connection : ℕ) (m : Message) → IsSound x → IsRead m →
        IsSound (take x connection m).1 }
    ensures trade { (x : ExchangeParts) (place shares : ℕ) (px : List ℕ) → IsSound x → IsFreeText 20 px →
        IsSound (acts.trade x place shares px).1 }
    ensures cancel_rest { (x : ExchangeParts) (place : ℕ) → IsSound x → IsSound (acts.cancel_rest x place).1 }
    ensures reject { (x : ExchangeParts) (place : ℕ) → IsSound x → IsSound (acts.reject x place).1 }
    ensures bust { (x : ExchangeParts) (place which : ℕ) → IsSound x → IsSound (acts.bust x place which).1 }
    ensures test { (x : ExchangeParts) → IsSound x → IsSound (acts.test x).1 }
    ensures drop_connection { (x : ExchangeParts) → IsSound x → IsSound (drop_connection x) }
{}

/// Whatever a sound exchange writes can be written: it is never refused.
pub fn whatever_is_written_can_be()
    ensures take { (x : ExchangeParts) (connection : ℕ) (m : Message) → IsSound x → IsRead m →
        All IsWritable (take x connection m).0 }
    ensures trade { (x : ExchangeParts) (place shares : ℕ) (px : List ℕ) → IsSound x → IsFreeText 20 px →
        IfOk (acts.trade x place shares px).0 (All IsWritable) }
    ensures cancel_rest { (x : ExchangeParts) (place : ℕ) → IsSound x →
        IfOk (acts.cancel_rest x place).0 (All IsWritable) }
    ensures reject { (x : ExchangeParts) (place : ℕ) → IsSound x → IfOk (acts.reject x place).0 (All IsWritable) }
    ensures bust { (x : ExchangeParts) (place which : ℕ) → IsSound x →
        IfOk (acts.bust x place which).0 (All IsWritable) }
    ensures test { (x : ExchangeParts) → IsSound x → IfOk (acts.test x).0 (All IsWritable) }
{}

/// The reports on an order are well-formed, whatever comes and is done: New is the first, with all of the leg open.
/// Then come trades of open shares, each with its CumQty and LeavesQty, until nothing is open or the rest is cancelled
/// or rejected; and after a cancel of the rest busts alone, by which less is filled and nothing is open.
pub fn reports_follow_one_another()
    ensures new { (config : ConfigParts) → OrdersAreTold (new_exchange config) }
    ensures take { (x : ExchangeParts) (connection : ℕ) (m : Message) → IsSound x → OrdersAreTold x →
        OrdersAreTold (take x connection m).1 }
    ensures trade { (x : ExchangeParts) (place shares : ℕ) (px : List ℕ) → IsSound x → OrdersAreTold x →
        OrdersAreTold (acts.trade x place shares px).1 }
    ensures cancel_rest { (x : ExchangeParts) (place : ℕ) → IsSound x → OrdersAreTold x →
        OrdersAreTold (acts.cancel_rest x place).1 }
    ensures reject { (x : ExchangeParts) (place : ℕ) → IsSound x → OrdersAreTold x →
        OrdersAreTold (acts.reject x place).1 }
    ensures bust { (x : ExchangeParts) (place which : ℕ) → IsSound x → OrdersAreTold x →
        OrdersAreTold (acts.bust x place which).1 }
    ensures test { (x : ExchangeParts) → IsSound x → OrdersAreTold x → OrdersAreTold (acts.test x).1 }
    ensures drop_connection { (x : ExchangeParts) → OrdersAreTold x → OrdersAreTold (drop_connection x) }
{}
