//! What was decided is written as frames, and put in place.

ghost use Rattle.std.specs.Prelude.{◌≡◌, ◌<◌, false, length, Ok, IfOk, IsOkUnless, OnErr, map};
ghost use Rattle.dialect.specs.Addressed.{message_of};
ghost use Rattle.dialect.specs.declared.content.Content.TheVariants as content;
ghost use Rattle.dialect.specs.declared.content.Content.TheVariants.{Order};
ghost use Rattle.fix_tags.specs.declared.session_body.SessionBody.TheVariants.{Logon};
ghost use Rattle.dialect.specs.Framed.{IsFramed, AreFramed};
ghost use Rattle.dialect.specs.Outgoing.{alone};
ghost use Rattle.dialect.specs.Writable.{IsWritable};
ghost use Rattle.session_core.specs.Calling.{answers};
ghost use Rattle.session_core.specs.Sound.{IsSound, AreWritable};
ghost use Rattle.session_core.specs.Decision.{message_in, withdrawn_by, decided};
ghost use Rattle.session_core.specs.CallResult.{IsStep, Gives, TakesMemory};

use crate::decision::{Decision, Settling};
use crate::fence::fence_id_text;
use crate::line::{Line, Says};
use crate::session::Session;
use crate::session_fault::SessionFault;
use crate::step::{Frames, LegIds, Step};
use dialect::{Content, Dialect, Message, Outgoing, write_message};
use fix_tags::{Config, SessionBody, Stamp, TextRef};
use leg::Leg;
use std::alloc::Global;

/// The frame of a message from this end to its peer.
fn frame<'a, D: Dialect>(
    alloc: Global,
    dialect: &D,
    stamp: &Stamp,
    config: &'a Config,
    number: u64,
    poss_dup: bool,
    content: Content<'a>,
) -> Result<Vec<u8>, SessionFault>
    requires { IsWritable (alone (message_of config.now number poss_dup content)) }
    ensures ok { IfOk result (λ bytes. IsFramed (D.wording dialect.now).encoding stamp.now
        (alone (message_of config.now number poss_dup content.entry)) bytes.items) }
    ensures refusal { IsOkUnless result SessionFault.OutOfMemory }
{
    let message = Message::to_peer(config, number, poss_dup, content);
    let outgoing = Outgoing::alone(message);
    Ok(write_message(alloc, dialect, stamp, &outgoing)?)
}

/// The frame of a Logon, which says the number that is expected next (789), if it is to.
pub(crate) fn logon_frame<D: Dialect>(
    alloc: Global,
    dialect: &D,
    stamp: &Stamp,
    config: &Config,
    number: u64,
    next: Option<u64>,
) -> Result<Vec<u8>, SessionFault>
    requires { IsWritable (alone (message_of config.now number false
        (content.Session (Logon config.now.heart false next)))) }
    ensures ok { IfOk result (λ bytes. IsFramed (D.wording dialect.now).encoding stamp.now
        (alone (message_of config.now number false
        (content.Session (Logon config.now.heart false next)))) bytes.items) }
    ensures refusal { IsOkUnless result SessionFault.OutOfMemory }
{
    let content = Content::Session(SessionBody::Logon {
        heart: config.heart(),
        reset: false,
        next,
    });
    frame(alloc, dialect, stamp, config, number, false, content)
}

/// The frame of the order for a leg.
pub(crate) fn order_frame<D: Dialect>(
    alloc: Global,
    dialect: &D,
    stamp: &Stamp,
    config: &Config,
    number: u64,
    leg: &Leg,
) -> Result<Vec<u8>, SessionFault>
    requires { IsWritable (alone (message_of config.now number false (Order (Ok leg.now)))) }
    ensures ok { IfOk result (λ bytes. IsFramed (D.wording dialect.now).encoding stamp.now
        (alone (message_of config.now number false (Order (Ok leg.now)))) bytes.items) }
    ensures refusal { IsOkUnless result SessionFault.OutOfMemory }
{
    let content = Content::Order(Ok(leg.clone().unwrap()));
    frame(alloc, dialect, stamp, config, number, false, content)
}

/// The frame of a message of the session's own.
fn line_frame<D: Dialect>(
    alloc: Global,
    dialect: &D,
    stamp: &Stamp,
    config: &Config,
    line: &Line<'_>,
) -> Result<Vec<u8>, SessionFault>
    requires { IsWritable (alone (message_in config.now line.now)) }
    ensures ok { IfOk result (λ bytes. IsFramed (D.wording dialect.now).encoding stamp.now
        (alone (message_in config.now line.now)) bytes.items) }
    ensures refusal { IsOkUnless result SessionFault.OutOfMemory }
{
    let number = line.number;
    let poss_dup = line.poss_dup;
    match &line.says {
        Says::Fence => {
            let text = fence_id_text(number);
            let id = TextRef::new(text.as_slice());
            let content = Content::Session(SessionBody::TestRequest { id });
            frame(alloc, dialect, stamp, config, number, poss_dup, content)
        }
        Says::Body(says) => {
            let content = Content::Session(says.clone().unwrap());
            frame(alloc, dialect, stamp, config, number, poss_dup, content)
        }
    }
}

/// The frames of messages of the session's own, in order.
fn frames<D: Dialect>(
    alloc: Global,
    dialect: &D,
    stamp: &Stamp,
    config: &Config,
    lines: &[Line<'_>],
) -> Result<Vec<Vec<u8>>, SessionFault>
    requires { AreWritable (map (message_in config.now) lines.now) }
    ensures ok { IfOk result (λ frames. AreFramed (D.wording dialect.now).encoding stamp.now
        (map alone (map (message_in config.now) lines.now)) (map (λ frame. frame.items) frames.items)) }
    ensures refusal { IsOkUnless result SessionFault.OutOfMemory }
    ensures some { OnErr result (0 < length lines.now) }
{
    let mut frames = Vec::with_capacity(alloc, lines.len())?;
    for line in lines {
        let frame = line_frame(alloc, dialect, stamp, config, line)?;
        frames.push(frame)?;
    }
    Ok(frames)
}

impl Session {
    /// The legs that are withdrawn where legs in doubt are settled.
    fn withdrawn(&self, settling: Settling) -> Result<LegIds, SessionFault>
        ensures ok { IfOk result (λ ids. ids ≡ withdrawn_by settling self.now.log) }
        ensures refusal { IsOkUnless result SessionFault.OutOfMemory }
        ensures some { OnErr result (0 < length (withdrawn_by settling self.now.log)) }
    {
        match settling {
            Settling::Nothing => Ok(LegIds::new(Vec::new(self.alloc()))),
            Settling::Passed(_) => Ok(LegIds::new(Vec::new(self.alloc()))),
            Settling::At(number) => self.legs_from(number),
        }
    }

    /// What was decided is written and put in place. All that takes memory comes first: the frames, the ids of legs
    /// that are withdrawn, and a place for each fence.
    pub(crate) fn carry_out<D: Dialect>(
        &mut self,
        dialect: &D,
        stamp: &Stamp,
        decision: Decision<'_>,
    ) -> Result<Step, SessionFault>
        requires sound { IsSound self.old → IsSound (decided self.old decision).session }
        requires writable { IsSound self.old → AreWritable (decided self.old decision).step.written }
        ensures gives { Gives (IsStep (D.wording dialect.now).encoding stamp.now) self.old
            (answers (decided self.old decision.entry)) result self.new }
        ensures memory { OnErr result (TakesMemory (decided self.old decision.entry).step) }
    {
        let out = frames(
            self.alloc(),
            dialect,
            stamp,
            self.config(),
            decision.lines.as_slice(),
        )?;
        let withdrawn = self.withdrawn(decision.settling)?;
        self.commit(&decision)?;
        Ok(Step {
            out: Frames::new(out),
            note: decision.note,
            withdrawn,
            ended: decision.ended,
        })
    }
}
