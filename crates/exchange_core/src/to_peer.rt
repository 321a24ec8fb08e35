//! Messages from an exchange to its peer.

ghost use Rattle.std.specs.Prelude.{◌≡◌};
ghost use Rattle.dialect.specs.Addressed.{message_of};
ghost use Rattle.dialect.specs.Outgoing.{alone};
ghost use Rattle.exchange_core.specs.SentRecord.{execution_report};

use dialect::{Content, Message, OrderView, Outgoing, Report};
use fix_tags::Config;

/// A message to the peer under a number, marked where the peer may have seen it before, with nothing beside it.
pub(crate) fn to_peer<'a>(
    config: &'a Config,
    number: u64,
    poss_dup: bool,
    content: Content<'a>,
) -> Outgoing<'a>
    ensures { result ≡ alone (message_of config.entry.now number poss_dup content.entry) }
{
    Outgoing::alone(Message::to_peer(config, number, poss_dup, content))
}

/// A report, and beside it the order as it was then. Neither of the copies takes memory.
pub(crate) fn report_to_peer<'a>(
    config: &'a Config,
    number: u64,
    poss_dup: bool,
    report: &Report,
    view: &OrderView,
) -> Outgoing<'a>
    ensures { result ≡ execution_report config.entry.now number poss_dup report.now view.now }
{
    let content = Content::ExecutionReport(Ok(report.clone().unwrap()));
    Outgoing {
        message: Message::to_peer(config, number, poss_dup, content),
        beside: Some(view.clone().unwrap()),
    }
}
