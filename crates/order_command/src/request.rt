//! What `dispatch order` is asked to write.
ghost use Rattle.std.specs.Prelude.{◌≡◌, ◌≤◌, IfOk, option_map};
ghost use Rattle.fix_tags.specs.CompId.{comp_id_of};
ghost use Rattle.dialect.specs.JoinedSymbol.{joined_symbol_of};
ghost use Rattle.order_command.specs.Request.{given, number_up_to, side_named, full_stamp, moment_of, request_of};

use crate::fault::CommandFault;
use crate::form::OrderForm;
use crate::header::Header;
use crate::option::OrderOption;
use crate::options::Options;
use clock::Clock;
use dialect::read_symbol;
use fix_tags::{CompId, MAX_MESSAGE_NUMBER, Stamp, read_number, read_stamp};
use leg::{Leg, LegId, MAX_PLACE, MAX_PRICE, MAX_SHARES, MAX_SWEEP, Side, Symbol, Terms};

/// The length of a written time stamp.
const STAMP_LEN: usize = 21;

/// A leg, the header of its order, and how the order is printed.
#[derive(Debug, Drop)]
pub struct Request {
    pub leg: Leg,
    pub header: Header,
    pub form: OrderForm,
}

fn number_of(text: &str, option: OrderOption, most: u64) -> Result<u64, CommandFault>
    ensures value { result ≡ given option (number_up_to most text.now) }
    ensures range { IfOk result (λ number. (1 ≤ number) × (number ≤ most)) }
{
    match read_number(text.as_bytes()) {
        Some(number) if 1 <= number && number <= most => Ok(number),
        _ => Err(CommandFault::BadValue(option)),
    }
}

fn side_of(text: &str) -> Result<Side, CommandFault>
    ensures { result ≡ given OrderOption.Side (side_named text.now) }
{
    match text {
        "buy" => Ok(Side::Buy),
        "sell" => Ok(Side::Sell),
        _ => Err(CommandFault::BadValue(OrderOption::Side)),
    }
}

fn symbol_of(text: &str) -> Result<Symbol, CommandFault>
    ensures { result ≡ given OrderOption.Symbol (joined_symbol_of 46 text.now) }
{
    read_symbol(text.as_bytes()).ok_or(CommandFault::BadValue(OrderOption::Symbol))
}

fn comp_id_of(text: &str, option: OrderOption) -> Result<CompId, CommandFault>
    ensures { result ≡ given option (comp_id_of text.now) }
{
    CompId::new(text.as_bytes()).ok_or(CommandFault::BadValue(option))
}

fn stamp_of(text: &str) -> Result<Stamp, CommandFault>
    ensures { result ≡ given OrderOption.At (full_stamp text.now) }
{
    if text.len() != STAMP_LEN {
        return Err(CommandFault::BadValue(OrderOption::At));
    }
    read_stamp(text.as_bytes()).ok_or(CommandFault::BadValue(OrderOption::At))
}

/// The stamp of this text, or where there is none the clock's moment.
fn moment_of<C: Clock>(text: Option<&str>, clock: &mut C) -> Result<Stamp, CommandFault>
    ensures { result ≡ given OrderOption.At (moment_of (C.last clock.new) (option_map (λ s. s.now) text.entry)) }
{
    match text {
        Some(text) => stamp_of(text),
        None => Ok(clock.now()),
    }
}

impl Request {
    /// The request that these options make, at the clock's moment where they name none. A value that isn't of its form or
    /// within its limits is a bad value, and the first in the order of the options is named.
    #[tactic(auto, unfolding(crate::specs::Request::request_of))]
    pub fn new<C: Clock>(options: &Options<'_>, clock: &mut C) -> Result<Request, CommandFault>
        ensures { result ≡ request_of (C.last clock.new) options.now }
    {
        let sweep = number_of(options.sweep, OrderOption::Sweep, MAX_SWEEP)?;
        let place = number_of(options.leg, OrderOption::Leg, u64::from(MAX_PLACE))?;
        let symbol = symbol_of(options.symbol)?;
        let side = side_of(options.side)?;
        let shares = number_of(options.shares, OrderOption::Shares, MAX_SHARES)?;
        let price = number_of(options.price, OrderOption::Price, MAX_PRICE)?;
        let number = number_of(options.number, OrderOption::Number, MAX_MESSAGE_NUMBER)?;
        let from = comp_id_of(options.from, OrderOption::From)?;
        let to = comp_id_of(options.to, OrderOption::To)?;
        let at = moment_of(options.at, clock)?;
        let terms = Terms::new(symbol, side, shares, price).unwrap();
        let id = LegId::new(sweep, place as u8);
        Ok(Request {
            leg: Leg { id, terms },
            header: Header::new(from, to, number, at),
            form: options.form,
        })
    }
}
