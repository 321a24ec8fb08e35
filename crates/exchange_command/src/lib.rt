//! `dispatch exchange`: a simulated exchange as a program of its own, on a port of this machine.
//!
//! Promises:
//! - `exchange_run` ends with the status of what it did (`ExitsSo`): its words were refused and nothing is printed;
//!   or the exchange is the one that its options ask for, or the first bad value in their order is named
//!   (`plan_of`). Then it prints the line of its port, and at its end that of a count, and nothing else. It fails
//!   only for want of a port, a client, memory or the output (`EndsPlan`).
//! - Not said: what is read and written on a connection, that the count is that of the orders which came, and that
//!   it ends.
#![tactic(auto)]

ghost use Rattle.std.specs.Prelude.{◌≡◌, IfErr};
ghost use Rattle.exchange_command.specs.declared.fault.CommandFault.TheVariants.{NoSocket};
ghost use Rattle.exchange_command.specs.ExchangePlan.{plan_of};
ghost use Rattle.exchange_command.specs.Running.{EndsPlan, EndsRun, EndsServed, EndsServing, ExitsSo, IsOfServing};

mod exchange_plan;
mod fault;
mod option;
mod options;
mod server;
mod text;

use crate::server::serve;
use crate::text::{accepted_text, listening_text};
use clock::UtcClock;
use command_line::{finish, print};
pub use exchange_plan::{ExchangePlan, plan_of};
use exchange_sim::Acceptor;
pub use fault::CommandFault;
pub use option::ExchangeOption;
pub use options::{Options, exchange_command, read_options};
use std::alloc::Global;
use std::convert::AsStr;
use std::io::{Read, Write};
use std::net::{Net, OpenListener, OpenStream, SocketAddr, TcpListener};
use std::time::Clock;

/// Runs `dispatch exchange` on its words, of which the first is the command's own name.
///
/// It says on which port it listens, serves one client after another until one leaves after a Logout, and says then how
/// many orders it accepted. Faults go to `err`. The answer is the exit status: 0, or that of the fault.
pub fn exchange_run<S: AsStr, R: Net + Clock, W: Write, E: Write>(
    rt: &R,
    alloc: Global,
    words: &[S],
    out: &mut W,
    err: &mut E,
) -> u8
    ensures { ExitsSo (W.contents out.old) (W.contents out.new) result }
{
    finish(exchange(rt, alloc, words, out), err)
}

fn exchange<S: AsStr, R: Net + Clock, W: Write>(
    rt: &R,
    alloc: Global,
    words: &[S],
    out: &mut W,
) -> Result<(), CommandFault>
    ensures { EndsRun (W.contents out.old) (W.contents out.new) result }
{
    let options = read_options(alloc, words)?;
    serve_options(rt, alloc, &options, out)
}

/// Serves as these options ask for.
fn serve_options<R: Net + Clock, W: Write>(
    rt: &R,
    alloc: Global,
    options: &Options<'_>,
    out: &mut W,
) -> Result<(), CommandFault>
    ensures { EndsServing (W.contents out.old) (W.contents out.new) (plan_of options.now) result }
{
    serve_plan(rt, alloc, plan_of(options)?, out)
}

/// Serves as it is planned.
fn serve_plan<R: Net + Clock, W: Write>(
    rt: &R,
    alloc: Global,
    plan: ExchangePlan,
    out: &mut W,
) -> Result<(), CommandFault>
    ensures { EndsPlan (W.contents out.old) (W.contents out.new) plan result }
{
    let listener = listen(rt, plan.port)?;
    print(&listening_text(alloc, plan.port)?, out)?;
    serve_clients(rt, alloc, plan, &listener, out)
}

/// Serves the clients of a port as it is planned, and says how many orders were accepted.
fn serve_clients<R, L, W>(
    rt: &R,
    alloc: Global,
    plan: ExchangePlan,
    listener: &L,
    out: &mut W,
) -> Result<(), CommandFault>
where
    R: Clock,
    L: OpenListener,
    L::Stream: Read + Write + OpenStream,
    W: Write,
    ensures { EndsServed (W.contents out.old) (W.contents out.new) result }
{
    let accepted = count_accepted(rt, alloc, plan, listener)?;
    Ok(print(&accepted_text(alloc, accepted)?, out)?)
}

/// A listener at the port of this number of the loopback address.
fn listen<R: Net>(rt: &R, port: u16) -> Result<R::Listener, CommandFault>
    ensures { IfErr result (λ fault. fault ≡ NoSocket) }
{
    match TcpListener::bind(rt, SocketAddr::from(([127, 0, 0, 1], port))) {
        Ok(listener) => Ok(listener),
        Err(_) => Err(CommandFault::NoSocket),
    }
}

/// Serves the clients of a port as it is planned, and gives the number of orders that were accepted.
fn count_accepted<R, L>(
    rt: &R,
    alloc: Global,
    plan: ExchangePlan,
    listener: &L,
) -> Result<usize, CommandFault>
where
    R: Clock,
    L: OpenListener,
    L::Stream: Read + Write + OpenStream,
    ensures { IfErr result IsOfServing }
{
    let clock = UtcClock::new(rt);
    let mut acceptor = Acceptor::new(alloc, plan.dialect, clock, plan.config, plan.dealing);
    serve(listener, &mut acceptor)?;
    Ok(acceptor.exchange().accepted().len())
}
