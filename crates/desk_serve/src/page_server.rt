//! What serves a page: one thread lets clients in, some answer them, each many, and one tells those who follow the day.

use crate::day_view::DayView;
use crate::entrance::Entrance;
use crate::feed::Feed;
use crate::gate::Gate;
use crate::hall::Hall;
use crate::page::Page;
use desk_config::{Address, DeskConfig};
use desk_floor::Floor;
use desk_http::User;
use exec_collector::Accounts;
use kept_link::Telling;
use readiness::Wakeup;
use release_lock::Run;
use std::alloc::Global;
use std::fs::File;
use std::io::{self, Write};
use std::net::{Net, SocketAddr, TcpListener, TcpStream};
use std::sync::{Arc, Wait};
use std::thread;
use std::time::{Clock, Duration};

/// For how many milliseconds nobody is let in where the system lets nobody in, as for lack of descriptors.
const PAUSE_MILLIS: u64 = 20;

/// What a server does.
#[derive(Drop)]
enum Part {
    /// It lets clients in.
    LetsIn,
    /// It answers those that it is dealt, as the server of this number.
    Answers(usize, Hall),
    /// It tells those who follow the day.
    Tells,
}

/// One of the servers of a page.
#[derive(Drop)]
pub struct PageServer {
    page: Arc<Page, Global>,
    part: Part,
}

/// Opens the page at an address, which this one of a configuration stands for, and under its names: a server that lets
/// clients in, one for each of its callers that answers them, and one that tells those who follow the day. Its token is
/// asked for; where there are users, that of one who may. What the process uses is read from its file, if there is one.
/// Refused where the address can't be had, or memory or descriptors are wanted.
pub fn open_page<R: Net<Listener = TcpListener, Stream = TcpStream> + Clock>(
    rt: &R,
    alloc: Global,
    at: SocketAddr,
    address: &Address,
    config: &DeskConfig,
    users: Vec<User>,
    process: Option<File>,
) -> io::Result<Vec<PageServer>> {
    let listener = TcpListener::bind(rt, at)?;
    listener.set_nonblocking(true)?;
    let entrance = Entrance::new(rt, alloc, listener)?;
    let (gates, halls) = open_halls(rt, alloc, config.callers.get())?;
    let page = Page::new(
        rt, alloc, &at, address, config, users, entrance, gates, process,
    )?;
    let page = Arc::new(alloc, page)?;
    let mut servers = Vec::new(alloc);
    servers.push(PageServer {
        page: page.clone()?,
        part: Part::LetsIn,
    })?;
    let mut place = 0;
    for hall in halls {
        servers.push(PageServer {
            page: page.clone()?,
            part: Part::Answers(place, hall),
        })?;
        place = place.saturating_add(1);
    }
    servers.push(PageServer {
        page,
        part: Part::Tells,
    })?;
    Ok(servers)
}

/// The halls of so many servers, and their gates.
fn open_halls(net: &impl Net, alloc: Global, callers: u64) -> io::Result<(Vec<Gate>, Vec<Hall>)> {
    let (mut gates, mut halls) = (Vec::new(alloc), Vec::new(alloc));
    for _ in 0..callers {
        let (hall, gate) = Hall::new(net, alloc, callers as usize)?;
        gates.push(gate)?;
        halls.push(hall)?;
    }
    Ok((gates, halls))
}

impl PageServer {
    /// What has the servers of its page look whether the day is over.
    pub fn wakeup(&self) -> io::Result<Arc<Wakeup, Global>> {
        self.page.entrance.wakeup()
    }

    /// Serves the page until the day is over, and gives the clients that followed it to its end.
    pub fn serve<L: Run, M: Accounts, W: Write + Drop, J: Telling, R: Wait + Clock>(
        self,
        rt: &R,
        alloc: Global,
        floor: &Floor<L, M, W, J>,
    ) -> Vec<TcpStream> {
        let PageServer { page, part } = self;
        match part {
            Part::LetsIn => let_in(rt, floor, &page),
            Part::Answers(place, hall) => answer(rt, alloc, floor, &page, place, hall),
            Part::Tells => return Feed::new(rt, alloc, floor, &page).run(),
        }
        Vec::new(alloc)
    }
}

/// Lets clients in until the day is over, and has the other servers look then.
fn let_in<L: Run, M: Accounts, W: Write + Drop, J: Telling, R: Wait + Clock>(
    rt: &R,
    floor: &Floor<L, M, W, J>,
    page: &Page,
) {
    for _ in rt.forever() {
        if floor.signals.is_over() {
            break;
        }
        match page.entrance.next_client(rt, &floor.signals.is_over) {
            Ok(client) => {
                page.keep_up(rt, &floor.collector, client.is_none());
                if let Some(client) = client {
                    page.deal(rt, client);
                }
            }
            Err(_) => thread::sleep(rt, Duration::from_millis(PAUSE_MILLIS)),
        }
    }
    page.ring_all();
}

/// Answers the clients that are dealt to the server of a number, until the day is over. Where there is no memory for a
/// view of the day they wait.
fn answer<L: Run, M: Accounts, W: Write + Drop, J: Telling, R: Wait + Clock>(
    rt: &R,
    alloc: Global,
    floor: &Floor<L, M, W, J>,
    page: &Page,
    place: usize,
    hall: Hall,
) {
    let mut hall = hall;
    for _ in rt.forever() {
        if floor.signals.is_over() {
            break;
        }
        hall.wait();
        let Ok(now) = rt.monotonic() else {
            continue;
        };
        if let Some(gate) = page.gates.get(place) {
            for client in gate.dealt(rt, alloc) {
                // One that can't be seated is let go.
                let _ = hall.seat(page, client, now);
            }
        }
        let Ok(mut day) = DayView::new(rt, alloc, floor, page) else {
            continue;
        };
        if hall.go_on(rt, &mut day, page, now) {
            floor.bells.news().tell();
        }
        hall.look(rt, page, now);
    }
}
