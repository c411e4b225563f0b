// The cookies of the waiting commands and of the ends that weren't taken.

ghost use Rattle.std.specs.Prelude.{◌≡◌, ◌<◌, Some, drop, length, slice_index_or};
ghost use Rattle.mscp_tracked.specs.Common.{CanCome, CanLeave, CanReport, no_cookies, cookie_in, ended, left, of, reported, sent, taken, waited};

use arrayvec::ArrayVec;
use mscp_controller::{Connection, Report, Sent};
use std::marker::Model;

/// Cookies, beside the lists of a controller.
#[derive(Drop)]
pub(crate) struct CookieLists {
    waiting: ArrayVec<u64, 64>,
    first: ArrayVec<u64, 64>,
    second: ArrayVec<u64, 64>,
}

// A clause sees the cookies of the waiting commands in order of arrival, and those of each connection's ends that
// weren't taken, oldest first.
impl Model for CookieLists {
    ghost use Rattle.mscp_tracked.specs.Cookies.{Cookies};

    ghost Value = { Cookies };

    ghost view = { λ l.
        record {
          waiting = l.waiting.items;
          untaken = record { first = l.first.items; second = l.second.items };
        } };
}

impl CookieLists {
    /// No cookies.
    pub(crate) fn new() -> CookieLists
        ensures { result ≡ no_cookies }
    {
        CookieLists {
            waiting: ArrayVec::new(),
            first: ArrayVec::new(),
            second: ArrayVec::new(),
        }
    }

    /// These cookies.
    pub(crate) fn of(
        waiting: ArrayVec<u64, 64>,
        first: ArrayVec<u64, 64>,
        second: ArrayVec<u64, 64>,
    ) -> CookieLists
        ensures { result ≡ record {
          waiting = waiting.items;
          untaken = record { first = first.items; second = second.items };
        } }
    {
        CookieLists {
            waiting,
            first,
            second,
        }
    }

    /// Forgets all.
    pub(crate) fn clear(&mut self)
        ensures { self.new ≡ no_cookies }
    {
        self.waiting.clear();
        self.first.clear();
        self.second.clear();
    }

    /// Those of the waiting commands, in order of arrival.
    pub(crate) fn waiting(&self) -> &[u64]
        ensures { result.now ≡ self.now.waiting }
    {
        self.waiting.as_slice()
    }

    /// Those of the connection's ends, oldest first.
    pub(crate) fn untaken(&self, connection: Connection) -> &[u64]
        ensures { result.now ≡ of connection self.now.untaken }
    {
        match connection {
            Connection::First => self.first.as_slice(),
            Connection::Second => self.second.as_slice(),
        }
    }

    /// That of the waiting command at the place, 0 where none is meant.
    pub(crate) fn at(&self, place: Option<usize>) -> u64
        ensures { result ≡ cookie_in self.now.waiting place }
    {
        match place {
            Some(place) => cookie_at(self.waiting.as_slice(), place),
            None => 0,
        }
    }

    /// That of the oldest end of the connection, 0 where there is none.
    pub(crate) fn oldest(&self, connection: Connection) -> u64
        ensures { result ≡ slice_index_or (of connection self.now.untaken) 0 0 }
    {
        cookie_at(self.untaken(connection), 0)
    }

    /// An end was made for the connection.
    fn end(&mut self, connection: Connection, cookie: u64)
        requires { length (of connection self.old.untaken) < 64 }
        ensures { self.new ≡ ended connection cookie self.old }
    {
        match connection {
            Connection::First => self.first.push(cookie),
            Connection::Second => self.second.push(cookie),
        }
    }

    /// The connection's command at the place has ended.
    fn leave(&mut self, connection: Connection, place: usize)
        requires place { place < length self.old.waiting }
        requires room { length (of connection self.old.untaken) < 64 }
        ensures { self.new ≡ left connection (Some place) self.old }
    {
        let cookie = self.waiting.remove(place);
        self.end(connection, cookie);
    }

    /// A message of the connection with this cookie became this: the command that it aborted, if it did, was at the
    /// place.
    pub(crate) fn send(
        &mut self,
        connection: Connection,
        became: Sent,
        place: Option<usize>,
        cookie: u64,
    )
        requires { CanCome connection became place self.old }
        ensures { self.new ≡ sent connection became place cookie self.old }
    {
        match became {
            Sent::Queued(_) => self.waiting.push(cookie),
            Sent::Answered { .. } => self.answer(connection, place, cookie),
        }
    }

    /// An end with this cookie was made for the connection, behind that of the command at the place, if one is meant.
    fn answer(&mut self, connection: Connection, place: Option<usize>, cookie: u64)
        requires { CanLeave connection place self.old }
        ensures { self.new ≡ ended connection cookie (left connection place self.old) }
    {
        if let Some(place) = place {
            self.leave(connection, place);
        }
        self.end(connection, cookie);
    }

    /// A step of the command at the place was reported.
    pub(crate) fn report(&mut self, place: usize, report: &Report)
        requires { CanReport (Some place) report.now self.old }
        ensures { self.new ≡ reported (Some place) report.now self.old }
    {
        if let Report::Served {
            connection,
            ended: Some(_),
            ..
        } = report
        {
            self.leave(*connection, place);
        }
    }

    /// The oldest end of the connection was taken, if there was one.
    pub(crate) fn take(&mut self, connection: Connection)
        ensures { self.new ≡ taken connection self.old }
    {
        match connection {
            Connection::First => take_first(&mut self.first),
            Connection::Second => take_first(&mut self.second),
        }
    }
}

/// The cookie at the place, 0 past the end.
fn cookie_at(cookies: &[u64], place: usize) -> u64
    ensures { result ≡ slice_index_or cookies.now place 0 }
{
    if place < cookies.len() {
        cookies[place]
    } else {
        0
    }
}

/// Takes the first out, if there is one.
fn take_first(cookies: &mut ArrayVec<u64, 64>)
    ensures { cookies.new.items ≡ drop 1 cookies.old.items }
{
    if !cookies.is_empty() {
        cookies.remove(0);
    }
}
