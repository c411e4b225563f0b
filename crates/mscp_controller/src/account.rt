// The accounts of the connections' hosts: how many commands of each wait, and which of its ends it didn't take.

ghost use Rattle.std.specs.Prelude.{◌≡◌, ◌+◌, ◌<◌, ◌≤◌, length, nat_eq, slice_get};
ghost use Rattle.mscp_controller.specs.Common.{list_any, account, come, ended, left, put_account, taken};
ghost use Rattle.mscp_controller.specs.Accounts.{fresh};

mod restoring;

use arrayvec::ArrayVec;
use mscp_drive::Connection;
use mscp_packet::End;

/// What is kept for the host of one connection.
#[derive(Drop)]
pub(crate) struct Account {
    // How many of its commands wait.
    waiting: u32,
    // Its ends that weren't taken, oldest first.
    untaken: ArrayVec<End, 64>,
}

impl Account {
    /// An account to which nothing came so far.
    fn new() -> Account
        ensures { result ≡ fresh }
    {
        Account {
            waiting: 0,
            untaken: ArrayVec::new(),
        }
    }

    /// Forgets all that came to it.
    fn clear(&mut self)
        ensures { self.new ≡ fresh }
    {
        self.waiting = 0;
        self.untaken.clear();
    }

    /// One more command waits.
    fn come(&mut self)
        requires { self.old.waiting < 64 }
        ensures { self.new ≡ come self.old }
    {
        self.waiting += 1;
    }

    /// An end was made.
    fn end(&mut self, end: End)
        requires { length self.old.untaken.items < 64 }
        ensures { self.new ≡ ended end self.old }
    {
        self.untaken.push(end);
    }

    /// A command that waited has ended.
    fn leave(&mut self, end: End)
        requires some { 1 ≤ self.old.waiting }
        requires room { length self.old.untaken.items < 64 }
        ensures { self.new ≡ left end self.old }
    {
        self.waiting -= 1;
        self.untaken.push(end);
    }

    /// Gives the oldest end that wasn't taken, if there is one.
    fn take(&mut self) -> Option<End>
        ensures end { result ≡ slice_get self.old.untaken.items 0 }
        ensures after { self.new ≡ taken self.old }
    {
        if self.untaken.is_empty() {
            return None;
        }
        Some(self.untaken.remove(0))
    }
}

/// The accounts of both connections' hosts.
#[derive(Drop)]
pub(crate) struct Accounts {
    first: Account,
    second: Account,
}

impl Accounts {
    /// Accounts to which nothing came so far.
    pub(crate) fn new() -> Accounts
        ensures { result ≡ record { first = fresh; second = fresh } }
    {
        Accounts {
            first: Account::new(),
            second: Account::new(),
        }
    }

    /// Forgets all that came to them.
    pub(crate) fn clear(&mut self)
        ensures { self.new ≡ record { first = fresh; second = fresh } }
    {
        self.first.clear();
        self.second.clear();
    }

    /// The account of a connection.
    fn of(&self, connection: Connection) -> &Account
        ensures { result.now ≡ account connection self.now }
    {
        match connection {
            Connection::First => &self.first,
            Connection::Second => &self.second,
        }
    }

    /// How many commands of the connection wait.
    pub(crate) fn waiting(&self, connection: Connection) -> u32
        ensures { result ≡ (account connection self.now).waiting }
    {
        self.of(connection).waiting
    }

    /// How many ends of the connection weren't taken.
    pub(crate) fn untaken(&self, connection: Connection) -> u32
        ensures { result ≡ length (account connection self.now).untaken.items }
    {
        self.of(connection).untaken.len() as u32
    }

    /// How many credits of the connection its commands and ends hold.
    pub(crate) fn held(&self, connection: Connection) -> u32
        requires { (account connection self.now).waiting + length (account connection self.now).untaken.items ≤ 64 }
        ensures { result
            ≡ (account connection self.now).waiting + length (account connection self.now).untaken.items }
    {
        self.waiting(connection) + self.untaken(connection)
    }

    /// Whether an end of the connection that wasn't taken has the reference number.
    pub(crate) fn is_untaken(&self, connection: Connection, reference: u32) -> bool
        ensures { result
            ≡ list_any (λ e. nat_eq e.reference reference) (account connection self.now).untaken.items }
    {
        let untaken = self.of(connection).untaken.as_slice();
        untaken.iter().any(|end| end.reference == reference)
    }

    /// One more command of the connection waits.
    pub(crate) fn come(&mut self, connection: Connection)
        requires { (account connection self.old).waiting < 64 }
        ensures { self.new ≡ put_account connection (come (account connection self.old)) self.old }
    {
        match connection {
            Connection::First => self.first.come(),
            Connection::Second => self.second.come(),
        }
    }

    /// An end was made for the connection.
    pub(crate) fn end(&mut self, connection: Connection, end: End)
        requires { length (account connection self.old).untaken.items < 64 }
        ensures { self.new ≡ put_account connection (ended end (account connection self.old)) self.old }
    {
        match connection {
            Connection::First => self.first.end(end),
            Connection::Second => self.second.end(end),
        }
    }

    /// A command of the connection that waited has ended.
    pub(crate) fn leave(&mut self, connection: Connection, end: End)
        requires some { 1 ≤ (account connection self.old).waiting }
        requires room { length (account connection self.old).untaken.items < 64 }
        ensures { self.new ≡ put_account connection (left end (account connection self.old)) self.old }
    {
        match connection {
            Connection::First => self.first.leave(end),
            Connection::Second => self.second.leave(end),
        }
    }

    /// Gives the oldest end of the connection that wasn't taken, if there is one.
    pub(crate) fn take(&mut self, connection: Connection) -> Option<End>
        ensures end { result ≡ slice_get (account connection self.old).untaken.items 0 }
        ensures after { self.new ≡ put_account connection (taken (account connection self.old)) self.old }
    {
        match connection {
            Connection::First => self.first.take(),
            Connection::Second => self.second.take(),
        }
    }
}
