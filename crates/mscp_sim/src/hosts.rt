// The hosts of both connections.

ghost use Rattle.std.specs.Prelude.{◌≡◌, ◌≤◌, length};
ghost use Rattle.mscp_sim.specs.Common.{of, put, fresh, heard, polls_oldest, submits};

use arrayvec::ArrayVec;
use mscp_controller::{Config, Connection};
use mscp_host::{Host, HostFault, News, Poll};
use mscp_packet::Command;
use std::marker::Model;

/// The hosts of both connections. Where there is no second connection, there is no second host.
#[derive(Drop)]
pub(crate) struct Hosts {
    first: Host,
    second: Option<Host>,
}

// A clause sees both accounts. A host that isn't there has no credits, and nothing outstanding.
impl Model for Hosts {
    ghost use Rattle.mscp_sim.specs.Common.{unwrap_or, Both, Account, fresh};

    ghost Value = { Both Account };

    ghost view = { λ h. record { first = h.first; second = unwrap_or h.second (fresh 0) } };
}

impl Hosts {
    /// Hosts that sent nothing so far, with the credits of their connections.
    pub(crate) fn new(config: &Config) -> Hosts
        ensures { result ≡ record { first = fresh config.now.credits; second = fresh config.now.second } }
    {
        let Ok(first) = Host::new(config.credits()) else {
            unreachable!();
        };
        // A host takes 2 credits or more: so there is none where the connection has none.
        let second = Host::new(config.second()).ok();
        Hosts { first, second }
    }

    /// The message of a command that the connection's host submits, or why it may not be sent.
    pub(crate) fn submit(
        &mut self,
        connection: Connection,
        command: &Command,
    ) -> Result<ArrayVec<u8, 48>, HostFault>
        ensures answer { result ≡ (submits (of connection self.old) command.now).0 }
        ensures after { self.new ≡ put connection (submits (of connection self.old) command.now).1 self.old }
    {
        match connection {
            Connection::First => self.first.submit(command),
            Connection::Second => match &mut self.second {
                Some(host) => host.submit(command),
                None => Err(HostFault::NoCredit),
            },
        }
    }

    /// What there is to do for the connection's host to poll its oldest command under this reference number.
    pub(crate) fn poll(&mut self, connection: Connection, reference: u32) -> Result<Poll, HostFault>
        ensures answer { result ≡ (polls_oldest (of connection self.old) reference).0 }
        ensures after { self.new ≡ put connection (polls_oldest (of connection self.old) reference).1 self.old }
    {
        match connection {
            Connection::First => self.first.poll(reference),
            Connection::Second => match &mut self.second {
                Some(host) => host.poll(reference),
                None => Ok(Poll::Nothing),
            },
        }
    }

    /// What the connection's host says of an end that it received. The host has a command outstanding.
    pub(crate) fn receive(&mut self, connection: Connection, b: &[u8]) -> Result<News, HostFault>
        requires { 1 ≤ length (of connection self.old).outstanding }
        ensures answer { result ≡ (heard (of connection self.old) b.now).0 }
        ensures after { self.new ≡ put connection (heard (of connection self.old) b.now).1 self.old }
    {
        match connection {
            Connection::First => self.first.receive(b),
            Connection::Second => match &mut self.second {
                Some(host) => host.receive(b),
                None => unreachable!(),
            },
        }
    }
}
