// What a host knows of its poll.

ghost use Rattle.std.specs.Prelude.{◌≡◌, is_some};
ghost use Rattle.mscp_host.specs.Common.{answered as answered_by, is_about_polled as about_polled};
ghost use Rattle.mscp_host.specs.PortAccounts.{is_poll_of, is_to_poll};

use crate::host::Host;
use crate::watch::{answered, is_about_polled};
use mscp_packet::End;

impl Host {
    /// What an end tells of the polled command.
    pub(crate) fn answer_in(&self, end: &End) -> Option<(u32, u32)>
        ensures { result ≡ answered_by self.now.watch end.now }
    {
        answered(&self.watch, end)
    }

    /// Whether an answer, if it is one, is about the polled command.
    pub(crate) fn is_asked(&self, answer: &Option<(u32, u32)>) -> bool
        ensures { result ≡ about_polled self.now.watch answer.now }
    {
        is_about_polled(&self.watch, answer)
    }

    /// Whether the poll in flight has this reference number.
    pub(crate) fn is_poll_of(&self, reference: u32) -> bool
        ensures { result ≡ is_poll_of self.now.watch reference }
    {
        match self.watch {
            Some(watch) => watch.reference == reference,
            None => false,
        }
    }

    /// Whether a poll is in flight.
    pub(crate) fn is_polled(&self) -> bool
        ensures { result ≡ is_some self.now.watch }
    {
        self.watch.is_some()
    }

    /// Whether a poll is to be sent: none is in flight, and there is a command that it is about.
    pub(crate) fn is_to_poll(&self) -> bool
        ensures { result ≡ is_to_poll self.now }
    {
        self.watch.is_none() && self.oldest().is_some()
    }
}
