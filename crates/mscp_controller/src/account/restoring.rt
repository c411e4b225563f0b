// The accounts of the connections' hosts as they were.

ghost use Rattle.std.specs.Prelude.{◌≡◌, ◌≤◌, length};
ghost use Rattle.mscp_controller.specs.Common.{First, Second, account, waiting_on};

use crate::account::{Account, Accounts};
use mscp_drive::Connection;
use mscp_packet::End;
use mscp_queue::Record;

/// How many of the records are of commands of the connection.
fn count_on(connection: Connection, records: &[Record]) -> u32
    requires { length records.now ≤ 64 }
    ensures { result ≡ length (waiting_on connection records.now) }
{
    let mut count = 0;
    for place in 0..records.len() {
        if records[place].connection() == connection {
            count += 1;
        }
    }
    count
}

impl Account {
    /// So many commands of the host wait from now on, and these ends weren't taken.
    fn restore(&mut self, waiting: u32, ends: &[End])
        requires { length ends.now ≤ 64 }
        ensures { self.new ≡ record { waiting = waiting; untaken = record { items = ends.now } } }
    {
        self.waiting = waiting;
        self.untaken.clear();
        let _ = self.untaken.try_extend_from_slice(ends);
    }
}

impl Accounts {
    /// These commands wait from now on, and these ends of each connection weren't taken. What was there before is
    /// forgotten.
    #[inline(never)]
    pub(crate) fn restore(&mut self, waiting: &[Record], first: &[End], second: &[End])
        requires waiting { length waiting.now ≤ 64 }
        requires first { length first.now ≤ 64 }
        requires second { length second.now ≤ 64 }
        ensures { self.new ≡ record {
          first = record { waiting = length (waiting_on First waiting.now); untaken = record { items = first.now } };
          second = record { waiting = length (waiting_on Second waiting.now); untaken = record { items = second.now } };
        } }
    {
        self.first
            .restore(count_on(Connection::First, waiting), first);
        self.second
            .restore(count_on(Connection::Second, waiting), second);
    }

    /// The ends of the connection that weren't taken, oldest first.
    pub(crate) fn ends(&self, connection: Connection) -> &[End]
        ensures value { result.now ≡ (account connection self.now).untaken.items }
        ensures few { length result.now ≤ 64 }
    {
        self.of(connection).untaken.as_slice()
    }
}
